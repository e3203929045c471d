//! Pairs of literals that are kept by the atom and the number of the mode.

ghost use Rattle.std.specs.Prelude.{◌≡◌, ◌<◌, ◌≤◌, ◌+◌, ◌-◌, ◌/◌, ◌%◌, ◌==◌, ◌^◌, ◌++◌, ◌∷◌, ◌⊎◌, [], IfNone, IfOk, IfSome, OnOk, OnErr, ℕ, List, Some, false, true, length, position, slice_get};
ghost use Rattle.std.specs.List.{list_any};
ghost use Rattle.std.specs.Option.{option_copied, option_map};
ghost use Rattle.std.specs.Str.{bytes_eq};
ghost use Rattle.dl_base.specs.Paths.{IsDistinct};
ghost use Rattle.dl_lit.specs.declared.literal.Literal.{Literal};
ghost use Rattle.dl_lit.specs.Borrowed.{literal_of};
ghost use Rattle.dl_names.specs.Atoms.{mode_at};
ghost use Rattle.dl_names.specs.Pairs.{same_atom};
ghost use Rattle.dl_names.specs.Stems.{Knows};

use crate::atom::{Atom, Sought};
use crate::stems::Stems;
use dl_base::Memory;
use dl_lit::{Literal, LiteralRef, Name, NameSet, name_set};
use std::alloc::Global;
use std::marker::Model;

/// As many modes as surely have numbers of 32 bits.
const MODE_LIMIT: usize = 0x8000_0000;

/// As many pairs as can be noted by numbers of 32 bits.
const NOTED_LIMIT: usize = 0x7fff_ffff;

/// A set of pairs of a literal and its complement, which are found by their mode and atom. A pair stands for the literal that came first.
///
/// Of a pair the atom, the sign of the first literal and the number of the mode are kept: a fourth of what two literals take, so that a
/// look-up seldom waits for memory.
pub struct AtomPairs {
    /// The modes, by number less one.
    modes: NameSet<Name>,
    atoms: NameSet<Atom>,
    /// Where pairs without a mode stand whose atoms end in a number: twice the place, and one more where the first is negative.
    stems: Stems,
}

impl Drop for AtomPairs {
    fn drop(self) {
        let AtomPairs {
            modes: _,
            atoms: _,
            stems: _,
        } = self;
    }
}

impl Model for AtomPairs {
    ghost use Rattle.std.specs.Prelude.{List};
    ghost use Rattle.dl_lit.specs.declared.literal.Literal.{Literal};

    ghost Value = { List Literal };

    ghost use Rattle.dl_names.specs.KeptAtoms.{firsts_of, IsKeptAtoms};

    ghost view = { firsts_of };

    ghost invariant = { IsKeptAtoms };
}

impl AtomPairs {
    /// No pairs.
    pub fn make(alloc: Global) -> AtomPairs
        ensures { result ≡ [] }
    {
        AtomPairs {
            modes: name_set(alloc),
            atoms: name_set(alloc),
            stems: Stems::make(alloc),
        }
    }

    /// Room for so many pairs more. `Memory` where there is none for it.
    pub fn reserve(&mut self, more: usize) -> Result<(), Memory>
        ensures { self.new ≡ self.old }
    {
        self.atoms.reserve(more)?;
        Ok(())
    }

    /// Where the pairs have their memory from.
    pub(crate) fn alloc(&self) -> Global {
        *self.atoms.allocator()
    }

    /// How many pairs there are.
    #[inline(always)]
    pub fn len(&self) -> usize
        ensures { result ≡ length self.now }
    {
        self.atoms.len()
    }

    /// The first literal of the pair at a place; `None` exactly past the last.
    #[inline(always)]
    pub fn first(&self, place: usize) -> Option<LiteralRef<'_>>
        ensures { option_map literal_of result ≡ slice_get self.now place }
    {
        match self.atoms.get_index(place) {
            None => None,
            Some(atom) => Some(LiteralRef {
                mode: mode_of(&self.modes, atom.mode),
                atom: &atom.name,
                positive: atom.positive,
            }),
        }
    }

    /// The place of the pair with the mode and the atom of a literal, and the sign of its first literal; `None` exactly where there is none.
    #[inline(always)]
    pub fn find(&self, literal: &Literal) -> Option<(usize, bool)>
        ensures place { IfSome result (λ found. Some found.0 ≡ position (same_atom literal.now) self.now) }
        ensures sign { IfSome result (λ found. (q : Literal) × (slice_get self.now found.0 ≡ Some q) × (found.1 ≡ q.positive)) }
        ensures absent { IfNone result (list_any (same_atom literal.now) self.now ≡ false) }
    {
        if literal.mode.is_none() {
            if let Some(number) = self.stems.get(literal.atom.bytes()) {
                return Some((number as usize / 2, number % 2 == 0));
            }
        }
        match find_mode(&self.modes, &literal.mode) {
            None => None,
            Some(mode) => match self.atoms.get_full(Sought {
                mode,
                name: &literal.atom,
            }) {
                None => None,
                Some((place, atom)) => Some((place, atom.positive)),
            },
        }
    }

    /// Puts a literal in as the first of a new pair, and gives its place; `None` where there is a pair with its mode and its atom. One that is
    /// likely sought again may be noted, so that it is found faster: no clause tells of it. `Memory` leaves the pairs as they were.
    #[inline(always)]
    pub fn put(&mut self, literal: &Literal, likely_sought: bool) -> Result<Option<usize>, Memory>
        ensures new { IfOk result (λ put. IfSome put (λ place. list_any (same_atom literal.now) self.old ≡ false)) }
        ensures place { IfOk result (λ put. IfSome put (λ place. place ≡ length self.old)) }
        ensures added { IfOk result (λ put. IfSome put (λ place. self.new ≡ self.old ++ literal.now ∷ [])) }
        ensures old { IfOk result (λ put. IfNone put (list_any (same_atom literal.now) self.old ≡ true)) }
        ensures there { IfOk result (λ put. IfNone put (self.new ≡ self.old)) }
        ensures kept { OnErr result (self.new ≡ self.old) }
    {
        let mode = number_mode(&mut self.modes, &literal.mode)?;
        let name = literal.atom.copy()?;
        let (place, new) = self.atoms.insert_full(Atom {
            name,
            mode,
            positive: literal.positive,
        })?;
        if !new {
            return Ok(None);
        }
        let alloc = *self.atoms.allocator();
        note(&mut self.stems, alloc, literal, mode, place, likely_sought);
        Ok(Some(place))
    }

    /// The same pairs once more. `Memory` where there is none for them. Nothing is noted of them: each is found in the table.
    pub fn copy(&self) -> Result<AtomPairs, Memory>
        ensures { IfOk result (λ copy. copy ≡ self.now) }
    {
        let modes = copied_modes(&self.modes)?;
        let atoms = copied_atoms(&self.atoms)?;
        Ok(AtomPairs {
            modes,
            atoms,
            stems: Stems::make(self.alloc()),
        })
    }
}

/// The same modes at the same numbers once more.
fn copied_modes(modes: &NameSet<Name>) -> Result<NameSet<Name>, Memory>
    ensures { IfOk result (λ set. set.keys ≡ modes.now.keys) }
{
    let mut set = name_set(*modes.allocator());
    set.reserve(modes.len())?;
    let all = modes.as_slice();
    for mode in all {
        set.insert(mode.copy()?)?;
    }
    Ok(set)
}

/// The same atoms at the same places once more.
fn copied_atoms(atoms: &NameSet<Atom>) -> Result<NameSet<Atom>, Memory>
    ensures { IfOk result (λ set. set.keys ≡ atoms.now.keys) }
{
    let mut set = name_set(*atoms.allocator());
    set.reserve(atoms.len())?;
    let all = atoms.as_slice();
    for atom in all {
        set.insert(atom.copy()?)?;
    }
    Ok(set)
}

/// Notes where the pair of a literal stands that has no mode, where it is likely sought, its atom ends in a number and there is room.
#[inline(always)]
fn note(
    stems: &mut Stems,
    alloc: Global,
    literal: &Literal,
    mode: u32,
    place: usize,
    likely_sought: bool,
)
    ensures { (a : List ℕ) (n : ℕ) → Knows stems.new a n → ((a ≡ literal.now.atom) × (mode ≡ 0) × (n / 2 ≡ place) × ((n % 2 == 0) ≡ literal.now.positive)) ⊎ Knows stems.old a n }
{
    if likely_sought && mode == 0 && place < NOTED_LIMIT {
        let number = noted(place, literal.positive);
        stems.put(alloc, literal.atom.bytes(), number);
    }
}

/// What is noted of a pair at a place.
#[inline(always)]
fn noted(place: usize, positive: bool) -> u32
    requires { place < 2 ^ 31 - 1 }
    ensures place { result / 2 ≡ place }
    ensures sign { (result % 2 == 0) ≡ positive }
    ensures low { result < 2 ^ 32 - 1 }
{
    2 * place as u32 + !positive as u32
}

/// The mode with a number: none for 0.
#[inline(always)]
fn mode_of(modes: &NameSet<Name>, number: u32) -> Option<&Name>
    ensures { option_copied result ≡ mode_at modes.now.keys number }
{
    if number == 0 {
        return None;
    }
    modes.get_index(number as usize - 1)
}

/// The number of a mode; `None` exactly where it has none.
#[inline(always)]
fn find_mode(modes: &NameSet<Name>, mode: &Option<Name>) -> Option<u32>
    requires { length modes.now.keys ≤ 2 ^ 31 }
    ensures number { IfSome result (λ n. mode_at modes.now.keys n ≡ mode.now) }
    ensures within { IfSome result (λ n. n ≤ length modes.now.keys) }
    ensures absent { IfNone result ((n : ℕ) → ¬ (mode_at modes.now.keys n ≡ mode.now)) }
{
    match mode {
        None => Some(0),
        Some(name) => match modes.get_index_of(name) {
            None => None,
            Some(place) => Some(place as u32 + 1),
        },
    }
}

/// The number of a mode, which gets one if it has none.
#[inline(always)]
fn number_mode(modes: &mut NameSet<Name>, mode: &Option<Name>) -> Result<u32, Memory>
    requires distinct { IsDistinct modes.old.keys }
    requires few { length modes.old.keys ≤ 2 ^ 31 }
    ensures number { IfOk result (λ n. mode_at modes.new.keys n ≡ mode.now) }
    ensures within { IfOk result (λ n. n ≤ length modes.new.keys) }
    ensures grown { (more : List (List ℕ)) × (modes.new.keys ≡ modes.old.keys ++ more) }
    ensures distinct { IsDistinct modes.new.keys }
    ensures few { length modes.new.keys ≤ 2 ^ 31 }
{
    match mode {
        None => Ok(0),
        Some(name) => match modes.get_index_of(name) {
            Some(place) => Ok(place as u32 + 1),
            None => add_mode(modes, name),
        },
    }
}

/// The number that a new mode gets.
fn add_mode(modes: &mut NameSet<Name>, name: &Name) -> Result<u32, Memory>
    requires distinct { IsDistinct modes.old.keys }
    requires few { length modes.old.keys ≤ 2 ^ 31 }
    requires absent { list_any (bytes_eq name.now) modes.old.keys ≡ false }
    ensures number { IfOk result (λ n. n ≡ length modes.old.keys + 1) }
    ensures added { OnOk result (modes.new.keys ≡ modes.old.keys ++ name.now ∷ []) }
    ensures kept { OnErr result (modes.new.keys ≡ modes.old.keys) }
    ensures distinct { IsDistinct modes.new.keys }
    ensures few { length modes.new.keys ≤ 2 ^ 31 }
{
    let len = modes.len();
    if len >= MODE_LIMIT {
        return Err(Memory);
    }
    modes.insert(name.copy()?)?;
    Ok(len as u32 + 1)
}
