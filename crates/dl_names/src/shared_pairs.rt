//! Pairs of literals in two parts, of which copies share the first.

ghost use Rattle.std.specs.Prelude.{◌≡◌, ◌<◌, ◌≤◌, ◌+◌, ◌^◌, ◌++◌, ◌∷◌, [], IfNone, IfOk, IfSome, OnErr, Some, false, length, position, slice_get};
ghost use Rattle.std.specs.List.{list_any};
ghost use Rattle.std.specs.Option.{option_map};
ghost use Rattle.dl_base.specs.Paths.{IsDistinct};
ghost use Rattle.dl_lit.specs.declared.literal.Literal.{Literal};
ghost use Rattle.dl_lit.specs.Borrowed.{literal_of};
ghost use Rattle.dl_names.specs.KeptPairs.{front};
ghost use Rattle.dl_names.specs.Pairs.{pairs_of, same_atom};

use crate::atom_pairs::AtomPairs;
use dl_base::Memory;
use dl_lit::{Literal, LiteralRef};
use std::alloc::Global;
use std::marker::Model;
use std::mem;
use std::sync::Arc;

/// As many pairs as have numbers of 32 bits for their literals.
const PAIR_LIMIT: usize = 0x8000_0000;

/// A set of pairs in two parts: those that do not change any more, which copies share, and those that came later. Places go through both:
/// the shared ones come first. A set that was not made by a copy has only the later part, and is as fast as that part.
pub(crate) struct SharedPairs {
    shared: Option<Arc<AtomPairs>>,
    later: AtomPairs,
}

impl Drop for SharedPairs {
    fn drop(self) {
        let SharedPairs {
            shared: _,
            later: _,
        } = self;
    }
}

impl Model for SharedPairs {
    ghost use Rattle.std.specs.Prelude.{List};
    ghost use Rattle.dl_lit.specs.declared.literal.Literal.{Literal};

    ghost Value = { List Literal };

    ghost use Rattle.dl_names.specs.KeptPairs.{pairs_in, IsKeptPairs};

    ghost view = { pairs_in };

    ghost invariant = { IsKeptPairs };
}

impl SharedPairs {
    /// No pairs.
    pub fn make(alloc: Global) -> SharedPairs
        ensures { result ≡ [] }
    {
        SharedPairs {
            shared: None,
            later: AtomPairs::make(alloc),
        }
    }

    /// Room for so many pairs more. `Memory` where there is none for it.
    pub fn reserve(&mut self, more: usize) -> Result<(), Memory>
        ensures { self.new ≡ self.old }
    {
        self.later.reserve(more)
    }

    /// How many pairs there are.
    #[inline(always)]
    pub fn len(&self) -> usize
        ensures len { result ≡ length self.now }
        ensures few { result ≤ 2 ^ 31 }
    {
        match &self.shared {
            None => self.later.len(),
            Some(shared) => shared.len() + self.later.len(),
        }
    }

    /// The first literal of the pair at a place; `None` exactly past the last.
    #[inline(always)]
    pub fn first(&self, place: usize) -> Option<LiteralRef<'_>>
        ensures { option_map literal_of result ≡ slice_get self.now place }
    {
        match &self.shared {
            None => self.later.first(place),
            Some(shared) => first_of_both(shared, &self.later, place),
        }
    }

    /// The place of the pair with the mode and the atom of a literal, and the sign of its first literal; `None` exactly where there is none.
    #[inline(always)]
    pub fn find(&self, literal: &Literal) -> Option<(usize, bool)>
        ensures place { IfSome result (λ found. Some found.0 ≡ position (same_atom literal.now) self.now) }
        ensures sign { IfSome result (λ found. (q : Literal) × (slice_get self.now found.0 ≡ Some q) × (found.1 ≡ q.positive)) }
        ensures absent { IfNone result (list_any (same_atom literal.now) self.now ≡ false) }
        ensures small { IfSome result (λ found. found.0 < 2 ^ 31) }
    {
        match &self.shared {
            None => self.later.find(literal),
            Some(shared) => find_in_both(shared, &self.later, literal),
        }
    }

    /// Puts a literal in as the first of a new pair, and gives its place, as `AtomPairs` does; `None` where there is a pair with its mode and
    /// its atom, or where no more can be numbered. `Memory` leaves the pairs as they were.
    #[inline(always)]
    pub fn put(&mut self, literal: &Literal, likely_sought: bool) -> Result<Option<usize>, Memory>
        ensures new { IfOk result (λ put. IfSome put (λ place. list_any (same_atom literal.now) self.old ≡ false)) }
        ensures place { IfOk result (λ put. IfSome put (λ place. place ≡ length self.old)) }
        ensures small { IfOk result (λ put. IfSome put (λ place. place < 2 ^ 31)) }
        ensures added { IfOk result (λ put. IfSome put (λ place. self.new ≡ self.old ++ literal.now ∷ [])) }
        ensures there { IfOk result (λ put. IfNone put (self.new ≡ self.old)) }
        ensures kept { OnErr result (self.new ≡ self.old) }
    {
        // one way for both: where it is put in from one place alone, a pair is put in by what is inlined there
        let before = front_len(&self.shared);
        if before + self.later.len() >= PAIR_LIMIT || is_in_front(&self.shared, literal) {
            return Ok(None);
        }
        match self.later.put(literal, likely_sought)? {
            None => Ok(None),
            Some(place) => Ok(Some(before + place)),
        }
    }

    /// From here on a copy shares the pairs that are there, all but a few: those that came later are joined to the shared ones where the square
    /// of their number is above the number of those. So a copy costs at most the root of the number of pairs, and as many pairs as that root
    /// come between two joins, each of which copies all. Where there is no memory the parts stay as they are. Pairs of which no copy was made
    /// yet have one part, and keep it.
    pub fn freeze(&mut self)
        requires { IsDistinct (pairs_of self.old) }
        ensures { self.new ≡ self.old }
    {
        if let Some(shared) = &self.shared {
            let later = self.later.len();
            if later * later > shared.len() {
                if let Ok(mut both) = joined(shared, &self.later) {
                    if let Some(shared) = share(&mut both) {
                        *self = SharedPairs {
                            shared: Some(shared),
                            later: both,
                        };
                    }
                }
            }
        }
    }

    /// The same pairs at the same places once more: the shared part by its count, the other by a copy. Where nothing is shared yet, the copy
    /// is the shared part of all that are copied from it. `Memory` where there is none for it, or where the count is full.
    pub fn copy(&self) -> Result<SharedPairs, Memory>
        ensures { IfOk result (λ copy. copy ≡ self.now) }
    {
        let mut later = self.later.copy()?;
        match &self.shared {
            None => {
                let shared = share(&mut later);
                Ok(SharedPairs { shared, later })
            }
            Some(shared) => {
                let shared = Some(Arc::try_clone(shared)?);
                Ok(SharedPairs { shared, later })
            }
        }
    }
}

/// How many pairs the shared part has.
#[inline(always)]
fn front_len(shared: &Option<Arc<AtomPairs>>) -> usize
    ensures { result ≡ length (front shared.now) }
{
    match shared {
        None => 0,
        Some(pairs) => pairs.len(),
    }
}

/// Whether the shared part has a pair with the mode and the atom of a literal.
#[inline(always)]
fn is_in_front(shared: &Option<Arc<AtomPairs>>, literal: &Literal) -> bool
    ensures { result ≡ false → list_any (same_atom literal.now) (front shared.now) ≡ false }
{
    match shared {
        None => false,
        Some(pairs) => has_pair(pairs, literal),
    }
}

/// Whether there is a pair with the mode and the atom of a literal.
#[inline(never)]
fn has_pair(pairs: &AtomPairs, literal: &Literal) -> bool
    ensures { result ≡ false → list_any (same_atom literal.now) pairs.now ≡ false }
{
    match pairs.find(literal) {
        None => false,
        Some(_) => true,
    }
}

/// The first literal of the pair at a place of a shared part and a later one.
#[inline(never)]
fn first_of_both<'a>(
    shared: &'a AtomPairs,
    later: &'a AtomPairs,
    place: usize,
) -> Option<LiteralRef<'a>>
    ensures { option_map literal_of result ≡ slice_get (shared.now ++ later.now) place }
{
    let before = shared.len();
    if place < before {
        shared.first(place)
    } else {
        later.first(place - before)
    }
}

/// The place of a pair in a shared part and a later one, and the sign of its first literal. It is sought in the shared part first.
#[inline(never)]
fn find_in_both(shared: &AtomPairs, later: &AtomPairs, literal: &Literal) -> Option<(usize, bool)>
    requires few { length (shared.now ++ later.now) ≤ 2 ^ 31 }
    ensures place { IfSome result (λ found. Some found.0 ≡ position (same_atom literal.now) (shared.now ++ later.now)) }
    ensures sign { IfSome result (λ found. (q : Literal) × (slice_get (shared.now ++ later.now) found.0 ≡ Some q) × (found.1 ≡ q.positive)) }
    ensures absent { IfNone result (list_any (same_atom literal.now) (shared.now ++ later.now) ≡ false) }
{
    if let Some(found) = shared.find(literal) {
        return Some(found);
    }
    match later.find(literal) {
        None => None,
        Some((place, positive)) => Some((shared.len() + place, positive)),
    }
}

/// The pairs as a shared part, in whose place none are left. Where there is no memory for their count they stay.
fn share(pairs: &mut AtomPairs) -> Option<Arc<AtomPairs>>
    ensures { front result ++ pairs.new ≡ pairs.old }
{
    let alloc = pairs.alloc();
    let all = mem::replace(pairs, AtomPairs::make(alloc));
    match Arc::new(alloc, all) {
        Ok(shared) => Some(shared),
        Err(failed) => {
            *pairs = failed.value;
            None
        }
    }
}

/// The pairs of a shared part and of a later one, as one part. `Memory` where there is none for it.
fn joined(shared: &AtomPairs, later: &AtomPairs) -> Result<AtomPairs, Memory>
    requires distinct { IsDistinct (pairs_of (shared.now ++ later.now)) }
    ensures { IfOk result (λ both. both ≡ shared.now ++ later.now) }
{
    let mut both = shared.copy()?;
    both.reserve(later.len())?;
    let mut place = 0;
    while let Some(first) = later.first(place) {
        both.put(&first.copy()?, false)?;
        place += 1;
    }
    Ok(both)
}
