//! What is kept of a pair of literals.

ghost use Rattle.std.specs.Prelude.{◌≡◌, IfOk};
ghost use Rattle.std.specs.List.{fold};
ghost use Rattle.dl_names.specs.Atoms.{pair_hash};

use dl_base::Memory;
use dl_lit::Name;
use indexmap::Equivalent;
use std::hash::{Hash, Hasher};
use std::mem::size_of;

/// A pair of a literal and its complement, by the atom, the number of the mode, which is 0 where there is none, and the sign of the
/// literal that came first.
#[derive(Drop)]
pub(crate) struct Atom {
    pub name: Name,
    pub mode: u32,
    pub positive: bool,
}

const _: () = prove!(size_of::<Atom>() == 24);

impl Atom {
    /// An equal pair with a name of its own.
    pub fn copy(&self) -> Result<Atom, Memory>
        ensures { IfOk result (λ copy. copy ≡ self.now) }
    {
        let name = self.name.copy()?;
        Ok(Atom {
            name,
            mode: self.mode,
            positive: self.positive,
        })
    }
}

impl PartialEq for Atom {
    ghost use Rattle.std.specs.Cmp.{partial_equiv_from_equiv};
    ghost use Rattle.dl_names.specs.Atoms.{atom_eq, atom_equiv};

    ghost eq = { atom_eq };

    ghost laws = { partial_equiv_from_equiv atom_equiv };

    fn eq(&self, other: &Atom) -> bool {
        self.mode == other.mode && self.name == other.name
    }
}

impl Eq for Atom {
    ghost use Rattle.dl_names.specs.Atoms.{atom_equiv};

    ghost laws = { atom_equiv };
}

impl Hash for Atom {
    ghost use Rattle.dl_names.specs.Atoms.{pair_hash, pair_hashes};

    ghost hash_input = { λ a. pair_hash a.mode a.name };

    ghost respects_eq = { λ a b. pair_hashes a.mode b.mode a.name b.name };

    fn hash<H: Hasher>(&self, state: &mut H) {
        hash_pair(self.mode, &self.name, state);
    }
}

/// Gives a hasher the number of a mode, where there is one, and an atom. The atom comes last, so that a hasher can tell atoms that come
/// in runs.
#[inline(always)]
fn hash_pair<H: Hasher>(mode: u32, name: &Name, state: &mut H)
    ensures { state.new ≡ fold H.write state.old (pair_hash mode name.now) }
{
    if mode != 0 {
        mode.hash(state);
    }
    name.hash(state);
}

/// A mode and an atom that are sought. The atom is borrowed, so that none is copied to be sought.
#[derive(Clone, Copy)]
pub(crate) struct Sought<'a> {
    pub mode: u32,
    pub name: &'a Name,
}

impl PartialEq for Sought<'_> {
    ghost use Rattle.std.specs.Cmp.{partial_equiv_from_equiv};
    ghost use Rattle.dl_names.specs.Atoms.{sought_eq, sought_equiv};

    ghost eq = { sought_eq };

    ghost laws = { partial_equiv_from_equiv sought_equiv };

    fn eq(&self, other: &Self) -> bool {
        self.mode == other.mode && self.name == other.name
    }
}

impl Eq for Sought<'_> {
    ghost use Rattle.dl_names.specs.Atoms.{sought_equiv};

    ghost laws = { sought_equiv };
}

impl Hash for Sought<'_> {
    ghost use Rattle.dl_names.specs.Atoms.{pair_hash, pair_hashes};

    ghost hash_input = { λ q. pair_hash q.mode q.name.now };

    ghost respects_eq = { λ q r. pair_hashes q.mode r.mode q.name.now r.name.now };

    fn hash<H: Hasher>(&self, state: &mut H) {
        hash_pair(self.mode, self.name, state);
    }
}

impl Equivalent<Atom> for Sought<'_> {
    ghost use Rattle.dl_names.specs.Atoms.{stands_for, stands_for_congr, pair_hashes};

    ghost equivalent = { stands_for };

    ghost respects_hash = { λ q a. pair_hashes q.mode a.mode q.name.now a.name };

    ghost respects_eq = { stands_for_congr };

    fn equivalent(&self, key: &Atom) -> bool {
        self.mode == key.mode && *self.name == key.name
    }
}
