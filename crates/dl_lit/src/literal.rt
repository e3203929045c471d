//! Literals and tagged literals.

ghost use Rattle.std.specs.Prelude.{◌≡◌, IfOk};
ghost use Rattle.std.specs.List.{fold};
ghost use Rattle.dl_lit.specs.Order.{atom_hash};

use crate::name::Name;
use dl_base::Memory;
use std::cmp::Ordering;
use std::hash::{Hash, Hasher};

/// An atom with an optional mode and a sign.
#[derive(Drop)]
pub struct Literal {
    pub mode: Option<Name>,
    pub atom: Name,
    pub positive: bool,
}

impl Literal {
    ghost use Rattle.dl_lit.specs.Literal.{complement};

    #[inline(always)]
    pub fn copy(&self) -> Result<Literal, Memory>
        ensures { IfOk result (λ copy. copy ≡ self.now) }
    {
        let mode = match &self.mode {
            Some(mode) => Some(mode.copy()?),
            None => None,
        };
        let atom = self.atom.copy()?;
        Ok(Literal {
            mode,
            atom,
            positive: self.positive,
        })
    }

    /// The same literal with the other sign.
    pub fn complement(self) -> Literal
        ensures { result ≡ complement self }
    {
        Literal {
            positive: !self.positive,
            ..self
        }
    }
}

impl PartialEq for Literal {
    ghost use Rattle.std.specs.Prelude.{◌≡◌, ◌↔◌, IsTrue};
    ghost use Rattle.std.specs.Cmp.{partial_equiv_from_equiv};
    ghost use Rattle.dl_lit.specs.Literal.{literal_eq, literal_equiv};

    ghost eq = { literal_eq };

    ghost laws = { partial_equiv_from_equiv literal_equiv };

    fn eq(&self, other: &Literal) -> bool
        ensures answer { result ≡ literal_eq self.now other.now }
        ensures same { IsTrue result ↔ (self.now ≡ other.now) }
    {
        self.mode == other.mode && self.atom == other.atom && self.positive == other.positive
    }
}

impl Eq for Literal {
    ghost use Rattle.dl_lit.specs.Literal.{literal_equiv};

    ghost laws = { literal_equiv };
}

impl Hash for Literal {
    ghost use Rattle.dl_lit.specs.Order.{literal_hash, literal_hashes};

    ghost hash_input = { literal_hash };

    ghost respects_eq = { literal_hashes };

    fn hash<H: Hasher>(&self, state: &mut H) {
        self.positive.hash(state);
        hash_atom(&self.mode, &self.atom, state);
    }
}

/// Gives a hasher a mode and an atom. The atom comes last, so that a hasher can tell atoms that come in runs.
pub fn hash_atom<H: Hasher>(mode: &Option<Name>, atom: &Name, state: &mut H)
    ensures { state.new ≡ fold H.write state.old (atom_hash mode.now atom.now) }
{
    match mode {
        None => atom.hash(state),
        Some(mode) => {
            mode.hash(state);
            state.write_u8(b']');
            atom.hash(state);
        }
    }
}

impl PartialOrd for Literal {
    ghost use Rattle.std.specs.Prelude.{Some, refl};
    ghost use Rattle.std.specs.Cmp.{partial_order_from_agreeing_total};
    ghost use Rattle.dl_lit.specs.Order.{literal_cmp, literal_total, literal_ties};

    ghost partial_cmp = { λ x y. Some (literal_cmp x y) };

    ghost laws = { partial_order_from_agreeing_total literal_cmp literal_total (λ x y. refl) literal_ties };

    fn partial_cmp(&self, other: &Literal) -> Option<Ordering> {
        Some(self.cmp(other))
    }
}

/// By atom, then no mode before any mode, then positive before negative.
impl Ord for Literal {
    ghost use Rattle.std.specs.Prelude.{refl};
    ghost use Rattle.std.specs.Cmp.Rules.{comparing};
    ghost use Rattle.std.proofs.Common.{rules};
    ghost use Rattle.dl_lit.specs.Order.{literal_cmp, literal_total, literal_ties};

    ghost cmp = { literal_cmp };

    ghost total = { literal_total };

    ghost matches_partial_cmp = { Prim.search (comparing, rules) };

    ghost matches_eq = { literal_ties };

    fn cmp(&self, other: &Literal) -> Ordering {
        self.atom
            .cmp(&other.atom)
            .then(self.mode.cmp(&other.mode))
            .then(other.positive.cmp(&self.positive))
    }
}

/// What is proved of a literal: definite, defeasible with ambiguity blocking or propagating, support.
#[derive(Clone, Copy, Debug, PartialEq, Eq)]
pub enum Family {
    Definite,
    Blocking,
    Propagating,
    Support,
}

/// Whether a family holds of a literal or is refuted of it.
#[derive(Clone, Copy, Debug, PartialEq, Eq)]
pub struct Tag {
    pub plus: bool,
    pub family: Family,
}

/// A literal under a tag.
#[derive(Drop)]
pub struct Tagged {
    pub plus: bool,
    pub family: Family,
    pub literal: Literal,
}

impl Tagged {
    pub fn copy(&self) -> Result<Tagged, Memory>
        ensures { IfOk result (λ copy. copy ≡ self.now) }
    {
        let literal = self.literal.copy()?;
        Ok(Tagged {
            plus: self.plus,
            family: self.family,
            literal,
        })
    }
}

impl PartialEq for Tagged {
    ghost use Rattle.std.specs.Prelude.{◌≡◌, ◌↔◌, IsTrue};
    ghost use Rattle.std.specs.Cmp.{partial_equiv_from_equiv};
    ghost use Rattle.dl_lit.specs.Order.{tagged_eq, tagged_equiv};

    ghost eq = { tagged_eq };

    ghost laws = { partial_equiv_from_equiv tagged_equiv };

    fn eq(&self, other: &Tagged) -> bool
        ensures answer { result ≡ tagged_eq self.now other.now }
        ensures same { IsTrue result ↔ (self.now ≡ other.now) }
    {
        self.plus == other.plus && self.family == other.family && self.literal == other.literal
    }
}

impl Eq for Tagged {
    ghost use Rattle.dl_lit.specs.Order.{tagged_equiv};

    ghost laws = { tagged_equiv };
}

impl PartialOrd for Tagged {
    ghost use Rattle.std.specs.Prelude.{Some, refl};
    ghost use Rattle.std.specs.Cmp.{partial_order_from_agreeing_total};
    ghost use Rattle.dl_lit.specs.Order.{tagged_cmp, tagged_total, tagged_ties};

    ghost partial_cmp = { λ x y. Some (tagged_cmp x y) };

    ghost laws = { partial_order_from_agreeing_total tagged_cmp tagged_total (λ x y. refl) tagged_ties };

    fn partial_cmp(&self, other: &Tagged) -> Option<Ordering> {
        Some(self.cmp(other))
    }
}

/// By literal, then by family, then plus before minus.
impl Ord for Tagged {
    ghost use Rattle.std.specs.Cmp.Rules.{comparing};
    ghost use Rattle.std.proofs.Common.{rules};
    ghost use Rattle.dl_lit.specs.Order.{tagged_cmp, tagged_total, tagged_ties};

    ghost cmp = { tagged_cmp };

    ghost total = { tagged_total };

    ghost matches_partial_cmp = { Prim.search (comparing, rules) };

    ghost matches_eq = { tagged_ties };

    fn cmp(&self, other: &Tagged) -> Ordering {
        self.literal
            .cmp(&other.literal)
            .then(self.family.index().cmp(&other.family.index()))
            .then(other.plus.cmp(&self.plus))
    }
}

impl Family {
    ghost use Rattle.dl_lit.specs.Order.{family_index};

    /// Its place in lists.
    fn index(self) -> u8
        ensures { result ≡ family_index self }
    {
        match self {
            Family::Definite => 0,
            Family::Blocking => 1,
            Family::Propagating => 2,
            Family::Support => 3,
        }
    }
}
