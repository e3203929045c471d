//! Literals whose names stand elsewhere.

ghost use Rattle.std.specs.Prelude.{◌≡◌, IfOk};
ghost use Rattle.dl_lit.specs.Borrowed.{literal_of};

use crate::literal::Literal;
use crate::name::Name;
use dl_base::Memory;
use std::cmp::Ordering;

/// A literal whose mode and atom are borrowed, whatever they are kept in.
#[derive(Clone, Copy)]
pub struct LiteralRef<'a> {
    pub mode: Option<&'a Name>,
    pub atom: &'a Name,
    pub positive: bool,
}

impl<'a> LiteralRef<'a> {
    /// A literal that is kept as one.
    #[inline(always)]
    pub fn of(literal: &'a Literal) -> LiteralRef<'a>
        ensures { literal_of result ≡ literal.now }
    {
        LiteralRef {
            mode: literal.mode.as_ref(),
            atom: &literal.atom,
            positive: literal.positive,
        }
    }

    /// An equal literal with names of its own.
    #[inline(always)]
    pub fn copy(self) -> Result<Literal, Memory>
        ensures { IfOk result (λ copy. copy ≡ literal_of self.entry) }
    {
        let mode = match self.mode {
            Some(mode) => Some(mode.copy()?),
            None => None,
        };
        let atom = self.atom.copy()?;
        Ok(Literal {
            mode,
            atom,
            positive: self.positive,
        })
    }
}

impl PartialEq for LiteralRef<'_> {
    ghost use Rattle.std.specs.Cmp.{partial_equiv_from_equiv};
    ghost use Rattle.dl_lit.specs.Borrowed.{borrowed_eq, borrowed_equiv};

    ghost eq = { borrowed_eq };

    ghost laws = { partial_equiv_from_equiv borrowed_equiv };

    fn eq(&self, other: &Self) -> bool {
        self.mode == other.mode && self.atom == other.atom && self.positive == other.positive
    }
}

impl Eq for LiteralRef<'_> {
    ghost use Rattle.dl_lit.specs.Borrowed.{borrowed_equiv};

    ghost laws = { borrowed_equiv };
}

impl PartialOrd for LiteralRef<'_> {
    ghost use Rattle.std.specs.Prelude.{Some, refl};
    ghost use Rattle.std.specs.Cmp.{partial_order_from_agreeing_total};
    ghost use Rattle.dl_lit.specs.Borrowed.{literal_of, borrowed_cmp, borrowed_total};
    ghost use Rattle.dl_lit.specs.Order.{literal_ties};

    ghost partial_cmp = { λ x y. Some (borrowed_cmp x y) };

    ghost laws = { partial_order_from_agreeing_total borrowed_cmp borrowed_total (λ x y. refl) (λ x y. literal_ties (literal_of x) (literal_of y)) };

    fn partial_cmp(&self, other: &Self) -> Option<Ordering> {
        Some(self.cmp(other))
    }
}

/// As literals.
impl Ord for LiteralRef<'_> {
    ghost use Rattle.std.specs.Prelude.{refl};
    ghost use Rattle.std.specs.Cmp.Rules.{comparing};
    ghost use Rattle.std.proofs.Common.{rules};
    ghost use Rattle.dl_lit.specs.Borrowed.{literal_of, borrowed_cmp, borrowed_total};
    ghost use Rattle.dl_lit.specs.Order.{literal_ties};

    ghost cmp = { borrowed_cmp };

    ghost total = { borrowed_total };

    ghost matches_partial_cmp = { λ x y. refl };

    ghost matches_eq = { λ x y. literal_ties (literal_of x) (literal_of y) };

    fn cmp(&self, other: &Self) -> Ordering {
        self.atom
            .cmp(other.atom)
            .then(self.mode.cmp(&other.mode))
            .then(other.positive.cmp(&self.positive))
    }
}
