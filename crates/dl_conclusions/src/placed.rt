//! Literals of a net, borrowed to be sorted with their numbers.

ghost use Rattle.std.specs.Prelude.{◌≡◌, IsTrue};
ghost use Rattle.dl_lit.specs.Name.{is_name};
ghost use Rattle.dl_conclusions.specs.Placing.{prefix};

use dl_lit::{LiteralRef, Name};
use std::cmp::Ordering;

/// As many bytes as fit in a `u64`.
const PREFIX: usize = 8;

/// A literal with its number. The first bytes of its atom stand beside it, so that most comparisons follow no reference.
#[derive(Clone, Copy)]
pub(crate) struct Placed<'a> {
    pub(crate) prefix: u64,
    pub(crate) literal: LiteralRef<'a>,
    pub(crate) number: usize,
}

impl PartialEq for Placed<'_> {
    ghost use Rattle.std.specs.Ordering.{eq_by_cmp};
    ghost use Rattle.std.specs.Cmp.{eq_by_cmp_equiv, partial_equiv_from_equiv};
    ghost use Rattle.dl_conclusions.specs.Placing.{placed_cmp, placed_total};

    ghost eq = { eq_by_cmp placed_cmp };

    ghost laws = { partial_equiv_from_equiv (eq_by_cmp_equiv placed_total) };

    fn eq(&self, other: &Self) -> bool {
        self.cmp(other).is_eq()
    }
}

impl Eq for Placed<'_> {
    ghost use Rattle.std.specs.Cmp.{eq_by_cmp_equiv};
    ghost use Rattle.dl_conclusions.specs.Placing.{placed_total};

    ghost laws = { eq_by_cmp_equiv placed_total };
}

impl PartialOrd for Placed<'_> {
    ghost use Rattle.std.specs.Ordering.{as_partial_cmp};
    ghost use Rattle.std.specs.Cmp.{partial_order_from_total};
    ghost use Rattle.dl_conclusions.specs.Placing.{placed_cmp, placed_total};

    ghost partial_cmp = { as_partial_cmp placed_cmp };

    ghost laws = { partial_order_from_total placed_total };

    fn partial_cmp(&self, other: &Self) -> Option<Ordering> {
        Some(self.cmp(other))
    }
}

/// By the prefix, and only where it is the same by the literal. Where each prefix is that of its literal's atom, this is the
/// order of the literals.
impl Ord for Placed<'_> {
    ghost use Rattle.std.specs.Prelude.{refl};
    ghost use Rattle.dl_conclusions.specs.Placing.{placed_cmp, placed_total};

    ghost cmp = { placed_cmp };

    ghost total = { placed_total };

    ghost matches_partial_cmp = { λ x y. refl };

    ghost matches_eq = { λ x y. refl };

    fn cmp(&self, other: &Self) -> Ordering {
        // what is less is told by one comparison of numbers, so that a sort has no branch on it
        if self.prefix == other.prefix {
            return self.literal.cmp(&other.literal);
        }
        if self.prefix < other.prefix {
            Ordering::Less
        } else {
            Ordering::Greater
        }
    }
}

/// The first bytes of a name as one number, the first byte highest. After the name's end come zeros.
pub(crate) fn prefix_of(name: &Name) -> u64
    ensures prefix { result ≡ prefix 8 name.now }
    ensures spelled { IsTrue (is_name name.now) }
{
    let bytes = name.bytes();
    let mut value = 0;
    for at in 0..PREFIX {
        let byte = match bytes.get(at) {
            Some(byte) => *byte,
            None => 0,
        };
        value = value * 256 + byte as u64;
    }
    value
}
