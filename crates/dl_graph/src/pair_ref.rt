//! Pairs whose labels stand elsewhere.

use dl_lit::Name;

/// A pair of rules, the upper one superior to the lower, by their borrowed labels.
#[derive(Clone, Copy)]
pub struct PairRef<'a> {
    pub upper: &'a Name,
    pub lower: &'a Name,
}
