//! Pairs of numbered items.

/// One item above another.
#[derive(Clone, Copy, Debug, PartialEq, Eq, Hash)]
pub struct Link {
    pub upper: usize,
    pub lower: usize,
}
