//! Which families are concluded.

use dl_lit::Family;

/// The families whose marks are kept.
#[derive(Clone, Copy)]
pub enum Families {
    /// All four, as under edits and in an edition.
    All,
    /// One, where nothing else is asked.
    One(Family),
}
