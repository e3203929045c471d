//! Which tags stand at which numbers of literals, and the steps that write them.
//!
//! `Marks` has the eight marks of each number. `freeze` and `share` hand them to others at the cost of a pointer, or of one for each page of
//! 256 numbers once they stand in pages; the first edit after a freeze puts them there, and later ones copy only the pages that they write
//! (`own`). Marks that nobody writes after a freeze stand flat, with no page to look up.
//! Each mark that is set or cleared is a step, which `Steps` counts. Begin with `marks.rt`.
#![tactic(auto)]

mod bits;
mod marks;
mod steps;

pub use dl_base::Memory;
pub use dl_lit::{Family, Tag};
pub use marks::Marks;
pub use steps::Steps;
