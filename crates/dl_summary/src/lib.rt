//! What the run of generated calls comes to: the survey of an edition, the counts of edits, and their text.
//!
//! `Families` puts the accepted answers about each literal by their families and counts them; `specs/Survey` says what a survey is.
//! `Replay` makes calls once more on a theory alone and counts its edits. `specs/Summary` says what a run comes to, and
//! `write_summary` writes it. Begin with `counts.rt`.
#![tactic(auto)]

mod counts;
mod families;
mod replay;
mod summary;

pub use counts::{Counts, Survey};
pub use families::{Answers, Families};
pub use replay::Replay;
pub use summary::{Summary, write_summary};
