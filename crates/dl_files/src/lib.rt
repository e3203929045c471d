//! What each command does with the outside: it reads files whole, loads theories from them, hands on what it wrote, and ends with a
//! status.
//!
//! `load` gives the theory in a file of a house, or why there is none; `read` gives its bytes, up to a limit. Both settle the file
//! again. `hand_on` flushes a sink. `specs/Reading` says what reading does to a house, `specs/Theories` what a file gives, and
//! `specs/Statuses` which exit code a `Status` is.
#![tactic(auto)]

mod handing;
mod refusal;
mod status;
mod theory_file;
mod whole;

pub use handing::hand_on;
pub use refusal::Refusal;
pub use status::Status;
pub use theory_file::{Loaded, load, read};
pub use whole::Stop;
