//! What the program `ddl` answers: from the words of the command line to standard output and a status.
//!
//! `run` works over a house, which opens files by their names: it reads the words, loads a theory, and prints what the words ask
//! for. Its contract, the record `Runs` of `specs/Run`, says of each house what is read, what is written and which status comes,
//! also where a read or a write fails. The conditions of proof are those of Antoniou, Billington, Governatori and Maher,
//! "Representation Results for Defeasible Logic" (2001).
#![tactic(auto)]

mod law;
mod program;

pub use dl_files::Status;
pub use law::{certificates_are_judged, statuses_are_exact};
pub use program::run;
