//! What stands around sessions: the files that are opened for them and settled after them, and the journal that is printed then.
//!
//! `open_streams` opens, for each name, the name for input and its output, the name with `.out` behind it, and undoes all of that
//! where one opening fails. `settle_streams` takes streams back. `write_served` prints a line for each entry of a board's history and
//! one for the end of each session. `specs/Streams` says what each does to a house, and `specs/Journal` what is printed.
#![tactic(auto)]

mod journal;
mod laws;
mod named;
mod streams;

pub use dl_base::Memory;
pub use journal::{history_is_spelled, write_served};
pub use laws::printed_texts_tell;
pub use named::{Named, named_all};
pub use streams::{open_streams, settle_pair, settle_streams};
