//! Sessions side by side at one board, each in a thread of its own.
//!
//! A `Hall` is a board behind a desk with an enrolled seat for each session to come. `Hall::serve` serves a session with each pair of
//! streams, all at once, and takes the board back when the last one ended. `specs/Served` says what has been done by then: the history
//! of all calls is legal, and each session's bytes are the replies to its own requests, by the whole history and by the entries of its
//! own seat. All memory is taken before the first session begins. Nothing is said of the order in which sessions make their calls.
#![tactic(auto)]

mod hall;
mod job;
mod jobs;
mod join;
mod serve;
mod session;

pub use dl_base::Memory;
pub use dl_desk::Board;
pub use hall::Hall;
pub use session::{Served, Session};
