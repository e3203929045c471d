//! A turnstile: many threads work on one board, one at a time, and all of them share one history.
//!
//! The board lies in the one place of a queue. Who holds a seat takes it out, adds at most one line to its
//! history, and puts it back. A seat is what one caller knows: a beginning of the history, and which lines
//! of it are the caller's own.
//!
//! The promise to the layer above: there is one history. At each take it begins with all that the seat has
//! seen, and of the seat's number it has just the lines that were given from this seat, each once and in
//! order. No two seats have one number. A seat that is joined into another leaves its number and lines
//! there. The definitions are in `specs/`: `Views` has what contracts see of a seat, and `Rules` the rule
//! that each step keeps. Nothing is said of how long a call waits.
#![tactic(auto)]

mod chronicle;
mod rule;
mod seat;
mod turnstile;
mod view;

pub use chronicle::{Chronicle, Numbered};
pub use dl_base::Memory;
pub use seat::Seat;
pub use turnstile::Turnstile;
