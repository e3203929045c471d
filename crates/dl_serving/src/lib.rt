//! Sessions from a theory, each under a name: opened, served, settled and printed.
//!
//! `serve` opens a name for input and its output for each session, serves them all at once, settles their streams, and prints the journal
//! and the ends. From the first session on it takes no memory. `specs/Serve` says what that comes to for whoever has the theory, the
//! requests, the replies and the journal, and `specs/Serving` how the code comes to it.
#![tactic(auto)]

mod serving;
mod sessions;

pub use serving::serve;
