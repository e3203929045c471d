//! What the words of the command line ask for.
//!
//! `asked_of` reads words into an `Asked`: a command with one reply, or sessions from a theory, each under a name. `form` in
//! `specs/Words` says which words ask for what, and `specs/Names` where the replies to the requests under a name go. Names of sessions
//! are distinct, and apart from their outputs.
#![tactic(auto)]

mod words;

pub use words::{Asked, Command, MOST_ATOMS, MOST_SESSIONS, asked_of};
