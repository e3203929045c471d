//! What a line of a session asks for.
//!
//! A line asks for nothing, for the end of the session or for a request, or it is refused, for its form or for variables. `specs/Requests`
//! says which (`Asks`), by the grammar of `dl_read` and without a reader. Each line asks for exactly one thing, with or without memory to
//! read it, and `read_request` answers that. Want of memory comes only in place of an edit, of a question or of a refusal for form. Begin
//! with `request.rt`, and then `read.rt`.
#![tactic(auto)]

mod keyword;
mod laws;
mod read;
mod request;
mod words;

pub use laws::lines_ask_for_one_thing;
pub use read::read_request;
pub use request::{Asked, Request};
