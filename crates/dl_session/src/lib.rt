//! A session: requests come as lines from a source, and replies go to a sink.
//!
//! `serve_session` is where to begin. It reads lines, calls an office from its seat, asks editions that it holds, and writes a reply to
//! each request, until a line is `quit`, the input ends, a stream fails or the limit of bytes is read. `specs/Replies` says which reply a
//! line has, by the history that the seat has seen and by the seat's own entries in it. `specs/Ends` says of each way to end what was
//! read, answered and written by then, and `serve_session` says the same of what was handed on. A reply is whole before its first byte is written, so want of memory is
//! a reply of its own. The laws in `laws` say what stays so when the history goes on.
#![tactic(auto)]

mod answer;
mod calls;
mod end;
mod laws;
mod lent;
mod query;
mod ready;
mod session;
mod table;
mod workroom;
mod write;

pub use dl_base::Memory;
pub use end::End;
pub use laws::{answers_stay, ends_stay, no_quit_is_answered};
pub use session::serve_session;
pub use workroom::Workroom;
