//! What is left of sessions.

use dl_desk::Board;
use dl_io::{Sink, Source};
use dl_session::End;
use std::sync::ledger::Ledger;

/// A session that was served: its streams and how it ended.
#[derive(Drop)]
pub struct Session<I: Source + Send + Drop, P: Sink + Send + Drop> {
    pub source: I,
    pub sink: P,
    pub end: End,
}

/// Sessions that were served, in the order of their seats, and the board, which has the history of all their calls.
#[derive(Drop)]
pub struct Served<L: Ledger + Send + Sync, I: Source + Send + Drop, P: Sink + Send + Drop> {
    pub board: Board<L>,
    pub sessions: Vec<Session<I, P>>,
}
