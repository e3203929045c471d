//! What a seat knows, as the rule of the turnstile sees it. For proofs alone: no value of these types is
//! made.
use std::collections::LinkedList;

/// How far a seat has come.
pub enum Stage {
    /// The board was not yet put into its place.
    Fresh,
    /// The seat may take and give.
    Seated,
    /// The seat was joined into another one, and nothing is left of it.
    Emptied,
}

/// What the pass of a seat knows.
pub struct PassView<L, S> {
    pub stage: Stage,
    /// What the history begins from.
    pub start: S,
    /// The number of the lines that the seat makes, once it has made one.
    pub number: Option<u64>,
    /// A beginning of the history.
    pub seen: LinkedList<L>,
    /// After a join, the shorter of the two beginnings. A look at the place tells that both begin one
    /// history.
    pub also_seen: LinkedList<L>,
    /// The lines of the seat's number.
    pub mine: LinkedList<L>,
    /// The numbers of the seats that were joined into this one, each with its lines.
    pub olds: LinkedList<(u64, LinkedList<L>)>,
    /// While the board is out with the seat: the history and the count that it took.
    pub out: Option<(LinkedList<L>, u64)>,
}
