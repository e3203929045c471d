//! A line of a history.

use crate::call::Call;
use crate::reply::Reply;
use dl_theory::Theory;
use dl_turn::Numbered;

/// A call with its reply. Its number is that of the seat that called.
#[derive(Drop)]
pub struct Entry {
    pub seat: u64,
    pub call: Call,
    pub reply: Reply,
}

/// A history of entries begins from a theory, which proofs see as its lists.
impl Numbered for Entry {
    ghost use Rattle.dl_theory.specs.Lists.{no_lists};

    type Start = Theory;

    ghost number = { λ entry. entry.seat };

    ghost no_start = { no_lists };
}
