//! A board: a draft that seats edit, the editions that were published, and the history of all calls.
//!
//! The board is the reasoner of one thread, kept as it goes. Its history is legal from its start; the draft, the editions and
//! the count of seats are those of the state after it; and the marks of the draft and of each edition are right. So whatever
//! calls come, and from whichever seats, each answer is the reasoner's at its point. Only who has the whole share of the
//! board's ledger enrols a seat, and the share's amount is how many seats there are.
#![tactic(auto)]

mod board;
mod calls;
mod opening;
mod turned;

pub use board::Board;
pub use dl_base::Memory;
pub use turned::Turned;
