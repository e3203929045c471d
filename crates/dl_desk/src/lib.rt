//! The desk: one board, many callers, and each with its own view of one history.
//!
//! A call takes the board through the turnstile, makes one turn on it, and gives it back, also where memory runs out. So the
//! calls of all threads are one legal history of the reasoner of one thread. Each caller sees a beginning of it, in which its
//! own calls stand in order, each with the answer that it got. An edition that was handed out needs no turn: who holds one
//! asks it while others call.
//!
//! Nothing is said of how long a call waits. The type of the board comes with the desk.
#![tactic(auto)]

mod calls;
mod desk;

pub use desk::Desk;
pub use dl_base::Memory;
pub use dl_board::Board;
