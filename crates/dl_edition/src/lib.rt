//! Editions: theories that were published and stay as they are.
//!
//! A `Held` shares one edition with all other holders. It has the theory by numbers and marks that are right for it, so a
//! verdict is read from a mark, and conclusions come in the order that `dl_conclusions` gives them, which is made when it is first
//! asked for. It answers alone: no call waits, and no call of another holder changes what it answers.
//!
//! An `Office` is what hands editions out: one reasoner for many callers, each with a seat.
#![tactic(auto)]

mod edition;
mod held;
mod hold_answer;
mod listing;
mod office;
mod rule;
mod text;

pub use dl_base::Memory;
pub use dl_conclusions::{Conclusion, Conclusions};
pub use held::Held;
pub use hold_answer::HoldAnswer;
pub use office::Office;
