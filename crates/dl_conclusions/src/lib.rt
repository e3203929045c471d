//! The conclusions of a theory in a family, in order, and their text.
//!
//! `specs/Conclusions` says what they are: each literal that the theory mentions, once, with its verdict. `Concluded` is where to
//! begin: it is made of a net and marks that are right in the family, puts the literals in order once, and reads each verdict off the
//! marks when it is asked for. `write_conclusions` writes a line for each. Those who keep a net, its marks and its order
//! themselves call `order_of`, `verdict_of` and `ordered_conclusions`, which makes the list `Conclusions`.
#![tactic(auto)]

mod concluded;
mod conclusion;
mod order;
mod placed;
mod text;
mod verdict;

pub use concluded::Concluded;
pub use conclusion::{Conclusion, Conclusions, ordered_conclusions};
pub use order::order_of;
pub use text::write_conclusions;
pub use verdict::verdict_of;
