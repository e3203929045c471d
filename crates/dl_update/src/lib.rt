//! A theory whose marks are right, to be shared, and kept right under edits.
//!
//! Marks are right where a mark stands exactly if its tagged literal follows from the theory. They begin with no mark at any
//! number, and the region of all numbers is filled, family after family: first the definite one, then those that stand on it.
//! A `Draft` has such marks for its net, in the families that it is made for: all four where edits are to come, or one where nothing else
//! is asked, and then only what this one needs is filled. An edit clears and fills the marks of its cone. Begin with `draft.rt`.
#![tactic(auto)]

mod draft;
mod families;
mod places;
mod saturate;
mod unmarked;
mod works;

pub use draft::Draft;
pub use families::Families;
