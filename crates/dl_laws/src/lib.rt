//! Laws of the logic, for whoever reads it.
//!
//! `dl_theory` defines what a theory proves and what an edit changes, and has the first laws beside these definitions. Here are four
//! more: what follows is the least closed set, and has a table; a literal that does not occur is refuted in every family; where
//! neither tag of a literal follows, the list that certificates give for it is a gap; and each edit is accepted or refused, for one
//! cause. Each is the contract of a function that does nothing, with its statement in `specs/`. The checker stands on the law of gaps:
//! it accepts what certificates give. The conditions of proof that the laws speak of are, in the families definite and blocking, those
//! of Antoniou, Billington, Governatori and Maher, "Representation Results for Defeasible Logic" (2001).
#![tactic(auto)]

mod conclusions;
mod edits;

pub use conclusions::{
    exact_gaps_are_gaps, unmentioned_literals_are_refuted, what_follows_is_the_least_closed_set,
};
pub use edits::edits_are_decided;
