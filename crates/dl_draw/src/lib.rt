//! Theories and calls that are drawn from a number, so that everybody can make the same ones.
//!
//! `specs/Generator` says what is drawn: a state that draws move on, and what is drawn of it in which order. `make_theory` makes the
//! theory, of which no edit is refused, and `make_calls` the calls of one seat behind it. Begin with `draws.rt`.
#![tactic(auto)]

mod atoms;
mod calls;
mod draws;
mod lists;
mod load;
mod names;
mod theory;

pub use calls::make_calls;
pub use theory::make_theory;
