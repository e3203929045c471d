//! What follows in the defeasible family, where ambiguity blocks: its table of nodes and wires, and their gates.
//!
//! A literal is concluded where it is definite; or where a rule for it is on, each literal that attacks it is refuted as definite, and
//! each rule against it is off or beaten by a rule for it that is on. `BlockGates` with `fill` of `dl_fill` sets exactly the marks of
//! the family that follow, at the numbers of a region outside which they are right, and stands on right marks of the definite family.
//! It takes at most two steps for each number of the region.
#![tactic(auto)]

mod gates;

pub use gates::BlockGates;
