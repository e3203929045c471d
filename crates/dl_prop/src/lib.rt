//! What follows in the families propagating, where ambiguity propagates, and support: their table of nodes and wires, and their gates.
//!
//! The two look at each other. A literal is concluded in propagating as in the blocking family, except that an attacker is
//! dismissed where it lacks support, and not where it is merely refuted. A literal has support where it is definite, or where
//! a rule for it has support for its body and each rule that attacks it and beats it is off in propagating. `PropGates` with `fill`
//! of `dl_fill` sets exactly the marks of both families that follow, at the numbers of a region outside which they are right, and
//! stands on right marks of the definite family. It takes at most four steps for each number of the region.
#![tactic(auto)]

mod gates;

pub use gates::PropGates;
