//! What is read of a theory by numbers.
//!
//! A theory's literals, facts, rules and pairs have numbers that never move: what is added goes last, and what goes leaves its number
//! empty. `Graph` is such a theory, borrowed from the tables that keep it: it finds a literal's number and a rule's, lends literals,
//! facts, rules and pairs by theirs, and tells for each number the rules that a fill goes to from there, with a head, with a literal in
//! the body, above and below a rule. Each of these lists is exactly what the theory's lists say. Begin with `specs/Numbers.antt`, which
//! says it in words of the logic, and with `graph.rt`; `specs/Tables.antt` says which theory tables of numbers stand for.
#![tactic(auto)]

mod graph;
mod link;
mod links;
mod pair_ref;
mod readers;
mod rule_ref;

pub use dl_rows::Region;
pub use graph::Graph;
pub use link::Link;
pub use pair_ref::PairRef;
pub use rule_ref::RuleRef;
