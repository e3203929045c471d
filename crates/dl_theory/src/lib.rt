//! Theories of defeasible logic under edits, and the logic itself.
//!
//! A theory is a list of facts, a list of rules with distinct labels, and a list of pairs of labels without cycles. Six edits
//! add or drop one of these. Each is made, or refused for the first cause that its table names, and then the theory is as it was.
//! A fact, a label and a pair are found by hashing; a cycle is found by the order of numbers below, and shown by a path of labels.
//!
//! What a theory proves is defined in `specs/`: `Conditions` says when a tagged literal may be concluded, `Derivations` what
//! follows, `Verdicts` what an answer and its certificate are, `Marks` when a table of marks is right, `Edits` and `Cones` what
//! an edit changes. The laws of these definitions are the contracts of the functions in `laws`.
#![tactic(auto)]

mod answer;
mod edit;
mod labelled;
mod labels;
mod laws;
mod lists;
mod loading;
mod refused;
mod rule;
mod rule_pairs;
mod rules;
mod superiority;
mod theory;

pub use answer::{Answer, Certificate, Verdict};
pub use edit::{Edit, EditRefusal, EditStop, PairsStop};
pub use labels::{holds_label, insert_label};
pub use laws::{gaps_hold, is_coherent, is_consistent, is_inclusive, table_is_least};
pub use lists::{Body, Path, TaggedList};
pub use loading::Loading;
pub use rule::{Kind, Pair, Rule};
pub use rule_pairs::RulePairs;
pub use theory::{LIMIT, Theory};
