//! Labels, facts and pairs by numbers that never move.
//!
//! A theory that is worked on keeps its rules, facts and pairs by number. What is added goes last, and what goes leaves its number
//! empty, so no number is used again and nothing shifts. `RuleLabels` has the label of each rule's number and finds the last number
//! with a label, `FactNumbers` has the literal of each fact, and `PairNumbers` the two rules of each pair. Each finds the number of
//! what it is asked for without going through all. What comes or goes is prepared first, which takes all the memory that it needs, and
//! may then be made without any more. What was frozen is shared with each copy, but for what is written later. What is there in a list
//! with empty numbers is in `specs/There.antt` of `dl_rows`. Begin with `specs/Labels.antt` and `rule_labels.rt`.
#![tactic(auto)]

mod entries;
mod fact_numbers;
mod label_names;
mod pair_numbers;
mod pair_places;
mod pair_slot;
mod rule_labels;
mod slots;

pub use fact_numbers::FactNumbers;
pub use pair_numbers::PairNumbers;
pub use rule_labels::RuleLabels;
