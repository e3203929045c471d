//! What several crates share: want of memory, paths along a relation, and facts about lists.
#![tactic(auto)]

mod memory;

pub use memory::Memory;
