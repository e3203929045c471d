//! How many rules stand below and above each rule.

use crate::lines::Lines;
use crate::rule_lists::count_one;
use dl_base::Memory;
use dl_theory::RulePairs;
use std::alloc::Global;

/// How many rules stand below each rule, and how many above it. Nothing is proved of the counts: what they leave no room for is want of
/// memory.
#[derive(Drop)]
pub struct LinkCounts {
    pub lowers: Vec<u32>,
    pub uppers: Vec<u32>,
}

impl LinkCounts {
    /// The counts for the pairs of rules whose heads attack each other.
    pub fn count(alloc: Global, lines: &Lines, pairs: &RulePairs) -> Result<LinkCounts, Memory> {
        // without pairs there are no lists
        let len = if pairs.len() == 0 { 0 } else { lines.len() };
        let mut counts = LinkCounts {
            lowers: vec![in alloc; 0; len]?,
            uppers: vec![in alloc; 0; len]?,
        };
        for at in 0..pairs.len() {
            if let Some((upper, lower)) = pairs.rules_of(at) {
                counts.add(lines, upper, lower);
            }
        }
        Ok(counts)
    }

    /// Counts a pair, if one head attacks the other.
    fn add(&mut self, lines: &Lines, upper: usize, lower: usize) {
        if upper >= lines.len() || lower >= lines.len() {
            return;
        }
        if lines.meet(upper, lower) {
            count_one(&mut self.lowers, upper);
            count_one(&mut self.uppers, lower);
        }
    }
}
