//! Tests of bytes, lines, numbers and texts, and of what they say: streams, lines of sources, orders, rows and regions, lists in pages,
//! rules, labels, facts and pairs by number, marks, names and literals, pairs of literals, literals by number, what is read from texts and
//! asked by lines, and theories under edits. Nothing here concludes.
//!
//! They are apart from what they test, since a crate with tests is proved twice, with them and without. Each file is about one subject.
#![tactic(auto)]

#[cfg(test)]
mod lines;
#[cfg(test)]
mod lists;
#[cfg(test)]
mod literals;
#[cfg(test)]
mod marks;
#[cfg(test)]
mod numbers;
#[cfg(test)]
mod orders;
#[cfg(test)]
mod packed;
#[cfg(test)]
mod pages;
#[cfg(test)]
mod pairs;
#[cfg(test)]
mod reading;
#[cfg(test)]
mod regions;
#[cfg(test)]
mod requests;
#[cfg(test)]
mod rules;
#[cfg(test)]
mod streams;
#[cfg(test)]
mod theories;
