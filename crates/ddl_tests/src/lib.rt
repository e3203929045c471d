//! Tests of `run`, the top call of the crate `ddl`: over houses in memory, with words, files, and reads and writes that fail.
//!
//! They are apart from what they test, since a crate with tests is proved twice, with them and without.
#![tactic(auto)]

#[cfg(test)]
mod answers;
#[cfg(test)]
mod certificates;
#[cfg(test)]
mod cuts;
#[cfg(test)]
mod faults;
#[cfg(test)]
mod houses;
#[cfg(test)]
mod meeting;
#[cfg(test)]
mod serving;
