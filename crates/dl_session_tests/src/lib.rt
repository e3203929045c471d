//! Tests of sessions: bytes come from a source, replies go to a sink, and a desk makes the calls.
//!
//! They are apart from what they test, since a crate with tests is proved twice, with them and without. Each file is about one subject.
//! `serving` sets up the desk and runs the sessions for all of them.
#![tactic(auto)]

#[cfg(test)]
mod editions;
#[cfg(test)]
mod ends;
#[cfg(test)]
mod lengths;
#[cfg(test)]
mod memory;
#[cfg(test)]
mod questions;
#[cfg(test)]
mod refusals;
#[cfg(test)]
mod serving;
#[cfg(test)]
mod several;
