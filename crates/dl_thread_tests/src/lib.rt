//! Tests of what runs in threads: the turnstile, jobs that are done at once, the desk, surveys of editions, and runs of
//! generated calls.
//!
//! They are apart from what they test, since a crate with tests is proved twice, with them and without.
#![tactic(auto)]

#[cfg(test)]
mod desks;
#[cfg(test)]
mod jobs;
#[cfg(test)]
mod summaries;
#[cfg(test)]
mod surveys;
#[cfg(test)]
mod turns;
