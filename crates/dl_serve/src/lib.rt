//! Jobs that are done at once, each in a thread of its own.
//!
//! A job says how its result is related to it. The promise to the layer above: each result is in its job's
//! relation, the results stand in the order of the jobs, and want of memory comes before any job was begun,
//! with all jobs as they were. Nothing is said of how long a job takes, nor of which one ends first.
#![tactic(auto)]

mod job;
mod serve;

pub use dl_base::Memory;
pub use job::Job;
pub use serve::serve_all;
