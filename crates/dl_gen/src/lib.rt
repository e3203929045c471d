//! The run of calls that are generated from a number, and the survey of an edition.
//!
//! `survey` asks an edition about each literal that its theory mentions, in all four families and in as many threads as there are
//! processors, and has a checker that stands for the theory accept each answer. `summarize` has one seat at a desk make the calls of
//! a number and surveys the last edition; `specs/Running` says how calls come to a run. What is generated is in `dl_draw`, and what a
//! run and a survey come to in `dl_summary`. Begin with `run.rt`.
#![tactic(auto)]

mod ask;
mod run;

pub use ask::survey;
pub use dl_draw::{make_calls, make_theory};
pub use dl_summary::{Counts, Summary, Survey, write_summary};
pub use run::summarize;
