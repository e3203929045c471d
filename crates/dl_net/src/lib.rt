//! A theory by numbers, under edits.
//!
//! `Net` keeps a theory by numbers alone and lends what is read of it as a `Graph`. A theory is loaded into a `NumberedTheory`, statement by
//! statement, which becomes a net when the last one is there. An edit of a net is prepared with all the memory that it takes, or refused with
//! the first cause, and then made without any. A net stands for its theory after each edit. Making an edit moves no number, and what goes
//! leaves its number empty; preparing one gives numbers anew where most of them are empty. A frozen net is shared at the cost of a count: the
//! tables are copied by the next edit, and the order of the pairs, which none but edits need, stays with the net that was frozen. Begin with
//! `net.rt`; `specs/Kept.antt` says what tables hold, and what an edit keeps and changes.
#![tactic(auto)]

mod anew;
mod edits;
mod fact_edits;
mod held;
mod load;
mod net;
mod number;
mod numbered;
mod pair_edits;
mod ready;
mod rule_edits;
mod tables;

pub use net::Net;
pub use numbered::NumberedTheory;
pub use ready::Ready;
