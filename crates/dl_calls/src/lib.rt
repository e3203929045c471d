//! Calls on a reasoner and its replies, the lines of a journal, and the reasoner of one thread as definitions.
//!
//! A reasoner has a draft theory, which edits change, a list of editions, which are theories that stay as they are, and a
//! count of enrolled seats. `specs/Reasoner` says what each call answers and changes, and `specs/Histories` when a list of
//! entries is a legal history and which state it leads to. Nothing here computes a state: a board that keeps one promises
//! its answers by these definitions. The laws of both are the contracts of the functions in `laws`.
//!
//! `specs/Text` gives the line of a journal for each entry. Different entries that a program can hold have different
//! lines.
#![tactic(auto)]

mod call;
mod entry;
mod laws;
mod reply;
mod spelled;
mod write;

pub use call::Call;
pub use entry::Entry;
pub use laws::{
    editions_stay, enrolments_count_up, journals_tell_histories, last_entry_is_a_step,
    lines_tell_entries, replies_tell_states, seats_are_enrolled, theories_stay_well_formed,
};
pub use reply::Reply;
pub use spelled::entry_is_spelled;
pub use write::{write_entry, write_reply};
