//! Tests of what concludes, and of what keeps it: rooms, numbered theories, drafts and what their edits cost, certificates and their checker, editions, journals,
//! boards and what is generated. None of them needs threads.
//!
//! They are apart from what they test, since a crate with tests is proved twice, with them and without. Each file is about one subject.
//! `texts` reads what the others need from text, and `editions` compares what editions say.
#![tactic(auto)]

#[cfg(test)]
mod boards;
#[cfg(test)]
mod certificates;
#[cfg(test)]
mod checking;
#[cfg(test)]
mod costs;
#[cfg(test)]
mod drafts;
#[cfg(test)]
mod editions;
#[cfg(test)]
mod generated;
#[cfg(test)]
mod journals;
#[cfg(test)]
mod numbered;
#[cfg(test)]
mod rooms;
#[cfg(test)]
mod texts;
