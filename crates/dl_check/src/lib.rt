//! Checking certificates: what an auditor trusts.
//!
//! A certificate is a list of tagged literals. A derivation repeats no member, and each member meets its condition
//! over those before it: then each member follows. A gap repeats no member, and none meets its condition where exactly
//! its members count as not derived: then no member follows.
//!
//! The checker shares nothing with an engine. It keeps a theory's facts, its rules by their heads, and for each label
//! the labels that are superior to it, and tests the condition of each member as it stands. A member costs what it
//! touches: the rules for its literal and for its complement, their bodies, and the labels that are superior to theirs.
#![tactic(auto)]

mod accepted;
mod answer;
mod band;
mod certificate;
mod checker;
mod derived;
mod flaw;
mod groups;
mod walk;

pub use accepted::Accepted;
pub use certificate::read_certificate;
pub use checker::Checker;
pub use flaw::{CertStop, CheckStop, Flaw};
