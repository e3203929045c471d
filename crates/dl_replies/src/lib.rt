//! What the program says to words that ask for no sessions.
//!
//! `conclusions` gives the conclusions of a theory in a family, and `check` what is said of a certificate. A `Reply` is one of these, the
//! text of a theory, what calls of a number came to, or a refusal; `print` writes it and hands it on. `specs/Replies` says the text of each
//! reply and its status, and `specs/Checks` what is said of which certificate.
#![tactic(auto)]

mod checked;
mod conclusion;
mod reply;
mod write;

pub use checked::{Checked, check};
pub use conclusion::conclusions;
pub use reply::{Reply, status_of};
pub use write::print;
