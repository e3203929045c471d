//! Replies that are ready to be written.

use dl_calls::Reply;
use dl_edition::{Conclusions, Held};
use dl_lit::Family;
use dl_theory::Answer;

/// Why a line is no request.
#[derive(Clone, Copy)]
pub(crate) enum Refusal {
    Form,
    Long,
    Variables,
}

/// A reply that needs no more memory.
#[derive(Drop)]
pub(crate) enum Ready {
    /// The line is no request.
    Refused(Refusal),
    /// There was no memory for the reply.
    Memory,
    /// The reply to a call.
    Reply(Reply),
    /// A verdict with its certificate.
    Answer(Answer),
    /// The text of an edition.
    Text(Held),
    /// The conclusions of an edition in a family.
    Conclusions(Family, Conclusions),
}
