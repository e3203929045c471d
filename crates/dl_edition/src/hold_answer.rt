//! Answers to a hold.

use crate::held::Held;

/// What an office answers to a hold.
#[derive(Drop)]
pub enum HoldAnswer {
    /// The edition that was asked for.
    Holding(Held),
    /// There is no such edition: one was asked for, and so many were published.
    Unpublished { asked: u64, published: u64 },
}
