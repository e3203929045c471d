//! What a reasoner answers.

use dl_theory::EditRefusal;

#[derive(Drop)]
pub enum Reply {
    /// The new seat has this number.
    Enrolled(u64),
    /// The edit was made.
    Edited,
    /// The draft stays as it was.
    EditRefused(EditRefusal),
    /// The draft was published under this number.
    Edition(u64),
    /// The edition with this number is there.
    Holding(u64),
    /// There is no such edition: one was asked for, and so many were published.
    Unpublished { asked: u64, published: u64 },
}
