//! Work that is done once.

use std::sync::Wait;

/// Work that is done once, in some thread. What a job needs, as that a seat belongs to an office, is kept
/// in its type.
pub trait Job: Send + Drop {
    /// What the job answers.
    type Done: Send + Drop;

    /// The relation between a job and its result.
    ghost gives: { Self → Self.Done → Type 0 };

    /// Does the job. It may wait.
    fn work<R: Wait>(self, rt: &R) -> Self::Done
        ensures { gives self result };
}
