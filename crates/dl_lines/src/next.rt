//! What a reader of lines answers.

/// How the lines of a source ended.
#[derive(Clone, Copy, Debug, PartialEq, Eq)]
pub enum Ending {
    /// The source has no more bytes.
    End,
    /// As many bytes were read as are read of any source. A line that had no LF by then is not answered.
    Limit,
    /// A read failed. A line that had no LF by then is not answered.
    Fault,
}

/// What a call answers.
#[derive(Clone, Copy, Debug, PartialEq, Eq)]
pub enum Next {
    /// A line, which the reader lends until the next call.
    Line,
    /// A line that is too long. Its bytes were dropped.
    Long,
    /// No line: they have ended.
    Over(Ending),
}
