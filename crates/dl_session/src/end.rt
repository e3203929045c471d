//! How a session ends.

/// How a session ended.
#[derive(Clone, Copy, Debug, PartialEq, Eq)]
pub enum End {
    /// By `quit`, or at the end of its input.
    Done,
    /// A read failed.
    ReadFault,
    /// A write or a flush failed.
    WriteFault,
    /// As many bytes were read as are read for any session.
    Spent,
}
