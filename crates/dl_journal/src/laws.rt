//! A law of what is printed, as the contract of a function that does nothing.

ghost use Rattle.dl_journal.specs.Journal.{PrintedTextsTell};

/// The text of a history and of ends tells both. It speaks of entries whose names are spelled as names and whose numbers have 64 bits;
/// those of a board's history are such, by `history_is_spelled`.
pub fn printed_texts_tell()
    ensures { PrintedTextsTell }
{}
