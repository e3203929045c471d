//! Laws of entries and histories, each as the contract of a function that does nothing.

ghost use Rattle.dl_calls.specs.Laws.{LinesTellEntries, JournalsTellHistories, RepliesTellStates, EditionsStay, SeatsAreEnrolled, EnrolmentsCountUp, LastEntryIsAStep, TheoriesStayWellFormed};

/// Two entries with one line of a journal are equal. It speaks of entries whose names are spelled as names and whose
/// numbers have 64 bits; each entry that a program holds is such, by `entry_is_spelled`.
pub fn lines_tell_entries()
    ensures { LinesTellEntries }
{}

/// Two histories of such entries with one journal are equal.
pub fn journals_tell_histories()
    ensures { JournalsTellHistories }
{}

/// A step's call and reply tell the state that it leads to, so a history tells the state after it.
pub fn replies_tell_states()
    ensures { RepliesTellStates }
{}

/// What a legal history begins with is legal, and its editions stay, before those that come later.
pub fn editions_stay()
    ensures { EditionsStay }
{}

/// Each entry of a legal history is of an enrolled seat.
pub fn seats_are_enrolled()
    ensures { SeatsAreEnrolled }
{}

/// The enrolments of a legal history are those of the seats from 0 on, each once, in order.
pub fn enrolments_count_up()
    ensures { EnrolmentsCountUp }
{}

/// The last entry of a legal history is a step of the state before it.
pub fn last_entry_is_a_step()
    ensures { LastEntryIsAStep }
{}

/// From a well-formed theory, the draft and each edition are well formed.
pub fn theories_stay_well_formed()
    ensures { TheoriesStayWellFormed }
{}
