//! Laws of lines, each as the contract of a function that does nothing.

ghost use Rattle.dl_lines.specs.Laws.{AccountsBegin, AccountsGoOn, CallsRunOut, LinesAreTheBytes, LinesComeFirst};

/// Every byte is in exactly one raw line or is an LF between two.
pub fn lines_are_the_bytes()
    ensures { LinesAreTheBytes }
{}

/// The account of a reader that was just made is empty.
pub fn accounts_begin()
    ensures { AccountsBegin }
{}

/// What was taken and answered by some calls, and what the next call takes and answers, is the account of them all. So by the end all
/// lines of the source were answered, in order, and by another ending the lines that have their LF in what was taken.
pub fn accounts_go_on()
    ensures { AccountsGoOn }
{}

/// What was answered before the lines have ended comes first among the lines of the whole input, whatever follows.
pub fn lines_come_first()
    ensures { LinesComeFirst }
{}

/// A loop over all lines ends.
pub fn calls_run_out()
    ensures { CallsRunOut }
{}
