//! Laws of what a session answers, each as the contract of a function that does nothing.

ghost use Rattle.dl_session.specs.Laws.{AnswersStay, EndsStay, NoQuitIsAnswered};

/// Lines that were answered stay so when more editions come, by the same entries and bytes. So what one session is told by the history
/// that its seat has seen is right by the whole history.
pub fn answers_stay()
    ensures { AnswersStay }
{}

/// What was done by an end stays so when more editions come.
pub fn ends_stay()
    ensures { EndsStay }
{}

/// No line that was answered is `quit`, so a session ends at the first `quit`.
pub fn no_quit_is_answered()
    ensures { NoQuitIsAnswered }
{}
