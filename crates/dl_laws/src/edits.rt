//! A law of edits.

ghost use Rattle.dl_laws.specs.Edits.{EditsAreDecided};
ghost use Rattle.dl_theory.specs.Lists.{TheoryLists};

/// Each edit is accepted or refused, never both, and for one cause: two refusals of one edit are equal, or both are of a cycle and show
/// paths from the lower label to the upper one.
pub fn edits_are_decided()
    ensures { (T : TheoryLists) → EditsAreDecided T }
{}
