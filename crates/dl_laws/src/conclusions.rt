//! Laws of what follows.

ghost use Rattle.dl_laws.specs.Conclusions.{ExactGapsAreGaps, FollowsIsLeast, UnmentionedAreRefuted};
ghost use Rattle.dl_theory.specs.Lists.{TheoryLists};

/// Where neither tag of a literal follows, the list that certificates give for it is a gap: it has members, each once, and none of them
/// meets its condition where exactly the members count as not derived. So a checker that accepts exactly the gaps accepts that answer.
pub fn exact_gaps_are_gaps()
    ensures { (T : TheoryLists) → ExactGapsAreGaps T }
{}

/// What follows is the least closed set. Whatever meets its condition over what follows, follows; whatever follows meets its condition
/// over what follows; and a set, given by a test, that has all that meets its condition over the set has all that follows. What
/// follows is such a set itself: of each tagged literal it is decided whether it follows, and a finite table lists those that do over the
/// literals of the theory. By `dl_theory::table_is_least` that table is the least closed list.
pub fn what_follows_is_the_least_closed_set()
    ensures { (T : TheoryLists) → FollowsIsLeast T }
{}

/// A literal that is no fact, no head and in no body is refuted in every family. A literal that the theory does not mention is such.
pub fn unmentioned_literals_are_refuted()
    ensures { (T : TheoryLists) → UnmentionedAreRefuted T }
{}
