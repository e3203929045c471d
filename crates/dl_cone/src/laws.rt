//! The law of cones, as the contract of a function that does nothing.

ghost use Rattle.dl_theory.specs.declared.edit.Edit.{Edit};
ghost use Rattle.dl_theory.specs.Lists.{TheoryLists};
ghost use Rattle.dl_cone.specs.Outside.{StaysOutside};

/// Outside its cone, what follows is the same before an edit that is accepted and after it.
pub fn what_follows_outside_stays()
    ensures { (T : TheoryLists) (e : Edit) → StaysOutside T e }
{}
