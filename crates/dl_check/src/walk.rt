//! Checking a list, member by member.

ghost use Rattle.std.specs.Prelude.{◌≡◌, ◌≢◌, [], OnOk, All, MatchResult};
ghost use Rattle.dl_theory.specs.Lists.{TheoryLists};
ghost use Rattle.dl_theory.specs.Derivations.{Follows, IsDerivation, IsGap};
ghost use Rattle.dl_check.specs.Flaws.{AnswersDerivation, AnswersGap, IsDerivationFlaw, IsGapFlaw, IsOnlyFlaw};
ghost use Rattle.dl_check.specs.declared.flaw.Flaw.{Flaw};

use crate::checker::Checker;
use crate::derived::{Derived, Members, Reading};
use crate::flaw::{CheckStop, Flaw};
use dl_lit::Tagged;
use dl_theory::TaggedList;

impl Checker {
    ghost use Rattle.dl_check.specs.Checking.{StandsFor};

    /// Whether a list with a member is a derivation: each member is new, and meets its condition over those before it.
    /// Empty comes exactly where it has no member. Else Repeat or Step comes for the first member that repeats
    /// an earlier one, or does not meet its condition.
    pub fn check_derivation(&self, list: &TaggedList) -> Result<(), CheckStop>
        ensures answer { (T : TheoryLists) → StandsFor self.now T → AnswersDerivation T list.now result }

        // Each member of what is accepted follows.
        ensures follow { OnOk result ((T : TheoryLists) → StandsFor self.now T → All (Follows T) list.now) }

        // No derivation with a member is rejected, and no flaw but the first is named.
        ensures accepts { (T : TheoryLists) → StandsFor self.now T → IsDerivation T list.now → list.now ≢ []
            → MatchResult result (λ _. Unit {0}) (λ stop. stop ≡ CheckStop.Memory) }
        ensures rejects { (T : TheoryLists) (flaw : Flaw) → StandsFor self.now T → IsDerivationFlaw T list.now flaw → IsOnlyFlaw flaw result }
    {
        self.walk_derivation(list.as_slice())
    }

    fn walk_derivation(&self, list: &[Tagged]) -> Result<(), CheckStop>
        ensures { (T : TheoryLists) → StandsFor self.now T → AnswersDerivation T list.now result }
    {
        if list.is_empty() {
            return Err(CheckStop::Rejected(Flaw::Empty));
        }
        let mut derived = Derived {
            members: Members::make(self.alloc),
            reading: Reading::Inside,
        };
        for (at, member) in list.iter().enumerate() {
            if derived.members.holds(member) {
                return Err(CheckStop::Rejected(Flaw::Repeat { at }));
            }
            let is_met = self.meets(&derived, member)?;
            if !is_met {
                return Err(CheckStop::Rejected(Flaw::Step { at }));
            }
            derived.members.add(member)?;
        }
        Ok(())
    }

    /// Whether a list is a gap: it has a member, none twice, and none meets its condition where exactly its members
    /// count as not derived. Empty comes exactly where it has no member. Else Repeat or Step comes for the first
    /// member that repeats an earlier one, or meets its condition.
    pub fn check_gap(&self, list: &TaggedList) -> Result<(), CheckStop>
        ensures answer { (T : TheoryLists) → StandsFor self.now T → AnswersGap T list.now result }

        // No member of what is accepted follows.
        ensures unproved { OnOk result ((T : TheoryLists) → StandsFor self.now T → All (λ x. ¬ Follows T x) list.now) }

        // No gap is rejected, and no flaw but the first is named.
        ensures accepts { (T : TheoryLists) → StandsFor self.now T → IsGap T list.now
            → MatchResult result (λ _. Unit {0}) (λ stop. stop ≡ CheckStop.Memory) }
        ensures rejects { (T : TheoryLists) (flaw : Flaw) → StandsFor self.now T → IsGapFlaw T list.now flaw → IsOnlyFlaw flaw result }
    {
        self.walk_gap(list.as_slice())
    }

    fn walk_gap(&self, list: &[Tagged]) -> Result<(), CheckStop>
        ensures { (T : TheoryLists) → StandsFor self.now T → AnswersGap T list.now result }
    {
        if list.is_empty() {
            return Err(CheckStop::Rejected(Flaw::Empty));
        }
        let outside = Derived {
            members: Members::collect(self.alloc, list)?,
            reading: Reading::Outside,
        };
        let mut seen = Members::make(self.alloc);
        for (at, member) in list.iter().enumerate() {
            if seen.holds(member) {
                return Err(CheckStop::Rejected(Flaw::Repeat { at }));
            }
            let is_met = self.meets(&outside, member)?;
            if is_met {
                return Err(CheckStop::Rejected(Flaw::Step { at }));
            }
            seen.add(member)?;
        }
        Ok(())
    }
}
