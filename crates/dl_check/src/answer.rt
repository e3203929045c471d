//! Checking an answer as a whole.

ghost use Rattle.std.specs.Prelude.{◌≡◌, ◌↔◌, IfOk, IfSome, IsSome, IsTrue};
ghost use Rattle.dl_lit.specs.Literal.{tagged};
ghost use Rattle.dl_lit.specs.Order.{tagged_eq};
ghost use Rattle.dl_theory.specs.Lists.{TheoryLists};
ghost use Rattle.dl_theory.specs.Tests as test;
ghost use Rattle.dl_theory.specs.Verdicts.{IsVerdict, Fits};
ghost use Rattle.dl_check.specs.Accepting.{EndsWith, DerivesLast, LeavesOpen, Shows, Tells, AnswersCheck};

use crate::accepted::Accepted;
use crate::checker::Checker;
use crate::flaw::CheckStop;
use dl_lit::{Family, Literal, Memory, Tagged};
use dl_theory::{Answer, Certificate, TaggedList, Verdict};

fn is_tagged(x: &Tagged, plus: bool, family: Family, literal: &Literal) -> bool
    ensures { result ≡ tagged_eq (tagged plus family literal.now) x.now }
{
    plus == x.plus && family == x.family && *literal == x.literal
}

/// Whether a tagged literal is the last of a list.
fn ends_with(list: &[Tagged], plus: bool, family: Family, literal: &Literal) -> bool
    ensures { IsTrue result ↔ EndsWith list.now (tagged plus family literal.now) }
{
    match list.last() {
        Some(x) => is_tagged(x, plus, family, literal),
        None => false,
    }
}

fn has_tagged(list: &[Tagged], plus: bool, family: Family, literal: &Literal) -> bool
    ensures { result ≡ test.has list.now (tagged plus family literal.now) }
{
    list.iter().any(|x| is_tagged(x, plus, family, literal))
}

/// Whether a list was accepted or rejected.
fn is_accepted(answer: Result<(), CheckStop>) -> Result<bool, Memory>
    ensures { IfOk result (Tells answer) }
{
    match answer {
        Ok(_) => Ok(true),
        Err(CheckStop::Rejected(_)) => Ok(false),
        Err(CheckStop::Memory) => Err(Memory),
    }
}

impl Checker {
    ghost use Rattle.dl_check.specs.Checking.{StandsFor};

    /// Whether a list is a derivation that ends with a tagged literal.
    fn derives_last(
        &self,
        plus: bool,
        family: Family,
        literal: &Literal,
        steps: &TaggedList,
    ) -> Result<bool, Memory>
        ensures { IfOk result (λ b. (T : TheoryLists) → StandsFor self.now T → (IsTrue b ↔ DerivesLast T (tagged plus family literal.now) steps.now)) }
    {
        if !ends_with(steps.as_slice(), plus, family, literal) {
            return Ok(false);
        }
        is_accepted(self.check_derivation(steps))
    }

    /// Whether a list is a gap with both tags of a literal.
    fn leaves_open(
        &self,
        family: Family,
        literal: &Literal,
        members: &TaggedList,
    ) -> Result<bool, Memory>
        ensures { IfOk result (λ b. (T : TheoryLists) → StandsFor self.now T → (IsTrue b ↔ LeavesOpen T family literal.now members.now)) }
    {
        let list = members.as_slice();
        if !has_tagged(list, true, family, literal) {
            return Ok(false);
        }
        if !has_tagged(list, false, family, literal) {
            return Ok(false);
        }
        is_accepted(self.check_gap(members))
    }

    /// Whether the certificate of an answer shows its verdict on a literal in a family.
    fn shows(&self, family: Family, literal: &Literal, answer: &Answer) -> Result<bool, Memory>
        ensures { IfOk result (λ b. (T : TheoryLists) → StandsFor self.now T
            → (IsTrue b ↔ Shows T family literal.now answer.now.verdict answer.now.certificate)) }
    {
        match &answer.certificate {
            Certificate::Derivation(steps) => match answer.verdict {
                Verdict::Proved => self.derives_last(true, family, literal, steps),
                Verdict::Refuted => self.derives_last(false, family, literal, steps),
                Verdict::Neither => Ok(false),
            },
            Certificate::Gap(members) => match answer.verdict {
                Verdict::Proved => Ok(false),
                Verdict::Refuted => Ok(false),
                Verdict::Neither => self.leaves_open(family, literal, members),
            },
        }
    }

    /// Checks an answer about a literal in a family as a whole, and accepts it exactly where its certificate shows its verdict: a
    /// derivation that ends with the tagged literal that the verdict says, or a gap with both tags of the literal.
    pub fn accept(
        &self,
        family: Family,
        literal: &Literal,
        answer: &Answer,
    ) -> Result<Option<Accepted>, Memory>
        ensures answer { (T : TheoryLists) → StandsFor self.now T → AnswersCheck T family literal.now answer.now result }

        // What is accepted is true.
        ensures holds { (T : TheoryLists) → StandsFor self.now T
            → IfOk result (λ found. IfSome found (λ accepted. IsVerdict T family literal.now accepted.verdict)) }

        // Each answer that fits is accepted, where there is memory for the check.
        ensures accepts { (T : TheoryLists) → StandsFor self.now T → Fits T family literal.now answer.now → IfOk result IsSome }
    {
        if !self.shows(family, literal, answer)? {
            return Ok(None);
        }
        Ok(Some(Accepted {
            family,
            literal: literal.copy()?,
            verdict: answer.verdict,
        }))
    }
}
