//! What a theory is loaded into.

ghost use Rattle.dl_theory.specs.Lists.{TheoryLists};
ghost use Rattle.dl_theory.specs.Edits.{IsEdited, IsPairsOutcome};

use crate::edit::{Edit, EditStop, PairsStop};
use crate::lists::Body;
use crate::rule::{Pair, Rule};
use crate::theory::Theory;
use dl_lit::Literal;

/// What a theory can be loaded into: facts and rules one by one, and then pairs.
pub trait Loading: Drop {
    /// The facts, rules and pairs so far.
    ghost lists: { Self → TheoryLists };

    /// Adds a fact, or says why not.
    fn add_fact(&mut self, fact: Literal) -> Result<(), EditStop>
        ensures { IsEdited (lists self.old) (Edit.AddFact fact) (lists self.new) result };

    /// Adds a rule, or says why not. Gives the rule's body back where it was not kept, since its room can serve the next rule.
    fn add_rule(&mut self, rule: Rule) -> Result<Option<Body>, EditStop>
        ensures { IsEdited (lists self.old) (Edit.AddRule rule) (lists self.new) result };

    /// Adds pairs as adding them one by one, in order, up to the first that is refused.
    fn add_pairs(&mut self, pairs: &[Pair]) -> Result<(), PairsStop>
        ensures { IsPairsOutcome (lists self.old) pairs.now (lists self.new) result };
}

impl Loading for Theory {
    ghost lists = { λ t. t };

    #[inline(always)]
    fn add_fact(&mut self, fact: Literal) -> Result<(), EditStop> {
        Theory::add_fact(self, fact)
    }

    #[inline(always)]
    fn add_rule(&mut self, rule: Rule) -> Result<Option<Body>, EditStop> {
        Theory::add_rule(self, rule)?;
        Ok(None)
    }

    fn add_pairs(&mut self, pairs: &[Pair]) -> Result<(), PairsStop> {
        Theory::add_pairs(self, pairs)
    }
}
