//! Theories under edits.

ghost use Rattle.std.specs.Prelude.{◌≡◌, ◌<◌, length, slice_get, slice_index_or, OnOk, OnErr, IfOk, IfErr, IfSome, IfNone, ◌↔◌, IsTrue, All, map, Contains, ◌++◌, ◌∷◌, [], filter, not, false, if◌then◌else◌};
ghost use Rattle.dl_base.specs.Paths.{IsDistinct};
ghost use Rattle.dl_lit.specs.Literal.{literal_eq};
ghost use Rattle.std.specs.Option.{option_copied};

use crate::edit::{Edit, EditRefusal, EditStop, PairsStop};
use crate::rule::{Pair, Rule};
use crate::rule_pairs::RulePairs;
use crate::rules::Rules;
use crate::superiority::{PairStop, Superiority};
use dl_lit::{Literal, Memory, Name, NameSet, name_set};
use std::alloc::Global;
use std::marker::Model;

/// So many facts, so many rules and so many pairs a theory has at most.
pub const LIMIT: usize = 1_000_000;

/// Facts, rules with distinct labels, and pairs of labels.
pub struct Theory {
    facts: NameSet<Literal>,
    rules: Rules,
    pairs: Superiority,
}

impl Drop for Theory {
    fn drop(self) {
        let Theory {
            facts: _,
            rules: _,
            pairs: _,
        } = self;
    }
}

impl Model for Theory {
    ghost use Rattle.dl_theory.specs.Lists.{TheoryLists};

    ghost Value = { TheoryLists };

    ghost use Rattle.dl_theory.specs.Kept.{lists_of, IsKept};

    ghost view = { lists_of };

    ghost invariant = { IsKept };
}

impl Theory {
    ghost use Rattle.dl_theory.specs.Lists.{labels, no_lists, IsAbove, IsWellFormed};
    ghost use Rattle.dl_theory.specs.Edits.{after_edit, HasLabel, IsAccepted, IsStopped, IsEdited, IsPairsOutcome};
    ghost use Rattle.dl_theory.specs.Pairs.{named, IsWithin};

    /// The empty theory.
    pub fn make(alloc: Global) -> Theory
        ensures { result ≡ no_lists }
    {
        Theory {
            facts: name_set(alloc),
            rules: Rules::make(alloc),
            pairs: Superiority::make(alloc),
        }
    }

    /// How many facts there are.
    pub fn facts_len(&self) -> usize
        ensures value { result ≡ length self.now.facts }
        ensures well_formed { IsWellFormed self.now }
    {
        self.facts.len()
    }

    /// How many rules there are.
    pub fn rules_len(&self) -> usize
        ensures value { result ≡ length self.now.rules }
        ensures well_formed { IsWellFormed self.now }
    {
        self.rules.len()
    }

    /// How many pairs there are.
    pub fn pairs_len(&self) -> usize
        ensures value { result ≡ length self.now.pairs }
        ensures well_formed { IsWellFormed self.now }
    {
        self.pairs.len()
    }

    /// The fact at a place; `None` exactly past the end.
    pub fn fact(&self, at: usize) -> Option<&Literal>
        ensures value { option_copied result ≡ slice_get self.now.facts at }
        ensures well_formed { IsWellFormed self.now }
    {
        self.facts.get_index(at)
    }

    /// The rule at a place; `None` exactly past the end.
    pub fn rule(&self, at: usize) -> Option<&Rule>
        ensures value { option_copied result ≡ slice_get self.now.rules at }
        ensures well_formed { IsWellFormed self.now }
    {
        self.rules.get(at)
    }

    /// The facts, in order.
    pub fn facts(&self) -> &[Literal]
        ensures value { result.now ≡ self.now.facts }
        ensures well_formed { IsWellFormed self.now }
    {
        self.facts.as_slice()
    }

    /// The rules, in order.
    pub fn rules(&self) -> &[Rule]
        ensures value { result.now ≡ self.now.rules }
        ensures well_formed { IsWellFormed self.now }
    {
        self.rules.as_slice()
    }

    /// The pairs, in order.
    pub fn pairs(&self) -> &[Pair]
        ensures value { result.now ≡ self.now.pairs }
        ensures well_formed { IsWellFormed self.now }
    {
        self.pairs.as_slice()
    }

    /// The pair at a place; `None` exactly past the end.
    pub fn pair(&self, at: usize) -> Option<&Pair>
        ensures value { option_copied result ≡ slice_get self.now.pairs at }
        ensures well_formed { IsWellFormed self.now }
    {
        self.pairs.get(at)
    }

    /// The pairs by the places of their rules.
    pub fn rule_pairs(&self) -> Result<RulePairs, Memory>
        ensures named { IfOk result (λ pairs. map (named (labels self.now)) pairs ≡ self.now.pairs) }
        ensures within { IfOk result (All (IsWithin (labels self.now))) }
        ensures well_formed { IsWellFormed self.now }
    {
        let links = self.pairs.links(self.rules.labels())?;
        Ok(RulePairs::of(links))
    }

    /// The place of the rule with a label; `None` exactly where no rule has it.
    pub fn rule_place(&self, label: &Name) -> Option<usize>
        ensures within { IfSome result (λ at. at < length self.now.rules) }
        ensures there { IfSome result (λ at. slice_index_or (labels self.now) at [] ≡ label.now) }
        ensures absent { IfNone result (¬ HasLabel self.now label.now) }
        ensures well_formed { IsWellFormed self.now }
    {
        self.rules.place(label)
    }

    /// Whether a literal is a fact.
    pub fn has_fact(&self, fact: &Literal) -> bool
        ensures value { IsTrue result ↔ Contains self.now.facts fact.now }
        ensures well_formed { IsWellFormed self.now }
    {
        holds(&self.facts, fact)
    }

    /// Whether a pair is in the list.
    pub fn has_pair(&self, pair: &Pair) -> bool
        ensures value { IsTrue result ↔ Contains self.now.pairs pair.now }
        ensures well_formed { IsWellFormed self.now }
    {
        self.pairs.has(pair)
    }

    /// Whether the pair of two labels is in the list.
    pub fn is_above(&self, upper: &Name, lower: &Name) -> bool
        ensures value { IsTrue result ↔ IsAbove self.now.pairs upper.now lower.now }
        ensures well_formed { IsWellFormed self.now }
    {
        self.pairs.is_above(upper, lower)
    }

    /// Makes an edit, or says why not.
    pub fn apply(&mut self, edit: &Edit) -> Result<(), EditStop>
        ensures { IsEdited self.old edit.now self.new result }
    {
        let edit = edit.copy()?;
        self.apply_owned(edit)
    }

    /// Makes an edit that is handed over, or says why not: `apply` without a copy of the edit.
    // inlined always, with what a rule and a fact take: the edit is taken apart where it was made, and not moved
    #[inline(always)]
    pub fn apply_owned(&mut self, edit: Edit) -> Result<(), EditStop>
        ensures { IsEdited self.old edit self.new result }
    {
        match edit {
            Edit::AddRule(rule) => self.add_rule(rule),
            Edit::DropRule(label) => self.drop_rule(label),
            Edit::AddFact(fact) => self.add_fact(fact),
            Edit::DropFact(fact) => self.drop_fact(&fact),
            Edit::AddPair(pair) => self.add_pair(pair),
            Edit::DropPair(pair) => self.drop_pair(&pair),
        }
    }

    /// Adds pairs as adding them one by one, in order, up to the first that is refused.
    pub fn add_pairs(&mut self, pairs: &[Pair]) -> Result<(), PairsStop>
        ensures { IsPairsOutcome self.old pairs.now self.new result }
    {
        let mut links = self.rule_pairs()?;
        let done = links.add_labelled(self.rules.labels(), pairs);
        self.pairs = Superiority::of(self.rules.labels(), links.as_slice())?;
        done
    }

    /// Removes a fact that is there. Takes no memory.
    pub fn remove_fact(&mut self, fact: &Literal)
        requires { IsAccepted self.old (Edit.DropFact fact.now) }
        ensures { self.new ≡ after_edit self.old (Edit.DropFact fact.now) }
    {
        remove(&mut self.facts, fact);
    }

    /// Removes the rule with a label, and the pairs that name it. Takes no memory.
    pub fn remove_rule(&mut self, label: &Name)
        requires { IsAccepted self.old (Edit.DropRule label.now) }
        ensures { self.new ≡ after_edit self.old (Edit.DropRule label.now) }
    {
        self.rules.drop_label(label);
        self.pairs.drop_label(label);
    }

    /// Removes a pair that is there. Takes no memory.
    pub fn remove_pair(&mut self, pair: &Pair)
        requires { IsAccepted self.old (Edit.DropPair pair.now) }
        ensures { self.new ≡ after_edit self.old (Edit.DropPair pair.now) }
    {
        self.pairs.drop_pair(pair);
    }

    /// An equal theory.
    pub fn copy(&self) -> Result<Theory, Memory>
        ensures { IfOk result (λ copy. copy ≡ self.now) }
    {
        let facts = copy_facts(*self.facts.allocator(), self.facts.as_slice())?;
        let rules = self.rules.copy()?;
        let pairs = self.pairs.copy()?;
        Ok(Theory {
            facts,
            rules,
            pairs,
        })
    }

    #[inline(always)]
    pub(crate) fn add_rule(&mut self, rule: Rule) -> Result<(), EditStop>
        ensures { IsEdited self.old (Edit.AddRule rule) self.new result }
    {
        // one look-up tells whether the label is new and puts it in; where the list is full, nothing may be put in
        if self.rules.len() >= LIMIT && !self.rules.has(&rule.label) {
            return Err(EditStop::Refused(EditRefusal::RulesFull));
        }
        match self.rules.add(rule)? {
            None => Ok(()),
            Some(Rule { label, .. }) => Err(EditStop::Refused(EditRefusal::LabelThere(label))),
        }
    }

    fn drop_rule(&mut self, label: Name) -> Result<(), EditStop>
        ensures { IsEdited self.old (Edit.DropRule label) self.new result }
    {
        if !self.rules.has(&label) {
            return Err(EditStop::Refused(EditRefusal::NoLabel(label)));
        }
        self.remove_rule(&label);
        Ok(())
    }

    #[inline(always)]
    pub(crate) fn add_fact(&mut self, fact: Literal) -> Result<(), EditStop>
        ensures { IsEdited self.old (Edit.AddFact fact) self.new result }
    {
        if self.facts.len() >= LIMIT && !holds(&self.facts, &fact) {
            return Err(EditStop::Refused(EditRefusal::FactsFull));
        }
        if !insert(&mut self.facts, fact)? {
            return Err(EditStop::Refused(EditRefusal::FactThere));
        }
        Ok(())
    }

    fn drop_fact(&mut self, fact: &Literal) -> Result<(), EditStop>
        ensures { IsEdited self.old (Edit.DropFact fact.now) self.new result }
    {
        if !holds(&self.facts, fact) {
            return Err(EditStop::Refused(EditRefusal::NoFact));
        }
        self.remove_fact(fact);
        Ok(())
    }

    fn add_pair(&mut self, pair: Pair) -> Result<(), EditStop>
        ensures { IsEdited self.old (Edit.AddPair pair) self.new result }
    {
        let pair = self.with_labels(pair)?;
        if self.pairs.has(&pair) {
            return Err(EditStop::Refused(EditRefusal::PairThere));
        }
        match self.pairs.add(pair) {
            Ok(()) => Ok(()),
            Err(PairStop::Cycle(path)) => Err(EditStop::Refused(EditRefusal::Cycle(path))),
            Err(PairStop::Full) => Err(EditStop::Refused(EditRefusal::PairsFull)),
            Err(PairStop::Memory) => Err(EditStop::Memory),
        }
    }

    /// Gives back a pair of which both labels are those of rules.
    fn with_labels(&self, pair: Pair) -> Result<Pair, EditStop>
        ensures same { IfOk result (λ given. given ≡ pair) }
        ensures there { OnOk result (HasLabel self.now pair.upper × HasLabel self.now pair.lower) }
        ensures stopped { IfErr result (IsStopped self.now (Edit.AddPair pair)) }
    {
        if !self.rules.has(&pair.upper) {
            let Pair { upper, .. } = pair;
            return Err(EditStop::Refused(EditRefusal::NoLabel(upper)));
        }
        if !self.rules.has(&pair.lower) {
            let Pair { lower, .. } = pair;
            return Err(EditStop::Refused(EditRefusal::NoLabel(lower)));
        }
        Ok(pair)
    }

    fn drop_pair(&mut self, pair: &Pair) -> Result<(), EditStop>
        ensures { IsEdited self.old (Edit.DropPair pair.now) self.new result }
    {
        if !self.pairs.has(pair) {
            return Err(EditStop::Refused(EditRefusal::NoPair));
        }
        self.remove_pair(pair);
        Ok(())
    }
}

fn copy_facts(alloc: Global, facts: &[Literal]) -> Result<NameSet<Literal>, Memory>
    requires { IsDistinct facts.now }
    ensures { IfOk result (λ set. set.keys ≡ facts.now) }
{
    let mut set = name_set(alloc);
    for fact in facts {
        append(&mut set, fact.copy()?)?;
    }
    Ok(set)
}

fn holds(facts: &NameSet<Literal>, fact: &Literal) -> bool
    ensures { IsTrue result ↔ Contains facts.now.keys fact.now }
{
    facts.contains(fact)
}

fn append(facts: &mut NameSet<Literal>, fact: Literal) -> Result<(), Memory>
    requires { ¬ Contains facts.old.keys fact }
    ensures ok { OnOk result (facts.new.keys ≡ facts.old.keys ++ fact ∷ []) }
    ensures err { OnErr result (facts.new.keys ≡ facts.old.keys) }
{
    facts.insert(fact)?;
    Ok(())
}

/// Adds a fact at the end where it is new, and tells whether it is.
fn insert(facts: &mut NameSet<Literal>, fact: Literal) -> Result<bool, Memory>
    ensures new { IfOk result (λ new. (new ≡ false) ↔ Contains facts.old.keys fact) }
    ensures keys { IfOk result (λ new. facts.new.keys ≡ facts.old.keys ++ (if new then fact ∷ [] else [])) }
    ensures err { OnErr result (facts.new.keys ≡ facts.old.keys) }
{
    let new = facts.insert(fact)?;
    Ok(new)
}

fn remove(facts: &mut NameSet<Literal>, fact: &Literal) -> bool
    requires { IsDistinct facts.old.keys }
    ensures found { IsTrue result ↔ Contains facts.old.keys fact.now }
    ensures dropped { facts.new.keys ≡ filter (λ x. not (literal_eq x fact.now)) facts.old.keys }
{
    facts.shift_remove(fact)
}
