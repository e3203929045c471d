//! A theory that is kept by numbers, without its statements.

ghost use Rattle.std.specs.Prelude.{◌≡◌, ◌++◌, ◌↔◌, List, IsTrue, IfOk, OnOk, All, Contains, false, get_or};
ghost use Rattle.dl_lit.specs.declared.literal.Literal.{Literal};
ghost use Rattle.dl_theory.specs.declared.edit.Edit.TheVariants.{AddRule, AddFact};
ghost use Rattle.dl_theory.specs.declared.rule.Rule.{Rule};
ghost use Rattle.dl_theory.specs.Lists.{TheoryLists};
ghost use Rattle.dl_theory.specs.Edits.{HasLabel, IsStopped, IsEdited};
ghost use Rattle.dl_graph.specs.Named.{HasFacts};

use crate::load::load_rule;
use crate::number::number_fact;
use dl_base::Memory;
use dl_lit::{Literal, Name, NameSet, name_set};
use dl_names::PairedNames;
use dl_pages::Table;
use dl_rows::Region;
use dl_rules::Lines;
use dl_theory::{
    Body, EditRefusal, EditStop, LIMIT, Loading, Pair, PairsStop, Rule, RulePairs, Theory,
    holds_label, insert_label,
};
use std::alloc::Global;
use std::marker::Model;

/// A theory by numbers, which grows by facts and rules. No rule is kept but by the numbers of its literals, so that each
/// literal stands once in memory.
#[derive(Drop)]
pub struct NumberedTheory {
    /// The labels of the rules, by the number of the rule.
    pub(crate) labels: NameSet<Name>,
    /// The facts by number, in the order in which they came.
    pub(crate) order: Table<u32>,
    pub(crate) pairs: RulePairs,
    pub(crate) names: PairedNames,
    /// By number, whether the literal is a fact.
    pub(crate) facts: Table<bool>,
    /// The rules by the numbers of their literals. They are found by these when all are there.
    pub(crate) lines: Lines,
    /// What the last long body met.
    pub(crate) seen: Region,
}

impl Model for NumberedTheory {
    ghost use Rattle.dl_graph.specs.Numbers.{NetLists};

    ghost Value = { NetLists };

    ghost use Rattle.dl_net.specs.KeptNumbered.{numbered_of, IsKeptNumbered};

    ghost view = { numbered_of };

    ghost invariant = { IsKeptNumbered };
}

impl NumberedTheory {
    ghost use Rattle.dl_graph.specs.Numbers.{no_net};

    /// The empty theory.
    pub fn make(alloc: Global) -> NumberedTheory
        ensures { result ≡ no_net }
    {
        NumberedTheory {
            labels: name_set(alloc),
            order: Table::make(alloc),
            pairs: RulePairs::make(alloc),
            names: PairedNames::make(alloc),
            facts: Table::make(alloc),
            lines: Lines::make(alloc),
            seen: Region::none(alloc),
        }
    }

    /// An equal theory by numbers. `Memory` where there is none for it.
    pub(crate) fn of(alloc: Global, theory: &Theory) -> Result<NumberedTheory, Memory>
        ensures { IfOk result (λ loaded. loaded.theory ≡ theory.now) }
    {
        let mut loaded = NumberedTheory::make(alloc);
        loaded.put_facts(theory.facts())?;
        loaded.put_rules(theory.rules())?;
        loaded.pairs = theory.rule_pairs()?;
        Ok(loaded)
    }

    /// Adds the facts of a theory.
    fn put_facts(&mut self, facts: &[Literal]) -> Result<(), Memory>
        ensures { OnOk result (self.new.theory ≡ record self.old.theory { facts = self.old.theory.facts ++ facts.now }) }
    {
        for fact in facts {
            if self.put_fact(fact).is_err() {
                return Err(Memory);
            }
        }
        Ok(())
    }

    /// Adds the rules of a theory.
    fn put_rules(&mut self, rules: &[Rule]) -> Result<(), Memory>
        ensures { OnOk result (self.new.theory ≡ record self.old.theory { rules = self.old.theory.rules ++ rules.now }) }
    {
        for rule in rules {
            if self.put_rule(rule).is_err() {
                return Err(Memory);
            }
        }
        Ok(())
    }

    /// Adds a fact, or says why not.
    // inlined always, as what takes a rule: the statement is taken apart where it was made, and not moved
    #[inline(always)]
    fn put_fact(&mut self, fact: &Literal) -> Result<(), EditStop>
        ensures { IsEdited self.old.theory (AddFact fact.now) self.new.theory result }
    {
        let _count = self.names.len();
        // one look-up tells whether the fact is new and numbers it; where the list is full, nothing may be numbered
        if self.order.len() >= LIMIT && !holds_fact(&self.names, &self.facts, fact) {
            return Err(EditStop::Refused(EditRefusal::FactsFull));
        }
        let number = number_fact(&mut self.names, &mut self.facts, fact)?;
        if is_marked(&self.facts, number as usize) {
            return Err(EditStop::Refused(EditRefusal::FactThere));
        }
        self.order.reserve(1)?;
        self.facts.own(number as usize)?;
        self.order.push(number);
        let _off = self.facts.put(number as usize, true);
        Ok(())
    }

    /// Adds a rule, or says why not.
    #[inline(always)]
    fn put_rule(&mut self, rule: &Rule) -> Result<(), EditStop>
        ensures { IsEdited self.old.theory (AddRule rule.now) self.new.theory result }
    {
        let _names = self.names.len();
        let count = self.labels.len();
        if count >= LIMIT && !holds_label(&self.labels, &rule.label) {
            return Err(EditStop::Refused(EditRefusal::RulesFull));
        }
        let label = rule.label.copy()?;
        let new = insert_label(&mut self.labels, label)?;
        if !new {
            return Err(label_there(&rule.label));
        }
        let alloc = self.order.alloc();
        match load_rule(
            alloc,
            rule,
            &mut self.names,
            &mut self.seen,
            &mut self.lines,
        ) {
            Ok(()) => Ok(()),
            Err(Memory) => {
                self.labels.truncate(count);
                Err(EditStop::Memory)
            }
        }
    }
}

impl Loading for NumberedTheory {
    ghost lists = { λ n. n.theory };

    #[inline(always)]
    fn add_fact(&mut self, fact: Literal) -> Result<(), EditStop> {
        self.put_fact(&fact)
    }

    #[inline(always)]
    fn add_rule(&mut self, rule: Rule) -> Result<Option<Body>, EditStop> {
        match self.put_rule(&rule) {
            Ok(()) => {
                let Rule {
                    label: _,
                    kind: _,
                    body,
                    head: _,
                } = rule;
                Ok(Some(body))
            }
            Err(stop) => Err(stop),
        }
    }

    fn add_pairs(&mut self, pairs: &[Pair]) -> Result<(), PairsStop> {
        self.pairs.add_labelled(&self.labels, pairs)
    }
}

/// The refusal of a label that is there, or `Memory` where there is none for it.
fn label_there(label: &Name) -> EditStop
    ensures { (T : TheoryLists) (r : Rule) → r.label ≡ label.now → HasLabel T r.label → IsStopped T (AddRule r) result }
{
    match label.copy() {
        Ok(label) => EditStop::Refused(EditRefusal::LabelThere(label)),
        Err(Memory) => EditStop::Memory,
    }
}

/// Whether a literal is a fact, by the marks of facts.
fn holds_fact(names: &PairedNames, marks: &Table<bool>, fact: &Literal) -> bool
    ensures { (qs : List Literal) → All (Contains names.now.literals) qs → HasFacts names.now.literals qs marks.now.items → (IsTrue result ↔ Contains qs fact.now) }
{
    match names.find(fact) {
        None => false,
        Some(number) => is_marked(marks, number),
    }
}

/// Whether a number is marked. One past the end is not.
fn is_marked(marks: &Table<bool>, number: usize) -> bool
    ensures { result ≡ get_or marks.now.items number false }
{
    number < marks.len() && *marks.at(number)
}
