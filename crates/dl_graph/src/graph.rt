//! A theory by numbers, borrowed from the tables that keep it.

ghost use Rattle.std.specs.Prelude.{◌≡◌, ◌<◌, ◌↔◌, IsTrue, IfSome, IfNone, None, Contains, length, position, get_or, slice_get};
ghost use Rattle.std.specs.Option.{option_map};
ghost use Rattle.dl_lit.specs.Borrowed.{literal_of};
ghost use Rattle.dl_lit.specs.Literal.{literal_eq};
ghost use Rattle.dl_theory.specs.Edits.{HasLabel};
ghost use Rattle.dl_theory.specs.Lists.{IsWellFormed};
ghost use Rattle.dl_graph.specs.Tables.{net_of, AreTables};
ghost use Rattle.dl_graph.specs.Borrowed.{pair_of};

use crate::pair_ref::PairRef;
use crate::rule_ref::RuleRef;
use dl_lists::{FactNumbers, PairNumbers, RuleLabels};
use dl_lit::{Literal, LiteralRef, Name};
use dl_names::{PairedNames, other};
use dl_pages::Table;
use dl_rules::Index;
use std::marker::Model;

/// A theory by numbers with its indexes, borrowed from what keeps them.
pub struct Graph<'a> {
    pub(crate) names: &'a PairedNames,
    /// The labels of rules, by number.
    pub(crate) labels: &'a RuleLabels,
    /// The numbers of facts' literals, in the order in which they came.
    pub(crate) facts: &'a FactNumbers,
    pub(crate) pairs: &'a PairNumbers,
    /// By number of a literal, whether it is a fact.
    pub(crate) marks: &'a Table<bool>,
    pub(crate) index: &'a Index,
}

impl Drop for Graph<'_> {
    fn drop(self) {
        let Graph {
            names: _,
            labels: _,
            facts: _,
            pairs: _,
            marks: _,
            index: _,
        } = self;
    }
}

impl<'a> Model for Graph<'a> {
    ghost use Rattle.dl_graph.specs.Numbers.{NetLists};

    ghost Value = { NetLists };

    ghost use Rattle.dl_graph.specs.KeptGraph.{graph_of, IsKeptGraph};

    ghost view = { graph_of };

    ghost invariant = { IsKeptGraph };
}

impl<'a> Graph<'a> {
    ghost use Rattle.dl_graph.specs.Numbers.{HasRule, literal_at, rule_at, IsNumbered, number, number_of_other, is_fact, attackers_row};

    /// What tables that belong together stand for.
    #[inline(always)]
    pub fn of(
        names: &'a PairedNames,
        labels: &'a RuleLabels,
        facts: &'a FactNumbers,
        pairs: &'a PairNumbers,
        marks: &'a Table<bool>,
        index: &'a Index,
    ) -> Graph<'a>
        requires { AreTables (record { names = names.now.literals; labels = labels.now.labels; facts = facts.now.items; pairs = pairs.now.items; marks = marks.now.items; index = index.now }) }
        ensures { result ≡ net_of (record { names = names.now.literals; labels = labels.now.labels; facts = facts.now.items; pairs = pairs.now.items; marks = marks.now.items; index = index.now }) }
    {
        Graph {
            names,
            labels,
            facts,
            pairs,
            marks,
            index,
        }
    }

    /// The number of a literal; `None` exactly where it has none.
    pub fn find(&self, literal: &Literal) -> Option<usize>
        ensures number { result ≡ position (literal_eq literal.now) self.now.names }
        ensures there { IfSome result (λ n. (n < length self.now.names) × (n ≡ number self.now literal.now)) }
        ensures absent { IfNone result (¬ Contains self.now.names literal.now) }
    {
        self.names.find(literal)
    }

    /// The number of the rule with a label; `None` exactly where no rule has it. Takes one look-up.
    pub fn find_rule(&self, label: &Name) -> Option<usize>
        ensures there { IfSome result (λ r. HasRule self.now r) }
        ensures label { IfSome result (λ r. (rule_at self.now r).label ≡ label.now) }
        ensures absent { IfNone result (¬ HasLabel self.now.theory label.now) }
    {
        match self.labels.find(label) {
            None => None,
            Some(number) => {
                if self.index.is_there(number) {
                    Some(number)
                } else {
                    None
                }
            }
        }
    }

    /// How many literals have numbers: all below it.
    pub fn names(&self) -> usize
        ensures len { result ≡ length self.now.names }
        ensures numbered { IsNumbered self.now }
        ensures formed { IsWellFormed self.now.theory }
    {
        self.names.len()
    }

    /// The literal with this number.
    pub fn literal(&self, number: usize) -> LiteralRef<'a>
        requires { number < length self.now.names }
        ensures { literal_of result ≡ literal_at self.now number }
    {
        match self.names.literal(number) {
            Some(literal) => literal,
            None => unreachable!(),
        }
    }

    /// The number of the complement.
    pub fn other(&self, number: usize) -> usize
        requires { number < length self.now.names }
        ensures other { result ≡ number_of_other self.now number }
        ensures within { result < length self.now.names }
    {
        let _count = self.names.len();
        other(number)
    }

    /// The number of the literal at a place among those that attack the literal; `None` exactly where there are not so many.
    pub fn attacker(&self, number: usize, at: usize) -> Option<usize>
        requires { number < length self.now.names }
        ensures { result ≡ slice_get (attackers_row self.now (literal_at self.now number)) at }
    {
        if at == 0 {
            Some(self.other(number))
        } else {
            None
        }
    }

    /// Whether the literal with this number is a fact.
    pub fn is_fact(&self, number: usize) -> bool
        requires { number < length self.now.names }
        ensures { result ≡ is_fact self.now number }
    {
        number < self.marks.len() && *self.marks.at(number)
    }

    /// How many numbers facts have, with those that are empty.
    pub fn fact_numbers(&self) -> usize
        ensures { result ≡ length self.now.facts }
    {
        self.facts.len()
    }

    /// How many numbers rules have, with those that are empty.
    pub fn rule_numbers(&self) -> usize
        ensures { result ≡ length self.now.rules }
    {
        self.index.len()
    }

    /// How many numbers pairs have, with those that are empty.
    pub fn pair_numbers(&self) -> usize
        ensures { result ≡ length self.now.pairs }
    {
        self.pairs.len()
    }

    /// How many facts there are.
    pub fn facts_len(&self) -> usize
        ensures { result ≡ length self.now.theory.facts }
    {
        self.facts.live()
    }

    /// How many rules there are.
    pub fn rules_len(&self) -> usize
        ensures { result ≡ length self.now.theory.rules }
    {
        self.index.live()
    }

    /// How many pairs there are.
    pub fn pairs_len(&self) -> usize
        ensures { result ≡ length self.now.theory.pairs }
    {
        self.pairs.live()
    }

    /// Whether a number has a rule. Past the end none has.
    #[inline(always)]
    pub fn has_rule(&self, number: usize) -> bool
        ensures { IsTrue result ↔ HasRule self.now number }
    {
        self.index.is_there(number)
    }

    /// The fact with a number; `None` exactly where it is empty, and past the end.
    pub fn fact(&self, number: usize) -> Option<LiteralRef<'a>>
        ensures { option_map literal_of result ≡ get_or self.now.facts number None }
    {
        match self.facts.at(number) {
            None => None,
            Some(literal) => self.names.literal(literal),
        }
    }

    /// The rule with a number; `None` exactly where it is empty, and past the end.
    pub fn rule(&self, number: usize) -> Option<RuleRef<'a>>
        ensures { result ≡ get_or self.now.rules number None }
    {
        if !self.index.is_there(number) {
            return None;
        }
        Some(RuleRef {
            label: self.labels.label(number),
            names: self.names,
            index: self.index,
            number,
        })
    }

    /// The label of a rule.
    pub fn label(&self, rule: usize) -> &'a Name
        requires { HasRule self.now rule }
        ensures { result.now ≡ (rule_at self.now rule).label }
    {
        self.labels.label(rule)
    }

    /// The pair with a number; `None` exactly where it is empty, and past the end.
    pub fn pair(&self, number: usize) -> Option<PairRef<'a>>
        ensures { option_map pair_of result ≡ get_or self.now.pairs number None }
    {
        match self.pairs.at(number) {
            None => None,
            Some(link) => Some(PairRef {
                upper: self.labels.label(link.upper),
                lower: self.labels.label(link.lower),
            }),
        }
    }
}
