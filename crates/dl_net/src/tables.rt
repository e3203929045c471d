//! The tables that keep a theory by numbers.

ghost use Rattle.std.specs.Prelude.{◌≡◌, [], None, IfOk, IfSome, IfNone, get_or};
ghost use Rattle.dl_theory.specs.Edits.{HasLabel};
ghost use Rattle.dl_rules.specs.Lines.{IsThere};
ghost use Rattle.dl_net.specs.Kept.{AreKept, AreSettled, net_in, theory_in};

use dl_base::Memory;
use dl_graph::Graph;
use dl_lists::{FactNumbers, PairNumbers, RuleLabels};
use dl_lit::Name;
use dl_names::PairedNames;
use dl_pages::Table;
use dl_rows::Region;
use dl_rules::Index;
use dl_sup::Order;
use std::alloc::Global;

/// The numbers of a theory's literals, and its facts, rules and pairs by number. No literal and no rule is kept but by numbers.
pub struct Tables {
    pub(crate) names: PairedNames,
    /// The labels of rules, by number.
    pub(crate) labels: RuleLabels,
    pub(crate) facts: FactNumbers,
    pub(crate) pairs: PairNumbers,
    /// By number of a literal, whether it is a fact.
    pub(crate) marks: Table<bool>,
    pub(crate) index: Index,
    /// The order of the pairs, once one was to be added: it tells whether that would close a cycle.
    pub(crate) order: Option<Order>,
    /// What the last long body met. It is kept for its room, so that an edit makes none by how many names there are.
    pub(crate) seen: Region,
}

impl Drop for Tables {
    fn drop(self) {
        let Tables {
            names: _,
            labels: _,
            facts: _,
            pairs: _,
            marks: _,
            index: _,
            order: _,
            seen: _,
        } = self;
    }
}

impl Tables {
    ghost use Rattle.dl_graph.specs.Numbers.{no_net};

    /// Those of the empty theory. Takes no memory.
    pub(crate) fn make(alloc: Global) -> Tables
        ensures kept { AreKept result }
        ensures settled { AreSettled result }
        ensures net { net_in result ≡ no_net }
    {
        Tables {
            names: PairedNames::make(alloc),
            labels: RuleLabels::make(alloc),
            facts: FactNumbers::make(alloc),
            pairs: PairNumbers::make(alloc),
            marks: Table::make(alloc),
            index: Index::make(alloc),
            order: None,
            seen: Region::none(alloc),
        }
    }

    /// What is read of them.
    #[inline(always)]
    pub(crate) fn graph(&self) -> Graph<'_>
        requires { AreKept self.now }
        ensures { result ≡ net_in self.now }
    {
        Graph::of(
            &self.names,
            &self.labels,
            &self.facts,
            &self.pairs,
            &self.marks,
            &self.index,
        )
    }

    /// The number of the rule with a label; `None` exactly where no rule has it.
    pub(crate) fn find_rule(&self, label: &Name) -> Option<usize>
        requires { AreKept self.now }
        ensures there { IfSome result (λ r. IsThere self.now.index.lines r) }
        ensures label { IfSome result (λ r. get_or self.now.labels.labels r [] ≡ label.now) }
        ensures absent { IfNone result (¬ HasLabel (theory_in self.now) label.now) }
    {
        self.graph().find_rule(label)
    }

    /// From here on a copy shares all that is there but names that no earlier copy had. What an edit was to take memory for is forgotten. Where
    /// memory for that lacks a copy only costs more, and no clause tells what is shared.
    pub(crate) fn freeze(&mut self)
        requires kept { AreKept self.old }
        requires settled { AreSettled self.old }
        ensures kept { AreKept self.new }
        ensures settled { AreSettled self.new }
        ensures net { net_in self.new ≡ net_in self.old }
        ensures pairs { self.new.pairs.items ≡ self.old.pairs.items }
        ensures order { self.new.order ≡ self.old.order }
    {
        self.names.freeze();
        self.labels.freeze();
        self.facts.freeze();
        self.pairs.freeze();
        // without memory for that the marks are copied
        let _marks = self.marks.freeze();
        self.index.freeze();
    }

    /// The same tables once more, without the order of the pairs. What was frozen is shared, at the cost of a pointer for each page, and all else
    /// is copied. `Memory` where there is none for that.
    pub(crate) fn copy(&self) -> Result<Tables, Memory>
        requires kept { AreKept self.now }
        requires settled { AreSettled self.now }
        ensures kept { IfOk result AreKept }
        ensures settled { IfOk result AreSettled }
        ensures net { IfOk result (λ copy. net_in copy ≡ net_in self.now) }
        ensures pairs { IfOk result (λ copy. copy.pairs.items ≡ self.now.pairs.items) }
    {
        let names = self.names.copy()?;
        let labels = self.labels.copy()?;
        let facts = self.facts.copy()?;
        let pairs = self.pairs.copy()?;
        let marks = self.marks.copy()?;
        let index = self.index.copy()?;
        let seen = Region::none(self.marks.alloc());
        Ok(Tables {
            names,
            labels,
            facts,
            pairs,
            marks,
            index,
            order: None,
            seen,
        })
    }
}
