//! Numbers are given anew where most of them are empty.
//!
//! What goes leaves its number empty, so a net whose rules come and go for ever would grow without end. Once more numbers are empty than
//! there are facts, rules, pairs and literals, those that are there get the first numbers, in the order that they have. That takes time
//! by how many numbers there are, and so many had to go before.

ghost use Rattle.std.specs.Prelude.{◌≡◌, ℕ, ◌<◌, ◌⊎◌, IfOk, OnOk, OnErr, Some, All, length, map};
ghost use Rattle.dl_base.specs.Paths.{IsDistinct};
ghost use Rattle.dl_rows.specs.There.{there, HasNumber};
ghost use Rattle.dl_theory.specs.Lists as lists;
ghost use Rattle.dl_theory.specs.Pairs.{named, IsWithin};
ghost use Rattle.dl_net.specs.Anew.{labels_there};
ghost use Rattle.dl_net.specs.Kept.{AreKept, AreSettled, net_in, numbered_anew, theory_in};

use crate::load::{index_of, pair_numbers};
use crate::tables::Tables;
use dl_base::Memory;
use dl_graph::Graph;
use dl_lists::{FactNumbers, RuleLabels};
use dl_lit::{Name, NameSet, name_set};
use dl_pages::Table;
use dl_rules::{Index, Lines};
use dl_theory::{Pair, RulePairs, insert_label};
use std::alloc::Global;

impl Tables {
    /// Gives numbers anew where most are empty. Where there is no memory for that they stay as they are, and each edit that is prepared from
    /// then on tries again, at the cost of a pass over all numbers.
    pub(crate) fn renew(&mut self)
        requires kept { AreKept self.old }
        requires settled { AreSettled self.old }
        ensures kept { AreKept self.new }
        ensures settled { AreSettled self.new }
        ensures net { (net_in self.new ≡ net_in self.old) ⊎ (net_in self.new ≡ numbered_anew (net_in self.old)) }
    {
        if self.is_sparse() {
            // without memory for it nothing is lost but room
            let _renewed = self.number_anew();
        }
    }

    /// Whether more numbers are empty than there are facts, rules, pairs and literals.
    fn is_sparse(&self) -> bool {
        let numbers = sum(self.facts.len(), self.index.len(), self.pairs.len());
        let live = sum(self.facts.live(), self.index.live(), self.pairs.live());
        numbers.saturating_sub(live) > live.saturating_add(self.names.len())
    }

    /// Facts, rules and pairs get numbers anew, in the order that they have, and no number is empty. Literals keep theirs. `Memory`, where
    /// there is none for that, leaves all as it was.
    fn number_anew(&mut self) -> Result<(), Memory>
        requires kept { AreKept self.old }
        requires settled { AreSettled self.old }
        ensures kept { AreKept self.new }
        ensures settled { AreSettled self.new }
        ensures net { OnOk result (net_in self.new ≡ numbered_anew (net_in self.old)) }
        ensures err { OnErr result (net_in self.new ≡ net_in self.old) }
    {
        let alloc = self.marks.alloc();
        let names = self.names.len();
        if names > u32::MAX as usize {
            return Err(Memory);
        }
        let order = facts_in_order(alloc, &self.facts)?;
        let labels = labels_in_order(alloc, &self.labels, &self.index)?;
        let lines = lines_in_order(alloc, &self.index)?;
        let links = self.pairs_anew(&labels)?;
        let index = index_of(alloc, &self.names, lines, &links)?;
        let pairs = pair_numbers(alloc, &links)?;
        self.labels = RuleLabels::of(labels);
        self.facts = FactNumbers::of(order, names);
        self.pairs = pairs;
        self.index = index;
        self.order = None;
        Ok(())
    }

    /// The pairs that are there, by the places of the labels of rules.
    fn pairs_anew(&self, labels: &NameSet<Name>) -> Result<RulePairs, Memory>
        requires kept { AreKept self.now }
        requires labels { labels.now.keys ≡ lists.labels (theory_in self.now) }
        ensures named { IfOk result (λ links. map (named labels.now.keys) links ≡ (theory_in self.now).pairs) }
        ensures within { IfOk result (All (IsWithin labels.now.keys)) }
    {
        let alloc = self.marks.alloc();
        let pairs = pairs_in_order(alloc, &self.graph())?;
        let mut links = RulePairs::make(alloc);
        match links.add_labelled(labels, pairs.as_slice()) {
            Ok(()) => Ok(links),
            Err(_) => Err(Memory),
        }
    }
}

fn sum(facts: usize, rules: usize, pairs: usize) -> usize {
    facts.saturating_add(rules).saturating_add(pairs)
}

/// The literals of the facts that are there.
fn facts_in_order(alloc: Global, facts: &FactNumbers) -> Result<Table<u32>, Memory>
    requires { (q n : ℕ) → HasNumber facts.now.items q n → q < 4294967296 }
    ensures { IfOk result (λ order. order.items ≡ there facts.now.items) }
{
    let mut order = Table::make(alloc);
    for number in 0..facts.len() {
        if let Some(literal) = facts.at(number) {
            order.reserve(1)?;
            order.push(literal as u32);
        }
    }
    Ok(order)
}

/// The labels of the rules that are there.
fn labels_in_order(
    alloc: Global,
    labels: &RuleLabels,
    index: &Index,
) -> Result<NameSet<Name>, Memory>
    requires as_long { length labels.now.labels ≡ length index.now.lines }
    requires distinct { IsDistinct (labels_there labels.now.labels index.now.lines) }
    ensures { IfOk result (λ set. set.keys ≡ labels_there labels.now.labels index.now.lines) }
{
    let mut set = name_set(alloc);
    set.reserve(index.live())?;
    for number in 0..index.len() {
        if index.is_there(number) {
            insert_label(&mut set, labels.label(number).copy()?)?;
        }
    }
    Ok(set)
}

/// The rules that are there.
fn lines_in_order(alloc: Global, index: &Index) -> Result<Lines, Memory>
    ensures { IfOk result (λ lines. lines.items ≡ map Some (there index.now.lines)) }
{
    let mut lines = Lines::make(alloc);
    for number in 0..index.len() {
        if index.is_there(number) {
            let entry = index.entry(number)?;
            lines.reserve()?;
            lines.push(entry);
        }
    }
    Ok(lines)
}

/// The pairs that are there, with labels of their own.
fn pairs_in_order(alloc: Global, graph: &Graph<'_>) -> Result<Vec<Pair>, Memory>
    ensures { IfOk result (λ pairs. pairs.items ≡ there graph.now.pairs) }
{
    let mut pairs = Vec::new(alloc);
    for number in 0..graph.pair_numbers() {
        if let Some(pair) = graph.pair(number) {
            let upper = pair.upper.copy()?;
            let lower = pair.lower.copy()?;
            pairs.push(Pair { upper, lower })?;
        }
    }
    Ok(pairs)
}
