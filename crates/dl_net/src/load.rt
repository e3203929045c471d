//! A theory that was loaded becomes the tables of a net: its rules are found by the numbers of their literals, and which of them stand
//! below and above others.

ghost use Rattle.std.specs.Prelude.{◌≡◌, ◌<◌, ◌≤◌, ◌==◌, ◌∷◌, ◌++◌, ℕ, List, [], None, Some, true, false, IfOk, OnOk, OnErr, All, length, map};
ghost use Rattle.dl_base.specs.Paths.{IsDistinct};
ghost use Rattle.dl_theory.specs.declared.rule.Rule.{Rule};
ghost use Rattle.dl_theory.specs.declared.rule.Pair.{Pair};
ghost use Rattle.dl_names.specs.Paired.{flip, IsPaired, IsNear, Grows};
ghost use Rattle.dl_rules.specs.Lines.{KeepsRules, IsThere, IsThereWithin, line_at};
ghost use Rattle.dl_graph.specs.Above.{lower_step, upper_step};
ghost use Rattle.dl_graph.specs.Named.{HasLiterals, line_in};
ghost use Rattle.dl_graph.specs.Numbers.{NetLists, of_rule, lowers_row, uppers_row};
ghost use Rattle.dl_graph.specs.Tables.{AreTables};
ghost use Rattle.dl_lists.specs.Pairs.{no_pairs};
ghost use Rattle.dl_net.specs.Kept.{AreKept, AreSettled, net_in, theory_in};
ghost use Rattle.dl_net.specs.Linking.{HaveRules, AreRules, ArePairs, IsPairOf};
ghost use Rattle.dl_net.specs.Loading.{LoadedLists, IsLoading, tables_of};

use crate::number::number_rule;
use crate::numbered::NumberedTheory;
use crate::tables::Tables;
use dl_base::Memory;
use dl_lists::{FactNumbers, PairNumbers, RuleLabels};
use dl_names::{PairedNames, other};
use dl_rows::Region;
use dl_rules::{BLOCK, Index, Lines, LinkCounts};
use dl_sup::Link;
use dl_theory::{Rule, RulePairs, Theory};
use std::alloc::Global;

impl Tables {
    /// Those of a theory. `Memory` where there is none for them.
    pub(crate) fn of(alloc: Global, theory: &Theory) -> Result<Tables, Memory>
        ensures kept { IfOk result AreKept }
        ensures settled { IfOk result AreSettled }
        ensures theory { IfOk result (λ tables. theory_in tables ≡ theory.now) }
    {
        let loaded = NumberedTheory::of(alloc, theory)?;
        Tables::load(loaded)
    }

    /// Those of a theory that was loaded by numbers. `Memory` where there is none for the lists of its rules.
    pub(crate) fn load(theory: NumberedTheory) -> Result<Tables, Memory>
        ensures kept { IfOk result AreKept }
        ensures settled { IfOk result AreSettled }
        ensures net { IfOk result (λ tables. net_in tables ≡ theory) }
    {
        let NumberedTheory {
            labels,
            order,
            pairs,
            names,
            facts,
            lines,
            seen,
        } = theory;
        let alloc = order.alloc();
        let count = names.len();
        if count > u32::MAX as usize {
            return Err(Memory);
        }
        let index = index_of(alloc, &names, lines, &pairs)?;
        let pairs = pair_numbers(alloc, &pairs)?;
        Ok(Tables {
            names,
            labels: RuleLabels::of(labels),
            facts: FactNumbers::of(order, count),
            pairs,
            marks: facts,
            index,
            order: None,
            seen,
        })
    }
}

/// Room for a rule, whose literals and their complements get numbers.
pub(crate) fn room_for_rule(
    alloc: Global,
    rule: &Rule,
    names: &mut PairedNames,
    seen: &mut Region,
    index: &mut Index,
) -> Result<(), Memory>
    requires { IsPaired names.old.literals }
    ensures paired { IsPaired names.new.literals }
    ensures distinct { IsDistinct names.new.literals }
    ensures grown { Grows (IsNear (rule.now.head ∷ rule.now.body)) names.old.literals names.new.literals }
    ensures there { OnOk result (HasLiterals names.new.literals rule.now) }
    ensures same { HasLiterals names.old.literals rule.now → names.new ≡ names.old }
    ensures kept { KeepsRules index.old index.new }
    ensures ready { OnOk result (index.new.ready ≡ Some (line_in names.new.literals rule.now)) }
{
    let entry = number_rule(alloc, names, seen, rule)?;
    index.widen(names.len())?;
    index.reserve(entry)
}

/// One more rule, whose literals and their complements get numbers.
pub(crate) fn load_rule(
    alloc: Global,
    rule: &Rule,
    names: &mut PairedNames,
    seen: &mut Region,
    lines: &mut Lines,
) -> Result<(), Memory>
    requires { IsPaired names.old.literals }
    ensures paired { IsPaired names.new.literals }
    ensures distinct { IsDistinct names.new.literals }
    ensures grown { Grows (IsNear (rule.now.head ∷ rule.now.body)) names.old.literals names.new.literals }
    ensures there { OnOk result (HasLiterals names.new.literals rule.now) }
    ensures same { HasLiterals names.old.literals rule.now → names.new ≡ names.old }
    ensures lines { OnOk result (lines.new.items ≡ lines.old.items ++ Some (line_in names.new.literals rule.now) ∷ []) }
    ensures kept { OnErr result (lines.new.items ≡ lines.old.items) }
{
    let _names = names.len();
    let entry = number_rule(alloc, names, seen, rule)?;
    lines.reserve()?;
    lines.push(entry);
    Ok(())
}

/// The index of rules that are all there, where these are the pairs.
pub(crate) fn index_of(
    alloc: Global,
    names: &PairedNames,
    lines: Lines,
    pairs: &RulePairs,
) -> Result<Index, Memory>
    requires within { All (IsThereWithin (length names.now.literals)) lines.items }
    requires few { length lines.items ≤ 1000000 }
    requires rules { HaveRules lines.items pairs.now }
    ensures lines { IfOk result (λ index. index.lines ≡ lines.items) }
    ensures tables { IfOk result (λ index. (a : LoadedLists) → a.names ≡ names.now.literals → a.lines ≡ lines.items → a.pairs ≡ pairs.now → IsLoading a → AreTables (record (tables_of a) { index = index })) }
{
    let links = LinkCounts::count(alloc, &lines, pairs)?;
    let mut index = Index::of(alloc, lines, names.len(), &links)?;
    load_pairs(&mut index, names, pairs)?;
    Ok(index)
}

/// Which rules stand below and above each rule, where these are the pairs.
fn load_pairs(index: &mut Index, names: &PairedNames, pairs: &RulePairs) -> Result<(), Memory>
    requires heads { All (IsThereWithin (length names.now.literals)) index.old.lines }
    requires rules { HaveRules index.old.lines pairs.now }
    ensures lines { OnOk result (index.new.lines ≡ index.old.lines) }
    ensures lowers { OnOk result ((N : NetLists) → AreRules N names.now.literals index.old.lines → ArePairs N pairs.now → index.old.lowers ≡ map (λ _. []) N.rules → index.new.lowers ≡ map (of_rule (lowers_row N)) N.rules) }
    ensures uppers { OnOk result ((N : NetLists) → AreRules N names.now.literals index.old.lines → ArePairs N pairs.now → index.old.uppers ≡ map (λ _. []) N.rules → index.new.uppers ≡ map (of_rule (uppers_row N (λ _. true))) N.rules) }
{
    for at in 0..pairs.len() {
        if at % BLOCK == 0 && !have_room(index, pairs, at) {
            return Err(Memory);
        }
        match pairs.rules_of(at) {
            None => unreachable!(),
            Some((upper, lower)) => load_pair(index, names, upper, lower)?,
        }
    }
    Ok(())
}

/// Whether the lists of the next pairs have room. Pairs that are entered one by one would wait for memory one by one, as rules would
/// (`RuleLists::have_room`): to look at many heads and lists before anything is written makes them come together. Where pairs stand in
/// random order that more than halves the time of entering them.
fn have_room(index: &Index, pairs: &RulePairs, from: usize) -> bool
    requires { HaveRules index.now.lines pairs.now }
{
    let end = usize::min(from.saturating_add(BLOCK), pairs.len());
    let mut all = true;
    for at in from..end {
        if let Some((upper, lower)) = pairs.rules_of(at) {
            all &= index.has_room(upper, lower);
        }
    }
    all
}

/// The rules of a pair, below and above each other where their heads attack each other.
fn load_pair(
    index: &mut Index,
    names: &PairedNames,
    upper: usize,
    lower: usize,
) -> Result<(), Memory>
    requires upper { IsThere index.old.lines upper }
    requires lower { IsThere index.old.lines lower }
    requires head { (line_at index.old.lines upper).head < length names.now.literals }
    ensures lines { OnOk result (index.new.lines ≡ index.old.lines) }
    ensures lowers { OnOk result ((N : NetLists) (p : Pair) → AreRules N names.now.literals index.old.lines → IsPairOf N p upper lower → (F : Rule → List ℕ) → index.old.lowers ≡ map (of_rule F) N.rules → index.new.lowers ≡ map (of_rule (λ t. F t ++ lower_step N p t)) N.rules) }
    ensures uppers { OnOk result ((N : NetLists) (p : Pair) → AreRules N names.now.literals index.old.lines → IsPairOf N p upper lower → (F : Rule → List ℕ) → index.old.uppers ≡ map (of_rule F) N.rules → index.new.uppers ≡ map (of_rule (λ u. F u ++ upper_step N p u)) N.rules) }
{
    let _count = names.len();
    if !meet(index, names, upper, lower) {
        return Ok(());
    }
    index.append_link(upper, lower)
}

/// Whether the head of one rule is attacked by that of another.
pub(crate) fn meet(index: &Index, names: &PairedNames, upper: usize, lower: usize) -> bool
    requires upper { IsThere index.now.lines upper }
    requires lower { IsThere index.now.lines lower }
    requires few { (line_at index.now.lines upper).head < length names.now.literals }
    ensures { result ≡ ((line_at index.now.lines lower).head == flip (line_at index.now.lines upper).head) }
{
    let _count = names.len();
    index.head(lower) == other(index.head(upper))
}

/// The same pairs under numbers of their own.
pub(crate) fn pair_numbers(alloc: Global, pairs: &RulePairs) -> Result<PairNumbers, Memory>
    ensures { IfOk result (λ all. all ≡ record no_pairs { items = map Some pairs.now }) }
{
    let mut all = PairNumbers::make(alloc);
    for at in 0..pairs.len() {
        match pairs.rules_of(at) {
            None => unreachable!(),
            Some((upper, lower)) => all.prepare(Link { upper, lower })?,
        }
        all.put();
    }
    Ok(all)
}
