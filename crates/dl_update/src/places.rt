//! Places for the literals that an edit is the first to name.

ghost use Rattle.std.specs.Prelude.{◌≡◌, ◌+◌, ◌-◌, ◌*◌, ◌<◌, ◌≤◌, ◌∷◌, [], List, ℕ, Contains, IfOk, OnOk, not};
ghost use Rattle.dl_lit.specs.declared.literal.Literal.{Literal};
ghost use Rattle.dl_lit.specs.declared.literal.Tag.{Tag};
ghost use Rattle.dl_theory.specs.Marks.{AreRight};
ghost use Rattle.dl_marks.specs.Marks.{places, marked};
ghost use Rattle.dl_fill.specs.Filled.{stands};
ghost use Rattle.dl_net.specs.Edited.{edit_literals};
ghost use Rattle.dl_graph.specs.Named.{IsPaired, Grows};
ghost use Rattle.dl_update.specs.Bound.{IsWithinNew};
ghost use Rattle.dl_update.specs.Drafts.{IsNew, IsEnough, GrowsBy};

use dl_base::Memory;
use dl_graph::Graph;
use dl_lit::{Literal, Names};
use dl_marks::{Marks, Steps};
use dl_theory::{Edit, Rule};
use std::alloc::Global;
use std::sync::ledger::Ledger;

/// Collects a literal and its complement, where the net does not number them.
fn collect(names: &mut Names, net: &Graph<'_>, literal: &Literal) -> Result<(), Memory>
    requires { IsPaired names.old.literals }
    ensures paired { IsPaired names.new.literals }
    ensures grown { Grows (IsNew net.now.names (literal.now ∷ [])) names.old.literals names.new.literals }
    ensures there { OnOk result ((q : Literal) → IsNew net.now.names (literal.now ∷ []) q → Contains names.new.literals q) }
{
    let _names = net.names();
    match net.find(literal) {
        Some(_) => Ok(()),
        None => names.intern_both(literal),
    }
}

/// Collects literals and their complements, where the net does not number them.
fn collect_all(names: &mut Names, net: &Graph<'_>, literals: &[Literal]) -> Result<(), Memory>
    requires { IsPaired names.old.literals }
    ensures paired { IsPaired names.new.literals }
    ensures grown { Grows (IsNew net.now.names literals.now) names.old.literals names.new.literals }
    ensures there { OnOk result ((q : Literal) → IsNew net.now.names literals.now q → Contains names.new.literals q) }
{
    for literal in literals {
        collect(names, net, literal)?;
    }
    Ok(())
}

/// Collects the literals of a rule and their complements, where the net does not number them.
fn collect_rule(names: &mut Names, net: &Graph<'_>, rule: &Rule) -> Result<(), Memory>
    requires { IsPaired names.old.literals }
    ensures grown { Grows (IsNew net.now.names (rule.now.head ∷ rule.now.body)) names.old.literals names.new.literals }
    ensures there { OnOk result ((q : Literal) → IsNew net.now.names (rule.now.head ∷ rule.now.body) q → Contains names.new.literals q) }
{
    collect(names, net, &rule.head)?;
    collect_all(names, net, rule.body.as_slice())
}

/// Collects the literals of an edit and their complements, where the net does not number them.
fn collect_edit(names: &mut Names, net: &Graph<'_>, edit: &Edit) -> Result<(), Memory>
    requires { IsPaired names.old.literals }
    ensures grown { Grows (IsNew net.now.names (edit_literals edit.now)) names.old.literals names.new.literals }
    ensures there { OnOk result ((q : Literal) → IsNew net.now.names (edit_literals edit.now) q → Contains names.new.literals q) }
{
    match edit {
        Edit::AddRule(rule) => collect_rule(names, net, rule),
        Edit::AddFact(fact) => collect(names, net, fact),
        Edit::DropRule(_) => Ok(()),
        Edit::DropFact(_) => Ok(()),
        Edit::AddPair(_) => Ok(()),
        Edit::DropPair(_) => Ok(()),
    }
}

/// The literals of an edit and their complements that the net does not number, each once.
fn new_names(alloc: Global, net: &Graph<'_>, edit: &Edit) -> Result<Names, Memory>
    ensures grown { IfOk result (λ names. Grows (IsNew net.now.names (edit_literals edit.now)) [] names.literals) }
    ensures there { IfOk result (λ names. (q : Literal) → IsNew net.now.names (edit_literals edit.now) q → Contains names.literals q) }
{
    let mut names = Names::make(alloc);
    collect_edit(&mut names, net, edit)?;
    Ok(names)
}

/// The sum of two counts. `Memory` where there is no number for it.
pub fn sum_of(first: usize, second: usize) -> Result<usize, Memory>
    ensures { IfOk result (λ sum. sum ≡ first + second) }
{
    match first.checked_add(second) {
        Some(sum) => Ok(sum),
        None => Err(Memory),
    }
}

/// So many places at least, of which the new ones have the minus tags, in eight steps for each. `Memory` leaves the marks as they were.
fn lengthen<L: Ledger>(marks: &mut Marks, count: usize, steps: &mut Steps<L>) -> Result<(), Memory>
    ensures enough { OnOk result (count ≤ places marks.new) }
    ensures longer { places marks.old ≤ places marks.new }
    ensures kept { (t : Tag) (n : ℕ) → n < places marks.old → marked marks.new t n ≡ marked marks.old t n }
    ensures fresh { (t : Tag) (n : ℕ) → places marks.old ≤ n → n < places marks.new → marked marks.new t n ≡ not t.plus }
    ensures steps { steps.new ≤ steps.old + 8 * (count - places marks.old) }
{
    if count <= marks.len() {
        return Ok(());
    }
    marks.grown(count, steps)
}

/// Places for the literals that an edit is the first to name, as far as they are missing, so that the marks are right once
/// these have numbers. Gives how many names there may be then. `Memory` where there is none for the places; the marks are
/// right as before.
pub fn grow<L: Ledger>(
    alloc: Global,
    net: &Graph<'_>,
    edit: &Edit,
    marks: &mut Marks,
    steps: &mut Steps<L>,
) -> Result<usize, Memory>
    requires { AreRight net.now.theory net.now.names (places marks.old) (stands marks.old) }
    ensures right { AreRight net.now.theory net.now.names (places marks.new) (stands marks.new) }
    ensures ready { OnOk result ((names : List Literal) → GrowsBy (edit_literals edit.now) net.now.names names → AreRight net.now.theory names (places marks.new) (stands marks.new)) }
    ensures enough { IfOk result (IsEnough net.now.names (edit_literals edit.now)) }
    ensures steps { IsWithinNew net.now.names edit.now steps.old steps.new }
{
    let more = new_names(alloc, net, edit)?;
    let known = net.names();
    let count = sum_of(known, more.len())?;
    lengthen(marks, count, steps)?;
    Ok(count)
}
