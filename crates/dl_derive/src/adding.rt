//! A theory that gets what the theory of a net has. None of that is refused.

ghost use Rattle.std.specs.Prelude.{◌≡◌, ℕ, [], All, Contains, OnOk};
ghost use Rattle.dl_base.specs.Paths.{IsDistinct};
ghost use Rattle.dl_theory.specs.declared.edit.EditRefusal.{EditRefusal};
ghost use Rattle.dl_theory.specs.declared.edit.EditStop.{EditStop};
ghost use Rattle.dl_theory.specs.declared.edit.PairsStop.{PairsStop};
ghost use Rattle.dl_theory.specs.Edits.{HasBoth};
ghost use Rattle.dl_derive.specs.Part.{Adds};

use dl_base::Memory;
use dl_graph::Graph;
use dl_lit::Literal;
use dl_theory::{Edit, EditStop, Pair, PairsStop, Rule, Theory};

/// Nothing stops an edit that is not refused but want of memory.
fn only_memory(stop: EditStop) -> Memory
    requires { (x : EditRefusal) → ¬ (stop ≡ EditStop.Refused x) }
{
    match stop {
        EditStop::Memory => Memory,
        EditStop::Refused(_) => unreachable!(),
    }
}

/// The same where pairs are added.
fn only_memory_for_pairs(stop: PairsStop) -> Memory
    requires { (at : ℕ) (x : EditRefusal) → ¬ (stop ≡ PairsStop.Refused at x) }
{
    match stop {
        PairsStop::Memory => Memory,
        PairsStop::Refused { .. } => unreachable!(),
    }
}

/// Adds a fact of the net, unless it is there.
pub(crate) fn add_fact(net: &Graph<'_>, theory: &mut Theory, fact: Literal) -> Result<(), Memory>
    requires within { All (Contains net.now.theory.facts) theory.old.facts }
    requires there { Contains net.now.theory.facts fact }
    ensures facts { OnOk result (Adds fact theory.old.facts theory.new.facts) }
    ensures rules { OnOk result (theory.new.rules ≡ theory.old.rules) }
    ensures pairs { OnOk result (theory.new.pairs ≡ theory.old.pairs) }
{
    let _names = net.names();
    if theory.has_fact(&fact) {
        return Ok(());
    }
    match theory.apply_owned(Edit::AddFact(fact)) {
        Ok(()) => Ok(()),
        Err(stop) => Err(only_memory(stop)),
    }
}

/// Adds a rule of the net, unless it is there.
pub(crate) fn add_rule(net: &Graph<'_>, theory: &mut Theory, rule: Rule) -> Result<(), Memory>
    requires within { All (Contains net.now.theory.rules) theory.old.rules }
    requires there { Contains net.now.theory.rules rule }
    ensures rules { OnOk result (Adds rule theory.old.rules theory.new.rules) }
    ensures facts { OnOk result (theory.new.facts ≡ theory.old.facts) }
    ensures pairs { OnOk result (theory.new.pairs ≡ theory.old.pairs) }
{
    let _names = net.names();
    match theory.rule_place(&rule.label) {
        Some(_) => return Ok(()),
        None => {}
    }
    match theory.apply_owned(Edit::AddRule(rule)) {
        Ok(()) => Ok(()),
        Err(stop) => Err(only_memory(stop)),
    }
}

/// Adds pairs of the net to a theory without pairs.
pub(crate) fn add_pairs(net: &Graph<'_>, theory: &mut Theory, pairs: &[Pair]) -> Result<(), Memory>
    requires distinct { IsDistinct pairs.now }
    requires within { All (Contains net.now.theory.pairs) pairs.now }
    requires labelled { All (HasBoth theory.old) pairs.now }
    requires none { theory.old.pairs ≡ [] }
    ensures pairs { OnOk result (theory.new.pairs ≡ pairs.now) }
    ensures facts { OnOk result (theory.new.facts ≡ theory.old.facts) }
    ensures rules { OnOk result (theory.new.rules ≡ theory.old.rules) }
{
    let _names = net.names();
    match theory.add_pairs(pairs) {
        Ok(()) => Ok(()),
        Err(stop) => Err(only_memory_for_pairs(stop)),
    }
}
