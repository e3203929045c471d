//! The part of a net's theory that matters for literals with some numbers, at the cost of that part.

ghost use Rattle.std.specs.Prelude.{◌≡◌, ℕ, ◌<◌, [], ◌↔◌, length, map, All, Contains, IfOk, OnOk};
ghost use Rattle.dl_lit.specs.declared.literal.Literal.{Literal};
ghost use Rattle.dl_base.specs.Paths.{IsDistinct};
ghost use Rattle.dl_theory.specs.declared.rule.Pair.{Pair};
ghost use Rattle.dl_theory.specs.declared.rule.Rule.{Rule};
ghost use Rattle.dl_theory.specs.Lists.{no_lists};
ghost use Rattle.dl_graph.specs.Numbers.{HasRule, heads, literal_at, rule_at};
ghost use Rattle.dl_derive.specs.Back.{Is, FromRow, Gains};
ghost use Rattle.dl_derive.specs.Part.{AddsIf, AreRulesFor, HasAllBehind, IsBelow, IsOf, IsPart};

use crate::adding::{add_fact, add_pairs, add_rule};
use crate::below::pairs_below;
use crate::found::Found;
use dl_base::Memory;
use dl_graph::Graph;
use dl_theory::{Pair, Rule, Theory};
use std::alloc::Global;

/// Adds the numbers of the rules with that head.
fn put_heads(net: &Graph<'_>, number: usize, rules: &mut Found) -> Result<(), Memory>
    requires number { number < length net.now.names }
    requires bound { rules.old.bound ≡ length net.now.rules }
    ensures { OnOk result (Gains (FromRow Is (heads net.now number)) rules.old rules.new) }
{
    let _names = net.names();
    for at in 0..net.rule_numbers() {
        match net.heads(number, at) {
            Some(rule) => rules.put(rule)?,
            None => return Ok(()),
        }
    }
    Ok(())
}

/// Adds the numbers of the rules for literals with the numbers.
fn put_all_heads(net: &Graph<'_>, found: &Found, rules: &mut Found) -> Result<(), Memory>
    requires found { All (λ n. n < length net.now.names) found.now.members }
    requires bound { rules.old.bound ≡ length net.now.rules }
    ensures { OnOk result (Gains (FromRow (λ q. FromRow Is (heads net.now q)) found.now.members) rules.old rules.new) }
{
    for at in 0..found.len() {
        match found.at(at) {
            Some(number) => put_heads(net, number, rules)?,
            None => return Ok(()),
        }
    }
    Ok(())
}

/// The numbers of the rules for literals with the numbers.
fn rules_for(alloc: Global, net: &Graph<'_>, found: &Found) -> Result<Found, Memory>
    requires { All (λ n. n < length net.now.names) found.now.members }
    ensures { IfOk result (AreRulesFor net.now found.now.members) }
{
    let _names = net.names();
    let mut rules = Found::make(alloc, net.rule_numbers());
    put_all_heads(net, found, &mut rules)?;
    Ok(rules)
}

/// Adds a literal, where it is a fact.
fn put_fact(net: &Graph<'_>, number: usize, theory: &mut Theory) -> Result<(), Memory>
    requires number { number < length net.now.names }
    requires within { All (Contains net.now.theory.facts) theory.old.facts }
    ensures facts { OnOk result (AddsIf (Contains net.now.theory.facts) (literal_at net.now number) theory.old.facts theory.new.facts) }
    ensures rules { OnOk result (theory.new.rules ≡ theory.old.rules) }
    ensures pairs { OnOk result (theory.new.pairs ≡ theory.old.pairs) }
{
    if net.is_fact(number) {
        let fact = net.literal(number).copy()?;
        return add_fact(net, theory, fact);
    }
    Ok(())
}

/// Adds the facts among the literals with the numbers.
fn put_facts(net: &Graph<'_>, found: &Found, theory: &mut Theory) -> Result<(), Memory>
    requires found { All (λ n. n < length net.now.names) found.now.members }
    requires none { theory.old.facts ≡ [] }
    ensures facts { OnOk result ((q : Literal) → Contains theory.new.facts q ↔ (Contains net.now.theory.facts q × IsOf net.now found.now.members q)) }
    ensures rules { OnOk result (theory.new.rules ≡ theory.old.rules) }
    ensures pairs { OnOk result (theory.new.pairs ≡ theory.old.pairs) }
{
    for at in 0..found.len() {
        match found.at(at) {
            Some(number) => put_fact(net, number, theory)?,
            None => return Ok(()),
        }
    }
    Ok(())
}

/// A copy of the rule with a number.
fn copied_rule(alloc: Global, net: &Graph<'_>, number: usize) -> Result<Rule, Memory>
    requires { HasRule net.now number }
    ensures { IfOk result (λ copy. copy ≡ rule_at net.now number) }
{
    match net.rule(number) {
        Some(rule) => {
            let copy = rule.copy(alloc)?;
            Ok(copy)
        }
        None => unreachable!(),
    }
}

/// Adds the rules with the numbers.
fn put_rules(
    alloc: Global,
    net: &Graph<'_>,
    rules: &Found,
    theory: &mut Theory,
) -> Result<(), Memory>
    requires inside { All (HasRule net.now) rules.now.members }
    requires none { theory.old.rules ≡ [] }
    ensures rules { OnOk result ((r : Rule) → Contains theory.new.rules r ↔ Contains (map (rule_at net.now) rules.now.members) r) }
    ensures facts { OnOk result (theory.new.facts ≡ theory.old.facts) }
    ensures pairs { OnOk result (theory.new.pairs ≡ theory.old.pairs) }
{
    let _names = net.names();
    for at in 0..rules.len() {
        match rules.at(at) {
            Some(number) => {
                let rule = copied_rule(alloc, net, number)?;
                add_rule(net, theory, rule)?;
            }
            None => return Ok(()),
        }
    }
    Ok(())
}

/// Fills an empty theory with what bears on the literals with the numbers, from the rules for them and the pairs between these.
fn fill_part(
    alloc: Global,
    net: &Graph<'_>,
    found: &Found,
    rules: &Found,
    pairs: &[Pair],
    theory: &mut Theory,
) -> Result<(), Memory>
    requires found { All (λ n. n < length net.now.names) found.now.members }
    requires closed { HasAllBehind net.now.theory (IsOf net.now found.now.members) }
    requires rules { AreRulesFor net.now found.now.members rules.now }
    requires distinct { IsDistinct pairs.now }
    requires pairs { (p : Pair) → Contains pairs.now p ↔ IsBelow net.now rules.now.members p }
    requires empty { theory.old ≡ no_lists }
    ensures { OnOk result (IsPart (IsOf net.now found.now.members) net.now.theory theory.new) }
{
    let _names = net.names();
    put_facts(net, found, theory)?;
    put_rules(alloc, net, rules, theory)?;
    add_pairs(net, theory, pairs)?;
    Ok(())
}

/// The same as a theory of its own.
fn part_with(alloc: Global, net: &Graph<'_>, found: &Found, rules: &Found) -> Result<Theory, Memory>
    requires found { All (λ n. n < length net.now.names) found.now.members }
    requires closed { HasAllBehind net.now.theory (IsOf net.now found.now.members) }
    requires rules { AreRulesFor net.now found.now.members rules.now }
    ensures { IfOk result (IsPart (IsOf net.now found.now.members) net.now.theory) }
{
    let pairs = pairs_below(alloc, net, rules)?;
    let mut theory = Theory::make(alloc);
    let filled = fill_part(alloc, net, found, rules, pairs.as_slice(), &mut theory);
    drop(pairs);
    match filled {
        Ok(()) => Ok(theory),
        Err(_) => {
            drop(theory);
            Err(Memory)
        }
    }
}

/// The theory that has of the net's all that bears on the literals with the numbers. `Memory` where there is none for it.
pub(crate) fn part(alloc: Global, net: &Graph<'_>, found: &Found) -> Result<Theory, Memory>
    requires found { All (λ n. n < length net.now.names) found.now.members }
    requires closed { HasAllBehind net.now.theory (IsOf net.now found.now.members) }
    ensures { IfOk result (IsPart (IsOf net.now found.now.members) net.now.theory) }
{
    let rules = rules_for(alloc, net, found)?;
    let part = part_with(alloc, net, found, &rules);
    drop(rules);
    part
}
