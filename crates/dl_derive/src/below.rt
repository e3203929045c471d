//! The pairs between rules whose heads attack each other.

ghost use Rattle.std.specs.Prelude.{◌≡◌, ◌<◌, ◌∷◌, [], ◌++◌, ◌↔◌, length, map, All, Contains, IfOk, IsTrue, OnOk};
ghost use Rattle.dl_base.specs.Paths.{IsDistinct};
ghost use Rattle.dl_theory.specs.declared.rule.Pair.{Pair};
ghost use Rattle.dl_graph.specs.declared.link.Link.TheVariants.{Counters};
ghost use Rattle.dl_graph.specs.Numbers.{HasRule, next};
ghost use Rattle.dl_derive.specs.Part.{Adds, Gathers, IsBelow, pair_at};

use crate::found::Found;
use dl_base::Memory;
use dl_graph::{Graph, Link};
use dl_theory::Pair;
use indexmap::IndexSet;
use std::alloc::Global;

fn has_pair(pairs: &IndexSet<Pair>, pair: &Pair) -> bool
    ensures { IsTrue result ↔ Contains pairs.now.keys pair.now }
{
    pairs.contains(pair)
}

fn append(pairs: &mut IndexSet<Pair>, pair: Pair) -> Result<(), Memory>
    requires { ¬ Contains pairs.old.keys pair }
    ensures { OnOk result (pairs.new.keys ≡ pairs.old.keys ++ pair ∷ []) }
{
    pairs.insert(pair)?;
    Ok(())
}

/// Adds a pair, unless it is there.
fn put_pair(pairs: &mut IndexSet<Pair>, pair: Pair) -> Result<(), Memory>
    requires { IsDistinct pairs.old.keys }
    ensures distinct { OnOk result (IsDistinct pairs.new.keys) }
    ensures added { OnOk result (Adds pair pairs.old.keys pairs.new.keys) }
{
    if has_pair(pairs, &pair) {
        return Ok(());
    }
    append(pairs, pair)?;
    Ok(())
}

/// The pair of the labels of two rules.
fn pair_of(net: &Graph<'_>, upper: usize, lower: usize) -> Result<Pair, Memory>
    requires upper { HasRule net.now upper }
    requires lower { HasRule net.now lower }
    ensures { IfOk result (λ pair. pair ≡ pair_at net.now upper lower) }
{
    let upper = net.label(upper).copy()?;
    let lower = net.label(lower).copy()?;
    Ok(Pair { upper, lower })
}

/// Adds the pairs of a rule and those for what it attacks to which it is superior.
fn put_below(net: &Graph<'_>, rule: usize, pairs: &mut IndexSet<Pair>) -> Result<(), Memory>
    requires rule { HasRule net.now rule }
    requires distinct { IsDistinct pairs.old.keys }
    ensures distinct { OnOk result (IsDistinct pairs.new.keys) }
    ensures pairs { OnOk result (Gathers (map (pair_at net.now rule) (next net.now Counters rule)) pairs.old.keys pairs.new.keys) }
{
    let _names = net.names();
    for at in 0..net.next_len(Link::Counters, rule) {
        let lower = net.next(Link::Counters, rule, at);
        let pair = pair_of(net, rule, lower)?;
        put_pair(pairs, pair)?;
    }
    Ok(())
}

/// The pairs of rules with the numbers and those for what they attack to which they are superior, each once.
pub(crate) fn pairs_below(
    alloc: Global,
    net: &Graph<'_>,
    rules: &Found,
) -> Result<IndexSet<Pair>, Memory>
    requires { All (HasRule net.now) rules.now.members }
    ensures distinct { IfOk result (λ pairs. IsDistinct pairs.keys) }
    ensures pairs { IfOk result (λ pairs. (p : Pair) → Contains pairs.keys p ↔ IsBelow net.now rules.now.members p) }
{
    let mut pairs = IndexSet::new(alloc);
    for at in 0..rules.len() {
        match rules.at(at) {
            Some(rule) => put_below(net, rule, &mut pairs)?,
            None => return Ok(pairs),
        }
    }
    Ok(pairs)
}
