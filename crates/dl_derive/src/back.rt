//! The literals that matter for one, by number.

ghost use Rattle.std.specs.Prelude.{◌≡◌, ℕ, ◌<◌, length, IfOk, OnOk};
ghost use Rattle.dl_graph.specs.declared.link.Link.TheVariants as link_kind;
ghost use Rattle.dl_graph.specs.Numbers as numbers;
ghost use Rattle.dl_graph.specs.Numbers.{HasRule, attackers_row, heads, literal_at};
ghost use Rattle.dl_derive.specs.Back.{Is, FromRow, Gains, RestsAt, IsBack};

use crate::found::Found;
use dl_base::Memory;
use dl_graph::{Graph, Link, Region};
use std::alloc::Global;

/// Adds what attacks a literal.
fn put_attackers(net: &Graph<'_>, number: usize, found: &mut Found) -> Result<(), Memory>
    requires number { number < length net.now.names }
    requires bound { found.old.bound ≡ length net.now.names }
    ensures { OnOk result (Gains (FromRow Is (attackers_row net.now (literal_at net.now number))) found.old found.new) }
{
    let _names = net.names();
    let mut at = 0;
    while let Some(attacker) = net.attacker(number, at) {
        found.put(attacker)?;
        at += 1;
    }
    Ok(())
}

/// Adds the body of a rule.
fn put_body(net: &Graph<'_>, rule: usize, found: &mut Found) -> Result<(), Memory>
    requires rule { HasRule net.now rule }
    requires bound { found.old.bound ≡ length net.now.names }
    ensures { OnOk result (Gains (FromRow Is (numbers.back net.now link_kind.Uses rule)) found.old found.new) }
{
    let _names = net.names();
    for at in 0..net.back_len(Link::Uses, rule) {
        match net.body_once(rule, at) {
            Some(literal) => found.put(literal)?,
            None => return Ok(()),
        }
    }
    Ok(())
}

/// Adds the bodies of the rules with that head.
fn put_rules(net: &Graph<'_>, number: usize, found: &mut Found) -> Result<(), Memory>
    requires number { number < length net.now.names }
    requires bound { found.old.bound ≡ length net.now.names }
    ensures { OnOk result (Gains (FromRow (λ r. FromRow Is (numbers.back net.now link_kind.Uses r)) (heads net.now number)) found.old found.new) }
{
    let _names = net.names();
    for at in 0..net.rule_numbers() {
        match net.heads(number, at) {
            Some(rule) => put_body(net, rule, found)?,
            None => return Ok(()),
        }
    }
    Ok(())
}

/// Adds what a literal rests on.
fn put_next(net: &Graph<'_>, number: usize, found: &mut Found) -> Result<(), Memory>
    requires number { number < length net.now.names }
    requires bound { found.old.bound ≡ length net.now.names }
    ensures { OnOk result (Gains (RestsAt net.now number) found.old found.new) }
{
    put_attackers(net, number, found)?;
    put_rules(net, number, found)?;
    Ok(())
}

/// The numbers of the literals that matter for one. `Memory` where there is none for them.
pub(crate) fn back(alloc: Global, net: &Graph<'_>, number: usize) -> Result<Found, Memory>
    requires { number < length net.now.names }
    ensures { IfOk result (IsBack net.now number) }
{
    let mut found = Found::make(alloc, net.names());
    found.put(number)?;
    for at in 0..net.names() {
        match found.at(at) {
            Some(next) => put_next(net, next, &mut found)?,
            None => return Ok(found),
        }
    }
    let _len = found.len();
    Ok(found)
}

/// The same numbers, with a bit for each number below the bound.
fn region_of(alloc: Global, found: &Found) -> Result<Region, Memory>
    ensures { IfOk result (λ region. region ≡ found.now) }
{
    let mut region = Region::make(alloc, found.bound())?;
    for at in 0..found.len() {
        match found.at(at) {
            Some(number) => region.put(number),
            None => return Ok(region),
        }
    }
    Ok(region)
}

/// The region of the literals that matter for one. `Memory` where there is none for it.
pub(crate) fn region_behind(alloc: Global, net: &Graph<'_>, number: usize) -> Result<Region, Memory>
    requires { number < length net.now.names }
    ensures { IfOk result (IsBack net.now number) }
{
    let found = back(alloc, net, number)?;
    let region = region_of(alloc, &found)?;
    Ok(region)
}
