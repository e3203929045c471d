//! What the gates of literals read.

ghost use Rattle.std.specs.Prelude.{◌≡◌, ℕ, ◌<◌, ◌≤◌, ◌&&◌, ◌||◌, not, false, true, length, IsTrue};
ghost use Rattle.dl_marks.specs.Marks.{places, marked};
ghost use Rattle.dl_graph.specs.Numbers as numbers;
ghost use Rattle.dl_fill.specs.Before as before;
ghost use Rattle.dl_fill.specs.Before.{before_of, on_gate, off_gate, plus_gate, minus_gate, some_gate, each_gate};

use crate::wire::Gate;
use dl_graph::{Graph, Link, Region};
use dl_lit::{Family, Tag};
use dl_marks::Marks;

/// Whether the number is in the region.
pub fn is_inside(region: &Region, number: usize) -> bool
    requires { number < region.now.bound }
    ensures { result ≡ before.is_inside region.now.members number }
{
    region.holds(number)
}

/// Whether all numbers are in the region.
pub fn is_everywhere(net: &Graph<'_>, region: &Region) -> bool
    requires { region.now.bound ≡ length net.now.names }
    ensures { IsTrue result → (q : ℕ) → q < length net.now.names → before.is_inside region.now.members q ≡ true }
{
    region.len() == net.names()
}

/// Whether each literal that attacks it is refuted in the definite family.
pub fn attack_fails(net: &Graph<'_>, marks: &Marks, number: usize) -> bool
    requires number { number < length net.now.names }
    requires room { length net.now.names ≤ places marks.now }
    ensures { result ≡ before.attack_fails net.now (marked marks.now) number }
{
    let tag = Tag {
        plus: false,
        family: Family::Definite,
    };
    let _names = net.names();
    let mut at = 0;
    while let Some(attacker) = net.attacker(number, at) {
        if !marks.get(tag, attacker) {
            return false;
        }
        at += 1;
    }
    true
}

/// Whether some literal that attacks it is concluded in the definite family.
pub fn attack_holds(net: &Graph<'_>, marks: &Marks, number: usize) -> bool
    requires number { number < length net.now.names }
    requires room { length net.now.names ≤ places marks.now }
    ensures { result ≡ before.attack_holds net.now (marked marks.now) number }
{
    let tag = Tag {
        plus: true,
        family: Family::Definite,
    };
    let _names = net.names();
    let mut at = 0;
    while let Some(attacker) = net.attacker(number, at) {
        if marks.get(tag, attacker) {
            return true;
        }
        at += 1;
    }
    false
}

/// Whether the literal is in the region or has the tag.
fn stands_on(marks: &Marks, region: &Region, tag: Tag, literal: usize) -> bool
    requires bound { literal < region.now.bound }
    requires room { literal < places marks.now }
    ensures { result ≡ (before.is_inside region.now.members literal || marked marks.now tag literal) }
{
    is_inside(region, literal) || marks.get(tag, literal)
}

/// Whether the literal is outside the region and has the tag.
fn stands_off(marks: &Marks, region: &Region, tag: Tag, literal: usize) -> bool
    requires bound { literal < region.now.bound }
    requires room { literal < places marks.now }
    ensures { result ≡ (not (before.is_inside region.now.members literal) && marked marks.now tag literal) }
{
    !is_inside(region, literal) && marks.get(tag, literal)
}

/// Whether each literal of the rule's body that stands outside the region is concluded.
pub fn outside_is_on(
    net: &Graph<'_>,
    marks: &Marks,
    region: &Region,
    family: Family,
    rule: usize,
) -> bool
    requires bound { region.now.bound ≡ length net.now.names }
    requires room { length net.now.names ≤ places marks.now }
    ensures { result ≡ before.outside_is_on net.now (before_of marks.now region.now) family rule }
{
    let _names = net.names();
    if is_everywhere(net, region) {
        return true;
    }
    let tag = Tag { plus: true, family };
    let _len = net.back_len(Link::Uses, rule);
    let mut at = 0;
    while let Some(literal) = net.body_once(rule, at) {
        if !stands_on(marks, region, tag, literal) {
            return false;
        }
        at += 1;
    }
    true
}

/// Whether some literal of the rule's body that stands outside the region is refuted.
pub fn outside_is_off(
    net: &Graph<'_>,
    marks: &Marks,
    region: &Region,
    family: Family,
    rule: usize,
) -> bool
    requires bound { region.now.bound ≡ length net.now.names }
    requires room { length net.now.names ≤ places marks.now }
    ensures { result ≡ before.outside_is_off net.now (before_of marks.now region.now) family rule }
{
    let _names = net.names();
    if is_everywhere(net, region) {
        return false;
    }
    let tag = Tag {
        plus: false,
        family,
    };
    let _len = net.back_len(Link::Uses, rule);
    let mut at = 0;
    while let Some(literal) = net.body_once(rule, at) {
        if stands_off(marks, region, tag, literal) {
            return true;
        }
        at += 1;
    }
    false
}

/// When a rule is on.
pub fn gate_of_on(outside_is_on: bool) -> Gate
    ensures { result ≡ on_gate outside_is_on }
{
    if outside_is_on {
        Gate::Every
    } else {
        Gate::Never
    }
}

/// When a rule is off.
pub fn gate_of_off(outside_is_off: bool) -> Gate
    ensures { result ≡ off_gate outside_is_off }
{
    if outside_is_off {
        Gate::Now
    } else {
        Gate::Either
    }
}

/// When a literal that may prevail is concluded.
pub fn gate_of_plus(surely: bool, attack_fails: bool) -> Gate
    ensures { result ≡ plus_gate surely attack_fails }
{
    if surely {
        Gate::Now
    } else if attack_fails {
        Gate::Every
    } else {
        Gate::Never
    }
}

/// When a literal that may fail is refuted.
pub fn gate_of_minus(surely_not: bool, attack_holds: bool) -> Gate
    ensures { result ≡ minus_gate surely_not attack_holds }
{
    if surely_not {
        if attack_holds {
            Gate::Now
        } else {
            Gate::Either
        }
    } else {
        Gate::Never
    }
}

/// When a literal that holds for sure, or by some rule, is concluded.
pub fn gate_of_some(surely: bool) -> Gate
    ensures { result ≡ some_gate surely }
{
    if surely { Gate::Now } else { Gate::Either }
}

/// When a literal that may be refuted, and is so by each rule, is refuted.
pub fn gate_of_each(may: bool) -> Gate
    ensures { result ≡ each_gate may }
{
    if may { Gate::Every } else { Gate::Never }
}
