//! The rules that a region touches.

ghost use Rattle.std.specs.Prelude.{◌≡◌, ℕ, ◌<◌, ◌≤◌, length, slice_get, Contains};
ghost use Rattle.dl_graph.specs.Counting.{times};
ghost use Rattle.dl_graph.specs.Numbers as numbers;
ghost use Rattle.dl_fill.specs.Touched.{Touches, Grows};

use crate::attack::is_everywhere;
use dl_graph::{Graph, Region};

/// Adds the rules with that head.
fn touch_heads(net: &Graph<'_>, number: usize, rules: &mut Region)
    requires room { length net.now.rules ≤ rules.old.bound }
    ensures there { (r : ℕ) → 0 < times r (numbers.heads net.now number) → 0 < times r rules.new.members }
    ensures grows { Grows rules.old rules.new }
{
    let _rules = net.rule_numbers();
    let _names = net.names();
    let mut at = 0;
    while let Some(rule) = net.heads(number, at) {
        rules.put(rule);
        at += 1;
    }
}

/// Adds the rules for each literal that attacks the number.
fn touch_against(net: &Graph<'_>, number: usize, rules: &mut Region)
    requires number { number < length net.now.names }
    requires room { length net.now.rules ≤ rules.old.bound }
    ensures there { (c : ℕ) → 0 < times c (numbers.attackers_row net.now (numbers.literal_at net.now number)) → (u : ℕ) → 0 < times u (numbers.heads net.now c) → 0 < times u rules.new.members }
    ensures grows { Grows rules.old rules.new }
{
    let _names = net.names();
    let mut at = 0;
    while let Some(attacker) = net.attacker(number, at) {
        touch_heads(net, attacker, rules);
        at += 1;
    }
}

/// Adds all numbers of rules in ascending order, in which memory is read fastest. What is at an empty one has no wires and never fires.
fn touch_all(net: &Graph<'_>, rules: &mut Region)
    requires room { length net.now.rules ≤ rules.old.bound }
    ensures there { (r : ℕ) → r < length net.now.rules → 0 < times r rules.new.members }
    ensures bound { rules.new.bound ≡ rules.old.bound }
{
    for rule in 0..net.rule_numbers() {
        rules.put(rule);
    }
}

/// Adds the rules for the members of the region and those against them.
fn touch_members(net: &Graph<'_>, region: &Region, rules: &mut Region)
    requires bound { region.now.bound ≡ length net.now.names }
    requires room { length net.now.rules ≤ rules.old.bound }
    ensures touches { Touches net.now region.now.members rules.new.members }
    ensures bound { rules.new.bound ≡ rules.old.bound }
{
    let _len = region.len();
    let _names = net.names();
    let mut at = 0;
    while let Some(number) = region.at(at) {
        touch_heads(net, number, rules);
        touch_against(net, number, rules);
        at += 1;
    }
}

/// Makes the rules those for the members of the region and those against them. Where each literal is a member, so is each rule.
pub fn touch(net: &Graph<'_>, region: &Region, rules: &mut Region)
    requires bound { region.now.bound ≡ length net.now.names }
    requires room { length net.now.rules ≤ rules.old.bound }
    ensures touches { Touches net.now region.now.members rules.new.members }
    ensures bound { rules.new.bound ≡ rules.old.bound }
{
    if is_everywhere(net, region) {
        touch_all(net, rules);
    } else {
        touch_members(net, region, rules);
    }
}
