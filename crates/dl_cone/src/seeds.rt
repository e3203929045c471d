//! Where an edit begins to change what follows.

ghost use Rattle.std.specs.Prelude.{◌≡◌, ◌<◌, ◌↔◌, IsTrue, Contains, length};
ghost use Rattle.dl_theory.specs.declared.edit.Edit.TheVariants.{DropRule};
ghost use Rattle.dl_theory.specs.Cones.{IsOrAttacks, IsSeed, IsSeedOfPair};
ghost use Rattle.dl_theory.specs.Edits.{HasBoth, HasLabel};
ghost use Rattle.dl_theory.specs.Lists.{IsWellFormed, attackers};
ghost use Rattle.dl_graph.specs.Numbers.{HasRule, IsNumbered, literal_at, rule_at};
ghost use Rattle.dl_derive.specs.Back.{Gains};
ghost use Rattle.dl_cone.specs.Walked.{IsNumberOf, IsOfRivals};

use dl_graph::{Graph, Region};
use dl_lit::{Literal, Name};
use dl_theory::Pair;

/// Puts what attacks a literal.
fn put_attackers(net: &Graph<'_>, number: usize, region: &mut Region)
    requires numbered { IsNumbered net.now }
    requires number { number < length net.now.names }
    requires bound { region.old.bound ≡ length net.now.names }
    ensures { Gains (IsNumberOf net.now (Contains (attackers net.now.theory (literal_at net.now number)))) region.old region.new }
{
    let mut at = 0;
    while let Some(attacker) = net.attacker(number, at) {
        region.put(attacker);
        at += 1;
    }
}

/// Puts a literal and what attacks it.
fn put_both(net: &Graph<'_>, number: usize, region: &mut Region)
    requires numbered { IsNumbered net.now }
    requires number { number < length net.now.names }
    requires bound { region.old.bound ≡ length net.now.names }
    ensures { Gains (IsNumberOf net.now (IsOrAttacks net.now.theory (literal_at net.now number))) region.old region.new }
{
    region.put(number);
    put_attackers(net, number, region);
}

/// Puts a literal and what attacks it, if they have numbers.
pub(crate) fn put_literal(net: &Graph<'_>, literal: &Literal, region: &mut Region)
    requires numbered { IsNumbered net.now }
    requires bound { region.old.bound ≡ length net.now.names }
    ensures { Gains (IsNumberOf net.now (IsOrAttacks net.now.theory literal.now)) region.old region.new }
{
    match net.find(literal) {
        Some(number) => put_both(net, number, region),
        // a literal stands beside its complement: where it has no number, neither has that
        None => {}
    }
}

/// Puts the head of a rule, and what attacks it.
pub(crate) fn put_head(net: &Graph<'_>, rule: usize, region: &mut Region)
    requires numbered { IsNumbered net.now }
    requires rule { HasRule net.now rule }
    requires bound { region.old.bound ≡ length net.now.names }
    ensures { Gains (IsNumberOf net.now (IsOrAttacks net.now.theory (rule_at net.now rule).head)) region.old region.new }
{
    put_both(net, net.head(rule), region);
}

/// Puts the head of the rule with a label, and what attacks it.
pub(crate) fn put_labelled(net: &Graph<'_>, label: &Name, region: &mut Region)
    requires formed { IsWellFormed net.now.theory }
    requires numbered { IsNumbered net.now }
    requires there { HasLabel net.now.theory label.now }
    requires bound { region.old.bound ≡ length net.now.names }
    ensures { Gains (IsNumberOf net.now (IsSeed net.now.theory (DropRule label.now))) region.old region.new }
{
    match net.find_rule(label) {
        Some(rule) => put_head(net, rule, region),
        None => unreachable!(),
    }
}

/// Whether one literal attacks another.
fn attacks(net: &Graph<'_>, literal: usize, other: usize) -> bool
    requires numbered { IsNumbered net.now }
    requires literal { literal < length net.now.names }
    requires other { other < length net.now.names }
    ensures { IsTrue result ↔ Contains (attackers net.now.theory (literal_at net.now other)) (literal_at net.now literal) }
{
    let mut at = 0;
    while let Some(attacker) = net.attacker(other, at) {
        if attacker == literal {
            return true;
        }
        at += 1;
    }
    false
}

/// Puts the heads of two rules, where they attack each other.
fn put_heads(net: &Graph<'_>, upper: usize, lower: usize, region: &mut Region)
    requires numbered { IsNumbered net.now }
    requires upper { HasRule net.now upper }
    requires lower { HasRule net.now lower }
    requires bound { region.old.bound ≡ length net.now.names }
    ensures { Gains (IsNumberOf net.now (IsOfRivals net.now.theory (rule_at net.now upper).head (rule_at net.now lower).head)) region.old region.new }
{
    let head = net.head(upper);
    let other = net.head(lower);
    if attacks(net, other, head) {
        region.put(head);
        region.put(other);
    }
}

/// Puts the heads of the rules of a pair, where they attack each other.
pub(crate) fn put_pair(net: &Graph<'_>, pair: &Pair, region: &mut Region)
    requires formed { IsWellFormed net.now.theory }
    requires numbered { IsNumbered net.now }
    requires there { HasBoth net.now.theory pair.now }
    requires bound { region.old.bound ≡ length net.now.names }
    ensures { Gains (IsNumberOf net.now (IsSeedOfPair net.now.theory pair.now)) region.old region.new }
{
    match net.find_rule(&pair.upper) {
        None => unreachable!(),
        Some(upper) => match net.find_rule(&pair.lower) {
            None => unreachable!(),
            Some(lower) => put_heads(net, upper, lower, region),
        },
    }
}
