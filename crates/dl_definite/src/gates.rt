//! The table of the definite family, and its gates.

ghost use Rattle.std.specs.Prelude.{◌≡◌, ◌<◌, ◌≤◌, length};
ghost use Rattle.dl_marks.specs.Marks.{places};
ghost use Rattle.dl_theory.specs.Lists as lists;
ghost use Rattle.dl_graph.specs.Numbers.{rule_at};
ghost use Rattle.dl_fill.specs.Before.{before_of};
ghost use Rattle.dl_definite.specs.Definite.{rule_gate, definite_gate, definite_table};

use dl_fill::{
    Basis, FamilyGates, Gate, Gates, Wire, gate_of_each, gate_of_off, gate_of_on, gate_of_some,
    outside_is_off, outside_is_on, wires,
};
use dl_graph::{Graph, Link, Region};
use dl_lit::{Family, Tag};
use dl_marks::Marks;

/// How many kinds of nodes the family has.
pub const WIDTH: usize = 4;

/// How many of them are those of literals.
const LITERALS: usize = 2;

static WIRES: [Wire; 4] = wires![
    (0, Link::Uses, 2),
    (1, Link::Uses, 3),
    (2, Link::Proves, 0),
    (3, Link::Proves, 1),
];

static TAGS: [Option<Tag>; 2] = [
    Some(Tag {
        plus: true,
        family: Family::Definite,
    }),
    Some(Tag {
        plus: false,
        family: Family::Definite,
    }),
];

/// The gates of the definite family.
pub struct DefiniteGates;

impl Gates for DefiniteGates {
    ghost tells = { λ _ N b k i. definite_gate N b k i };

    fn gate(
        &self,
        net: &Graph<'_>,
        marks: &Marks,
        region: &Region,
        kind: usize,
        place: usize,
    ) -> Gate {
        if kind < 2 {
            if place < net.names() {
                let fact = net.is_fact(place);
                if kind == 0 {
                    gate_of_some(fact)
                } else {
                    gate_of_each(!fact)
                }
            } else {
                Gate::Never
            }
        } else if is_strict(net, place) {
            gate_of_rule(net, marks, region, kind - 2, place)
        } else {
            Gate::Never
        }
    }
}

/// Whether a number has a rule that is strict.
// A rule that is not leads to no node of this family, so its two nodes never begin to wait: nothing asks whether they fire.
#[inline(always)]
fn is_strict(net: &Graph<'_>, rule: usize) -> bool
    ensures { result ≡ lists.is_strict (rule_at net.now rule).kind }
{
    net.next_len(Link::Proves, rule) > 0
}

fn gate_of_rule(net: &Graph<'_>, marks: &Marks, region: &Region, kind: usize, rule: usize) -> Gate
    requires bound { region.now.bound ≡ length net.now.names }
    requires room { length net.now.names ≤ places marks.now }
    ensures { result ≡ rule_gate net.now (before_of marks.now region.now) kind rule }
{
    match kind {
        0 => gate_of_on(outside_is_on(net, marks, region, Family::Definite, rule)),
        1 => gate_of_off(outside_is_off(net, marks, region, Family::Definite, rule)),
        _ => Gate::Never,
    }
}

impl FamilyGates for DefiniteGates {
    ghost table = { definite_table };

    #[inline(always)]
    fn width(&self) -> usize {
        WIDTH
    }

    #[inline(always)]
    fn literals(&self) -> usize {
        LITERALS
    }

    #[inline(always)]
    fn wires(&self) -> &'static [Wire] {
        &WIRES
    }

    #[inline(always)]
    fn tags(&self) -> &'static [Option<Tag>] {
        &TAGS
    }

    #[inline(always)]
    fn bases(&self) -> &'static [Basis] {
        &[]
    }

    #[inline(always)]
    fn fills(&self, family: Family) -> bool {
        match family {
            Family::Definite => true,
            Family::Blocking => false,
            Family::Propagating => false,
            Family::Support => false,
        }
    }

    #[inline(always)]
    fn node_kind(&self, _family: Family, plus: bool) -> usize {
        if plus { 0 } else { 1 }
    }
}
