//! The table of the families propagating and support, and its gates.

ghost use Rattle.std.specs.Prelude.{◌≡◌, ◌<◌, ◌≤◌, length};
ghost use Rattle.dl_marks.specs.Marks.{places, marked};
ghost use Rattle.dl_fill.specs.Before.{before_of};
ghost use Rattle.dl_fill.specs.Filled.{either_kind};
ghost use Rattle.dl_prop.specs.Propagation.{literal_gate, rule_gate, propagation_gate, propagation_table};

use dl_fill::{
    Basis, FamilyGates, Gate, Gates, Wire, attack_fails, attack_holds, gate_of_each, gate_of_minus,
    gate_of_off, gate_of_on, gate_of_plus, gate_of_some, outside_is_off, outside_is_on, wires,
};
use dl_graph::{Graph, Link, Region};
use dl_lit::{Family, Tag};
use dl_marks::Marks;

/// How many kinds of nodes the two families have.
const WIDTH: usize = 14;

/// How many of them are those of literals.
const LITERALS: usize = 6;

static WIRES: [Wire; 20] = wires![
    (0, Link::Uses, 6),
    (1, Link::Uses, 7),
    (6, Link::Backs, 2),
    (7, Link::Backs, 3),
    (11, Link::Same, 8),
    (6, Link::Defends, 8),
    (10, Link::Same, 9),
    (7, Link::Defends, 9),
    (2, Link::Same, 0),
    (8, Link::Opposes, 0),
    (3, Link::Same, 1),
    (9, Link::Opposes, 1),
    (4, Link::Uses, 10),
    (5, Link::Uses, 11),
    (10, Link::Same, 12),
    (7, Link::Counters, 12),
    (11, Link::Same, 13),
    (6, Link::Counters, 13),
    (12, Link::Backs, 4),
    (13, Link::Backs, 5),
];

static TAGS: [Option<Tag>; 6] = [
    Some(Tag {
        plus: true,
        family: Family::Propagating,
    }),
    Some(Tag {
        plus: false,
        family: Family::Propagating,
    }),
    None,
    None,
    Some(Tag {
        plus: true,
        family: Family::Support,
    }),
    Some(Tag {
        plus: false,
        family: Family::Support,
    }),
];

static BASES: [Basis; 6] = [
    Basis::Prevailing,
    Basis::Failing,
    Basis::Nothing,
    Basis::Nothing,
    Basis::Sure,
    Basis::Unsure,
];

fn gate_of_literal(net: &Graph<'_>, marks: &Marks, kind: usize, number: usize) -> Gate
    requires number { number < length net.now.names }
    requires room { length net.now.names ≤ places marks.now }
    ensures { result ≡ literal_gate net.now (marked marks.now) kind number }
{
    let definite = Tag {
        plus: kind == 0 || kind == 4,
        family: Family::Definite,
    };
    match kind {
        0 => gate_of_plus(
            marks.get(definite, number),
            attack_fails(net, marks, number),
        ),
        1 => gate_of_minus(
            marks.get(definite, number),
            attack_holds(net, marks, number),
        ),
        2 => Gate::Either,
        3 => Gate::Every,
        4 => gate_of_some(marks.get(definite, number)),
        5 => gate_of_each(marks.get(definite, number)),
        _ => Gate::Never,
    }
}

fn gate_of_rule(net: &Graph<'_>, marks: &Marks, region: &Region, kind: usize, rule: usize) -> Gate
    requires bound { region.now.bound ≡ length net.now.names }
    requires room { length net.now.names ≤ places marks.now }
    ensures { result ≡ rule_gate net.now (before_of marks.now region.now) kind rule }
{
    match kind {
        0 => gate_of_on(outside_is_on(net, marks, region, Family::Propagating, rule)),
        1 => gate_of_off(outside_is_off(net, marks, region, Family::Propagating, rule)),
        2 => Gate::Either,
        3 => Gate::Every,
        4 => gate_of_on(outside_is_on(net, marks, region, Family::Support, rule)),
        5 => gate_of_off(outside_is_off(net, marks, region, Family::Support, rule)),
        6 => Gate::Every,
        7 => Gate::Either,
        _ => Gate::Never,
    }
}

/// The gates of the two families.
pub struct PropGates;

impl Gates for PropGates {
    ghost tells = { λ _ N b k i. propagation_gate N b k i };

    fn gate(
        &self,
        net: &Graph<'_>,
        marks: &Marks,
        region: &Region,
        kind: usize,
        place: usize,
    ) -> Gate {
        if kind < 6 {
            if place < net.names() {
                gate_of_literal(net, marks, kind, place)
            } else {
                Gate::Never
            }
        } else if net.has_rule(place) {
            gate_of_rule(net, marks, region, kind - 6, place)
        } else {
            Gate::Never
        }
    }
}

impl FamilyGates for PropGates {
    ghost table = { propagation_table };

    #[inline(always)]
    fn width(&self) -> usize {
        WIDTH
    }

    #[inline(always)]
    fn literals(&self) -> usize {
        LITERALS
    }

    #[inline(always)]
    fn wires(&self) -> &'static [Wire] {
        &WIRES
    }

    #[inline(always)]
    fn tags(&self) -> &'static [Option<Tag>] {
        &TAGS
    }

    #[inline(always)]
    fn bases(&self) -> &'static [Basis] {
        &BASES
    }

    #[inline(always)]
    fn fills(&self, family: Family) -> bool {
        match family {
            Family::Definite => false,
            Family::Blocking => false,
            Family::Propagating => true,
            Family::Support => true,
        }
    }

    #[inline(always)]
    fn node_kind(&self, family: Family, plus: bool) -> usize {
        match family {
            Family::Definite => 0,
            Family::Blocking => 0,
            Family::Propagating => either(plus, 0, 1),
            Family::Support => either(plus, 4, 5),
        }
    }
}

#[inline(always)]
fn either(plus: bool, for_plus: usize, for_minus: usize) -> usize
    ensures { result ≡ either_kind for_plus for_minus plus }
{
    if plus { for_plus } else { for_minus }
}
