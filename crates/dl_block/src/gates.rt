//! The table of the defeasible family, and its gates.

ghost use Rattle.std.specs.Prelude.{◌≡◌, ◌<◌, ◌≤◌, length};
ghost use Rattle.dl_marks.specs.Marks.{places, marked};
ghost use Rattle.dl_fill.specs.Before.{before_of};
ghost use Rattle.dl_block.specs.Block.{literal_gate, rule_gate, block_gate, block_table};

use dl_fill::{
    Basis, FamilyGates, Gate, Gates, Wire, attack_fails, attack_holds, gate_of_minus, gate_of_off,
    gate_of_on, gate_of_plus, outside_is_off, outside_is_on, wires,
};
use dl_graph::{Graph, Link, Region};
use dl_lit::{Family, Tag};
use dl_marks::Marks;

/// How many kinds of nodes the family has.
const WIDTH: usize = 8;

/// How many of them are those of literals.
const LITERALS: usize = 4;

static WIRES: [Wire; 12] = wires![
    (0, Link::Uses, 4),
    (1, Link::Uses, 5),
    (4, Link::Backs, 2),
    (5, Link::Backs, 3),
    (5, Link::Same, 6),
    (4, Link::Defends, 6),
    (4, Link::Same, 7),
    (5, Link::Defends, 7),
    (2, Link::Same, 0),
    (6, Link::Opposes, 0),
    (3, Link::Same, 1),
    (7, Link::Opposes, 1),
];

static TAGS: [Option<Tag>; 2] = [
    Some(Tag {
        plus: true,
        family: Family::Blocking,
    }),
    Some(Tag {
        plus: false,
        family: Family::Blocking,
    }),
];

static BASES: [Basis; 2] = [Basis::Prevailing, Basis::Failing];

fn gate_of_literal(net: &Graph<'_>, marks: &Marks, kind: usize, number: usize) -> Gate
    requires number { number < length net.now.names }
    requires room { length net.now.names ≤ places marks.now }
    ensures { result ≡ literal_gate net.now (marked marks.now) kind number }
{
    let definite = Tag {
        plus: kind == 0,
        family: Family::Definite,
    };
    match kind {
        0 => gate_of_plus(
            marks.get(definite, number),
            attack_fails(net, marks, number),
        ),
        1 => gate_of_minus(
            marks.get(definite, number),
            attack_holds(net, marks, number),
        ),
        2 => Gate::Either,
        3 => Gate::Every,
        _ => Gate::Never,
    }
}

fn gate_of_rule(net: &Graph<'_>, marks: &Marks, region: &Region, kind: usize, rule: usize) -> Gate
    requires bound { region.now.bound ≡ length net.now.names }
    requires room { length net.now.names ≤ places marks.now }
    ensures { result ≡ rule_gate net.now (before_of marks.now region.now) kind rule }
{
    match kind {
        0 => gate_of_on(outside_is_on(net, marks, region, Family::Blocking, rule)),
        1 => gate_of_off(outside_is_off(net, marks, region, Family::Blocking, rule)),
        2 => Gate::Either,
        3 => Gate::Every,
        _ => Gate::Never,
    }
}

/// The gates of the defeasible family.
pub struct BlockGates;

impl Gates for BlockGates {
    ghost tells = { λ _ N b k i. block_gate N b k i };

    fn gate(
        &self,
        net: &Graph<'_>,
        marks: &Marks,
        region: &Region,
        kind: usize,
        place: usize,
    ) -> Gate {
        if kind < 4 {
            if place < net.names() {
                gate_of_literal(net, marks, kind, place)
            } else {
                Gate::Never
            }
        } else if net.has_rule(place) {
            gate_of_rule(net, marks, region, kind - 4, place)
        } else {
            Gate::Never
        }
    }
}

impl FamilyGates for BlockGates {
    ghost table = { block_table };

    #[inline(always)]
    fn width(&self) -> usize {
        WIDTH
    }

    #[inline(always)]
    fn literals(&self) -> usize {
        LITERALS
    }

    #[inline(always)]
    fn wires(&self) -> &'static [Wire] {
        &WIRES
    }

    #[inline(always)]
    fn tags(&self) -> &'static [Option<Tag>] {
        &TAGS
    }

    #[inline(always)]
    fn bases(&self) -> &'static [Basis] {
        &BASES
    }

    #[inline(always)]
    fn fills(&self, family: Family) -> bool {
        match family {
            Family::Definite => false,
            Family::Blocking => true,
            Family::Propagating => false,
            Family::Support => false,
        }
    }

    #[inline(always)]
    fn node_kind(&self, _family: Family, plus: bool) -> usize {
        if plus { 0 } else { 1 }
    }
}
