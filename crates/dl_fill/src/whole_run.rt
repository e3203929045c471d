//! A run over the nodes that a region touches.

ghost use Rattle.std.specs.Prelude.{◌≡◌, ◌⊎◌, ℕ, ◌+◌, ◌-◌, ◌*◌, ◌/◌, ◌%◌, ◌<◌, ◌≤◌, [], length, slice_index, All};
ghost use Rattle.dl_marks.specs.Marks.{places};
ghost use Rattle.dl_graph.specs.Counting.{times};
ghost use Rattle.dl_graph.specs.Numbers.{NetLists};
ghost use Rattle.dl_fill.specs.declared.wire.Gate.{Gate};
ghost use Rattle.dl_fill.specs.declared.wire.Gate.TheVariants.{Never};
ghost use Rattle.dl_fill.specs.Counters.{waiting};
ghost use Rattle.dl_fill.specs.Before.{Before, before_of, is_inside};
ghost use Rattle.dl_fill.specs.Wires.{inputs, inputs_at, edges, AreKinds};
ghost use Rattle.dl_fill.specs.Prepared.{IsClean, Begins, begun_by, nodes_at, all_nodes};
ghost use Rattle.dl_fill.specs.Runs.{HasRun};
ghost use Rattle.dl_fill.specs.Spans.{IsSpans};

use crate::counters::Counters;
use crate::gate::{begin, inputs_asked};
use crate::queue::run;
use crate::spans::Spans;
use crate::touch::touch;
use crate::wire::{Gate, Wire};
use dl_graph::{Graph, Region};
use dl_marks::Marks;

/// The gates of a family.
pub trait Gates {
    ghost tells: { Self → NetLists → Before → ℕ → ℕ → Gate };

    /// The gate of a node that the region touches.
    fn gate(
        &self,
        net: &Graph<'_>,
        marks: &Marks,
        region: &Region,
        kind: usize,
        place: usize,
    ) -> Gate
        requires bound { region.now.bound ≡ length net.now.names }
        requires room { length net.now.names ≤ places marks.now }
        ensures { result ≡ tells self.now net.now (before_of marks.now region.now) kind place };
}

/// Gates that never open.
struct NoGates;

impl Gates for NoGates {
    ghost tells = { λ _ _ _ _ _. Never };

    fn gate(
        &self,
        _net: &Graph<'_>,
        _marks: &Marks,
        _region: &Region,
        _kind: usize,
        _place: usize,
    ) -> Gate {
        Gate::Never
    }
}

/// The node of a kind at a place begins to wait, or goes into the queue.
// Inlined always, as all below: so the width of a family is a constant, and no node costs a division.
#[inline(always)]
fn begin_node<G: Gates>(
    gates: &G,
    net: &Graph<'_>,
    width: usize,
    wires: &[Wire],
    spans: &Spans,
    marks: &Marks,
    region: &Region,
    kind: usize,
    place: usize,
    counters: &mut Counters,
)
    requires kind { kind < width }
    requires wires { length wires.now ≤ 32 }
    requires spans { IsSpans (λ w. w.to) wires.now (length wires.now) spans.now }
    requires bound { region.now.bound ≡ length net.now.names }
    requires room { length net.now.names ≤ places marks.now }
    requires nodes { place * width + width ≤ length counters.old.need }
    requires free { (G.tells gates.now net.now (before_of marks.now region.now) kind place ≡ Never) ⊎ (length counters.old.queue + waiting counters.old.need < length counters.old.need) }
    requires fresh { (G.tells gates.now net.now (before_of marks.now region.now) kind place ≡ Never) ⊎ (times (place * width + kind) counters.old.queue ≡ 0) }
    ensures { counters.new ≡ begun_by (G.tells gates.now net.now (before_of marks.now region.now) kind place) (length (inputs_at net.now (is_inside region.now.members) width wires.now kind place)) (place * width + kind) counters.old }
{
    let _size = counters.size();
    let gate = gates.gate(net, marks, region, kind, place);
    let inputs = inputs_asked(net, region, width, wires, spans, gate, kind, place);
    begin(counters, place * width + kind, gate, inputs);
}

/// The node of a kind at a place begins to wait, or goes into the queue. In each arm the kind is a constant, and what its gate is like is
/// known where the program is built.
#[inline(always)]
fn begin_kind<G: Gates>(
    gates: &G,
    net: &Graph<'_>,
    width: usize,
    wires: &[Wire],
    spans: &Spans,
    marks: &Marks,
    region: &Region,
    kind: usize,
    place: usize,
    counters: &mut Counters,
)
    requires kind { kind < width }
    requires wires { length wires.now ≤ 32 }
    requires spans { IsSpans (λ w. w.to) wires.now (length wires.now) spans.now }
    requires bound { region.now.bound ≡ length net.now.names }
    requires room { length net.now.names ≤ places marks.now }
    requires nodes { place * width + width ≤ length counters.old.need }
    requires free { (G.tells gates.now net.now (before_of marks.now region.now) kind place ≡ Never) ⊎ (length counters.old.queue + waiting counters.old.need < length counters.old.need) }
    requires fresh { (G.tells gates.now net.now (before_of marks.now region.now) kind place ≡ Never) ⊎ (times (place * width + kind) counters.old.queue ≡ 0) }
    ensures { counters.new ≡ begun_by (G.tells gates.now net.now (before_of marks.now region.now) kind place) (length (inputs_at net.now (is_inside region.now.members) width wires.now kind place)) (place * width + kind) counters.old }
{
    match kind {
        0 => begin_node(
            gates, net, width, wires, spans, marks, region, 0, place, counters,
        ),
        1 => begin_node(
            gates, net, width, wires, spans, marks, region, 1, place, counters,
        ),
        2 => begin_node(
            gates, net, width, wires, spans, marks, region, 2, place, counters,
        ),
        3 => begin_node(
            gates, net, width, wires, spans, marks, region, 3, place, counters,
        ),
        4 => begin_node(
            gates, net, width, wires, spans, marks, region, 4, place, counters,
        ),
        5 => begin_node(
            gates, net, width, wires, spans, marks, region, 5, place, counters,
        ),
        6 => begin_node(
            gates, net, width, wires, spans, marks, region, 6, place, counters,
        ),
        7 => begin_node(
            gates, net, width, wires, spans, marks, region, 7, place, counters,
        ),
        8 => begin_node(
            gates, net, width, wires, spans, marks, region, 8, place, counters,
        ),
        9 => begin_node(
            gates, net, width, wires, spans, marks, region, 9, place, counters,
        ),
        10 => begin_node(
            gates, net, width, wires, spans, marks, region, 10, place, counters,
        ),
        11 => begin_node(
            gates, net, width, wires, spans, marks, region, 11, place, counters,
        ),
        12 => begin_node(
            gates, net, width, wires, spans, marks, region, 12, place, counters,
        ),
        13 => begin_node(
            gates, net, width, wires, spans, marks, region, 13, place, counters,
        ),
        _ => begin_node(
            gates, net, width, wires, spans, marks, region, kind, place, counters,
        ),
    }
}

/// The nodes of `count` kinds from `from` on, at a place, begin to wait, or go into the queue.
#[inline(always)]
fn begin_place<G: Gates>(
    gates: &G,
    net: &Graph<'_>,
    width: usize,
    wires: &[Wire],
    spans: &Spans,
    marks: &Marks,
    region: &Region,
    from: usize,
    count: usize,
    place: usize,
    counters: &mut Counters,
)
    requires kinds { from + count ≤ width }
    requires wires { length wires.now ≤ 32 }
    requires spans { IsSpans (λ w. w.to) wires.now (length wires.now) spans.now }
    requires bound { region.now.bound ≡ length net.now.names }
    requires room { length net.now.names ≤ places marks.now }
    requires nodes { place * width + width ≤ length counters.old.need }
    requires free { ((k i : ℕ) → G.tells gates.now net.now (before_of marks.now region.now) k i ≡ Never) ⊎ (length counters.old.queue + waiting counters.old.need + count ≤ length counters.old.need) }
    requires fresh { ((k i : ℕ) → G.tells gates.now net.now (before_of marks.now region.now) k i ≡ Never) ⊎ ((y : ℕ) → 0 < times y (nodes_at width from count place) → times y counters.old.queue ≡ 0) }
    ensures { Begins (inputs net.now (is_inside region.now.members) width wires.now) (λ y. G.tells gates.now net.now (before_of marks.now region.now) (y % width) (y / width)) (nodes_at width from count place) counters.old counters.new }
{
    let _size = counters.size();
    for k in 0..count {
        begin_kind(
            gates,
            net,
            width,
            wires,
            spans,
            marks,
            region,
            from + k,
            place,
            counters,
        );
    }
}

/// The nodes of `count` kinds from `from` on, at each of the places, begin to wait, or go into the queue.
#[inline(always)]
fn begin_places<G: Gates>(
    gates: &G,
    net: &Graph<'_>,
    width: usize,
    wires: &[Wire],
    marks: &Marks,
    region: &Region,
    from: usize,
    count: usize,
    all: &Region,
    counters: &mut Counters,
)
    requires kinds { from + count ≤ width }
    requires wires { length wires.now ≤ 32 }
    requires bound { region.now.bound ≡ length net.now.names }
    requires room { length net.now.names ≤ places marks.now }
    requires nodes { All (λ i. i * width + width ≤ length counters.old.need) all.now.members }
    requires free { ((k i : ℕ) → G.tells gates.now net.now (before_of marks.now region.now) k i ≡ Never) ⊎ (length counters.old.queue + waiting counters.old.need + length all.now.members * count ≤ length counters.old.need) }
    requires fresh { ((k i : ℕ) → G.tells gates.now net.now (before_of marks.now region.now) k i ≡ Never) ⊎ ((y : ℕ) → 0 < times y (all_nodes width from count all.now.members) → times y counters.old.queue ≡ 0) }
    ensures { Begins (inputs net.now (is_inside region.now.members) width wires.now) (λ y. G.tells gates.now net.now (before_of marks.now region.now) (y % width) (y / width)) (all_nodes width from count all.now.members) counters.old counters.new }
{
    let _len = all.len();
    let spans = Spans::to(wires);
    let mut at = 0;
    while let Some(place) = all.at(at) {
        begin_place(
            gates, net, width, wires, &spans, marks, region, from, count, place, counters,
        );
        at += 1;
    }
}

/// Runs the counters of what the region touches until no more nodes fire. Kinds below `literals` are those of literals.
#[inline(always)]
pub fn solve<G: Gates>(
    gates: &G,
    net: &Graph<'_>,
    width: usize,
    literals: usize,
    wires: &[Wire],
    marks: &Marks,
    region: &Region,
    rules: &mut Region,
    counters: &mut Counters,
)
    requires width { literals < width }
    requires kinds { AreKinds width wires.now }
    requires wires { length wires.now ≤ 32 }
    requires clean { IsClean counters.old }
    requires none { rules.old.members ≡ [] }
    requires size { length counters.old.need ≡ rules.old.bound * width }
    requires names { length net.now.names ≤ rules.old.bound }
    requires rules { length net.now.rules ≤ rules.old.bound }
    requires bound { region.now.bound ≡ length net.now.names }
    requires room { length net.now.names ≤ places marks.now }
    ensures run { HasRun net.now (before_of marks.now region.now) region.now.members width literals wires.now (G.tells gates.now net.now (before_of marks.now region.now)) rules.new.members counters.new }
    ensures size { length counters.new.need ≡ length counters.old.need }
    ensures bound { rules.new.bound ≡ rules.old.bound }
{
    let _names = net.names();
    let _size = counters.size();
    let _len = region.len();
    touch(net, region, rules);
    let _touched = rules.len();
    begin_places(
        gates, net, width, wires, marks, region, 0, literals, region, counters,
    );
    begin_places(
        gates,
        net,
        width,
        wires,
        marks,
        region,
        literals,
        width - literals,
        rules,
        counters,
    );
    run(net, width, wires, counters);
}

/// Leaves the counters clean, node by node of what the region touches.
fn tidy_touched(
    net: &Graph<'_>,
    width: usize,
    literals: usize,
    marks: &Marks,
    region: &Region,
    rules: &Region,
    counters: &mut Counters,
)
    requires width { literals < width }
    requires size { length counters.old.need ≡ rules.now.bound * width }
    requires names { length net.now.names ≤ rules.now.bound }
    requires bound { region.now.bound ≡ length net.now.names }
    requires room { length net.now.names ≤ places marks.now }
    requires idle { (y : ℕ) → times y (all_nodes width 0 literals region.now.members) ≡ 0 → times y (all_nodes width literals (width - literals) rules.now.members) ≡ 0 → slice_index counters.old.need y ≡ 0 }
    ensures clean { IsClean counters.new }
    ensures size { length counters.new.need ≡ length counters.old.need }
{
    let _len = region.len();
    let _touched = rules.len();
    begin_places(
        &NoGates,
        net,
        width,
        &[],
        marks,
        region,
        0,
        literals,
        region,
        counters,
    );
    begin_places(
        &NoGates,
        net,
        width,
        &[],
        marks,
        region,
        literals,
        width - literals,
        rules,
        counters,
    );
    counters.drain();
}

/// Leaves the counters clean, at the cost of what the region touches. Where a good part of all nodes have fired, all are cleared at once.
pub fn tidy(
    net: &Graph<'_>,
    width: usize,
    literals: usize,
    marks: &Marks,
    region: &Region,
    rules: &mut Region,
    counters: &mut Counters,
)
    requires width { literals < width }
    requires size { length counters.old.need ≡ rules.old.bound * width }
    requires names { length net.now.names ≤ rules.old.bound }
    requires bound { region.now.bound ≡ length net.now.names }
    requires room { length net.now.names ≤ places marks.now }
    requires idle { (y : ℕ) → times y (all_nodes width 0 literals region.now.members) ≡ 0 → times y (all_nodes width literals (width - literals) rules.old.members) ≡ 0 → slice_index counters.old.need y ≡ 0 }
    ensures clean { IsClean counters.new }
    ensures none { rules.new.members ≡ [] }
    ensures size { length counters.new.need ≡ length counters.old.need }
    ensures bound { rules.new.bound ≡ rules.old.bound }
{
    if counters.is_crowded() {
        counters.clear();
    } else {
        tidy_touched(net, width, literals, marks, region, rules, counters);
    }
    rules.clear();
}
