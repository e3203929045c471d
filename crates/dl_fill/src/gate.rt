//! What each node waits for.

ghost use Rattle.std.specs.Prelude.{◌≡◌, ◌⊎◌, ◌<◌, ◌≤◌, ◌+◌, ◌^◌, length, filter};
ghost use Rattle.dl_graph.specs.Counting.{times};
ghost use Rattle.dl_graph.specs.Numbers.{back};
ghost use Rattle.dl_graph.specs.declared.link.Link.TheVariants as link_kind;
ghost use Rattle.dl_fill.specs.declared.wire.Gate.TheVariants.{Never};
ghost use Rattle.dl_fill.specs.Counters.{waiting};
ghost use Rattle.dl_fill.specs.Wires.{inner, inputs_at};
ghost use Rattle.dl_fill.specs.Before.{is_inside};
ghost use Rattle.dl_fill.specs.Gates.{hits_of, now_of};
ghost use Rattle.dl_fill.specs.Prepared.{begun, one_if};
ghost use Rattle.dl_fill.specs.Spans.{IsSpans};

use crate::counters::Counters;
use crate::spans::Spans;
use crate::wire::{Gate, Wire};
use dl_graph::{Graph, Link, Region};

/// One more where it is inside.
// Inlined always, as all below: so the wires and the width of a family are constants, and no node costs a call.
#[inline(always)]
fn more_if(count: usize, inside: bool) -> usize
    requires { count + 1 < 2 ^ 64 }
    ensures { result ≡ count + one_if inside }
{
    if inside { count + 1 } else { count }
}

/// How many literals of the body of a rule are in the region. Where all numbers are, none of them is read.
#[inline(always)]
fn inside_len(net: &Graph<'_>, region: &Region, rule: usize) -> usize
    requires { region.now.bound ≡ length net.now.names }
    ensures len { result ≡ length (filter (is_inside region.now.members) (back net.now link_kind.Uses rule)) }
    ensures few { result < 2 ^ 26 }
{
    let _names = net.names();
    let len = net.back_len(Link::Uses, rule);
    if crate::attack::is_everywhere(net, region) {
        return len;
    }
    let mut count = 0;
    let mut at = 0;
    while let Some(literal) = net.body_once(rule, at) {
        count = more_if(count, crate::attack::is_inside(region, literal));
        at += 1;
    }
    count
}

/// How many inputs a link gives.
#[inline(always)]
fn inner_len(net: &Graph<'_>, region: &Region, link: Link, place: usize) -> usize
    requires { region.now.bound ≡ length net.now.names }
    ensures len { result ≡ length (inner net.now (is_inside region.now.members) link place) }
    ensures few { result < 2 ^ 26 }
{
    match link {
        Link::Same => net.back_len(Link::Same, place),
        Link::Uses => inside_len(net, region, place),
        Link::Backs => net.back_len(Link::Backs, place),
        Link::Proves => net.back_len(Link::Proves, place),
        Link::Opposes => net.back_len(Link::Opposes, place),
        Link::Defends => net.back_len(Link::Defends, place),
        Link::Counters => net.back_len(Link::Counters, place),
    }
}

/// How many inputs some wires make of a node.
#[inline(always)]
fn inputs_len(
    net: &Graph<'_>,
    region: &Region,
    width: usize,
    wires: &[Wire],
    kind: usize,
    place: usize,
) -> usize
    requires wires { length wires.now ≤ 32 }
    requires bound { region.now.bound ≡ length net.now.names }
    ensures len { result ≡ length (inputs_at net.now (is_inside region.now.members) width wires.now kind place) }
    ensures few { result < 2 ^ 31 }
{
    let mut len = 0;
    for w in wires {
        if w.to == kind {
            len += inner_len(net, region, w.link, place);
        }
    }
    len
}

/// How many inputs a node has, where its gate asks for them. Of the wires those alone are read that lead to its kind.
#[inline(always)]
pub fn inputs_asked(
    net: &Graph<'_>,
    region: &Region,
    width: usize,
    wires: &[Wire],
    spans: &Spans,
    gate: Gate,
    kind: usize,
    place: usize,
) -> usize
    requires wires { length wires.now ≤ 32 }
    requires spans { IsSpans (λ w. w.to) wires.now (length wires.now) spans.now }
    requires bound { region.now.bound ≡ length net.now.names }
    ensures hits { hits_of gate result ≡ hits_of gate (length (inputs_at net.now (is_inside region.now.members) width wires.now kind place)) }
    ensures now { now_of gate result ≡ now_of gate (length (inputs_at net.now (is_inside region.now.members) width wires.now kind place)) }
    ensures few { result < 2 ^ 31 }
{
    match gate {
        Gate::Every => inputs_len(net, region, width, spans.part(wires, kind), kind, place),
        Gate::Either => 0,
        Gate::Now => 0,
        Gate::Never => 0,
    }
}

#[inline(always)]
fn hits(gate: Gate, inputs: usize) -> usize
    ensures { result ≡ hits_of gate inputs }
{
    match gate {
        Gate::Every => inputs,
        Gate::Either => 1,
        Gate::Now => 0,
        Gate::Never => 0,
    }
}

#[inline(always)]
fn fires_now(gate: Gate, inputs: usize) -> bool
    ensures { result ≡ now_of gate inputs }
{
    match gate {
        Gate::Every => inputs == 0,
        Gate::Either => false,
        Gate::Now => true,
        Gate::Never => false,
    }
}

/// The node begins to wait, or goes into the queue.
#[inline(always)]
pub fn begin(counters: &mut Counters, node: usize, gate: Gate, inputs: usize)
    requires node { node < length counters.old.need }
    requires few { inputs < 2 ^ 31 }
    requires fresh { (gate ≡ Never) ⊎ (times node counters.old.queue ≡ 0) }
    requires room { (gate ≡ Never) ⊎ (length counters.old.queue + waiting counters.old.need < length counters.old.need) }
    ensures { counters.new ≡ begun counters.old node (hits_of gate inputs) (now_of gate inputs) }
{
    let count = hits(gate, inputs);
    counters.wait(node, count);
    if fires_now(gate, inputs) {
        counters.give(node);
    }
}
