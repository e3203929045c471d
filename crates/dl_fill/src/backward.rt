//! The nodes that wanted ones rest on.

ghost use Rattle.std.specs.Prelude.{◌≡◌, ℕ, ◌*◌, ◌/◌, ◌%◌, ◌<◌, ◌≤◌, [], length, reverse, IfOk, OnOk};
ghost use Rattle.std.specs.List.{fold};
ghost use Rattle.dl_marks.specs.Marks.{places};
ghost use Rattle.dl_graph.specs.Numbers.{next};
ghost use Rattle.dl_graph.specs.Counting.{times};
ghost use Rattle.dl_fill.specs.Before.{before_of, is_inside};
ghost use Rattle.dl_fill.specs.Wires.{inputs, edges, through, AreKinds, IsLive};
ghost use Rattle.dl_fill.specs.Passing.{Passing};
ghost use Rattle.dl_fill.specs.Pruned.{serve, IsVisited, IsPruned};

use crate::needs::Needs;
use crate::whole_run::Gates;
use crate::wire::Wire;
use dl_base::Memory;
use dl_graph::{Graph, Link, Region};
use dl_marks::Marks;
use std::alloc::Global;

/// Serves each number to which the link leads.
fn ask_link(net: &Graph<'_>, width: usize, link: Link, from: usize, to: usize, needs: &mut Needs)
    requires { (y : ℕ) → 0 < times y (through width to (next net.now link from)) → y < length needs.old.needs }
    ensures { needs.new ≡ fold serve needs.old (through width to (next net.now link from)) }
{
    let _size = needs.size();
    for at in 0..net.next_len(link, from) {
        let place = net.next(link, from, at);
        needs.serve(place * width + to);
    }
}

/// Serves each node to which a node leads.
fn ask(net: &Graph<'_>, width: usize, wires: &[Wire], node: usize, needs: &mut Needs)
    requires width { 0 < width }
    requires inside { (y : ℕ) → 0 < times y (edges net.now width wires.now node) → y < length needs.old.needs }
    ensures { needs.new ≡ fold serve needs.old (edges net.now width wires.now node) }
{
    for w in wires {
        if w.from == node % width {
            ask_link(net, width, w.link, node / width, w.to, needs);
        }
    }
}

/// The same nodes from the other end.
fn reversed(nodes: Vec<usize>) -> Vec<usize>
    ensures { result.items ≡ reverse nodes.items }
{
    let mut nodes = nodes;
    nodes.reverse();
    nodes
}

/// One node, from the end: it is kept if it is wanted, or if a kept node asks for it.
fn visit<G: Gates>(
    gates: &G,
    net: &Graph<'_>,
    width: usize,
    wires: &[Wire],
    marks: &Marks,
    region: &Region,
    node: usize,
    wanted: bool,
    needs: &mut Needs,
    kept: &mut Vec<usize>,
) -> Result<(), Memory>
    requires width { 0 < width }
    requires bound { region.now.bound ≡ length net.now.names }
    requires room { length net.now.names ≤ places marks.now }
    requires node { node < length needs.old.needs }
    requires inside { (y : ℕ) → 0 < times y (edges net.now width wires.now node) → y < length needs.old.needs }
    ensures { OnOk result (IsVisited (edges net.now width wires.now) (λ y. G.tells gates.now net.now (before_of marks.now region.now) (y % width) (y / width)) node wanted needs.old.needs kept.old.items needs.new.needs kept.new.items) }
{
    needs.begin();
    ask(net, width, wires, node, needs);
    let asked = needs.asked();
    if !asked && !wanted {
        return Ok(());
    }
    let gate = gates.gate(net, marks, region, node % width, node / width);
    needs.keep(node, gate);
    kept.push(node)?;
    Ok(())
}

/// Of nodes each of which is passed by nodes before it, those on which the wanted ones rest, in order. `Memory` where there is
/// none for them.
pub fn prune<G: Gates>(
    alloc: Global,
    gates: &G,
    net: &Graph<'_>,
    width: usize,
    wires: &[Wire],
    marks: &Marks,
    region: &Region,
    nodes: &[usize],
    wanted: &[bool],
) -> Result<Vec<usize>, Memory>
    requires width { 0 < width }
    requires kinds { AreKinds width wires.now }
    requires size { length wanted.now / width * width ≡ length wanted.now }
    requires names { length net.now.names ≤ length wanted.now / width }
    requires rules { length net.now.rules ≤ length wanted.now / width }
    requires bound { region.now.bound ≡ length net.now.names }
    requires room { length net.now.names ≤ places marks.now }
    requires inside { (x : ℕ) → 0 < times x nodes.now → x < length wanted.now }
    requires live { (x : ℕ) → 0 < times x nodes.now → IsLive (is_inside region.now.members) width wires.now x }
    requires order { Passing (inputs net.now (is_inside region.now.members) width wires.now) (λ y. G.tells gates.now net.now (before_of marks.now region.now) (y % width) (y / width)) [] nodes.now }
    ensures { IfOk result (λ kept. IsPruned (inputs net.now (is_inside region.now.members) width wires.now) (λ y. G.tells gates.now net.now (before_of marks.now region.now) (y % width) (y / width)) nodes.now wanted.now kept.items) }
{
    let _names = net.names();
    let mut needs = Needs::make(alloc, wanted.len())?;
    let mut kept = Vec::new(alloc);
    for i in 0..nodes.len() {
        let node = nodes[nodes.len() - 1 - i];
        let asked = wanted[node];
        visit(
            gates, net, width, wires, marks, region, node, asked, &mut needs, &mut kept,
        )?;
    }
    Ok(reversed(kept))
}
