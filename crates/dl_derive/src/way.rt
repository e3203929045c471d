//! Nodes in the order in which they fired.

ghost use Rattle.std.specs.Prelude.{◌≡◌, ℕ, ◌<◌, ◌≤◌, length, slice_index_or, true, false, IfOk};
ghost use Rattle.dl_marks.specs.Marks.{places};
ghost use Rattle.dl_graph.specs.Counting.{times};
ghost use Rattle.dl_fill.specs.Before.{before_of};
ghost use Rattle.dl_fill.specs.Passing.{IsOrdered};
ghost use Rattle.dl_derive.specs.Wanted.{IsWanted};
ghost use Rattle.dl_derive.specs.Ways.{IsRun, IsWay, IsFrontTo};

use dl_base::Memory;
use dl_fill::{Counters, FamilyGates, Parts, prune};
use dl_graph::{Graph, Region};
use dl_marks::Marks;
use std::alloc::Global;

/// One node is wanted.
fn only(alloc: Global, size: usize, node: usize) -> Result<Vec<bool>, Memory>
    requires { node < size }
    ensures len { IfOk result (λ wanted. length wanted.items ≡ size) }
    ensures has { IfOk result (λ wanted. slice_index_or wanted.items node false ≡ true) }
{
    let mut wanted = vec![in alloc; false; size]?;
    wanted[node] = true;
    Ok(wanted)
}

/// The nodes behind one of them go.
fn cut_behind(nodes: &mut Vec<usize>, node: usize)
    requires { 0 < times node nodes.old.items }
    ensures { IsFrontTo nodes.old.items node nodes.new.items }
{
    for place in 0..nodes.len() {
        if nodes[place] == node {
            nodes.truncate(place + 1);
            return;
        }
    }
    unreachable!()
}

/// The nodes of the queue up to one of them.
fn front(alloc: Global, counters: &Counters, node: usize) -> Result<Vec<usize>, Memory>
    requires { 0 < times node counters.now.queue }
    ensures { IfOk result (λ nodes. IsFrontTo counters.now.queue node nodes.items) }
{
    let mut nodes = counters.nodes(alloc)?;
    cut_behind(&mut nodes, node);
    Ok(nodes)
}

/// The nodes on which a node that has fired rests, in order, and that node last. `Memory` where there is none for them.
pub(crate) fn lead<G: FamilyGates>(
    alloc: Global,
    gates: &G,
    net: &Graph<'_>,
    marks: &Marks,
    region: &Region,
    parts: &Parts,
    node: usize,
) -> Result<Vec<usize>, Memory>
    requires bound { region.now.bound ≡ length net.now.names }
    requires room { length net.now.names ≤ places marks.now }
    requires run { IsRun G.table (G.tells gates.now) net.now marks.now region.now parts.now.rules parts.now.counters }
    requires fired { 0 < times node parts.now.counters.queue }
    ensures { IfOk result (λ nodes. IsWay G.table (G.tells gates.now) net.now marks.now region.now node nodes.items) }
{
    let _names = net.names();
    let width = gates.width();
    let wires = gates.wires();
    let size = parts.counters.size();
    let nodes = front(alloc, &parts.counters, node)?;
    let wanted = only(alloc, size, node)?;
    let kept = prune(
        alloc, gates, net, width, wires, marks, region, &nodes, &wanted,
    )?;
    Ok(kept)
}

/// The nodes on which the wanted ones that have fired rest, in order, these among them. `Memory` where there is none for them.
pub(crate) fn rest<G: FamilyGates>(
    alloc: Global,
    gates: &G,
    net: &Graph<'_>,
    marks: &Marks,
    region: &Region,
    parts: &Parts,
    wanted: &[bool],
) -> Result<Vec<usize>, Memory>
    requires bound { region.now.bound ≡ length net.now.names }
    requires room { length net.now.names ≤ places marks.now }
    requires run { IsRun G.table (G.tells gates.now) net.now marks.now region.now parts.now.rules parts.now.counters }
    requires wanted { length wanted.now ≡ length parts.now.counters.need }
    ensures ordered { IfOk result (λ kept. IsOrdered net.now (before_of marks.now region.now) G.table.width G.table.literals G.table.wires (G.tells gates.now net.now (before_of marks.now region.now)) kept.items) }
    ensures has { IfOk result (λ kept. (x : ℕ) → 0 < times x parts.now.counters.queue → IsWanted wanted.now x → 0 < times x kept.items) }
{
    let _names = net.names();
    let all = parts.counters.nodes(alloc)?;
    let width = gates.width();
    let wires = gates.wires();
    let kept = prune(alloc, gates, net, width, wires, marks, region, &all, wanted)?;
    Ok(kept)
}
