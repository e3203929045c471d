//! Nodes of the definite family on which those of others rest.

ghost use Rattle.std.specs.Prelude.{◌≡◌, ◌≤◌, ◌<◌, [], length, IfOk};
ghost use Rattle.dl_lit.specs.declared.literal.Family.TheVariants as family;
ghost use Rattle.dl_marks.specs.Marks.{places};
ghost use Rattle.dl_fill.specs.Filled.{IsRight};
ghost use Rattle.dl_derive.specs.Wanted.{IsSureFor};

use crate::run::run;
use crate::wanted::read_by;
use crate::way::rest;
use dl_base::Memory;
use dl_definite::DefiniteGates;
use dl_fill::{Basis, FamilyGates};
use dl_graph::{Graph, Region};
use dl_marks::Marks;
use std::alloc::Global;

/// Nodes of the definite family in order, those that the gates of other nodes read among them.
fn sure_way(
    alloc: Global,
    net: &Graph<'_>,
    marks: &Marks,
    region: &Region,
    width: usize,
    bases: &[Basis],
    nodes: &[usize],
) -> Result<Vec<usize>, Memory>
    requires width { 0 < width }
    requires bound { region.now.bound ≡ length net.now.names }
    requires room { length net.now.names ≤ places marks.now }
    requires right { IsRight net.now marks.now family.Definite }
    ensures { IfOk result (λ sure. IsSureFor net.now marks.now region.now width bases.now nodes.now sure.items) }
{
    let _names = net.names();
    let _len = region.len();
    let parts = run(alloc, &DefiniteGates, net, marks, region)?;
    let size = parts.counters.size();
    let wanted = read_by(alloc, net, marks, region, width, bases, nodes, size)?;
    let kept = rest(alloc, &DefiniteGates, net, marks, region, &parts, &wanted)?;
    Ok(kept)
}

/// The same for nodes of some family. Where its gates read nothing of the definite one, there are none, and no run is made for them.
pub(crate) fn sure_for<G: FamilyGates>(
    alloc: Global,
    gates: &G,
    net: &Graph<'_>,
    marks: &Marks,
    region: &Region,
    nodes: &[usize],
) -> Result<Vec<usize>, Memory>
    requires bound { region.now.bound ≡ length net.now.names }
    requires room { length net.now.names ≤ places marks.now }
    requires right { IsRight net.now marks.now family.Definite }
    ensures sure { IfOk result (λ sure. IsSureFor net.now marks.now region.now G.table.width G.table.bases nodes.now sure.items) }
    ensures none { IfOk result (λ sure. G.table.bases ≡ [] → sure.items ≡ []) }
{
    let bases = gates.bases();
    if bases.is_empty() {
        return Ok(Vec::new(alloc));
    }
    let sure = sure_way(alloc, net, marks, region, gates.width(), bases, nodes)?;
    Ok(sure)
}
