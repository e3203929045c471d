//! Derivations in a family: nodes that lead up to one, in the order in which they fired.

ghost use Rattle.std.specs.Prelude.{◌≡◌, ◌+◌, ◌*◌, IfOk};
ghost use Rattle.dl_lit.specs.Literal.{tagged};
ghost use Rattle.dl_theory.specs.Derivations.{Follows};
ghost use Rattle.dl_theory.specs.Verdicts.{DerivesAt};
ghost use Rattle.dl_graph.specs.Numbers.{literal_at};
ghost use Rattle.dl_fill.specs.Families.{IsFilledBy};
ghost use Rattle.dl_derive.specs.Ways.{IsWay};
ghost use Rattle.dl_derive.specs.Asked.{IsAsked};

use crate::run::run;
use crate::steps::behind_sure;
use crate::sure::sure_for;
use crate::way::lead;
use dl_base::Memory;
use dl_fill::FamilyGates;
use dl_graph::{Graph, Region};
use dl_lit::Family;
use dl_marks::Marks;
use dl_theory::TaggedList;
use std::alloc::Global;

/// The nodes that lead up to that of the literal, the family and the sign.
fn way<G: FamilyGates>(
    alloc: Global,
    gates: &G,
    net: &Graph<'_>,
    marks: &Marks,
    region: &Region,
    plus: bool,
    family: Family,
    number: usize,
) -> Result<Vec<usize>, Memory>
    requires filled { IsFilledBy G.table family }
    requires asked { IsAsked net.now marks.now region.now family number }
    requires follows { Follows net.now.theory (tagged plus family (literal_at net.now number)) }
    ensures { IfOk result (λ nodes. IsWay G.table (G.tells gates.now) net.now marks.now region.now (number * G.table.width + G.table.kind family plus) nodes.items) }
{
    let _names = net.names();
    let parts = run(alloc, gates, net, marks, region)?;
    let _size = parts.counters.size();
    let width = gates.width();
    let node = number * width + gates.node_kind(family, plus);
    let nodes = lead(alloc, gates, net, marks, region, &parts, node)?;
    Ok(nodes)
}

/// A derivation that ends with the literal, the family and the sign, of what matters.
pub(crate) fn led<G: FamilyGates>(
    alloc: Global,
    gates: &G,
    net: &Graph<'_>,
    marks: &Marks,
    region: &Region,
    plus: bool,
    family: Family,
    number: usize,
) -> Result<TaggedList, Memory>
    requires filled { IsFilledBy G.table family }
    requires asked { IsAsked net.now marks.now region.now family number }
    requires follows { Follows net.now.theory (tagged plus family (literal_at net.now number)) }
    ensures { IfOk result (DerivesAt net.now.theory family (literal_at net.now number) (tagged plus family (literal_at net.now number))) }
{
    let _names = net.names();
    let nodes = way(alloc, gates, net, marks, region, plus, family, number)?;
    let sure = sure_for(alloc, gates, net, marks, region, &nodes)?;
    let list = behind_sure(
        alloc,
        net,
        region,
        &sure,
        gates.width(),
        gates.tags(),
        &nodes,
    )?;
    Ok(list)
}
