//! Runs over what matters.

ghost use Rattle.std.specs.Prelude.{◌≡◌, ◌≤◌, length, IfOk};
ghost use Rattle.dl_marks.specs.Marks.{places};
ghost use Rattle.dl_derive.specs.Ways.{IsRun};

use dl_base::Memory;
use dl_fill::{FamilyGates, Parts, make_parts, solve};
use dl_graph::{Graph, Region};
use dl_marks::Marks;
use std::alloc::Global;

/// For how many places nodes are made.
fn places_of(net: &Graph<'_>) -> usize
    ensures names { length net.now.names ≤ result }
    ensures rules { length net.now.rules ≤ result }
{
    let rules = net.rule_numbers();
    let names = net.names();
    if rules < names { names } else { rules }
}

/// Counters that have run over a region. `Memory` where there is none for them.
pub(crate) fn run<G: FamilyGates>(
    alloc: Global,
    gates: &G,
    net: &Graph<'_>,
    marks: &Marks,
    region: &Region,
) -> Result<Parts, Memory>
    requires bound { region.now.bound ≡ length net.now.names }
    requires room { length net.now.names ≤ places marks.now }
    ensures { IfOk result (λ parts. IsRun G.table (G.tells gates.now) net.now marks.now region.now parts.rules parts.counters) }
{
    let width = gates.width();
    let mut parts = make_parts(alloc, width, places_of(net))?;
    solve(
        gates,
        net,
        width,
        gates.literals(),
        gates.wires(),
        marks,
        region,
        &mut parts.rules,
        &mut parts.counters,
    );
    Ok(parts)
}
