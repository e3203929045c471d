//! A fill of the families of a table.

ghost use Rattle.std.specs.Prelude.{◌≡◌, ℕ, ◌*◌, ◌+◌, ◌-◌, ◌<◌, ◌≤◌, Contains, IsTrue, length, slice_index};
ghost use Rattle.dl_lit.specs.declared.literal.Family.{Family};
ghost use Rattle.dl_graph.specs.Counting.{times};
ghost use Rattle.dl_fill.specs.Families.{IsFilledBy, HasPlaces, most_steps};
ghost use Rattle.dl_fill.specs.Filled.{IsReady, IsFilled, IsRight, IsSolved, HasFired};
ghost use Rattle.dl_fill.specs.Idle.{IsIdle};
ghost use Rattle.dl_fill.specs.Prepared.{all_nodes};

use crate::family::FamilyGates;
use crate::parts::Parts;
use crate::room::FillRoom;
use crate::whole_run::{solve, tidy};
use crate::write::write_families;
use dl_graph::{Graph, Region};
use dl_marks::{Marks, Steps};
use std::sync::ledger::Ledger;

/// Runs the counters until exactly what follows in the region has fired.
fn solve_families<G: FamilyGates>(
    gates: &G,
    net: &Graph<'_>,
    marks: &Marks,
    region: &Region,
    parts: &mut Parts,
)
    requires idle { IsIdle G.table.width parts.old.rules.bound parts.old.counters parts.old.rules }
    requires names { length net.now.names ≤ parts.old.rules.bound }
    requires rules { length net.now.rules ≤ parts.old.rules.bound }
    requires below { (f : Family) → Contains G.table.below f → IsRight net.now marks.now f }
    requires ready { IsReady net.now (IsFilledBy G.table) marks.now region.now }
    ensures solved { (f : Family) → IsFilledBy G.table f → IsSolved net.now region.now.members (HasFired G.table.width (G.table.kind f) parts.new.counters) f }
    ensures idle { (y : ℕ) → times y (all_nodes G.table.width 0 G.table.literals region.now.members) ≡ 0 → times y (all_nodes G.table.width G.table.literals (G.table.width - G.table.literals) parts.new.rules.members) ≡ 0 → slice_index parts.new.counters.need y ≡ 0 }
    ensures size { length parts.new.counters.need ≡ parts.old.rules.bound * G.table.width }
    ensures bound { parts.new.rules.bound ≡ parts.old.rules.bound }
{
    let _names = net.names();
    let _len = region.len();
    solve(
        gates,
        net,
        gates.width(),
        gates.literals(),
        gates.wires(),
        marks,
        region,
        &mut parts.rules,
        &mut parts.counters,
    );
}

/// Sets the marks of what has fired when the counters have run out. The counters stay as they are then.
fn fill_marks<G: FamilyGates, L: Ledger>(
    gates: &G,
    net: &Graph<'_>,
    marks: &mut Marks,
    region: &Region,
    parts: &mut Parts,
    steps: &mut Steps<L>,
)
    requires idle { IsIdle G.table.width parts.old.rules.bound parts.old.counters parts.old.rules }
    requires names { length net.now.names ≤ parts.old.rules.bound }
    requires rules { length net.now.rules ≤ parts.old.rules.bound }
    requires below { (f : Family) → Contains G.table.below f → IsRight net.now marks.old f }
    requires ready { IsReady net.now (IsFilledBy G.table) marks.old region.now }
    ensures filled { IsFilled net.now (IsFilledBy G.table) marks.old marks.new }
    ensures idle { (y : ℕ) → times y (all_nodes G.table.width 0 G.table.literals region.now.members) ≡ 0 → times y (all_nodes G.table.width G.table.literals (G.table.width - G.table.literals) parts.new.rules.members) ≡ 0 → slice_index parts.new.counters.need y ≡ 0 }
    ensures size { length parts.new.counters.need ≡ parts.old.rules.bound * G.table.width }
    ensures bound { parts.new.rules.bound ≡ parts.old.rules.bound }
    ensures steps { steps.new ≤ steps.old + most_steps G.table.fills (length region.now.members) }
{
    let _len = region.len();
    let _width = gates.width();
    solve_families(gates, net, marks, region, parts);
    write_families(gates, &parts.counters, marks, region, steps);
}

/// A fill with what it counts with, which is left as it was.
fn fill_with<G: FamilyGates, L: Ledger>(
    gates: &G,
    net: &Graph<'_>,
    marks: &mut Marks,
    region: &Region,
    parts: &mut Parts,
    steps: &mut Steps<L>,
)
    requires idle { IsIdle G.table.width parts.old.rules.bound parts.old.counters parts.old.rules }
    requires names { length net.now.names ≤ parts.old.rules.bound }
    requires rules { length net.now.rules ≤ parts.old.rules.bound }
    requires below { (f : Family) → Contains G.table.below f → IsRight net.now marks.old f }
    requires ready { IsReady net.now (IsFilledBy G.table) marks.old region.now }
    ensures filled { IsFilled net.now (IsFilledBy G.table) marks.old marks.new }
    ensures idle { IsIdle G.table.width parts.old.rules.bound parts.new.counters parts.new.rules }
    ensures steps { steps.new ≤ steps.old + most_steps G.table.fills (length region.now.members) }
{
    let width = gates.width();
    fill_marks(gates, net, marks, region, parts, steps);
    tidy(
        net,
        width,
        gates.literals(),
        marks,
        region,
        &mut parts.rules,
        &mut parts.counters,
    );
}

/// Sets exactly the marks that follow in the families of a table, in a region outside which they are right, where those of the families
/// below are right. It costs what the region touches: its literals, the rules for and against them, and their edges. It takes no
/// memory.
pub fn fill<G: FamilyGates, L: Ledger>(
    gates: &G,
    net: &Graph<'_>,
    marks: &mut Marks,
    region: &Region,
    room: &mut FillRoom,
    steps: &mut Steps<L>,
)
    requires room { HasPlaces G.table (length net.now.rules) (length net.now.names) room.old }
    requires below { (f : Family) → Contains G.table.below f → IsRight net.now marks.old f }
    requires ready { IsReady net.now (IsFilledBy G.table) marks.old region.now }
    ensures filled { IsFilled net.now (IsFilledBy G.table) marks.old marks.new }
    ensures room { room.new ≡ room.old }
    ensures steps { steps.new ≤ steps.old + most_steps G.table.fills (length region.now.members) }
{
    fill_with(gates, net, marks, region, &mut room.parts, steps);
}

/// `fill`, in a room that goes with it. So nothing is cleared for a fill that comes after.
pub fn fill_once<G: FamilyGates, L: Ledger>(
    gates: &G,
    net: &Graph<'_>,
    marks: &mut Marks,
    region: &Region,
    room: FillRoom,
    steps: &mut Steps<L>,
)
    requires room { HasPlaces G.table (length net.now.rules) (length net.now.names) room }
    requires below { (f : Family) → Contains G.table.below f → IsRight net.now marks.old f }
    requires ready { IsReady net.now (IsFilledBy G.table) marks.old region.now }
    ensures filled { IsFilled net.now (IsFilledBy G.table) marks.old marks.new }
    ensures steps { steps.new ≤ steps.old + most_steps G.table.fills (length region.now.members) }
{
    let mut parts = room.into_parts();
    fill_marks(gates, net, marks, region, &mut parts, steps);
}
