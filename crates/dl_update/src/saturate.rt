//! Marks of all that follows in a theory by numbers.

ghost use Rattle.std.specs.Prelude.{◌≡◌, ◌+◌, ◌*◌, ◌≤◌, Contains, IfOk, OnOk, length};
ghost use Rattle.dl_lit.specs.declared.literal.Family.{Family};
ghost use Rattle.dl_lit.specs.declared.literal.Family.TheVariants as family;
ghost use Rattle.dl_theory.specs.Marks.{AreRight};
ghost use Rattle.dl_marks.specs.Marks.{places};
ghost use Rattle.dl_fill.specs.Families.{IsFilledBy};
ghost use Rattle.dl_fill.specs.Filled.{IsReady, IsFilled, IsRight, stands};
ghost use Rattle.dl_update.specs.RightIn.{AreRightIn};
ghost use Rattle.dl_update.specs.Room.{HasRoom};
ghost use Rattle.dl_update.specs.Whole.{IsWhole};

use crate::families::Families;
use crate::unmarked::{everywhere, no_marks};
use crate::works::Works;
use dl_base::Memory;
use dl_block::BlockGates;
use dl_definite::DefiniteGates;
use dl_fill::{FamilyGates, FillRoom, fill, fill_once};
use dl_graph::{Graph, Region};
use dl_lit::Family;
use dl_marks::{Marks, Steps};
use dl_prop::PropGates;
use std::alloc::Global;
use std::sync::ledger::Ledger;

/// Sets the marks of the families of a table, with room of its own that goes at the end. `Memory` where there is none for that.
fn fill_alone<G: FamilyGates, L: Ledger>(
    alloc: Global,
    gates: &G,
    net: &Graph<'_>,
    region: &Region,
    marks: &mut Marks,
    steps: &mut Steps<L>,
) -> Result<(), Memory>
    requires below { (f : Family) → Contains G.table.below f → IsRight net.now marks.old f }
    requires ready { IsReady net.now (IsFilledBy G.table) marks.old region.now }
    ensures { OnOk result (IsFilled net.now (IsFilledBy G.table) marks.old marks.new) }
{
    let mut room = FillRoom::make(alloc, gates);
    room.reserve(net.rule_numbers(), net.names())?;
    fill_once(gates, net, marks, region, room, steps);
    Ok(())
}

/// Marks that are right in the definite family, and of which no other stands.
fn begun<L: Ledger>(
    alloc: Global,
    net: &Graph<'_>,
    region: &Region,
    steps: &mut Steps<L>,
) -> Result<Marks, Memory>
    requires { IsWhole net.now region.now }
    ensures room { IfOk result (λ marks. length net.now.names ≤ places marks) }
    ensures right { IfOk result (λ marks. IsRight net.now marks family.Definite) }
    ensures ready { IfOk result (λ marks. IsReady net.now (λ f. ¬ (f ≡ family.Definite)) marks region.now) }
{
    let mut marks = no_marks(alloc, net, region, steps)?;
    fill_alone(alloc, &DefiniteGates, net, region, &mut marks, steps)?;
    Ok(marks)
}

/// Marks that are right in a family, with a place for each name. Only the families that it needs are filled. `Memory`
/// where there is none for the marks or for the fills.
fn family_marks<L: Ledger>(
    alloc: Global,
    net: &Graph<'_>,
    family: Family,
    steps: &mut Steps<L>,
) -> Result<Marks, Memory>
    ensures room { IfOk result (λ marks. length net.now.names ≤ places marks) }
    ensures right { IfOk result (λ marks. IsRight net.now marks family) }
{
    let region = everywhere(alloc, net.names())?;
    let mut marks = begun(alloc, net, &region, steps)?;
    match family {
        Family::Definite => {}
        Family::Blocking => fill_alone(alloc, &BlockGates, net, &region, &mut marks, steps)?,
        Family::Propagating => fill_alone(alloc, &PropGates, net, &region, &mut marks, steps)?,
        Family::Support => fill_alone(alloc, &PropGates, net, &region, &mut marks, steps)?,
    }
    Ok(marks)
}

/// Makes the marks of a graph right where they are so outside a region and none stands inside it. Takes no memory, and eight steps at
/// most for each member.
pub fn fill_all<L: Ledger>(
    net: &Graph<'_>,
    region: &Region,
    works: &mut Works,
    marks: &mut Marks,
    steps: &mut Steps<L>,
)
    requires room { HasRoom (length net.now.rules) (length net.now.names) works.old }
    requires ready { IsReady net.now (λ _. Unit {0}) marks.old region.now }
    ensures right { AreRight net.now.theory net.now.names (places marks.new) (stands marks.new) }
    ensures steps { steps.new ≤ steps.old + 8 * length region.now.members }
{
    fill(
        &DefiniteGates,
        net,
        marks,
        region,
        &mut works.definite,
        steps,
    );
    fill(&BlockGates, net, marks, region, &mut works.blocking, steps);
    fill(&PropGates, net, marks, region, &mut works.pair, steps);
}

/// Marks that are right in all families, with a place for each name. `Memory` where there is none for the marks or for
/// the fills.
///
/// A fill of all names counts in several times the bytes of the marks. So the rooms are made one after another, and none is kept:
/// the most that stands at once is the largest of them, and a draft that is never edited has none.
fn all_marks<L: Ledger>(
    alloc: Global,
    net: &Graph<'_>,
    steps: &mut Steps<L>,
) -> Result<Marks, Memory>
    ensures { IfOk result (λ marks. AreRight net.now.theory net.now.names (places marks) (stands marks)) }
{
    let region = everywhere(alloc, net.names())?;
    let mut marks = begun(alloc, net, &region, steps)?;
    fill_alone(alloc, &BlockGates, net, &region, &mut marks, steps)?;
    fill_alone(alloc, &PropGates, net, &region, &mut marks, steps)?;
    Ok(marks)
}

/// Marks that are right in these families, with a place for each name. `Memory` where there is none for the marks or for the fills.
pub fn marks_in<L: Ledger>(
    alloc: Global,
    net: &Graph<'_>,
    families: Families,
    steps: &mut Steps<L>,
) -> Result<Marks, Memory>
    ensures { IfOk result (AreRightIn families net.now.theory net.now.names) }
{
    match families {
        Families::All => all_marks(alloc, net, steps),
        Families::One(family) => family_marks(alloc, net, family, steps),
    }
}
