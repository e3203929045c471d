//! The conclusions of a theory.

ghost use Rattle.std.specs.Prelude.{◌≡◌, ◌<◌, IfOk};
ghost use Rattle.dl_conclusions.specs.Conclusions.{AreConclusions};
ghost use Rattle.dl_update.specs.declared.families.Families.TheVariants as families_of;
ghost use Rattle.dl_update.specs.RightIn.{AreRightIn};

use dl_conclusions::Concluded;
use dl_lit::{Family, Memory};
use dl_marks::{Marks, Steps};
use dl_net::{Net, NumberedTheory};
use dl_update::{Draft, Families};
use std::alloc::Global;
use std::marker::Brand;
use std::sync::ledger::{Blank, Ledger};

// The draft of a theory in a family. What is counted belongs to a new ledger.
fn saturated<L: Ledger>(
    alloc: Global,
    family: Family,
    theory: NumberedTheory,
    blank: Blank,
) -> Result<Draft, Memory>
    requires name { blank.name ≡ L.name }
    requires parts { blank.parts ≡ L.parts }
    requires some { 0 < blank.parts }
    ensures theory { IfOk result (λ draft. draft.theory ≡ theory.theory) }
    ensures families { IfOk result (λ draft. draft.families ≡ families_of.One family) }
{
    let mut steps = Steps::<L>::make(blank);
    let net = Net::load(theory)?;
    Draft::saturate(alloc, net, Families::One(family), &mut steps)
}

// What a draft shares once it is frozen: its net, and marks that are right in its families.
fn shared(draft: &mut Draft) -> Result<(Net, Marks), Memory>
    ensures theory { IfOk result (λ shared. shared.0.theory ≡ draft.old.theory) }
    ensures right { IfOk result (λ shared. AreRightIn draft.old.families shared.0.theory shared.0.names shared.1) }
{
    draft.freeze()?;
    draft.share()
}

/// The conclusions of a theory in a family. `Memory` where there is none for its draft or for the order of its literals.
pub fn conclusions(
    alloc: Global,
    family: Family,
    theory: NumberedTheory,
) -> Result<Concluded, Memory>
    ensures { IfOk result (AreConclusions theory.theory family) }
{
    let mut draft = saturated::<Brand>(alloc, family, theory, Blank::new(1))?;
    let shared = shared(&mut draft);
    drop(draft);
    let (net, marks) = shared?;
    Concluded::make(alloc, net, marks, family)
}
