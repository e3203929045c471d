//! The draft that a board begins with.

ghost use Rattle.std.specs.Prelude.{◌≡◌, ◌<◌, IfOk};
ghost use Rattle.dl_update.specs.declared.families.Families.TheVariants as families_of;

use dl_base::Memory;
use dl_marks::Steps;
use dl_net::Net;
use dl_theory::Theory;
use dl_update::{Draft, Families};
use std::alloc::Global;
use std::marker::Brand;
use std::sync::ledger::{Blank, Ledger};

/// The draft of a theory, in all families. What is counted belongs to a new ledger.
fn counted_draft<M: Ledger>(alloc: Global, theory: &Theory, blank: Blank) -> Result<Draft, Memory>
    requires name { blank.name ≡ M.name }
    requires parts { blank.parts ≡ M.parts }
    requires some { 0 < blank.parts }
    ensures theory { IfOk result (λ draft. draft.theory ≡ theory.now) }
    ensures families { IfOk result (λ draft. draft.families ≡ families_of.All) }
{
    let mut steps = Steps::<M>::make(blank);
    let net = Net::of(alloc, theory)?;
    Draft::saturate(alloc, net, Families::All, &mut steps)
}

/// A copy of a theory, and its draft in all families. `Memory` where there is none for them.
pub(crate) fn opened(alloc: Global, theory: &Theory) -> Result<(Theory, Draft), Memory>
    ensures start { IfOk result (λ opened. opened.0 ≡ theory.now) }
    ensures draft { IfOk result (λ opened. opened.1.theory ≡ theory.now) }
    ensures families { IfOk result (λ opened. opened.1.families ≡ families_of.All) }
{
    let start = theory.copy()?;
    let draft = counted_draft::<Brand>(alloc, theory, Blank::new(1))?;
    Ok((start, draft))
}
