//! Answers on literals without a number.

ghost use Rattle.std.specs.Prelude.{◌≡◌, ◌∷◌, ◌++◌, [], Contains, IfOk, OnOk, false};
ghost use Rattle.dl_lit.specs.Literal.{tagged};
ghost use Rattle.dl_theory.specs.Verdicts.{Fits};
ghost use Rattle.dl_derive.specs.Unnumbered.{refuted_steps};

use dl_base::Memory;
use dl_graph::Graph;
use dl_lit::{Family, Literal, Tagged};
use dl_theory::{Answer, Certificate, TaggedList, Verdict};
use std::alloc::Global;

fn push_refuted(list: &mut TaggedList, family: Family, literal: &Literal) -> Result<(), Memory>
    ensures { OnOk result (list.new ≡ list.old ++ tagged false family literal.now ∷ []) }
{
    let literal = literal.copy()?;
    list.push(Tagged {
        plus: false,
        family,
        literal,
    })?;
    Ok(())
}

/// The derivation of a literal that does not occur, which is refuted in every family.
fn refuted(alloc: Global, family: Family, literal: &Literal) -> Result<TaggedList, Memory>
    ensures { IfOk result (λ list. list ≡ refuted_steps family literal.now) }
{
    let mut list = TaggedList::make(alloc);
    push_refuted(&mut list, Family::Definite, literal)?;
    match family {
        Family::Definite => {}
        Family::Blocking => push_refuted(&mut list, Family::Blocking, literal)?,
        Family::Propagating => push_refuted(&mut list, Family::Propagating, literal)?,
        Family::Support => push_refuted(&mut list, Family::Support, literal)?,
    }
    Ok(list)
}

/// The answer on a literal without a number: it does not occur, so it is refuted in every family.
pub(crate) fn unnumbered_answer(
    alloc: Global,
    net: &Graph<'_>,
    family: Family,
    literal: &Literal,
) -> Result<Answer, Memory>
    requires { ¬ Contains net.now.names literal.now }
    ensures { IfOk result (Fits net.now.theory family literal.now) }
{
    let _names = net.names();
    let steps = refuted(alloc, family, literal)?;
    Ok(Answer {
        verdict: Verdict::Refuted,
        certificate: Certificate::Derivation(steps),
    })
}
