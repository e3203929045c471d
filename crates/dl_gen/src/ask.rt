//! Asking about each literal, and checking each answer.

ghost use Rattle.std.specs.Prelude.{◌≡◌, IfOk, OnOk, map};
ghost use Rattle.dl_theory.specs.Laws.{IsCoherent, IsConsistent, IsInclusive};
ghost use Rattle.dl_check.specs.Checking.{StandsFor};
ghost use Rattle.dl_summary.specs.Survey.{IsSurvey, AreNested};
ghost use Rattle.dl_summary.specs.Answers.{IsAnswer, IsAnswered, AreAnswered};

use dl_base::Memory;
use dl_check::{Accepted, Checker};
use dl_conclusions::Conclusion;
use dl_edition::Held;
use dl_lit::{Family, Literal};
use dl_summary::{Answers, Families, Survey};
use dl_theory::Theory;
use rayon::prelude::*;
use std::alloc::Global;
use std::thread::Threads;

/// So many literals are worth a thread of their own.
const PIECE: usize = 16;

/// The answer to one literal, which is accepted and not kept.
fn answer_to(
    held: &Held,
    checker: &Checker,
    family: Family,
    literal: &Literal,
) -> Result<Accepted, Memory>
    requires { StandsFor checker.now held.now.theory }
    ensures { IfOk result (IsAnswer held.now.theory family literal.now) }
{
    let answer = held.ask(family, literal)?;
    match checker.accept(family, literal, &answer)? {
        Some(accepted) => Ok(accepted),
        // each answer of an edition fits its theory, and so is accepted
        None => unreachable!(),
    }
}

/// The accepted answers to one literal, one in each family.
fn answers_to(held: &Held, checker: &Checker, literal: &Literal) -> Result<Answers, Memory>
    requires { StandsFor checker.now held.now.theory }
    ensures { IfOk result (IsAnswered held.now.theory literal.now) }
{
    let definite = answer_to(held, checker, Family::Definite, literal)?;
    let blocking = answer_to(held, checker, Family::Blocking, literal)?;
    let propagating = answer_to(held, checker, Family::Propagating, literal)?;
    let support = answer_to(held, checker, Family::Support, literal)?;
    Ok(Answers {
        definite,
        blocking,
        propagating,
        support,
    })
}

/// The accepted answers to each literal, in order. One pass asks in every family, so its threads end together only once.
fn answers_of(
    rt: &(impl Threads + Sync),
    alloc: Global,
    held: &Held,
    checker: &Checker,
    literals: &[Conclusion],
) -> Result<Vec<Answers>, Memory>
    requires { StandsFor checker.now held.now.theory }
    ensures { IfOk result (λ each. AreAnswered held.now.theory (map (λ c. c.literal) literals.now) each.items) }
{
    literals
        .par_iter()
        .with_min_len(PIECE)
        .map(
            |conclusion: &Conclusion| -> Result<Answers, Memory>
                requires { StandsFor checker.now held.now.theory }
                ensures { IfOk result (IsAnswered held.entry.now.theory conclusion.now.literal) }
            { answers_to(held, checker, &conclusion.literal) },
        )
        .collect(rt, alloc)?
}

/// Asks an edition about each literal that its theory mentions, in each family, and checks each answer, in as many threads as there are
/// processors. No certificate is kept longer than its check. `Memory` where there is none for an answer, for a check or for the lists.
///
/// No tagged literal of the theory follows together with its opposite. In blocking and in propagating, literals that attack each other are
/// both proved only where both are definite. Each family includes the one before it, in the order definite, propagating, blocking,
/// support, so it proves no fewer literals and refutes no more.
pub fn survey(
    rt: &(impl Threads + Sync),
    alloc: Global,
    held: &Held,
    theory: &Theory,
) -> Result<Survey, Memory>
    requires { held.now.theory ≡ theory.now }
    ensures survey { IfOk result (IsSurvey theory.now) }
    ensures nested { IfOk result AreNested }
    ensures coherent { OnOk result (IsCoherent theory.now) }
    ensures consistent { OnOk result (IsConsistent theory.now) }
    ensures inclusive { OnOk result (IsInclusive theory.now) }
{
    // a theory is well formed, which the laws rest on
    let _formed = theory.facts_len();
    let checker = Checker::make(alloc, theory)?;
    let literals = held.conclusions(Family::Definite)?;
    let list = literals.as_slice();
    let each = answers_of(rt, alloc, held, &checker, list)?;
    let families = Families::of(alloc, each)?;
    let survey = families.survey()?;
    Ok(survey)
}
