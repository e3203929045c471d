//! Accepted answers, literal by literal and family by family.

use crate::counts::{Counts, Survey};
use dl_base::Memory;
use dl_check::Accepted;
use std::alloc::Global;

/// The accepted answers to one literal, one in each family.
pub struct Answers {
    pub definite: Accepted,
    pub blocking: Accepted,
    pub propagating: Accepted,
    pub support: Accepted,
}

impl Drop for Answers {
    fn drop(self) {
        let Answers {
            definite: _,
            blocking: _,
            propagating: _,
            support: _,
        } = self;
    }
}

/// The accepted answers in each family, in the order of the literals.
pub struct Families {
    definite: Vec<Accepted>,
    blocking: Vec<Accepted>,
    propagating: Vec<Accepted>,
    support: Vec<Accepted>,
}

impl Drop for Families {
    fn drop(self) {
        let Families {
            definite: _,
            blocking: _,
            propagating: _,
            support: _,
        } = self;
    }
}

impl Answers {
    ghost use Rattle.std.specs.Prelude.{List, ◌++◌, ◌∷◌, [], OnOk};
    ghost use Rattle.dl_summary.specs.declared.families.Answers.{Answers};
    ghost use Rattle.dl_summary.specs.Answers.{AreFamilies};

    /// Puts each answer behind those of its family.
    fn add_to(self, families: &mut Families) -> Result<(), Memory>
        ensures { OnOk result ((each : List Answers) → AreFamilies each families.old → AreFamilies (each ++ self ∷ []) families.new) }
    {
        let Answers {
            definite,
            blocking,
            propagating,
            support,
        } = self;
        families.definite.push(definite)?;
        families.blocking.push(blocking)?;
        families.propagating.push(propagating)?;
        families.support.push(support)?;
        Ok(())
    }
}

impl Families {
    ghost use Rattle.std.specs.Prelude.{IfOk};
    ghost use Rattle.dl_summary.specs.Answers.{AreFamilies, IsSurveyOf};

    /// The answers to each literal, put by their families. `Memory` where there is none for their lists.
    pub fn of(alloc: Global, each: Vec<Answers>) -> Result<Families, Memory>
        ensures { IfOk result (AreFamilies each.items) }
    {
        let mut families = Families {
            definite: Vec::new(alloc),
            blocking: Vec::new(alloc),
            propagating: Vec::new(alloc),
            support: Vec::new(alloc),
        };
        for answers in each {
            answers.add_to(&mut families)?;
        }
        Ok(families)
    }

    /// The survey of these answers. `Memory` where there is none for their list.
    pub fn survey(self) -> Result<Survey, Memory>
        ensures { IfOk result (IsSurveyOf self) }
    {
        let Families {
            definite,
            mut blocking,
            mut propagating,
            mut support,
        } = self;
        let mut survey = Survey {
            definite: Counts::of(definite.as_slice()),
            blocking: Counts::of(blocking.as_slice()),
            propagating: Counts::of(propagating.as_slice()),
            support: Counts::of(support.as_slice()),
            checked: definite,
        };
        survey.checked.append(&mut blocking)?;
        survey.checked.append(&mut propagating)?;
        survey.checked.append(&mut support)?;
        Ok(survey)
    }
}
