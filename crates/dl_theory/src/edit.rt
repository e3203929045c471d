//! Edits of a theory, and why one is refused.

use crate::lists::Path;
use crate::rule::{Pair, Rule};
use dl_lit::{Literal, Memory, Name};

#[derive(Drop)]
pub enum Edit {
    AddRule(Rule),
    DropRule(Name),
    AddFact(Literal),
    DropFact(Literal),
    AddPair(Pair),
    DropPair(Pair),
}

impl Edit {
    ghost use Rattle.std.specs.Prelude.{◌≡◌, IfOk};

    /// An equal edit.
    pub fn copy(&self) -> Result<Edit, Memory>
        ensures { IfOk result (λ copy. copy ≡ self.now) }
    {
        match self {
            Edit::AddRule(rule) => Ok(Edit::AddRule(rule.copy()?)),
            Edit::DropRule(label) => Ok(Edit::DropRule(label.copy()?)),
            Edit::AddFact(fact) => Ok(Edit::AddFact(fact.copy()?)),
            Edit::DropFact(fact) => Ok(Edit::DropFact(fact.copy()?)),
            Edit::AddPair(pair) => Ok(Edit::AddPair(pair.copy()?)),
            Edit::DropPair(pair) => Ok(Edit::DropPair(pair.copy()?)),
        }
    }
}

#[derive(Drop)]
pub enum EditRefusal {
    LabelThere(Name),
    NoLabel(Name),
    FactThere,
    NoFact,
    PairThere,
    NoPair,
    Cycle(Path),
    RulesFull,
    FactsFull,
    PairsFull,
}

impl EditRefusal {
    ghost use Rattle.std.specs.Prelude.{◌≡◌, IfOk};

    /// An equal refusal.
    pub fn copy(&self) -> Result<EditRefusal, Memory>
        ensures { IfOk result (λ copy. copy ≡ self.now) }
    {
        match self {
            EditRefusal::LabelThere(label) => Ok(EditRefusal::LabelThere(label.copy()?)),
            EditRefusal::NoLabel(label) => Ok(EditRefusal::NoLabel(label.copy()?)),
            EditRefusal::FactThere => Ok(EditRefusal::FactThere),
            EditRefusal::NoFact => Ok(EditRefusal::NoFact),
            EditRefusal::PairThere => Ok(EditRefusal::PairThere),
            EditRefusal::NoPair => Ok(EditRefusal::NoPair),
            EditRefusal::Cycle(path) => Ok(EditRefusal::Cycle(path.copy()?)),
            EditRefusal::RulesFull => Ok(EditRefusal::RulesFull),
            EditRefusal::FactsFull => Ok(EditRefusal::FactsFull),
            EditRefusal::PairsFull => Ok(EditRefusal::PairsFull),
        }
    }
}

#[derive(Drop)]
pub enum EditStop {
    Refused(EditRefusal),
    Memory,
}

/// Why a list of pairs was not added whole.
#[derive(Drop)]
pub enum PairsStop {
    /// The pairs before this place were added; the one at it was refused.
    Refused { at: usize, refusal: EditRefusal },
    /// Nothing was added.
    Memory,
}

impl From<Memory> for EditStop {
    ghost use Rattle.std.specs.Prelude.{◌≡◌};
    ghost use Rattle.dl_theory.specs.declared.edit.EditStop.{EditStop};

    ghost from_gives = { λ _ stop. stop ≡ EditStop.Memory };

    fn from(_: Memory) -> EditStop {
        EditStop::Memory
    }
}

impl From<Memory> for PairsStop {
    ghost use Rattle.std.specs.Prelude.{◌≡◌};
    ghost use Rattle.dl_theory.specs.declared.edit.PairsStop.{PairsStop};

    ghost from_gives = { λ _ stop. stop ≡ PairsStop.Memory };

    fn from(_: Memory) -> PairsStop {
        PairsStop::Memory
    }
}
