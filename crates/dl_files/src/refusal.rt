//! Why a file gives no theory.

use dl_lit::Memory;
use dl_read::ReadStop;
use dl_theory::EditRefusal;

/// Why a file gives no theory. Lines are counted from 1.
pub enum Refusal {
    /// The file is larger than the limit.
    Size,
    /// The first line outside the grammar.
    Form { line: u64 },
    /// The first line outside the grammar, which has a `(`.
    Variables { line: u64 },
    /// The first edit, in the order of loading, that the theory refuses.
    Edit { line: u64, refusal: EditRefusal },
}

impl Drop for Refusal {
    fn drop(self) {
        match self {
            Refusal::Size => {}
            Refusal::Form { line: _ } => {}
            Refusal::Variables { line: _ } => {}
            Refusal::Edit {
                line: _,
                refusal: _refusal,
            } => {}
        }
    }
}

impl Refusal {
    ghost use Rattle.std.specs.Prelude.{List, ℕ, IfOk};
    ghost use Rattle.dl_read.specs.Files.{IsReadStop};
    ghost use Rattle.dl_files.specs.Theories.{IsLineRefusal};

    /// The refusal that a stop of the reader is, unless there was no memory.
    pub fn from_stop(stop: ReadStop) -> Result<Refusal, Memory>
        ensures { (bytes : List ℕ) → IsReadStop bytes stop → IfOk result (IsLineRefusal bytes) }
    {
        match stop {
            ReadStop::BadLine { line } => Ok(Refusal::Form { line }),
            ReadStop::Variables { line } => Ok(Refusal::Variables { line }),
            ReadStop::Edit { line, refusal } => Ok(Refusal::Edit { line, refusal }),
            ReadStop::Memory => Err(Memory),
        }
    }
}
