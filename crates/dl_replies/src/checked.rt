//! Checking a certificate.

ghost use Rattle.std.specs.Prelude.{◌≡◌, ◌+◌, IfOk};
ghost use Rattle.dl_replies.specs.Checks.{flaw_line, IsAnswer, IsJudged, IsOnlyChecked};

use dl_check::{CertStop, CheckStop, Checker, Flaw, read_certificate};
use dl_lit::Memory;
use dl_theory::{Certificate, Theory};
use std::alloc::Global;

/// What is said of a certificate.
#[derive(Clone, Copy, Debug, PartialEq, Eq)]
pub enum Checked {
    Accepted,
    /// The first line outside the form, or else the line of the first bad member.
    Rejected { line: u64 },
}

// The line of the member at a place.
fn member_line(at: usize) -> Result<u64, Memory>
    ensures { IfOk result (λ line. line ≡ at + 2) }
{
    match (at as u64).checked_add(2) {
        Some(line) => Ok(line),
        None => Err(Memory),
    }
}

fn line_of(flaw: Flaw) -> Result<u64, Memory>
    ensures { IfOk result (λ line. line ≡ flaw_line flaw) }
{
    match flaw {
        Flaw::Empty => Ok(2),
        Flaw::Repeat { at } => member_line(at),
        Flaw::Step { at } => member_line(at),
    }
}

fn said_of(answer: Result<(), CheckStop>) -> Result<Checked, Memory>
    ensures { IfOk result (IsAnswer answer) }
{
    match answer {
        Ok(()) => Ok(Checked::Accepted),
        Err(CheckStop::Rejected(flaw)) => {
            let line = line_of(flaw)?;
            Ok(Checked::Rejected { line })
        }
        Err(CheckStop::Memory) => Err(Memory),
    }
}

fn judge(alloc: Global, theory: &Theory, certificate: &Certificate) -> Result<Checked, Memory>
    ensures { IfOk result (IsJudged theory.now certificate.now) }
{
    let checker = Checker::make(alloc, theory)?;
    match certificate {
        Certificate::Derivation(list) => {
            let checked = said_of(checker.check_derivation(list))?;
            Ok(checked)
        }
        Certificate::Gap(list) => {
            let checked = said_of(checker.check_gap(list))?;
            Ok(checked)
        }
    }
}

/// What is said of the bytes of a certificate; nothing else can be said of them. `Memory` where there is none for it.
pub fn check(alloc: Global, theory: &Theory, bytes: &[u8]) -> Result<Checked, Memory>
    ensures { IfOk result (IsOnlyChecked theory.now bytes.now) }
{
    match read_certificate(alloc, bytes) {
        Ok(certificate) => {
            let checked = judge(alloc, theory, &certificate)?;
            Ok(checked)
        }
        Err(CertStop::BadLine { line }) => Ok(Checked::Rejected { line }),
        Err(CertStop::Memory) => Err(Memory),
    }
}
