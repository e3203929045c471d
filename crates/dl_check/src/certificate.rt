//! Reading certificates.

ghost use Rattle.std.specs.Prelude.{◌≡◌, ◌⊎◌, ◌↔◌, ◌+◌, ◌^◌, ◌<◌, ◌≤◌, ℕ, IsTrue, IfOk, IfErr, MatchResult, MatchOption, length, take};
ghost use Rattle.std.specs.List.{AllZip};
ghost use Rattle.dl_theory.specs.declared.answer.Certificate.{Certificate};
ghost use Rattle.dl_read.specs.Files.{lines_of};
ghost use Rattle.dl_check.specs.Certificates.{without_last_lf, certificate_lines, IsCertificate, IsCertStop, IsFirstBadLine, IsFirstLine, IsMemberStop, IsOnlyMember, IsMembersStop, IsOnlyCertificate};
ghost use Rattle.dl_check.specs.Headings.{heading_line, with_heading};

use crate::flaw::CertStop;
use dl_lit::Tagged;
use dl_read::{LineStop, cut_line, read_bare_tagged};
use dl_theory::{Certificate, TaggedList};
use std::alloc::Global;

/// What the first line says.
#[derive(Clone, Copy, Debug, PartialEq, Eq)]
pub enum Heading {
    Derivation,
    Gap,
}

fn without_last_lf(bytes: &[u8]) -> &[u8]
    ensures { result.now ≡ without_last_lf bytes.now }
{
    if !bytes.is_empty() && bytes[bytes.len() - 1] == b'\n' {
        &bytes[..bytes.len() - 1]
    } else {
        bytes
    }
}

fn is_word(line: &[u8], word: &[u8]) -> bool
    ensures { IsTrue result ↔ (line.now ≡ word.now) }
{
    line == word
}

fn heading_of(line: &[u8]) -> Option<Heading>
    ensures { MatchOption result (¬ IsFirstLine line.now) (λ heading. line.now ≡ heading_line heading) }
{
    if is_word(line, b"derivation") {
        return Some(Heading::Derivation);
    }
    if is_word(line, b"gap") {
        return Some(Heading::Gap);
    }
    None
}

/// The member that a line says, on a line of this number.
fn line_member(alloc: Global, line: &[u8], number: u64) -> Result<Tagged, CertStop>
    ensures { MatchResult result (IsOnlyMember line.now) (IsMemberStop line.now number) }
{
    match read_bare_tagged(alloc, line) {
        Ok(member) => Ok(member),
        Err(LineStop::Memory) => Err(CertStop::Memory),
        Err(LineStop::Bad) => Err(CertStop::BadLine { line: number }),
        Err(LineStop::Variables) => Err(CertStop::BadLine { line: number }),
    }
}

/// The members that the lines say, of which the first has the number 2.
fn read_members(alloc: Global, bytes: &[u8]) -> Result<TaggedList, CertStop>
    ensures members { IfOk result (λ members. AllZip IsOnlyMember (lines_of bytes.now) members) }
    ensures stopped { IfErr result (IsMembersStop (lines_of bytes.now) 2) }
{
    let mut members = TaggedList::make(alloc);
    let mut rest = bytes;
    let mut number: u64 = 2;
    'lines: loop {
        let (line, more) = cut_line(rest);
        let member = line_member(alloc, line, number)?;
        members.push(member)?;
        match more {
            None => return Ok(members),
            Some(after) => rest = after,
        }
        number += 1;
    }
}

fn with_heading(heading: Heading, members: TaggedList) -> Certificate
    ensures { result ≡ with_heading heading members }
{
    match heading {
        Heading::Derivation => Certificate::Derivation(members),
        Heading::Gap => Certificate::Gap(members),
    }
}

/// The certificate that a file says, or the first line outside the form: `derivation` or `gap`, and then a tagged literal
/// on each line, with no comments and no blank lines. An LF at the very end begins no line, and an empty file has
/// one line, which is empty.
pub fn read_certificate(alloc: Global, bytes: &[u8]) -> Result<Certificate, CertStop>
    ensures certificate { IfOk result (IsCertificate (certificate_lines bytes.now)) }
    ensures stopped { IfErr result (IsCertStop (certificate_lines bytes.now)) }

    // A certificate is answered by itself, and a line outside the form by the first one.
    ensures reads { (cert : Certificate) → IsCertificate (certificate_lines bytes.now) cert
        → MatchResult result (λ read. read ≡ cert) (λ stop. stop ≡ CertStop.Memory) }
    ensures stops { (k : ℕ) → IsFirstBadLine (certificate_lines bytes.now) k
        → MatchResult result (λ _. ⊥) (λ stop. (stop ≡ CertStop.BadLine k) ⊎ (stop ≡ CertStop.Memory)) }
{
    read_lines(alloc, without_last_lf(bytes))
}

fn read_lines(alloc: Global, bytes: &[u8]) -> Result<Certificate, CertStop>
    ensures { MatchResult result (IsOnlyCertificate (lines_of bytes.now)) (IsCertStop (lines_of bytes.now)) }
{
    let (first, more) = cut_line(bytes);
    match heading_of(first) {
        None => Err(CertStop::BadLine { line: 1 }),
        Some(heading) => match more {
            None => Ok(with_heading(heading, TaggedList::make(alloc))),
            Some(rest) => Ok(with_heading(heading, read_members(alloc, rest)?)),
        },
    }
}
