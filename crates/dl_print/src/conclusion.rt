//! The writer of conclusions.

ghost use Rattle.std.specs.Prelude.{◌≡◌};
ghost use Rattle.dl_io.specs.Outside.{HasCause};
ghost use Rattle.dl_io.specs.Streams.{WritesAll};
ghost use Rattle.dl_lit.specs.Borrowed.{literal_of};
ghost use Rattle.dl_print.specs.Conclusion.{verdict_byte, verdict_text, conclusion_text};

use crate::requests::family_letter;
use crate::write::write_literal_ref;
use dl_io::{Failed, Sink, write_all};
use dl_lit::{Family, LiteralRef};
use dl_theory::Verdict;

pub(crate) fn verdict_byte(verdict: Verdict) -> u8
    ensures { result ≡ verdict_byte verdict }
{
    match verdict {
        Verdict::Proved => b'+',
        Verdict::Refuted => b'-',
        Verdict::Neither => b'?',
    }
}

fn write_verdict<S: Sink>(sink: &mut S, verdict: Verdict, family: Family) -> Result<(), Failed>
    ensures bytes { WritesAll (S.written sink.old) (S.written sink.new) result (verdict_text verdict family) }
    ensures cause { HasCause (S.faults sink.old) (S.faults sink.new) result }
    ensures name { S.name sink.new ≡ S.name sink.old }
{
    let front = [verdict_byte(verdict), family_letter(family), b' '];
    write_all(sink, &front)
}

/// Appends a verdict in a family on a literal, without an LF, or a front of it where the sink fails.
pub fn write_conclusion<S: Sink>(
    sink: &mut S,
    verdict: Verdict,
    family: Family,
    literal: LiteralRef<'_>,
) -> Result<(), Failed>
    ensures bytes { WritesAll (S.written sink.old) (S.written sink.new) result (conclusion_text verdict family (literal_of literal.entry)) }
    ensures cause { HasCause (S.faults sink.old) (S.faults sink.new) result }
    ensures name { S.name sink.new ≡ S.name sink.old }
{
    write_verdict(sink, verdict, family)?;
    write_literal_ref(sink, literal)
}
