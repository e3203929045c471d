//! Writing replies. It takes no memory.

ghost use Rattle.std.specs.Prelude.{◌≡◌, ◌++◌, OnOk, length};
ghost use Rattle.std.specs.List.{flat_map};
ghost use Rattle.dl_io.specs.Outside.{HasCause};
ghost use Rattle.dl_io.specs.Streams.{WritesAll};
ghost use Rattle.dl_calls.specs.Text.{reply_text};
ghost use Rattle.dl_lit.specs.Borrowed.{literal_of};
ghost use Rattle.dl_print.specs.Text.{line, tagged_text};
ghost use Rattle.dl_conclusions.specs.Text.{conclusion_line, conclusions_text};
ghost use Rattle.dl_session.specs.Answering.{refusal_words, text_of};
ghost use Rattle.dl_session.specs.Text.{line_of, counted_line, verdict_words, answer_text, counted_theory, counted_conclusions};

use crate::ready::{Ready, Refusal};
use dl_calls::Reply;
use dl_edition::{Conclusion, Held};
use dl_io::{Failed, Sink, write_all};
use dl_lit::{Family, LiteralRef, Tagged};
use dl_print::{write_conclusion, write_number, write_tagged};
use dl_theory::{Answer, Certificate, Verdict};

fn write_line<S: Sink>(sink: &mut S, words: &[u8]) -> Result<(), Failed>
    ensures bytes { WritesAll (S.written sink.old) (S.written sink.new) result (line_of words.now) }
    ensures cause { HasCause (S.faults sink.old) (S.faults sink.new) result }
    ensures name { S.name sink.new ≡ S.name sink.old }
{
    write_all(sink, words)?;
    write_all(sink, b"\n")
}

fn write_refusal<S: Sink>(sink: &mut S, refusal: Refusal) -> Result<(), Failed>
    ensures bytes { WritesAll (S.written sink.old) (S.written sink.new) result (line_of (refusal_words refusal)) }
    ensures cause { HasCause (S.faults sink.old) (S.faults sink.new) result }
    ensures name { S.name sink.new ≡ S.name sink.old }
{
    match refusal {
        Refusal::Form => write_line(sink, b"refused form"),
        Refusal::Long => write_line(sink, b"refused long"),
        Refusal::Variables => write_line(sink, b"refused variables"),
    }
}

/// Writes how many lines follow.
fn write_count<S: Sink>(sink: &mut S, words: &[u8], count: usize) -> Result<(), Failed>
    ensures bytes { WritesAll (S.written sink.old) (S.written sink.new) result (counted_line words.now count) }
    ensures cause { HasCause (S.faults sink.old) (S.faults sink.new) result }
    ensures name { S.name sink.new ≡ S.name sink.old }
{
    write_all(sink, words)?;
    write_number(sink, count as u64)?;
    write_all(sink, b"\n")
}

/// Writes a verdict and how many lines follow.
fn write_verdict<S: Sink>(sink: &mut S, verdict: Verdict, count: usize) -> Result<(), Failed>
    ensures bytes { WritesAll (S.written sink.old) (S.written sink.new) result (counted_line (verdict_words verdict) count) }
    ensures cause { HasCause (S.faults sink.old) (S.faults sink.new) result }
    ensures name { S.name sink.new ≡ S.name sink.old }
{
    match verdict {
        Verdict::Proved => write_count(sink, b"proved ", count),
        Verdict::Refuted => write_count(sink, b"refuted ", count),
        Verdict::Neither => write_count(sink, b"neither ", count),
    }
}

fn write_member<S: Sink>(sink: &mut S, member: &Tagged) -> Result<(), Failed>
    ensures bytes { WritesAll (S.written sink.old) (S.written sink.new) result (line tagged_text member.now) }
    ensures cause { HasCause (S.faults sink.old) (S.faults sink.new) result }
    ensures name { S.name sink.new ≡ S.name sink.old }
{
    write_tagged(sink, member)?;
    write_all(sink, b"\n")
}

fn write_members<S: Sink>(sink: &mut S, list: &[Tagged]) -> Result<(), Failed>
    ensures bytes { WritesAll (S.written sink.old) (S.written sink.new) result (flat_map (line tagged_text) list.now) }
    ensures cause { HasCause (S.faults sink.old) (S.faults sink.new) result }
    ensures name { S.name sink.new ≡ S.name sink.old }
{
    for member in list {
        write_member(sink, member)?;
    }
    Ok(())
}

/// Writes a verdict, and a line for each member of its certificate.
fn write_certified<S: Sink>(sink: &mut S, verdict: Verdict, list: &[Tagged]) -> Result<(), Failed>
    ensures bytes { WritesAll (S.written sink.old) (S.written sink.new) result (counted_line (verdict_words verdict) (length list.now) ++ flat_map (line tagged_text) list.now) }
    ensures cause { HasCause (S.faults sink.old) (S.faults sink.new) result }
    ensures name { S.name sink.new ≡ S.name sink.old }
{
    write_verdict(sink, verdict, list.len())?;
    write_members(sink, list)
}

fn write_answer<S: Sink>(sink: &mut S, answer: &Answer) -> Result<(), Failed>
    ensures bytes { WritesAll (S.written sink.old) (S.written sink.new) result (answer_text answer.now) }
    ensures cause { HasCause (S.faults sink.old) (S.faults sink.new) result }
    ensures name { S.name sink.new ≡ S.name sink.old }
{
    match &answer.certificate {
        Certificate::Derivation(steps) => write_certified(sink, answer.verdict, steps.as_slice()),
        Certificate::Gap(gap) => write_certified(sink, answer.verdict, gap.as_slice()),
    }
}

fn write_theory<S: Sink>(sink: &mut S, held: &Held) -> Result<(), Failed>
    ensures bytes { WritesAll (S.written sink.old) (S.written sink.new) result (counted_theory held.now.theory) }
    ensures cause { HasCause (S.faults sink.old) (S.faults sink.new) result }
    ensures name { S.name sink.new ≡ S.name sink.old }
{
    let count = held.lines();
    write_count(sink, b"lines ", count)?;
    held.write_text(sink)
}

fn write_borrowed<S: Sink>(
    sink: &mut S,
    family: Family,
    verdict: Verdict,
    literal: LiteralRef<'_>,
) -> Result<(), Failed>
    ensures bytes { WritesAll (S.written sink.old) (S.written sink.new) result (conclusion_line family (record { literal = literal_of literal.entry; verdict = verdict })) }
    ensures cause { HasCause (S.faults sink.old) (S.faults sink.new) result }
    ensures name { S.name sink.new ≡ S.name sink.old }
{
    write_conclusion(sink, verdict, family, literal)?;
    write_all(sink, b"\n")
}

fn write_one<S: Sink>(sink: &mut S, family: Family, conclusion: &Conclusion) -> Result<(), Failed>
    ensures bytes { WritesAll (S.written sink.old) (S.written sink.new) result (conclusion_line family conclusion.now) }
    ensures cause { HasCause (S.faults sink.old) (S.faults sink.new) result }
    ensures name { S.name sink.new ≡ S.name sink.old }
{
    let literal = LiteralRef::of(&conclusion.literal);
    write_borrowed(sink, family, conclusion.verdict, literal)
}

fn write_list<S: Sink>(sink: &mut S, family: Family, list: &[Conclusion]) -> Result<(), Failed>
    ensures bytes { WritesAll (S.written sink.old) (S.written sink.new) result (conclusions_text family list.now) }
    ensures cause { HasCause (S.faults sink.old) (S.faults sink.new) result }
    ensures name { S.name sink.new ≡ S.name sink.old }
{
    for conclusion in list {
        write_one(sink, family, conclusion)?;
    }
    Ok(())
}

fn write_concluded<S: Sink>(sink: &mut S, family: Family, list: &[Conclusion]) -> Result<(), Failed>
    ensures bytes { WritesAll (S.written sink.old) (S.written sink.new) result (counted_conclusions family list.now) }
    ensures cause { HasCause (S.faults sink.old) (S.faults sink.new) result }
    ensures name { S.name sink.new ≡ S.name sink.old }
{
    write_count(sink, b"lines ", list.len())?;
    write_list(sink, family, list)
}

fn write_reply<S: Sink>(sink: &mut S, reply: &Reply) -> Result<(), Failed>
    ensures bytes { WritesAll (S.written sink.old) (S.written sink.new) result (line_of (reply_text reply.now)) }
    ensures cause { HasCause (S.faults sink.old) (S.faults sink.new) result }
    ensures name { S.name sink.new ≡ S.name sink.old }
{
    dl_calls::write_reply(sink, reply)?;
    write_all(sink, b"\n")
}

/// Writes a reply, or a front of it where the sink fails.
fn write_ready<S: Sink>(sink: &mut S, ready: &Ready) -> Result<(), Failed>
    ensures bytes { WritesAll (S.written sink.old) (S.written sink.new) result (text_of ready.now) }
    ensures cause { HasCause (S.faults sink.old) (S.faults sink.new) result }
    ensures name { S.name sink.new ≡ S.name sink.old }
{
    match ready {
        Ready::Refused(refusal) => write_refusal(sink, *refusal),
        Ready::Memory => write_line(sink, b"memory"),
        Ready::Reply(reply) => write_reply(sink, reply),
        Ready::Answer(answer) => write_answer(sink, answer),
        Ready::Text(held) => write_theory(sink, held),
        Ready::Conclusions(family, list) => write_concluded(sink, *family, list.as_slice()),
    }
}

/// Writes a reply and hands it on. After a failure a front of it was written, maybe all.
pub(crate) fn send<S: Sink>(sink: &mut S, ready: &Ready) -> Result<(), Failed>
    ensures bytes { WritesAll (S.written sink.old) (S.written sink.new) result (text_of ready.now) }
    ensures handed { OnOk result (S.handed sink.new ≡ S.written sink.new) }
    ensures cause { HasCause (S.faults sink.old) (S.faults sink.new) result }
    ensures name { S.name sink.new ≡ S.name sink.old }
{
    write_ready(sink, ready)?;
    sink.flush()
}
