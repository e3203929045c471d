//! Replies, written to a sink piece by piece.

ghost use Rattle.std.specs.Prelude.{◌≡◌};
ghost use Rattle.dl_io.specs.Outside.{HasCause};
ghost use Rattle.dl_io.specs.Streams.{WritesAll};
ghost use Rattle.dl_print.specs.Text.{refusal_text};
ghost use Rattle.dl_files.specs.Theories.{line_front, line_text, refusal_words, refused_line};
ghost use Rattle.dl_replies.specs.Checks.{checked_line};
ghost use Rattle.dl_replies.specs.Replies.{usage_line, reply_text};
ghost use Rattle.dl_files.specs.Handing.{HandsOn};

use crate::checked::Checked;
use crate::reply::Reply;
use dl_conclusions::write_conclusions;
use dl_files::{Refusal, hand_on};
use dl_io::{Failed, Sink, write_all};
use dl_print::{write_number, write_refusal, write_theory};
use dl_summary::write_summary;
use dl_theory::EditRefusal;
use std::alloc::Global;

const USAGE: &[u8] =
    b"usage: ddl conclude F FILE, print FILE, check THEORY CERT, gen N SIZE, serve THEORY NAME [NAME ...]\n";

fn write_line_front<S: Sink>(sink: &mut S, line: u64) -> Result<(), Failed>
    ensures bytes { WritesAll (S.written sink.old) (S.written sink.new) result (line_front line) }
    ensures cause { HasCause (S.faults sink.old) (S.faults sink.new) result }
    ensures name { S.name sink.new ≡ S.name sink.old }
{
    write_all(sink, b"line ")?;
    write_number(sink, line)?;
    write_all(sink, b" ")
}

fn write_bad_line<S: Sink>(sink: &mut S, line: u64, words: &[u8]) -> Result<(), Failed>
    ensures bytes { WritesAll (S.written sink.old) (S.written sink.new) result (line_text line words.now) }
    ensures cause { HasCause (S.faults sink.old) (S.faults sink.new) result }
    ensures name { S.name sink.new ≡ S.name sink.old }
{
    write_line_front(sink, line)?;
    write_all(sink, words)
}

fn write_bad_edit<S: Sink>(sink: &mut S, line: u64, refusal: &EditRefusal) -> Result<(), Failed>
    ensures bytes { WritesAll (S.written sink.old) (S.written sink.new) result (line_text line (refusal_text refusal.now)) }
    ensures cause { HasCause (S.faults sink.old) (S.faults sink.new) result }
    ensures name { S.name sink.new ≡ S.name sink.old }
{
    write_line_front(sink, line)?;
    write_refusal(sink, refusal)
}

fn write_words<S: Sink>(sink: &mut S, refusal: &Refusal) -> Result<(), Failed>
    ensures bytes { WritesAll (S.written sink.old) (S.written sink.new) result (refusal_words refusal.now) }
    ensures cause { HasCause (S.faults sink.old) (S.faults sink.new) result }
    ensures name { S.name sink.new ≡ S.name sink.old }
{
    match refusal {
        Refusal::Size => write_all(sink, b"size"),
        Refusal::Form { line } => write_bad_line(sink, *line, b"form"),
        Refusal::Variables { line } => write_bad_line(sink, *line, b"variables"),
        Refusal::Edit { line, refusal } => write_bad_edit(sink, *line, refusal),
    }
}

fn write_refused<S: Sink>(sink: &mut S, refusal: &Refusal) -> Result<(), Failed>
    ensures bytes { WritesAll (S.written sink.old) (S.written sink.new) result (refused_line refusal.now) }
    ensures cause { HasCause (S.faults sink.old) (S.faults sink.new) result }
    ensures name { S.name sink.new ≡ S.name sink.old }
{
    write_all(sink, b"refused ")?;
    write_words(sink, refusal)?;
    write_all(sink, b"\n")
}

fn write_rejected<S: Sink>(sink: &mut S, line: u64) -> Result<(), Failed>
    ensures bytes { WritesAll (S.written sink.old) (S.written sink.new) result (checked_line (Checked.Rejected line)) }
    ensures cause { HasCause (S.faults sink.old) (S.faults sink.new) result }
    ensures name { S.name sink.new ≡ S.name sink.old }
{
    write_all(sink, b"rejected ")?;
    write_number(sink, line)?;
    write_all(sink, b"\n")
}

fn write_checked<S: Sink>(sink: &mut S, checked: Checked) -> Result<(), Failed>
    ensures bytes { WritesAll (S.written sink.old) (S.written sink.new) result (checked_line checked) }
    ensures cause { HasCause (S.faults sink.old) (S.faults sink.new) result }
    ensures name { S.name sink.new ≡ S.name sink.old }
{
    match checked {
        Checked::Accepted => write_all(sink, b"accepted\n"),
        Checked::Rejected { line } => write_rejected(sink, line),
    }
}

fn write_reply<S: Sink>(alloc: Global, sink: &mut S, reply: &Reply) -> Result<(), Failed>
    ensures bytes { WritesAll (S.written sink.old) (S.written sink.new) result (reply_text reply.now) }
    ensures cause { HasCause (S.faults sink.old) (S.faults sink.new) result }
    ensures name { S.name sink.new ≡ S.name sink.old }
{
    match reply {
        Reply::Usage => write_all(sink, USAGE),
        Reply::Refused(refusal) => write_refused(sink, refusal),
        Reply::Conclusions(family, conclusions) => write_conclusions(
            alloc,
            sink,
            *family,
            conclusions,
        ),
        Reply::Text(theory) => write_theory(sink, theory),
        Reply::Checked(checked) => write_checked(sink, *checked),
        Reply::Generated(summary) => write_summary(sink, summary),
    }
}

/// Writes the reply and hands it on, also where it was cut short.
pub fn print<S: Sink>(alloc: Global, sink: &mut S, reply: &Reply) -> Result<(), Failed>
    ensures bytes { WritesAll (S.written sink.old) (S.written sink.new) result (reply_text reply.now) }
    ensures handed { HandsOn (S.handed sink.new) (S.written sink.new) result }
    ensures cause { HasCause (S.faults sink.old) (S.faults sink.new) result }
    ensures name { S.name sink.new ≡ S.name sink.old }
{
    let written = write_reply(alloc, sink, reply);
    let handed = hand_on(sink);
    written?;
    handed
}
