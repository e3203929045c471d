//! The writer of the lines of a journal.

ghost use Rattle.std.specs.Prelude.{◌≡◌, ◌++◌, ◌∷◌, [], codes, decimal};
ghost use Rattle.dl_io.specs.Outside.{HasCause};
ghost use Rattle.dl_io.specs.Streams.{WritesAll};
ghost use Rattle.dl_print.specs.Text.{refusal_text};
ghost use Rattle.dl_calls.specs.Laws.{LineTells};
ghost use Rattle.dl_calls.specs.Text.{call_text, reply_text, unpublished_text, refused_text, entry_text};

use crate::call::Call;
use crate::entry::Entry;
use crate::reply::Reply;
use dl_io::{Failed, Sink, write_all};
use dl_print::{write_edit, write_number, write_refusal};
use dl_theory::EditRefusal;

fn write_counted<S: Sink>(sink: &mut S, words: &[u8], number: u64) -> Result<(), Failed>
    ensures bytes { WritesAll (S.written sink.old) (S.written sink.new) result (words.now ++ decimal number) }
    ensures cause { HasCause (S.faults sink.old) (S.faults sink.new) result }
    ensures name { S.name sink.new ≡ S.name sink.old }
{
    write_all(sink, words)?;
    write_number(sink, number)
}

fn write_refused<S: Sink>(sink: &mut S, refusal: &EditRefusal) -> Result<(), Failed>
    ensures bytes { WritesAll (S.written sink.old) (S.written sink.new) result (refused_text refusal.now) }
    ensures cause { HasCause (S.faults sink.old) (S.faults sink.new) result }
    ensures name { S.name sink.new ≡ S.name sink.old }
{
    write_all(sink, b"refused ")?;
    write_refusal(sink, refusal)
}

fn write_unpublished<S: Sink>(sink: &mut S, asked: u64, published: u64) -> Result<(), Failed>
    ensures bytes { WritesAll (S.written sink.old) (S.written sink.new) result (unpublished_text asked published) }
    ensures cause { HasCause (S.faults sink.old) (S.faults sink.new) result }
    ensures name { S.name sink.new ≡ S.name sink.old }
{
    write_counted(sink, b"refused unpublished ", asked)?;
    write_counted(sink, b" of ", published)
}

fn write_call<S: Sink>(sink: &mut S, call: &Call) -> Result<(), Failed>
    ensures bytes { WritesAll (S.written sink.old) (S.written sink.new) result (call_text call.now) }
    ensures cause { HasCause (S.faults sink.old) (S.faults sink.new) result }
    ensures name { S.name sink.new ≡ S.name sink.old }
{
    match call {
        Call::Enrol => write_all(sink, b"enrol"),
        Call::Edit(edit) => write_edit(sink, edit),
        Call::Publish => write_all(sink, b"publish"),
        Call::Hold(number) => write_counted(sink, b"hold ", *number),
    }
}

/// Appends the words of a reply, with no LF, or a front of them where the sink fails.
pub fn write_reply<S: Sink>(sink: &mut S, reply: &Reply) -> Result<(), Failed>
    ensures bytes { WritesAll (S.written sink.old) (S.written sink.new) result (reply_text reply.now) }
    ensures cause { HasCause (S.faults sink.old) (S.faults sink.new) result }
    ensures name { S.name sink.new ≡ S.name sink.old }
{
    match reply {
        Reply::Enrolled(number) => write_counted(sink, b"enrolled ", *number),
        Reply::Edited => write_all(sink, b"ok"),
        Reply::EditRefused(refusal) => write_refused(sink, refusal),
        Reply::Edition(number) => write_counted(sink, b"edition ", *number),
        Reply::Holding(number) => write_counted(sink, b"holding ", *number),
        Reply::Unpublished { asked, published } => write_unpublished(sink, *asked, *published),
    }
}

fn write_answer<S: Sink>(sink: &mut S, reply: &Reply) -> Result<(), Failed>
    ensures bytes { WritesAll (S.written sink.old) (S.written sink.new) result (codes " | " ++ (reply_text reply.now ++ 10 ∷ [])) }
    ensures cause { HasCause (S.faults sink.old) (S.faults sink.new) result }
    ensures name { S.name sink.new ≡ S.name sink.old }
{
    write_all(sink, b" | ")?;
    write_reply(sink, reply)?;
    write_all(sink, b"\n")
}

fn write_question<S: Sink>(sink: &mut S, seat: u64, call: &Call) -> Result<(), Failed>
    ensures bytes { WritesAll (S.written sink.old) (S.written sink.new) result (decimal seat ++ (codes " | " ++ call_text call.now)) }
    ensures cause { HasCause (S.faults sink.old) (S.faults sink.new) result }
    ensures name { S.name sink.new ≡ S.name sink.old }
{
    write_number(sink, seat)?;
    write_all(sink, b" | ")?;
    write_call(sink, call)
}

/// Appends the line of an entry with its LF, or a front of it where the sink fails. No other entry that a program can hold has
/// that line.
pub fn write_entry<S: Sink>(sink: &mut S, entry: &Entry) -> Result<(), Failed>
    ensures bytes { WritesAll (S.written sink.old) (S.written sink.new) result (entry_text entry.now) }
    ensures cause { HasCause (S.faults sink.old) (S.faults sink.new) result }
    ensures name { S.name sink.new ≡ S.name sink.old }
    ensures tells { LineTells entry.now }
{
    write_question(sink, entry.seat, &entry.call)?;
    write_answer(sink, &entry.reply)
}
