//! The journal and the ends of sessions.

ghost use Rattle.std.specs.Prelude.{◌≡◌, ◌++◌, ◌∷◌, [], codes, decimal, All};
ghost use Rattle.dl_io.specs.Outside.{HasCause};
ghost use Rattle.dl_io.specs.Streams.{WritesAll};
ghost use Rattle.dl_calls.specs.Spelled.{IsSpelled};
ghost use Rattle.dl_calls.specs.Text.{journal_text};
ghost use Rattle.dl_journal.specs.Journal.{end_words, end_line, ends_text, served_text};

use dl_calls::{entry_is_spelled, write_entry};
use dl_io::{Failed, Sink, write_all};
use dl_print::write_number;
use dl_session::End;
use dl_sessions::Board;
use std::sync::ledger::Ledger;

fn words_of(end: End) -> &'static [u8]
    ensures { result.now ≡ end_words end }
{
    match end {
        End::Done => b"done",
        End::ReadFault => b"read fault",
        End::WriteFault => b"write fault",
        End::Spent => b"spent",
    }
}

fn write_start<S: Sink>(sink: &mut S, number: u64) -> Result<(), Failed>
    ensures bytes { WritesAll (S.written sink.old) (S.written sink.new) result (codes "session " ++ decimal number) }
    ensures cause { HasCause (S.faults sink.old) (S.faults sink.new) result }
    ensures name { S.name sink.new ≡ S.name sink.old }
{
    write_all(sink, b"session ")?;
    write_number(sink, number)
}

fn write_how<S: Sink>(sink: &mut S, end: End) -> Result<(), Failed>
    ensures bytes { WritesAll (S.written sink.old) (S.written sink.new) result (codes " " ++ (end_words end ++ 10 ∷ [])) }
    ensures cause { HasCause (S.faults sink.old) (S.faults sink.new) result }
    ensures name { S.name sink.new ≡ S.name sink.old }
{
    write_all(sink, b" ")?;
    write_all(sink, words_of(end))?;
    write_all(sink, b"\n")
}

fn write_end<S: Sink>(sink: &mut S, number: u64, end: End) -> Result<(), Failed>
    ensures bytes { WritesAll (S.written sink.old) (S.written sink.new) result (end_line number end) }
    ensures cause { HasCause (S.faults sink.old) (S.faults sink.new) result }
    ensures name { S.name sink.new ≡ S.name sink.old }
{
    write_start(sink, number)?;
    write_how(sink, end)
}

/// Appends a line for each end, in order.
fn write_ends<S: Sink>(sink: &mut S, ends: &[End]) -> Result<(), Failed>
    ensures bytes { WritesAll (S.written sink.old) (S.written sink.new) result (ends_text ends.now) }
    ensures cause { HasCause (S.faults sink.old) (S.faults sink.new) result }
    ensures name { S.name sink.new ≡ S.name sink.old }
{
    let mut number = 0;
    while number < ends.len() {
        write_end(sink, number as u64, ends[number])?;
        number += 1;
    }
    Ok(())
}

/// Appends a line for each entry of a board's history, in order.
fn write_history<L: Ledger, S: Sink>(sink: &mut S, board: &Board<L>) -> Result<(), Failed>
    ensures bytes { WritesAll (S.written sink.old) (S.written sink.new) result (journal_text board.now.history) }
    ensures cause { HasCause (S.faults sink.old) (S.faults sink.new) result }
    ensures name { S.name sink.new ≡ S.name sink.old }
{
    let _entries = board.entries();
    let mut at = 0;
    while let Some(entry) = board.entry(at) {
        write_entry(sink, entry)?;
        at += 1;
    }
    Ok(())
}

/// Shows that the entries of a board's history are spelled. It looks at each and does nothing.
pub fn history_is_spelled<L: Ledger>(board: &Board<L>)
    ensures { All IsSpelled board.now.history }
{
    let _entries = board.entries();
    let mut at = 0;
    while let Some(entry) = board.entry(at) {
        entry_is_spelled(entry);
        at += 1;
    }
}

/// Appends the journal of a board, a line for each entry, and then a line for the end of each session; or a front of that where the
/// sink fails. It takes no memory.
pub fn write_served<L: Ledger, S: Sink>(
    sink: &mut S,
    board: &Board<L>,
    ends: &[End],
) -> Result<(), Failed>
    ensures bytes { WritesAll (S.written sink.old) (S.written sink.new) result (served_text board.now.history ends.now) }
    ensures cause { HasCause (S.faults sink.old) (S.faults sink.new) result }
    ensures name { S.name sink.new ≡ S.name sink.old }
{
    write_history(sink, board)?;
    write_ends(sink, ends)
}
