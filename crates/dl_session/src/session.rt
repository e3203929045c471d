//! The service of one session.

ghost use Rattle.std.specs.Prelude.{◌≡◌, ◌<◌, ◌≤◌, List, ℕ, length};
ghost use Rattle.dl_calls.specs.declared.entry.Entry.{Entry};
ghost use Rattle.dl_edition.specs.Offices.{MayCall};
ghost use Rattle.dl_lines.specs.declared.reader.TheConstants.{LONGEST_LINE};
ghost use Rattle.dl_session.specs.Answering.{text_of};
ghost use Rattle.dl_session.specs.Ends.{HasCause, IsSession};
ghost use Rattle.dl_session.specs.Serving.{end_of, Sends, HandsOnBy, HasLineCause, ServesLine, ServesNext};
ghost use Rattle.dl_session.specs.Table.{Keeps};

use crate::answer::answer;
use crate::end::End;
use crate::lent::LentSink;
use crate::ready::{Ready, Refusal};
use crate::table::HeldTable;
use crate::workroom::Workroom;
use dl_base::Memory;
use dl_edition::Office;
use dl_io::{Failed, Sink, Source};
use dl_lines::{Ending, Next};
use dl_request::{Asked, read_request};
use dl_turn::Seat;
use std::sync::Wait;

/// Sends a reply. The session goes on, or ends where that failed.
fn reply<P: Sink>(sink: &mut P, ready: &Ready) -> Option<End>
    ensures sends { Sends (P.written sink.old) (P.written sink.new) (text_of ready.now) result }
    ensures handed { HandsOnBy (P.handed sink.old) (P.handed sink.new) (P.written sink.new) result }
    ensures cause { HasLineCause (P.faults sink.old) (P.faults sink.new) result }
    ensures name { P.name sink.new ≡ P.name sink.old }
{
    let mut lent = LentSink::of(sink);
    match lent.send(ready) {
        Ok(()) => None,
        Err(Failed) => Some(End::WriteFault),
    }
}

/// Serves a line that is not too long. The session goes on where there is no end.
fn serve_line<R: Wait, O: Office, P: Sink>(
    rt: &R,
    office: &O,
    seat: &mut Seat<O::Board>,
    table: &mut HeldTable,
    line: &[u8],
    sink: &mut P,
) -> Option<End>
    requires belongs { O.belongs office.now seat.old }
    requires may { MayCall seat.old }
    requires short { length line.now ≤ LONGEST_LINE }
    ensures belongs { O.belongs office.now seat.new }
    ensures serves { (before : List Entry) → Keeps seat.old before table.old.editions
        → ServesLine seat.old seat.new before table.new.editions line.now (P.written sink.old) (P.written sink.new) result }
    ensures handed { P.handed sink.old ≡ P.written sink.old → HandsOnBy (P.handed sink.old) (P.handed sink.new) (P.written sink.new) result }
    ensures cause { HasLineCause (P.faults sink.old) (P.faults sink.new) result }
    ensures name { P.name sink.new ≡ P.name sink.old }
{
    match read_request(table.alloc(), line) {
        Ok(Asked::Nothing) => None,
        Ok(Asked::Quit) => Some(End::Done),
        Ok(Asked::Request(request)) => {
            let ready = answer(rt, office, seat, table, request);
            reply(sink, &ready)
        }
        Ok(Asked::Variables) => reply(sink, &Ready::Refused(Refusal::Variables)),
        Ok(Asked::Form) => reply(sink, &Ready::Refused(Refusal::Form)),
        Err(Memory) => reply(sink, &Ready::Memory),
    }
}

/// How a session ends where its lines ended so.
fn end_after(ending: Ending) -> End
    ensures { result ≡ end_of ending }
{
    match ending {
        Ending::End => End::Done,
        Ending::Limit => End::Spent,
        Ending::Fault => End::ReadFault,
    }
}

/// Serves what a reader of lines answered.
fn serve_next<R: Wait, O: Office, P: Sink>(
    rt: &R,
    office: &O,
    seat: &mut Seat<O::Board>,
    room: &mut Workroom,
    next: Next,
    sink: &mut P,
) -> Option<End>
    requires belongs { O.belongs office.now seat.old }
    requires may { MayCall seat.old }
    requires short { next ≡ Next.Line → length room.old.lines.line ≤ LONGEST_LINE }
    ensures belongs { O.belongs office.now seat.new }
    ensures serves { (before : List Entry) → Keeps seat.old before room.old.table.editions
        → ServesNext seat.old seat.new before room.new.table.editions room.old.lines.line next (P.written sink.old) (P.written sink.new) (P.faults sink.old) (P.faults sink.new) result }
    ensures handed { P.handed sink.old ≡ P.written sink.old → HandsOnBy (P.handed sink.old) (P.handed sink.new) (P.written sink.new) result }
    ensures lines { room.new.lines ≡ room.old.lines }
    ensures name { P.name sink.new ≡ P.name sink.old }
{
    match next {
        Next::Over(ending) => Some(end_after(ending)),
        Next::Long => reply(sink, &Ready::Refused(Refusal::Long)),
        Next::Line => serve_line(rt, office, seat, &mut room.table, room.lines.line(), sink),
    }
}

/// Serves the requests of a source in order, until a line is `quit`, the input ends, a stream fails or the limit of bytes is read.
/// Each reply is flushed before the next line is read. The seat keeps its place, start, number and joined seats.
///
/// Where the sink held nothing back at first, what was handed on is that of a session too: after a failed write or flush only bytes of
/// the last reply are missing.
///
/// Want of memory for a request is a reply of its own. It may wait, where the office does.
pub fn serve_session<R: Wait, O: Office, I: Source, P: Sink>(
    rt: &R,
    office: &O,
    seat: &mut Seat<O::Board>,
    room: &mut Workroom,
    source: &mut I,
    sink: &mut P,
) -> End
    requires belongs { O.belongs office.now seat.old }
    requires may { MayCall seat.old }
    ensures belongs { O.belongs office.now seat.new }
    ensures session { IsSession (I.rest source.old) (I.rest source.new) (P.written sink.old) (P.written sink.new) seat.old seat.new result }
    ensures handed { P.handed sink.old ≡ P.written sink.old
        → IsSession (I.rest source.old) (I.rest source.new) (P.handed sink.old) (P.handed sink.new) seat.old seat.new result }
    ensures cause { HasCause (I.faults source.old) (I.faults source.new) (P.faults sink.old) (P.faults sink.new) result }
    ensures source_name { I.name source.new ≡ I.name source.old }
    ensures sink_name { P.name sink.new ≡ P.name sink.old }
{
    room.clear();
    'serving: loop {
        let next = room.lines.next_line(source);
        if let Some(end) = serve_next(rt, office, seat, room, next, sink) {
            return end;
        }
    }
}
