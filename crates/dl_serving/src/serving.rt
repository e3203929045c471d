//! Sessions from a theory, each under a name.

ghost use Rattle.std.specs.Prelude.{◌≡◌, ◌≤◌, ◌<◌, [], Bool, map, length, string_bytes, vec_capacity, IfOk, IfErr, All};
ghost use Rattle.dl_io.specs.House.{IsOpenedOut, standard};
ghost use Rattle.dl_io.specs.Outside.{HasCause};
ghost use Rattle.dl_io.specs.Streams.{WritesAll};
ghost use Rattle.dl_calls.specs.Spelled.{IsSpelled};
ghost use Rattle.dl_sessions.specs.Served.{told};
ghost use Rattle.dl_journal.specs.Journal.{served_text};
ghost use Rattle.dl_words.specs.Names.{AreDistinct};
ghost use Rattle.dl_journal.specs.Streams.{names_of, MayOpen, settled_all, AreOpen, begun, Undoes};
ghost use Rattle.dl_files.specs.Handing.{HandsOn};
ghost use Rattle.dl_serving.specs.Serve.{ends_status};
ghost use Rattle.dl_serving.specs.Serving.{PrintsTo, ServesHall, HasOpened, open_stop_of, Sessions};

use crate::sessions::{note_ends, settle_sessions, status_after};
use dl_files::{Status, Stop, hand_on};
use dl_io::{Failed, House, OpenStop, Sink};
use dl_journal::{
    Named, history_is_spelled, named_all, open_streams, settle_streams, write_served,
};
use dl_session::End;
use dl_sessions::{Board, Hall, Served};
use dl_theory::Theory;
use std::alloc::Global;
use std::marker::Brand;
use std::mem;
use std::sync::Wait;
use std::sync::ledger::{Blank, Ledger};
use std::thread::Threads;

/// What sessions need beside a hall: their names, their streams, and room for their ends.
struct Streams<H: House> {
    names: Vec<Named>,
    pairs: Vec<(H::In, H::Out)>,
    ends: Vec<End>,
}

/// Opens the streams of all sessions, or none.
fn open<H: House>(alloc: Global, names: &[String], house: &mut H) -> Result<Streams<H>, Stop>
    requires { MayOpen (H.state house.old) (map string_bytes names.now) }
    ensures opened { let t = told H.In.rest H.In.faults H.In.name H.Out.written H.Out.handed H.Out.faults H.Out.name in
        IfOk result (λ s. HasOpened H.tells (H.state house.old) (H.state house.new) (map string_bytes names.now)
        (names_of s.names.items) (map (λ p. t p.0 p.1) s.pairs.items) s.ends.items (vec_capacity s.ends)) }
    ensures undone { IfErr result (λ stop. Undoes H.tells (H.state house.old) (H.state house.new) (map string_bytes names.now) (open_stop_of stop)) }
{
    let names = named_all(alloc, names)?;
    let ends = Vec::with_capacity(alloc, names.len())?;
    let room = Vec::with_capacity(alloc, names.len())?;
    match open_streams(house, names.as_slice(), room) {
        Ok(pairs) => Ok(Streams { names, pairs, ends }),
        Err(OpenStop::Failed) => Err(Stop::Fault),
        Err(OpenStop::Memory) => Err(Stop::Memory),
    }
}

/// Prints the journal and the ends, and hands them on, also where they were cut short.
fn print_served<L: Ledger, S: Sink>(
    sink: &mut S,
    board: &Board<L>,
    ends: &[End],
) -> Result<(), Failed>
    ensures bytes { WritesAll (S.written sink.old) (S.written sink.new) result (served_text board.now.history ends.now) }
    ensures handed { HandsOn (S.handed sink.new) (S.written sink.new) result }
    ensures cause { HasCause (S.faults sink.old) (S.faults sink.new) result }
    ensures name { S.name sink.new ≡ S.name sink.old }
{
    let written = write_served(sink, board, ends);
    let handed = hand_on(sink);
    written?;
    handed
}

/// Prints the journal and the ends on a new sink. How the program ends then.
fn conclude<L: Ledger, S: Sink>(sink: &mut S, board: &Board<L>, ends: &[End]) -> Status
    ensures printed { (tells : Bool) → S.written sink.old ≡ begun tells → S.faults sink.old ≡ 0
        → PrintsTo tells (S.handed sink.new) (S.faults sink.new) (served_text board.now.history ends.now) (ends_status ends.now) result }
    ensures name { S.name sink.new ≡ S.name sink.old }
{
    match print_served(sink, board, ends) {
        Ok(()) => status_after(ends),
        Err(Failed) => Status::Fault,
    }
}

/// Settles the streams of sessions that were served, and prints the journal and the ends.
fn close<L: Ledger + Send + Sync, H: House>(
    served: Served<L, H::In, H::Out>,
    names: &[Named],
    mut ends: Vec<End>,
    house: &mut H,
    sink: &mut H::Out,
) -> Status
    requires distinct { AreDistinct (names_of names.now) }
    requires opened { let t = told H.In.rest H.In.faults H.In.name H.Out.written H.Out.handed H.Out.faults H.Out.name in
        AreOpen (H.state house.old) (names_of names.now) (map (λ s. t s.source s.sink) served.sessions.items) }
    requires empty { ends.items ≡ [] }
    requires room { length served.sessions.items ≤ vec_capacity ends }
    requires new { IsOpenedOut H.tells standard (H.Out.written sink.old) (H.Out.handed sink.old) (H.Out.name sink.old) (H.Out.faults sink.old) }
    ensures house { let t = told H.In.rest H.In.faults H.In.name H.Out.written H.Out.handed H.Out.faults H.Out.name in
        H.state house.new ≡ settled_all (H.state house.old) (names_of names.now) (map (λ s. t s.source s.sink) served.sessions.items) }
    ensures printed { let ends = map (λ s. s.end) served.sessions.items in
        PrintsTo H.tells (H.Out.handed sink.new) (H.Out.faults sink.new) (served_text served.board.history ends) (ends_status ends) result }
    ensures spelled { All IsSpelled served.board.history }
    ensures name { H.Out.name sink.new ≡ standard }
{
    let Served { board, sessions } = served;
    note_ends::<H>(sessions.as_slice(), &mut ends);
    settle_sessions(house, names, sessions);
    history_is_spelled(&board);
    let status = conclude(sink, &board, ends.as_slice());
    // The process ends after its journal: the system takes memory back at once, where a drop would go along every rule.
    mem::forget(board);
    status
}

/// Serves the sessions of a hall. From the first of them on nothing wants memory.
fn serve_hall<L: Ledger + Send + Sync, R: Threads + Wait + Sync, H: House>(
    rt: &R,
    alloc: Global,
    hall: Hall<L>,
    streams: Streams<H>,
    house: &mut H,
    sink: &mut H::Out,
) -> Status
    requires count { length streams.pairs.items ≡ hall.seats }
    requires distinct { AreDistinct (names_of streams.names.items) }
    requires opened { let t = told H.In.rest H.In.faults H.In.name H.Out.written H.Out.handed H.Out.faults H.Out.name in
        AreOpen (H.state house.old) (names_of streams.names.items) (map (λ p. t p.0 p.1) streams.pairs.items) }
    requires empty { streams.ends.items ≡ [] }
    requires room { length streams.pairs.items ≤ vec_capacity streams.ends }
    requires new { IsOpenedOut H.tells standard (H.Out.written sink.old) (H.Out.handed sink.old) (H.Out.name sink.old) (H.Out.faults sink.old) }
    ensures served { let t = told H.In.rest H.In.faults H.In.name H.Out.written H.Out.handed H.Out.faults H.Out.name in
        ServesHall H.tells (H.state house.old) (H.state house.new) hall.start (names_of streams.names.items)
        (map (λ p. t p.0 p.1) streams.pairs.items) (H.Out.handed sink.new) (H.Out.faults sink.new) result }
    ensures name { H.Out.name sink.new ≡ standard }
{
    let Streams { names, pairs, ends } = streams;
    match hall.serve(rt, alloc, pairs) {
        Ok(served) => close(served, names.as_slice(), ends, house, sink),
        Err((pairs, _)) => {
            settle_streams(house, names.as_slice(), pairs);
            Status::Memory
        }
    }
}

/// Makes a hall, opens the streams and serves the sessions.
fn serve_in<L: Ledger + Send + Sync, R: Threads + Wait + Sync, H: House>(
    rt: &R,
    alloc: Global,
    theory: &Theory,
    names: &[String],
    house: &mut H,
    sink: &mut H::Out,
    blank: Blank,
) -> Status
    requires may { MayOpen (H.state house.old) (map string_bytes names.now) }
    requires new { IsOpenedOut H.tells standard (H.Out.written sink.old) (H.Out.handed sink.old) (H.Out.name sink.old) (H.Out.faults sink.old) }
    requires name { blank.name ≡ L.name }
    requires parts { blank.parts ≡ L.parts }
    requires some { 0 < blank.parts }
    ensures sessions { Sessions H.tells (H.state house.old) (H.state house.new) theory.now (map string_bytes names.now) (H.Out.handed sink.new) (H.Out.faults sink.new) result }
    ensures name { H.Out.name sink.new ≡ standard }
{
    let Ok(hall) = Hall::<L>::make(rt, alloc, theory, names.len(), blank) else {
        return Status::Memory;
    };
    match open(alloc, names, house) {
        Ok(streams) => serve_hall(rt, alloc, hall, streams, house, sink),
        Err(Stop::Fault) => {
            drop(hall);
            Status::Fault
        }
        Err(Stop::Memory) => {
            drop(hall);
            Status::Memory
        }
    }
}

/// Serves a session under each name, all at once, and prints their journal and their ends on a new sink, which is then to be settled as
/// standard output.
pub fn serve<R: Threads + Wait + Sync, H: House>(
    rt: &R,
    alloc: Global,
    theory: &Theory,
    names: &[String],
    house: &mut H,
    sink: &mut H::Out,
) -> Status
    requires may { MayOpen (H.state house.old) (map string_bytes names.now) }
    requires new { IsOpenedOut H.tells standard (H.Out.written sink.old) (H.Out.handed sink.old) (H.Out.name sink.old) (H.Out.faults sink.old) }
    ensures sessions { Sessions H.tells (H.state house.old) (H.state house.new) theory.now (map string_bytes names.now) (H.Out.handed sink.new) (H.Out.faults sink.new) result }
    ensures name { H.Out.name sink.new ≡ standard }
{
    serve_in::<Brand, _, _>(rt, alloc, theory, names, house, sink, Blank::new(1))
}
