//! A session to be served, as a job.

ghost use Rattle.std.specs.Prelude.{◌≡◌};
ghost use Rattle.dl_desk.specs.Offices.{MayCall};

use dl_desk::{Board, Desk};
use dl_io::{Sink, Source};
use dl_serve::Job;
use dl_session::{End, Workroom, serve_session};
use dl_turn::Seat;
use std::sync::Wait;
use std::sync::ledger::Ledger;

/// A session to be served at a desk, from an enrolled seat.
#[derive(Drop)]
pub(crate) struct SessionJob<
    'a,
    L: Ledger + Send + Sync,
    I: Source + Send + Drop,
    P: Sink + Send + Drop,
> {
    pub(crate) desk: &'a Desk<L>,
    pub(crate) seat: Seat<Board<L>>,
    pub(crate) room: Workroom,
    pub(crate) source: I,
    pub(crate) sink: P,
    pub(crate) ghost belongs: { seat.place ≡ desk.now },
    pub(crate) ghost may: { MayCall seat },
}

/// A session that ended, with its seat.
#[derive(Drop)]
pub(crate) struct Ended<L: Ledger + Send + Sync, I: Source + Send + Drop, P: Sink + Send + Drop> {
    pub(crate) seat: Seat<Board<L>>,
    pub(crate) source: I,
    pub(crate) sink: P,
    pub(crate) end: End,
}

impl<'a, L: Ledger + Send + Sync, I: Source + Send + Drop, P: Sink + Send + Drop> Job
    for SessionJob<'a, L, I, P> {
    ghost use Rattle.dl_sessions.specs.Ending.{EndsBy};
    ghost use Rattle.dl_sessions.specs.Served.{told};

    type Done = Ended<L, I, P>;

    ghost gives = { λ job done. let t = told I.rest I.faults I.name P.written P.handed P.faults P.name in
        EndsBy (t job.source job.sink) (t done.source done.sink) job.seat done.seat done.end };

    fn work<R: Wait>(self, rt: &R) -> Ended<L, I, P> {
        let SessionJob {
            desk,
            mut seat,
            mut room,
            mut source,
            mut sink,
        } = self;
        let end = serve_session(rt, desk, &mut seat, &mut room, &mut source, &mut sink);
        drop(room);
        Ended {
            seat,
            source,
            sink,
            end,
        }
    }
}
