//! A board with seats for sessions to come.

ghost use Rattle.std.specs.Prelude.{◌≡◌, ◌<◌, ◌+◌, [], IfErr, IfOk, OnOk, OnErr, vec_len};
ghost use Rattle.dl_sessions.specs.Served.{told, AreServed};

use crate::serve::{closed, serve_at};
use crate::session::Served;
use dl_base::Memory;
use dl_desk::{Board, Desk};
use dl_io::{Sink, Source};
use dl_session::Workroom;
use dl_theory::Theory;
use dl_turn::Seat;
use std::alloc::Global;
use std::marker::Model;
use std::sync::Wait;
use std::sync::ledger::{Blank, Book, Ledger, Share};
use std::thread::Threads;

/// A board behind a desk, a base seat, and for each session to come a seat that is enrolled and a workroom. Contracts see the
/// theory that the board starts from, and how many sessions are to come.
pub struct Hall<L: Ledger + Send + Sync> {
    pub(crate) desk: Desk<L>,
    pub(crate) base: Seat<Board<L>>,
    /// In the order of their numbers.
    pub(crate) seats: Vec<Seat<Board<L>>>,
    /// As many as there are seats.
    pub(crate) rooms: Vec<Workroom>,
    /// The whole share of the board's ledger.
    pub(crate) share: Share<L>,
}

impl<L: Ledger + Send + Sync> Drop for Hall<L> {
    fn drop(self) {
        let Hall {
            desk: _,
            base: _,
            seats: _,
            rooms: _,
            share: _,
        } = self;
    }
}

impl<L: Ledger + Send + Sync> Model for Hall<L> {
    ghost use Rattle.std.specs.Prelude.{◌≡◌, ◌<◌, vec_len};
    ghost use Rattle.dl_sessions.specs.Halls.{HallView, IsReady};

    ghost Value = { HallView };

    ghost view = { λ h. record { start = h.base.start; seats = vec_len h.seats } };

    ghost invariant = { λ h. IsReady h.desk h.base h.seats.items h.share.amount × (vec_len h.rooms ≡ vec_len h.seats)
        × (h.share.parts ≡ L.parts) × (0 < h.share.parts) };
}

impl<L: Ledger + Send + Sync> Hall<L> {
    /// A hall for so many sessions at a board of a theory, of which it keeps a copy. Its seats have the numbers from 0 on. The blank is
    /// that of a new ledger. It may wait. `Memory` where there is none for the board, a seat or a workroom.
    pub fn make<R: Wait>(
        rt: &R,
        alloc: Global,
        theory: &Theory,
        count: usize,
        blank: Blank,
    ) -> Result<Hall<L>, Memory>
        requires name { blank.name ≡ L.name }
        requires parts { blank.parts ≡ L.parts }
        requires some { 0 < blank.parts }
        ensures start { IfOk result (λ hall. hall.start ≡ theory.now) }
        ensures seats { IfOk result (λ hall. hall.seats ≡ count) }
    {
        let (book, share) = blank.open::<L>();
        let mut hall = opened(rt, alloc, theory, book, share)?;
        for _ in 0..count {
            hall.enrol(rt, alloc)?;
        }
        Ok(hall)
    }

    /// Serves a session with each pair of streams, all at once, each in a thread of its own. One whose thread cannot be started is
    /// served by the caller. `Memory` comes before any session began, with the streams as they were. It may wait. The calls nest as deep
    /// as there are sessions.
    pub fn serve<I: Source + Send + Drop, P: Sink + Send + Drop, R: Threads + Wait + Sync>(
        self,
        rt: &R,
        alloc: Global,
        streams: Vec<(I, P)>,
    ) -> Result<Served<L, I, P>, (Vec<(I, P)>, Memory)>
        requires { vec_len streams ≡ self.seats }
        ensures start { IfOk result (λ served. served.board.start ≡ self.start) }
        ensures served { let t = told I.rest I.faults I.name P.written P.handed P.faults P.name in
            IfOk result (λ served. AreServed (λ s. t s.0 s.1) (λ s. t s.source s.sink) (λ s. s.end)
            self.start streams.items served.board.history served.sessions.items) }
        ensures streams { IfErr result (λ stop. stop.0.items ≡ streams.items) }
    {
        let Hall {
            desk,
            mut base,
            seats,
            rooms,
            share,
        } = self;
        match serve_at(rt, alloc, &desk, &mut base, seats, rooms, streams) {
            Ok(sessions) => {
                let board = closed(rt, desk, base, share);
                Ok(Served { board, sessions })
            }
            Err(streams) => {
                drop(desk);
                drop(base);
                drop(share);
                Err((streams, Memory))
            }
        }
    }

    /// Enrols one more seat, with a workroom. Where there is no memory the hall is as before.
    fn enrol<R: Wait>(&mut self, rt: &R, alloc: Global) -> Result<(), Memory>
        ensures start { self.new.start ≡ self.old.start }
        ensures one { OnOk result (self.new.seats ≡ self.old.seats + 1) }
        ensures none { OnErr result (self.new.seats ≡ self.old.seats) }
    {
        self.seats.reserve(1)?;
        self.rooms.reserve(1)?;
        let room = Workroom::make(alloc)?;
        let mut seat = self.desk.split(&mut self.base)?;
        let _number = self.desk.enrol(rt, &mut seat, &mut self.share)?;
        self.seats.push_reserved(seat);
        self.rooms.push_reserved(room);
        Ok(())
    }
}

/// A hall with no seat yet, for a board of a theory.
fn opened<L: Ledger + Send + Sync, R: Wait>(
    rt: &R,
    alloc: Global,
    theory: &Theory,
    book: Book<L>,
    share: Share<L>,
) -> Result<Hall<L>, Memory>
    requires book { book.total ≡ 0 }
    requires amount { share.amount ≡ 0 }
    requires whole { (share.parts ≡ L.parts) × (0 < share.parts) }
    ensures { IfOk result (λ hall. (hall.start ≡ theory.now) × (hall.seats ≡ 0)) }
{
    let board = match Board::make(alloc, theory, book) {
        Ok(board) => board,
        Err((_, memory)) => return Err(memory),
    };
    match Desk::make(rt, alloc, board) {
        Ok((desk, base)) => Ok(Hall {
            desk,
            base,
            seats: Vec::new(alloc),
            rooms: Vec::new(alloc),
            share,
        }),
        Err((board, memory)) => {
            drop(board);
            Err(memory)
        }
    }
}
