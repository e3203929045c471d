//! All sessions of a hall at once.

ghost use Rattle.std.specs.Prelude.{◌≡◌, ◌≤◌, [], IfErr, IfOk, vec_capacity, vec_len};
ghost use Rattle.std.specs.List.{range_with_len};
ghost use Rattle.dl_turn.specs.History.{AllBelow};
ghost use Rattle.dl_calls.specs.Histories.{enrolled_seats};
ghost use Rattle.dl_sessions.specs.Ending.{MayJoin, Closes, Serves};
ghost use Rattle.dl_sessions.specs.Halls.{AreEnrolled};
ghost use Rattle.dl_sessions.specs.Served.{told};

use crate::job::SessionJob;
use crate::jobs::{make_jobs, streams_of};
use crate::join::join_all;
use crate::session::Session;
use dl_base::Memory;
use dl_calls::enrolments_count_up;
use dl_desk::{Board, Desk};
use dl_io::{Sink, Source};
use dl_serve::serve_all;
use dl_session::Workroom;
use dl_turn::Seat;
use std::alloc::Global;
use std::sync::Wait;
use std::sync::ledger::{Ledger, Share};
use std::thread::Threads;

/// The lists that serving sessions fills, each with room for all of them.
#[derive(Drop)]
struct Lists<'a, L: Ledger + Send + Sync, I: Source + Send + Drop, P: Sink + Send + Drop> {
    jobs: Vec<SessionJob<'a, L, I, P>>,
    sessions: Vec<Session<I, P>>,
    back: Vec<(I, P)>,
}

/// Empty lists with room for so many sessions.
fn lists_for<'a, L: Ledger + Send + Sync, I: Source + Send + Drop, P: Sink + Send + Drop>(
    alloc: Global,
    count: usize,
) -> Result<Lists<'a, L, I, P>, Memory>
    ensures jobs { IfOk result (λ lists. (lists.jobs.items ≡ []) × (count ≤ vec_capacity lists.jobs)) }
    ensures sessions { IfOk result (λ lists. (lists.sessions.items ≡ []) × (count ≤ vec_capacity lists.sessions)) }
    ensures back { IfOk result (λ lists. (lists.back.items ≡ []) × (count ≤ vec_capacity lists.back)) }
{
    let jobs = Vec::with_capacity(alloc, count)?;
    let sessions = Vec::with_capacity(alloc, count)?;
    let back = Vec::with_capacity(alloc, count)?;
    Ok(Lists {
        jobs,
        sessions,
        back,
    })
}

/// Serves a session with each pair of streams, and joins its seat into the base. The streams come back where there is no memory.
pub(crate) fn serve_at<
    L: Ledger + Send + Sync,
    I: Source + Send + Drop,
    P: Sink + Send + Drop,
    R: Threads + Wait + Sync,
>(
    rt: &R,
    alloc: Global,
    desk: &Desk<L>,
    base: &mut Seat<Board<L>>,
    seats: Vec<Seat<Board<L>>>,
    rooms: Vec<Workroom>,
    streams: Vec<(I, P)>,
) -> Result<Vec<Session<I, P>>, Vec<(I, P)>>
    requires base { MayJoin desk.now base.old }
    requires seats { AreEnrolled desk.now base.old.start 0 seats.items }
    requires count { (vec_len seats ≡ vec_len streams) × (vec_len rooms ≡ vec_len streams) }
    ensures base { MayJoin desk.now base.new }
    ensures start { base.new.start ≡ base.old.start }
    ensures served { let t = told I.rest I.faults I.name P.written P.handed P.faults P.name in
        IfOk result (λ sessions. Serves (λ s. t s.0 s.1) (λ s. t s.source s.sink) (λ s. s.end) base.old.start base.new streams.items sessions.items) }
    ensures count { IfOk result (λ sessions. vec_len sessions ≡ vec_len streams) }
    ensures back { IfErr result (λ back. back.items ≡ streams.items) }
{
    let Ok(lists) = lists_for(alloc, streams.len()) else {
        drop(seats);
        drop(rooms);
        return Err(streams);
    };
    let Lists {
        jobs,
        sessions,
        back,
    } = lists;
    let jobs = make_jobs(desk, seats, rooms, streams, jobs);
    match serve_all(rt, alloc, jobs) {
        Ok(done) => {
            drop(back);
            Ok(join_all(desk, base, done, sessions))
        }
        Err((jobs, Memory)) => {
            drop(sessions);
            Err(streams_of(jobs, back))
        }
    }
}

/// The board, when the base has been told of each seat. The share is the whole one of its ledger.
pub(crate) fn closed<L: Ledger + Send + Sync, R: Wait>(
    rt: &R,
    desk: Desk<L>,
    base: Seat<Board<L>>,
    mut share: Share<L>,
) -> Board<L>
    requires base { MayJoin desk base }
    requires whole { share.parts ≡ L.parts }
    ensures closes { Closes base.start base result.history result.enrolled }
    ensures start { result.start ≡ base.start }
    ensures enrolled { enrolled_seats result.history ≡ range_with_len 0 share.amount }
    ensures below { AllBelow (λ e. e.seat) share.amount result.history }
{
    let (mut board, seat) = desk.finish(rt, base);
    drop(seat);
    board.audit(&mut share);
    let _seats = board.enrolled();
    enrolments_count_up();
    board
}
