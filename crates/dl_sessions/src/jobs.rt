//! Jobs out of seats and streams.

ghost use Rattle.std.specs.Prelude.{◌≡◌, ◌≤◌, [], All, map, vec_len, vec_capacity};
ghost use Rattle.dl_sessions.specs.Ending.{MayServe};

use crate::job::SessionJob;
use dl_desk::{Board, Desk};
use dl_io::{Sink, Source};
use dl_session::Workroom;
use dl_turn::Seat;
use std::sync::ledger::Ledger;

/// A job for each pair of streams, at the seat that has its place. There is room for the jobs.
pub(crate) fn make_jobs<
    'a,
    L: Ledger + Send + Sync,
    I: Source + Send + Drop,
    P: Sink + Send + Drop,
>(
    desk: &'a Desk<L>,
    mut seats: Vec<Seat<Board<L>>>,
    mut rooms: Vec<Workroom>,
    mut streams: Vec<(I, P)>,
    empty: Vec<SessionJob<'a, L, I, P>>,
) -> Vec<SessionJob<'a, L, I, P>>
    requires seats { All (MayServe desk.now) seats.items }
    requires count { (vec_len seats ≡ vec_len streams) × (vec_len rooms ≡ vec_len streams) }
    requires empty { (empty.items ≡ []) × (vec_len streams ≤ vec_capacity empty) }
    ensures seats { map (λ job. job.seat) result.items ≡ seats.items }
    ensures streams { map (λ job. (job.source, job.sink)) result.items ≡ streams.items }
    ensures room { vec_capacity result ≡ vec_capacity empty.entry }
{
    let (Some(seat), Some(room), Some((source, sink))) = (seats.pop(), rooms.pop(), streams.pop())
    else {
        return empty;
    };
    let mut jobs = make_jobs(desk, seats, rooms, streams, empty);
    jobs.push_reserved(SessionJob {
        desk,
        seat,
        room,
        source,
        sink,
    });
    jobs
}

/// The streams of jobs that were not begun. There is room for them.
pub(crate) fn streams_of<L: Ledger + Send + Sync, I: Source + Send + Drop, P: Sink + Send + Drop>(
    mut jobs: Vec<SessionJob<'_, L, I, P>>,
    empty: Vec<(I, P)>,
) -> Vec<(I, P)>
    requires empty { (empty.items ≡ []) × (vec_len jobs ≤ vec_capacity empty) }
    ensures streams { result.items ≡ map (λ job. (job.source, job.sink)) jobs.entry.items }
    ensures room { vec_capacity result ≡ vec_capacity empty }
{
    let Some(job) = jobs.pop() else {
        return empty;
    };
    let SessionJob {
        desk: _,
        seat,
        room,
        source,
        sink,
    } = job;
    drop(seat);
    drop(room);
    let mut streams = streams_of(jobs, empty);
    streams.push_reserved((source, sink));
    streams
}
