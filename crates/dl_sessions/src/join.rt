//! The seats of sessions that ended, joined into the base.

ghost use Rattle.std.specs.Prelude.{◌≡◌, ◌≤◌, List, [], All, vec_len, vec_capacity};
ghost use Rattle.dl_theory.specs.Lists.{TheoryLists};
ghost use Rattle.dl_sessions.specs.Ending.{MayJoin, HasEnded, Serves};
ghost use Rattle.dl_sessions.specs.Served.{told, AllAt};

use crate::job::Ended;
use crate::session::Session;
use dl_desk::{Board, Desk};
use dl_io::{Sink, Source};
use dl_session::ends_stay;
use dl_turn::Seat;
use std::sync::ledger::Ledger;

/// Joins the seat of each session into the base, in order. What is left of the sessions goes into a list that has room.
pub(crate) fn join_all<L: Ledger + Send + Sync, I: Source + Send + Drop, P: Sink + Send + Drop>(
    desk: &Desk<L>,
    base: &mut Seat<Board<L>>,
    mut done: Vec<Ended<L, I, P>>,
    empty: Vec<Session<I, P>>,
) -> Vec<Session<I, P>>
    requires base { MayJoin desk.now base.old }
    requires done { All (λ ended. MayJoin desk.now ended.seat) done.items }
    requires empty { (empty.items ≡ []) × (vec_len done ≤ vec_capacity empty) }
    ensures base { MayJoin desk.now base.new }
    ensures start { base.new.start ≡ base.old.start }
    ensures served { let t = told I.rest I.faults I.name P.written P.handed P.faults P.name in
        (T : TheoryLists) (streams : List (I × P))
        → AllAt (λ number s ended. HasEnded desk.now T number (t s.0 s.1) (t ended.source ended.sink) ended.seat ended.end) 0 streams done.items
        → Serves (λ s. t s.0 s.1) (λ s. t s.source s.sink) (λ s. s.end) T base.new streams result.items }
    ensures count { vec_len result ≡ vec_len done }
    ensures room { vec_capacity result ≡ vec_capacity empty }
{
    let Some(ended) = done.pop() else {
        return empty;
    };
    let mut sessions = join_all(desk, base, done, empty);
    let Ended {
        seat,
        source,
        sink,
        end,
    } = ended;
    desk.join(base, seat);
    ends_stay();
    sessions.push_reserved(Session { source, sink, end });
    sessions
}
