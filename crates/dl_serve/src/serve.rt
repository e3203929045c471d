//! All jobs at once.
ghost use Rattle.std.specs.Prelude.{◌≡◌, ◌≤◌, [], MatchResult, vec_len, vec_capacity};
ghost use Rattle.std.specs.List.{AllZip};
ghost use Rattle.std.specs.Thread.{IsSync};

use crate::job::Job;
use dl_base::Memory;
use std::alloc::Global;
use std::sync::Wait;
use std::thread::{Threads, join};

/// Does each job in a thread of its own. One whose thread cannot be started is done by the caller. The
/// results stand in the order of the jobs, each in its job's relation. `Memory` is want of memory for the
/// list of results; no job was begun then, and all come back. The calls nest as deep as there are jobs.
pub fn serve_all<J: Job, R: Threads + Wait + Sync>(
    rt: &R,
    alloc: Global,
    jobs: Vec<J>,
) -> Result<Vec<J::Done>, (Vec<J>, Memory)>
    ensures { MatchResult result
        (λ done. AllZip J.gives jobs.items done.items × (vec_len done ≡ vec_len jobs))
        (λ e. e.0.items ≡ jobs.items) }
{
    match Vec::with_capacity(alloc, jobs.len()) {
        Ok(room) => Ok(serve_from(rt, jobs, room)),
        Err(_) => Err((jobs, Memory)),
    }
}

// Does the last job in a thread of its own, and meanwhile, from this thread, those before it. There is room
// for the results.
#[cycle(jobs)]
fn serve_from<J: Job, R: Threads + Wait + Sync>(
    rt: &R,
    mut jobs: Vec<J>,
    room: Vec<J::Done>,
) -> Vec<J::Done>
    requires empty { room.items ≡ [] }
    requires room { vec_len jobs ≤ vec_capacity room }
    ensures done { AllZip J.gives jobs.items result.items }
    ensures count { vec_len result ≡ vec_len jobs }
    ensures room { vec_capacity result ≡ vec_capacity room }
{
    let Some(job) = jobs.pop() else {
        return room;
    };
    let (last, mut done) = join(
        rt,
        move ||
            ensures { J.gives job result }
        { job.work(rt) },
        move ||
            requires { IsSync R.row × (room.items ≡ []) × (vec_len jobs ≤ vec_capacity room) }
            ensures { AllZip J.gives jobs.items result.items × (vec_len result ≡ vec_len jobs)
                × (vec_capacity result ≡ vec_capacity room) }
        { serve_from(rt, jobs, room) },
    );
    done.push_reserved(last);
    done
}
