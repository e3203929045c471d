//! Jobs that wait for one another, so that they end only where all are done at once.
ghost use Rattle.std.specs.Prelude.{◌≡◌};

use dl_serve::{Job, serve_all};
use std::sync::Wait;
use std::sync::atomic::{AtomicU64, Ordering};
use std::test::Fail;
use std::thread;

/// Comes to a meeting, and answers its number and whether all came while it waited.
#[derive(Drop)]
struct Guest<'a> {
    number: u64,
    came: &'a AtomicU64,
    all: u64,
}

impl<'a> Job for Guest<'a> {
    ghost use Rattle.std.specs.Prelude.{◌≡◌};

    type Done = (u64, bool);

    ghost gives = { λ guest done. done.0 ≡ guest.number };

    fn work<R: Wait>(self, _rt: &R) -> (u64, bool) {
        let Guest { number, came, all } = self;
        came.fetch_add(1, Ordering::SeqCst);
        for _ in 0..1_000_000 {
            if came.load(Ordering::SeqCst) == all {
                return (number, true);
            }
            thread::yield_now();
        }
        (number, false)
    }
}

#[test]
fn jobs_are_done_at_once_and_each_once(rt: HostRuntime) -> Result<(), Fail> {
    let came = AtomicU64::new(0);
    let mut guests = Vec::new(rt.alloc());
    for number in 0..16 {
        guests.push(Guest {
            number,
            came: &came,
            all: 16,
        })?;
    }
    let Ok(done) = serve_all(&rt, rt.alloc(), guests) else {
        return Err("memory".into());
    };
    assert_eq!(rt; done.len(), 16);
    let mut next = 0;
    for (number, met) in done {
        assert_eq!(rt; number, next, "in the order of the jobs");
        assert!(rt; met, "guest {number} waited in vain");
        next = number.wrapping_add(1);
    }
    assert_eq!(rt; came.load(Ordering::SeqCst), 16);
    Ok(())
}
