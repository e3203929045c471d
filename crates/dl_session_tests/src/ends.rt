//! How sessions end.

ghost use Rattle.std.specs.Prelude.{◌≡◌, ◌<◌};

use crate::editions::{TWO_EDITIONS, TWO_EDITIONS_REPLIES};
use crate::serving::{
    expect_journal, expect_replies, run_session, served, sink_of, source_of, theory_of,
};
use dl_io::{Failed, MemorySink, Source};
use dl_session::End;
use std::alloc::Global;
use std::marker::Brand;
use std::process::Abort;
use std::sync::Wait;
use std::sync::ledger::{Blank, Ledger};

#[test]
fn quit_ends_a_session(rt: HostRuntime) {
    let alloc = rt.alloc();
    expect_replies(&rt, alloc, "", b"publish\nquit\r\nhello\n", "edition 0\n");
    expect_replies(
        &rt,
        alloc,
        "",
        b"publish\n  quit # now\r\nhello\n",
        "edition 0\n",
    );
    expect_replies(&rt, alloc, "", b"publish\nquit", "edition 0\n");
    expect_replies(&rt, alloc, "", b"", "");
}

#[test]
fn what_only_begins_as_quit_does_not_end_it(rt: HostRuntime) {
    let input = "quit now\nquits\nQuit\n# quit\npublish";
    let replies = "refused form\nrefused form\nrefused form\nedition 0\n";
    let journal = "0 | enrol | enrolled 0\n0 | publish | edition 0\n";
    expect_journal(&rt, rt.alloc(), "", input, replies, journal);
}

#[test]
fn a_failed_read_ends_a_session(rt: HostRuntime) {
    let alloc = rt.alloc();
    let source = source_of(&rt, alloc, b"publish\npublish\npubli", &[1]);
    let outcome = run_session(&rt, alloc, "", source, sink_of(&rt, alloc, &[]));
    assert_eq!(&rt;
        outcome.replies.bytes(),
        b"edition 0\nedition 1\n".as_slice()
    );
    assert_eq!(&rt;
        outcome.replies.handed(),
        b"edition 0\nedition 1\n".as_slice()
    );
    assert!(&rt; outcome.end == End::ReadFault);
}

/// Where a call of the sink fails, what is handed on is a front of what is written, and that one of all replies.
fn expect_front<R: Wait + Abort>(rt: &R, alloc: Global, fails: usize) -> End {
    let source = source_of(rt, alloc, TWO_EDITIONS.as_bytes(), &[]);
    let outcome = run_session(rt, alloc, "", source, sink_of(rt, alloc, &[fails]));
    let written = outcome.replies.bytes();
    assert!(rt; TWO_EDITIONS_REPLIES.as_bytes().starts_with(written));
    assert!(rt; written.starts_with(outcome.replies.handed()));
    outcome.end
}

#[test]
fn a_failed_write_or_flush_ends_a_session(rt: HostRuntime) {
    let alloc = rt.alloc();
    let mut faults = 0u64;
    for call in 0..60 {
        if expect_front(&rt, alloc, call) == End::WriteFault {
            faults = faults.wrapping_add(1);
        }
    }
    // the calls that the undisturbed session makes
    assert!(&rt; 20 < faults);
    assert!(&rt; faults < 60);
}

/// A source that never ends and has no LF. It says that it has filled the room, and leaves it as it is.
struct Endless;

impl Drop for Endless {
    fn drop(self) {
        let Endless = self;
    }
}

impl Source for Endless {
    ghost use Rattle.std.specs.Prelude.{None, []};

    ghost rest = { λ s. None };

    ghost faults = { λ s. 0 };

    ghost name = { λ s. [] };

    fn read(&mut self, room: &mut [u8]) -> Result<usize, Failed> {
        Ok(room.len())
    }
}

/// All bytes that a session may read are read, nothing is written, and nothing is asked of the desk.
fn expect_spent<L: Ledger, R: Wait + Abort>(rt: &R, alloc: Global, blank: Blank)
    requires name { blank.name ≡ L.name }
    requires parts { blank.parts ≡ L.parts }
    requires some { 0 < blank.parts }
{
    let mut sink = sink_of(rt, alloc, &[]);
    let (end, board) = served::<L, R, Endless, MemorySink>(
        rt,
        alloc,
        blank,
        &theory_of(rt, alloc, ""),
        &mut Endless,
        &mut sink,
    );
    assert!(rt; end == End::Spent);
    assert!(rt; sink.bytes().is_empty());
    assert!(rt; board.entries() == 1);
    drop(board);
}

#[test]
fn an_endless_line_is_cut_off(rt: HostRuntime) {
    expect_spent::<Brand, _>(&rt, rt.alloc(), Blank::new(1));
}
