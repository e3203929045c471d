//! What the runs of numbers come to. What is expected was worked out apart, by the definitions alone.

ghost use Rattle.std.specs.Prelude.{◌≤◌};

use dl_gen::{summarize, write_summary};
use dl_io::MemorySink;
use std::alloc::Global;
use std::process::Abort;
use std::sync::Wait;
use std::thread::Threads;

/// A run without an atom.
const NONE: &str = "edits accepted 0 refused 0
editions 1
facts 0 rules 0 pairs 0
D proved 0 refuted 0 neither 0
d proved 0 refuted 0 neither 0
a proved 0 refuted 0 neither 0
s proved 0 refuted 0 neither 0
checked 0
";

/// Two edits are refused, and a rule is dropped. The one literal that is neither is negative, and a strict rule makes it wait for itself.
const THREE: &str = "edits accepted 1 refused 2
editions 1
facts 1 rules 8 pairs 3
D proved 1 refuted 4 neither 1
d proved 3 refuted 3 neither 0
a proved 3 refuted 3 neither 0
s proved 3 refuted 3 neither 0
checked 24
";

/// Another number.
const THREE_AGAIN: &str = "edits accepted 2 refused 1
editions 1
facts 2 rules 9 pairs 5
D proved 2 refuted 4 neither 0
d proved 3 refuted 3 neither 0
a proved 3 refuted 3 neither 0
s proved 5 refuted 1 neither 0
checked 24
";

/// So many edits that there are two editions, and atoms in several blocks.
const SEVENTY: &str = "edits accepted 51 refused 19
editions 2
facts 18 rules 206 pairs 81
D proved 26 refuted 114 neither 0
d proved 48 refuted 92 neither 0
a proved 46 refuted 94 neither 0
s proved 79 refuted 60 neither 1
checked 560
";

fn expect_run<R: Threads + Wait + Abort + Sync>(
    rt: &R,
    alloc: Global,
    seed: u64,
    size: u64,
    text: &str,
)
    requires { size ≤ 4096 }
{
    let summary = summarize(rt, alloc, seed, size).expect(rt, "a summary");
    let mut written = MemorySink::make(alloc, Vec::new(alloc));
    let wrote = write_summary(&mut written, &summary);
    assert!(rt; wrote.is_ok());
    assert!(rt; written.bytes() == text.as_bytes());
    drop(summary);
}

#[test]
fn a_run_without_atoms_publishes_once(rt: HostRuntime) {
    expect_run(&rt, rt.alloc(), 7, 0, NONE);
}

#[test]
fn small_runs_come_to_what_was_worked_out(rt: HostRuntime) {
    expect_run(&rt, rt.alloc(), 7, 3, THREE);
    expect_run(&rt, rt.alloc(), 1, 3, THREE_AGAIN);
}

#[test]
fn the_last_of_two_editions_is_surveyed(rt: HostRuntime) {
    expect_run(&rt, rt.alloc(), 7, 70, SEVENTY);
}
