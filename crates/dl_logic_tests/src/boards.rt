//! Worked calls of seats on a board: the answers, the history, and what the editions say.

ghost use Rattle.std.specs.Prelude.{◌≡◌, ◌<◌};

mod acts;

use crate::editions::{expect_conclusions, expect_copy, expect_derived, expect_gap, expect_text};
use acts::{Act, edition, enrol, expect_history, hold, opened, play};
use dl_board::Board;
use dl_edition::Held;
use dl_lit::Family;
use dl_theory::Verdict;
use std::alloc::Global;
use std::marker::Brand;
use std::process::Abort;
use std::sync::ledger::{Blank, Ledger};

const TWO_SEATS: &str = "0 | enrol | enrolled 0
0 | add r: => p | ok
0 | publish | edition 0
1 | enrol | enrolled 1
1 | drop r | ok
1 | publish | edition 1
1 | hold 0 | holding 0
0 | hold 2 | refused unpublished 2 of 2
";

/// Two seats edit, publish and hold by turns.
fn two_seats<L: Ledger>(rt: &impl Abort, alloc: Global, blank: Blank)
    requires name { blank.name ≡ L.name }
    requires parts { blank.parts ≡ L.parts }
    requires some { 0 < blank.parts }
{
    let (mut board, mut share) = opened::<L>(rt, alloc, blank);
    enrol(rt, &mut board, &mut share, 0);
    play(
        rt,
        alloc,
        &mut board,
        &[(0, Act::Edit("add r: => p")), (0, Act::Publish)],
    );
    enrol(rt, &mut board, &mut share, 1);
    play(
        rt,
        alloc,
        &mut board,
        &[(1, Act::Edit("drop r")), (1, Act::Publish)],
    );
    let held = hold(rt, alloc, &mut board, 1, 0);
    play(rt, alloc, &mut board, &[(0, Act::Hold(2))]);
    expect_history(rt, alloc, &board, TWO_SEATS);
    expect_first(rt, alloc, &held);
    drop(held);
    let next = edition(rt, &board, 1);
    expect_second(rt, alloc, &next);
    drop(next);
    drop(board);
}

/// The edition with the rule that was dropped later, which two hold.
fn expect_first(rt: &impl Abort, alloc: Global, held: &Held) {
    assert!(rt; held.number() == 0);
    expect_derived(rt, alloc, held, Family::Blocking, "p", Verdict::Proved);
    expect_text(rt, alloc, held, 1, "r: => p\n");
    expect_copy(rt, alloc, held, 1, "r: => p\n");
}

/// The edition of the empty theory, which mentions no literal.
fn expect_second(rt: &impl Abort, alloc: Global, held: &Held) {
    assert!(rt; held.number() == 1);
    expect_derived(rt, alloc, held, Family::Blocking, "p", Verdict::Refuted);
    expect_text(rt, alloc, held, 0, "");
    expect_conclusions(rt, alloc, held, Family::Blocking, "");
}

#[test]
fn two_seats_take_turns(rt: HostRuntime) {
    two_seats::<Brand>(&rt, rt.alloc(), Blank::new(1));
}

/// A board of the empty theory with the seats 0 and 1.
fn seated<L: Ledger>(rt: &impl Abort, alloc: Global, blank: Blank) -> Board<L>
    requires name { blank.name ≡ L.name }
    requires parts { blank.parts ≡ L.parts }
    requires some { 0 < blank.parts }
{
    let (mut board, mut share) = opened::<L>(rt, alloc, blank);
    enrol(rt, &mut board, &mut share, 0);
    enrol(rt, &mut board, &mut share, 1);
    board
}

/// What an edition concludes, and what the next one does.
#[derive(Clone, Copy)]
struct Conclusions {
    first: &'static str,
    second: &'static str,
}

/// The calls `before` end with a publication, and so do the calls `after`. Who holds the first edition meanwhile is
/// answered by it, whatever became of the draft.
fn expect_editions<L: Ledger>(
    rt: &impl Abort,
    alloc: Global,
    board: &mut Board<L>,
    before: &[(u64, Act)],
    after: &[(u64, Act)],
    conclusions: Conclusions,
) {
    play(rt, alloc, board, before);
    let held = hold(rt, alloc, board, 1, 0);
    expect_conclusions(rt, alloc, &held, Family::Blocking, conclusions.first);
    play(rt, alloc, board, after);
    let next = edition(rt, board, 1);
    expect_conclusions(rt, alloc, &next, Family::Blocking, conclusions.second);
    drop(next);
    expect_conclusions(rt, alloc, &held, Family::Blocking, conclusions.first);
    drop(held);
}

/// Of two rules that support each other nothing follows in the end, and nothing is refuted.
const LOOP_GAP: &str = "+D p
+d p
-d p
+D -p
+d -p
+D q
+d q
-d q
+D -q
+d -q
";

/// Two rules support each other, and a third one supports them both until it is dropped.
fn loop_support<L: Ledger>(rt: &impl Abort, alloc: Global, blank: Blank)
    requires name { blank.name ≡ L.name }
    requires parts { blank.parts ≡ L.parts }
    requires some { 0 < blank.parts }
{
    let mut board = seated::<L>(rt, alloc, blank);
    expect_editions(
        rt,
        alloc,
        &mut board,
        &[
            (0, Act::Edit("add r1: p => q")),
            (0, Act::Edit("add r2: q => p")),
            (1, Act::Edit("add f: => p")),
            (0, Act::Publish),
        ],
        &[(0, Act::Edit("drop f")), (1, Act::Publish)],
        Conclusions {
            first: "+d p\n-d -p\n+d q\n-d -q\n",
            second: "?d p\n-d -p\n?d q\n-d -q\n",
        },
    );
    let last = edition(rt, &board, 1);
    expect_gap(rt, alloc, &last, Family::Blocking, "p", LOOP_GAP);
    drop(last);
    drop(board);
}

#[test]
fn a_loop_loses_its_support(rt: HostRuntime) {
    loop_support::<Brand>(&rt, rt.alloc(), Blank::new(1));
}

const PENGUIN: Conclusions = Conclusions {
    first: "+d bird
-d -bird
-d flies
+d -flies
+d penguin
-d -penguin
",
    second: "+d bird
-d -bird
-d flies
-d -flies
+d penguin
-d -penguin
",
};

/// Of two rules that attack each other one prevails until their pair is dropped.
fn dropped_pair<L: Ledger>(rt: &impl Abort, alloc: Global, blank: Blank)
    requires name { blank.name ≡ L.name }
    requires parts { blank.parts ≡ L.parts }
    requires some { 0 < blank.parts }
{
    let mut board = seated::<L>(rt, alloc, blank);
    expect_editions(
        rt,
        alloc,
        &mut board,
        &[
            (0, Act::Edit("add >> penguin")),
            (0, Act::Edit("add r1: penguin -> bird")),
            (0, Act::Edit("add r2: bird => flies")),
            (0, Act::Edit("add r3: penguin => -flies")),
            (1, Act::Edit("add r3 > r2")),
            (1, Act::Publish),
        ],
        &[(0, Act::Edit("drop r3 > r2")), (0, Act::Publish)],
        PENGUIN,
    );
    drop(board);
}

#[test]
fn an_edition_keeps_its_pair(rt: HostRuntime) {
    dropped_pair::<Brand>(&rt, rt.alloc(), Blank::new(1));
}

const REFUSALS: &str = "0 | enrol | enrolled 0
1 | enrol | enrolled 1
0 | add >> p | ok
0 | add r1: => q | ok
0 | add r2: => -q | ok
0 | add r1 > r2 | ok
1 | add r1: => s | refused label r1
1 | drop zz | refused unknown zz
1 | add >> p | refused fact
1 | add r1 > r2 | refused pair
1 | add r2 > r1 | refused cycle r1 r2
1 | drop >> q | refused nofact
1 | drop r2 > r1 | refused nopair
1 | add r1 > zz | refused unknown zz
1 | publish | edition 0
0 | drop >> p | ok
";

/// Edits that are refused, each for another cause, leave the draft as it is.
fn refusals<L: Ledger>(rt: &impl Abort, alloc: Global, blank: Blank)
    requires name { blank.name ≡ L.name }
    requires parts { blank.parts ≡ L.parts }
    requires some { 0 < blank.parts }
{
    let mut board = seated::<L>(rt, alloc, blank);
    play(
        rt,
        alloc,
        &mut board,
        &[
            (0, Act::Edit("add >> p")),
            (0, Act::Edit("add r1: => q")),
            (0, Act::Edit("add r2: => -q")),
            (0, Act::Edit("add r1 > r2")),
            (1, Act::Edit("add r1: => s")),
            (1, Act::Edit("drop zz")),
            (1, Act::Edit("add >> p")),
            (1, Act::Edit("add r1 > r2")),
            (1, Act::Edit("add r2 > r1")),
            (1, Act::Edit("drop >> q")),
            (1, Act::Edit("drop r2 > r1")),
            (1, Act::Edit("add r1 > zz")),
            (1, Act::Publish),
            (0, Act::Edit("drop >> p")),
        ],
    );
    expect_history(rt, alloc, &board, REFUSALS);
    let held = edition(rt, &board, 0);
    expect_text(rt, alloc, &held, 4, ">> p\nr1: => q\nr2: => -q\nr1 > r2\n");
    drop(held);
    drop(board);
}

#[test]
fn refused_edits_are_recorded(rt: HostRuntime) {
    refusals::<Brand>(&rt, rt.alloc(), Blank::new(1));
}
