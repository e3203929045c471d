//! What seats do, in few words, and a board on which they do it.

ghost use Rattle.std.specs.Prelude.{◌≡◌, ◌<◌};

use crate::journals::line_of;
use crate::texts::{edit_of, sink};
use dl_board::{Board, Turned};
use dl_calls::{Call, Entry, write_entry};
use dl_edition::Held;
use dl_marks::Steps;
use dl_theory::Theory;
use std::alloc::Global;
use std::marker::Brand;
use std::process::Abort;
use std::sync::ledger::{Blank, Ledger, Share};

/// A call other than an enrolment. An edit is a text.
#[derive(Clone, Copy)]
pub(super) enum Act {
    Edit(&'static str),
    Publish,
    Hold(u64),
}

fn call_of(rt: &impl Abort, alloc: Global, act: Act) -> Call
    ensures { ¬ (result ≡ Call.Enrol) }
{
    match act {
        Act::Publish => Call::Publish,
        Act::Hold(number) => Call::Hold(number),
        Act::Edit(text) => Call::Edit(edit_of(rt, alloc, text)),
    }
}

/// A board of the empty theory, and the whole share of its ledger.
pub(super) fn opened<L: Ledger>(
    rt: &impl Abort,
    alloc: Global,
    blank: Blank,
) -> (Board<L>, Share<L>)
    requires name { blank.name ≡ L.name }
    requires parts { blank.parts ≡ L.parts }
    requires some { 0 < blank.parts }
    ensures whole { result.1.parts ≡ L.parts }
    ensures some { 0 < result.1.parts }
{
    let (book, share) = blank.open::<L>();
    match Board::make(alloc, &Theory::make(alloc), book) {
        Ok(board) => (board, share),
        Err(_) => panic!(rt; "no memory for a board"),
    }
}

/// Enrols the next seat, which gets this number.
pub(super) fn enrol<L: Ledger>(
    rt: &impl Abort,
    board: &mut Board<L>,
    share: &mut Share<L>,
    number: u64,
)
    requires whole { share.old.parts ≡ L.parts }
    requires some { 0 < share.old.parts }
    ensures { share.new.parts ≡ share.old.parts }
{
    board.audit(share);
    assert!(rt; board.enrolled() == number);
    assert!(rt; number < u64::MAX);
    let given = board.enrol(share).expect(rt, "a number");
    assert!(rt; given == number);
}

/// Makes a call of an enrolled seat, and counts its steps on a ledger of their own.
fn counted_turn<L: Ledger, M: Ledger>(
    rt: &impl Abort,
    board: &mut Board<L>,
    seat: u64,
    call: Call,
    blank: Blank,
) -> Turned
    requires call { ¬ (call ≡ Call.Enrol) }
    requires seat { seat < board.old.enrolled }
    requires name { blank.name ≡ M.name }
    requires parts { blank.parts ≡ M.parts }
    requires some { 0 < blank.parts }
{
    let mut steps = Steps::<M>::make(blank);
    board.turn(seat, call, &mut steps).expect(rt, "an answer")
}

/// Makes a call of a seat, which is enrolled.
fn turn<L: Ledger>(
    rt: &impl Abort,
    alloc: Global,
    board: &mut Board<L>,
    seat: u64,
    act: Act,
) -> Turned {
    let call = call_of(rt, alloc, act);
    assert!(rt; seat < board.enrolled());
    counted_turn::<L, Brand>(rt, board, seat, call, Blank::new(1))
}

/// The last entry of a board's history is of this call and this answer.
fn expect_last<L: Ledger>(
    rt: &impl Abort,
    alloc: Global,
    board: &Board<L>,
    seat: u64,
    act: Act,
    turned: &Turned,
) {
    let told = Entry {
        seat,
        call: call_of(rt, alloc, act),
        reply: turned.reply().expect(rt, "a reply"),
    };
    let last = board.entries().checked_sub(1).expect(rt, "an entry");
    let kept = board.entry(last).expect(rt, "an entry");
    assert!(rt; line_of(rt, alloc, kept) == line_of(rt, alloc, &told));
}

/// Makes the calls of seats in order. Each answer is the one that the history has.
pub(super) fn play<L: Ledger>(
    rt: &impl Abort,
    alloc: Global,
    board: &mut Board<L>,
    acts: &[(u64, Act)],
) {
    for (seat, act) in acts {
        let turned = turn(rt, alloc, board, *seat, *act);
        expect_last(rt, alloc, board, *seat, *act, &turned);
    }
}

/// Holds a published edition.
pub(super) fn hold<L: Ledger>(
    rt: &impl Abort,
    alloc: Global,
    board: &mut Board<L>,
    seat: u64,
    number: u64,
) -> Held {
    match turn(rt, alloc, board, seat, Act::Hold(number)) {
        Turned::Holding(held) => held,
        _ => panic!(rt; "no such edition"),
    }
}

/// A published edition, without a call.
pub(super) fn edition<L: Ledger>(rt: &impl Abort, board: &Board<L>, number: u64) -> Held {
    assert!(rt; number < board.published());
    board.held(number).expect(rt, "an edition")
}

/// The whole history of a board is this journal.
pub(super) fn expect_history<L: Ledger>(
    rt: &impl Abort,
    alloc: Global,
    board: &Board<L>,
    text: &str,
) {
    let mut journal = sink(alloc);
    for at in 0..board.entries() {
        let entry = board.entry(at).expect(rt, "an entry");
        let wrote = write_entry(&mut journal, entry);
        assert!(rt; wrote.is_ok());
    }
    assert!(rt; board.entry(board.entries()).is_none());
    assert!(rt; journal.bytes() == text.as_bytes());
}
