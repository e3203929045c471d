//! Sessions over streams in memory, at a desk of their own.

ghost use Rattle.std.specs.Prelude.{◌≡◌, ◌+◌, ◌-◌, ◌<◌, ◌^◌, [], None};
ghost use Rattle.dl_edition.specs.Offices.{MayCall};

use dl_board::Board;
use dl_calls::write_entry;
use dl_desk::Desk;
use dl_io::{MemorySink, MemorySource, Sink, Source};
use dl_read::read_file;
use dl_session::{End, Workroom, serve_session};
use dl_theory::Theory;
use dl_turn::Seat;
use std::alloc::Global;
use std::marker::Brand;
use std::process::Abort;
use std::sync::Wait;
use std::sync::ledger::{Blank, Book, Ledger, Share};

pub(crate) type DeskSeat<L> = Seat<Board<L>>;

pub(crate) fn theory_of(rt: &impl Abort, alloc: Global, text: &str) -> Theory {
    match read_file(alloc, text.as_bytes()) {
        Ok(theory) => theory,
        Err(_) => panic!(rt; "no theory"),
    }
}

fn board_of<L: Ledger>(rt: &impl Abort, alloc: Global, theory: &Theory, book: Book<L>) -> Board<L>
    requires { book.total ≡ 0 }
    ensures { result.history ≡ [] }
{
    match Board::make(alloc, theory, book) {
        Ok(board) => board,
        Err(_) => panic!(rt; "no board"),
    }
}

/// A desk for the theory, and its first seat.
pub(crate) fn opened<L: Ledger, R: Wait + Abort>(
    rt: &R,
    alloc: Global,
    theory: &Theory,
    book: Book<L>,
) -> (Desk<L>, DeskSeat<L>)
    requires { book.total ≡ 0 }
    ensures { (result.1.place ≡ result.0) × (result.1.number ≡ None) × (result.1.out ≡ None) }
{
    let board = board_of(rt, alloc, theory, book);
    match Desk::make(rt, alloc, board) {
        Ok(made) => made,
        Err((board, _)) => {
            drop(board);
            panic!(rt; "no desk")
        }
    }
}

/// One more seat, which has the next number.
pub(crate) fn seated<L: Ledger, R: Wait + Abort>(
    rt: &R,
    desk: &Desk<L>,
    first: &mut DeskSeat<L>,
    share: &mut Share<L>,
) -> DeskSeat<L>
    requires first { (first.old.place ≡ desk.now) × (first.old.out ≡ None) }
    requires whole { (share.old.parts ≡ L.parts) × (0 < share.old.parts) }
    requires room { share.old.amount < 2 ^ 64 - 1 }
    ensures first { first.new ≡ first.old }
    ensures seat { (result.place ≡ desk.now) × MayCall result }
    ensures share { (share.new.parts ≡ share.old.parts) × (share.new.amount ≡ share.old.amount + 1) }
{
    let mut seat = desk.split(first).expect(rt, "a seat");
    let _number = desk.enrol(rt, &mut seat, share).expect(rt, "a number");
    seat
}

/// One session, in a room of its own.
pub(crate) fn served_alone<L: Ledger, R: Wait + Abort, I: Source, P: Sink>(
    rt: &R,
    alloc: Global,
    desk: &Desk<L>,
    seat: &mut DeskSeat<L>,
    source: &mut I,
    sink: &mut P,
) -> End
    requires { (seat.old.place ≡ desk.now) × MayCall seat.old }
    ensures { (seat.new.place ≡ desk.now) × MayCall seat.new }
{
    let mut room = Workroom::make(alloc).expect(rt, "room");
    serve_session(rt, desk, seat, &mut room, source, sink)
}

/// A session on a theory: how it ended, and the board behind it.
pub(crate) fn served<L: Ledger, R: Wait + Abort, I: Source, P: Sink>(
    rt: &R,
    alloc: Global,
    blank: Blank,
    theory: &Theory,
    source: &mut I,
    sink: &mut P,
) -> (End, Board<L>)
    requires name { blank.name ≡ L.name }
    requires parts { blank.parts ≡ L.parts }
    requires some { 0 < blank.parts }
{
    let (book, mut share) = blank.open::<L>();
    let (desk, mut first) = opened(rt, alloc, theory, book);
    let mut seat = seated(rt, &desk, &mut first, &mut share);
    let end = served_alone(rt, alloc, &desk, &mut seat, source, sink);
    desk.join(&mut first, seat);
    let (board, _seat) = desk.finish(rt, first);
    (end, board)
}

/// The lines of a board's entries.
pub(crate) fn journal_of<L: Ledger>(
    rt: &impl Abort,
    alloc: Global,
    board: &Board<L>,
) -> MemorySink {
    let mut journal = sink_of(rt, alloc, &[]);
    for at in 0..board.entries() {
        if let Some(entry) = board.entry(at) {
            let wrote = write_entry(&mut journal, entry);
            assert!(rt; wrote.is_ok());
        }
    }
    journal
}

/// A source of these bytes, whose reads with these numbers fail.
pub(crate) fn source_of(
    rt: &impl Abort,
    alloc: Global,
    bytes: &[u8],
    fails: &[usize],
) -> MemorySource {
    let bytes = bytes.to_vec(alloc).expect(rt, "bytes");
    let fails = fails.to_vec(alloc).expect(rt, "a plan");
    MemorySource::make(alloc, bytes, fails)
}

/// A sink whose calls with these numbers fail.
pub(crate) fn sink_of(rt: &impl Abort, alloc: Global, fails: &[usize]) -> MemorySink {
    let fails = fails.to_vec(alloc).expect(rt, "a plan");
    MemorySink::make(alloc, fails)
}

/// What a session was: its replies, how it ended, and the journal.
pub(crate) struct Outcome {
    pub(crate) replies: MemorySink,
    pub(crate) end: End,
    pub(crate) journal: MemorySink,
}

impl Drop for Outcome {
    fn drop(self) {
        let Outcome {
            replies: _,
            end: _,
            journal: _,
        } = self;
    }
}

fn outcome_of<L: Ledger, R: Wait + Abort>(
    rt: &R,
    alloc: Global,
    blank: Blank,
    theory: &Theory,
    mut source: MemorySource,
    mut sink: MemorySink,
) -> Outcome
    requires name { blank.name ≡ L.name }
    requires parts { blank.parts ≡ L.parts }
    requires some { 0 < blank.parts }
{
    let (end, board) = served::<L, R, MemorySource, MemorySink>(
        rt,
        alloc,
        blank,
        theory,
        &mut source,
        &mut sink,
    );
    let journal = journal_of(rt, alloc, &board);
    drop(board);
    Outcome {
        replies: sink,
        end,
        journal,
    }
}

/// A session on a theory, over these streams.
pub(crate) fn run_session<R: Wait + Abort>(
    rt: &R,
    alloc: Global,
    theory: &str,
    source: MemorySource,
    sink: MemorySink,
) -> Outcome {
    let theory = theory_of(rt, alloc, theory);
    outcome_of::<Brand, R>(rt, alloc, Blank::new(1), &theory, source, sink)
}

/// A session with this input has these replies, hands them on and is done.
pub(crate) fn expect_replies<R: Wait + Abort>(
    rt: &R,
    alloc: Global,
    theory: &str,
    input: &[u8],
    replies: &str,
) {
    let source = source_of(rt, alloc, input, &[]);
    let outcome = run_session(rt, alloc, theory, source, sink_of(rt, alloc, &[]));
    assert_eq!(rt; outcome.replies.bytes(), replies.as_bytes());
    assert_eq!(rt; outcome.replies.handed(), replies.as_bytes());
    assert!(rt; outcome.end == End::Done);
}

/// It has these replies, and the board these entries.
pub(crate) fn expect_journal<R: Wait + Abort>(
    rt: &R,
    alloc: Global,
    theory: &str,
    input: &str,
    replies: &str,
    journal: &str,
) {
    let source = source_of(rt, alloc, input.as_bytes(), &[]);
    let outcome = run_session(rt, alloc, theory, source, sink_of(rt, alloc, &[]));
    assert_eq!(rt; outcome.replies.bytes(), replies.as_bytes());
    assert_eq!(rt; outcome.journal.bytes(), journal.as_bytes());
}
