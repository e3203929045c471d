//! Several sessions at one desk.

ghost use Rattle.std.specs.Prelude.{◌≡◌, ◌<◌, None};
ghost use Rattle.dl_edition.specs.Offices.{MayCall};

use crate::serving::{
    DeskSeat, journal_of, opened, seated, served_alone, sink_of, source_of, theory_of,
};
use dl_board::Board;
use dl_desk::Desk;
use dl_io::{MemorySink, MemorySource};
use dl_session::{End, Workroom, serve_session};
use std::alloc::Global;
use std::marker::Brand;
use std::process::Abort;
use std::sync::Wait;
use std::sync::ledger::{Blank, Ledger};
use std::thread::{Threads, join};

/// A session: its end and its replies.
fn session<L: Ledger, R: Wait + Abort>(
    rt: &R,
    alloc: Global,
    desk: &Desk<L>,
    seat: &mut DeskSeat<L>,
    room: &mut Workroom,
    source: &mut MemorySource,
) -> (End, MemorySink)
    requires { (seat.old.place ≡ desk.now) × MayCall seat.old }
    ensures { (seat.new.place ≡ desk.now) × MayCall seat.new }
{
    let mut sink = sink_of(rt, alloc, &[]);
    let end = serve_session(rt, desk, seat, room, source, &mut sink);
    (end, sink)
}

/// Two sessions in one room, one after the other. The first one's source fails after three lines.
fn expect_both<L: Ledger, R: Wait + Abort>(
    rt: &R,
    alloc: Global,
    desk: &Desk<L>,
    one: &mut DeskSeat<L>,
    two: &mut DeskSeat<L>,
)
    requires one { (one.old.place ≡ desk.now) × MayCall one.old }
    requires two { (two.old.place ≡ desk.now) × MayCall two.old }
    ensures one { (one.new.place ≡ desk.now) × MayCall one.new }
    ensures two { (two.new.place ≡ desk.now) × MayCall two.new }
{
    let mut room = Workroom::make(alloc).expect(rt, "room");
    let input = b"publish\npublish\ntext 1\nqui";
    let mut source = source_of(rt, alloc, input, &[1]);
    let (end, replies) = session(rt, alloc, desk, one, &mut room, &mut source);
    assert!(rt; end == End::ReadFault);
    assert_eq!(rt;
        replies.bytes(),
        b"edition 0\nedition 1\nlines 1\n>> p\n".as_slice()
    );
    // what the room kept of the first session is forgotten
    let mut source = source_of(rt, alloc, b"publish\ntext 1\n", &[]);
    let (end, replies) = session(rt, alloc, desk, two, &mut room, &mut source);
    assert!(rt; end == End::Done);
    assert_eq!(rt; replies.bytes(), b"edition 2\nlines 1\n>> p\n".as_slice());
}

const BOTH: &str =
    "0 | enrol | enrolled 0\n1 | enrol | enrolled 1\n0 | publish | edition 0\n0 | publish | edition 1\n0 | hold 1 | holding 1\n1 | publish | edition 2\n1 | hold 1 | holding 1\n";

/// The board after both.
fn after_both<L: Ledger, R: Wait + Abort>(rt: &R, alloc: Global, blank: Blank) -> Board<L>
    requires name { blank.name ≡ L.name }
    requires parts { blank.parts ≡ L.parts }
    requires some { 0 < blank.parts }
{
    let (book, mut share) = blank.open::<L>();
    let (desk, mut first) = opened(rt, alloc, &theory_of(rt, alloc, ">> p\n"), book);
    let mut one = seated(rt, &desk, &mut first, &mut share);
    let mut two = seated(rt, &desk, &mut first, &mut share);
    expect_both(rt, alloc, &desk, &mut one, &mut two);
    desk.join(&mut first, one);
    desk.join(&mut first, two);
    let (board, _seat) = desk.finish(rt, first);
    board
}

fn expect_entries<L: Ledger, R: Wait + Abort>(rt: &R, alloc: Global, blank: Blank)
    requires name { blank.name ≡ L.name }
    requires parts { blank.parts ≡ L.parts }
    requires some { 0 < blank.parts }
{
    let board = after_both::<L, R>(rt, alloc, blank);
    let journal = journal_of(rt, alloc, &board);
    drop(board);
    assert_eq!(rt; journal.bytes(), BOTH.as_bytes());
}

#[test]
fn a_room_serves_one_session_after_another(rt: HostRuntime) {
    expect_entries::<Brand, _>(&rt, rt.alloc(), Blank::new(1));
}

/// A session of three publications, where the read with this number fails.
fn publisher<L: Ledger, R: Wait + Abort>(
    rt: &R,
    alloc: Global,
    desk: &Desk<L>,
    mut seat: DeskSeat<L>,
    fails: usize,
) -> (DeskSeat<L>, End, Vec<u8>)
    requires { (seat.place ≡ desk.now) × MayCall seat }
    ensures { (result.0.place ≡ desk.now) × MayCall result.0 }
{
    let mut source = source_of(rt, alloc, b"publish\npublish\npublish\n", &[fails]);
    let mut sink = sink_of(rt, alloc, &[]);
    let end = served_alone(rt, alloc, desk, &mut seat, &mut source, &mut sink);
    let replies = sink.bytes().to_vec(alloc).expect(rt, "bytes");
    (seat, end, replies)
}

/// Two such sessions, each in a thread of its own. The first one's source fails after its three lines.
fn both_at_once<L: Ledger + Send + Sync, R: Threads + Wait + Abort + Sync>(
    rt: &R,
    alloc: Global,
    desk: &Desk<L>,
    first: &mut DeskSeat<L>,
    one: DeskSeat<L>,
    two: DeskSeat<L>,
) -> (Vec<u8>, Vec<u8>)
    requires first { (first.old.place ≡ desk.now) × (first.old.out ≡ None) }
    requires one { (one.place ≡ desk.now) × MayCall one }
    requires two { (two.place ≡ desk.now) × MayCall two }
    ensures first { (first.new.place ≡ desk.now) × (first.new.out ≡ None) }
{
    let ((one, fault, replies), (two, done, others)) = join(
        rt,
        move ||
            requires { (one.place ≡ desk.now) × MayCall one }
            ensures { (result.0.place ≡ desk.entry.now) × MayCall result.0 }
        { publisher(rt, alloc, desk, one, 1) },
        move ||
            requires { (two.place ≡ desk.now) × MayCall two }
            ensures { (result.0.place ≡ desk.entry.now) × MayCall result.0 }
        { publisher(rt, alloc, desk, two, 2) },
    );
    desk.join(first, one);
    desk.join(first, two);
    assert!(rt; fault == End::ReadFault);
    assert!(rt; done == End::Done);
    (replies, others)
}

/// The replies of both.
fn replies_of_both<L: Ledger + Send + Sync, R: Threads + Wait + Abort + Sync>(
    rt: &R,
    alloc: Global,
    blank: Blank,
) -> (Vec<u8>, Vec<u8>)
    requires name { blank.name ≡ L.name }
    requires parts { blank.parts ≡ L.parts }
    requires some { 0 < blank.parts }
{
    let (book, mut share) = blank.open::<L>();
    let (desk, mut first) = opened(rt, alloc, &theory_of(rt, alloc, ""), book);
    let one = seated(rt, &desk, &mut first, &mut share);
    let two = seated(rt, &desk, &mut first, &mut share);
    let replies = both_at_once(rt, alloc, &desk, &mut first, one, two);
    let (board, _seat) = desk.finish(rt, first);
    drop(board);
    replies
}

/// How often the byte is among these.
fn count_of(bytes: &[u8], byte: u8) -> u64 {
    let mut count = 0u64;
    for other in bytes {
        if *other == byte {
            count = count.wrapping_add(1);
        }
    }
    count
}

/// Both have three replies, and the editions 0 to 5 are there once each.
fn expect_publications<L: Ledger + Send + Sync, R: Threads + Wait + Abort + Sync>(
    rt: &R,
    alloc: Global,
    blank: Blank,
)
    requires name { blank.name ≡ L.name }
    requires parts { blank.parts ≡ L.parts }
    requires some { 0 < blank.parts }
{
    let (replies, others) = replies_of_both::<L, R>(rt, alloc, blank);
    assert!(rt; replies.len() == 30);
    assert!(rt; others.len() == replies.len());
    for digit in [b'0', b'1', b'2', b'3', b'4', b'5'] {
        let count = count_of(replies.as_slice(), digit);
        assert!(rt; count.wrapping_add(count_of(others.as_slice(), digit)) == 1);
    }
}

#[test]
fn two_sessions_publish_at_once(rt: HostRuntime) {
    expect_publications::<Brand, _>(&rt, rt.alloc(), Blank::new(1));
}
