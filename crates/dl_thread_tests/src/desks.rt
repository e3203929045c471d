//! Many threads at one desk.

ghost use Rattle.std.specs.Prelude.{◌≡◌, ◌+◌, ◌-◌, ◌<◌, ◌^◌, [], None, All};
ghost use Rattle.std.specs.Thread.{IsSync};
ghost use Rattle.dl_edition.specs.Offices.{MayCall};

use dl_board::Board;
use dl_desk::Desk;
use dl_edition::{Held, HoldAnswer, Office};
use dl_lit::{Family, Literal, Name};
use dl_theory::{Edit, EditRefusal, EditStop, Theory, Verdict};
use dl_turn::Seat;
use std::alloc::Global;
use std::marker::Brand;
use std::process::Abort;
use std::sync::Wait;
use std::sync::ledger::{Blank, Book, Ledger, Share};
use std::thread;
use std::thread::{Threads, join};

type DeskSeat<L> = Seat<Board<L>>;

fn fact(rt: &impl Abort, alloc: Global, text: &str) -> Literal {
    Literal {
        mode: None,
        atom: Name::make(alloc, text.as_bytes()).expect(rt, "a name"),
        positive: true,
    }
}

/// A board of the empty theory.
fn blank_board<L: Ledger>(rt: &impl Abort, alloc: Global, book: Book<L>) -> Board<L>
    requires { book.total ≡ 0 }
    ensures { result.history ≡ [] }
{
    match Board::make(alloc, &Theory::make(alloc), book) {
        Ok(board) => board,
        Err(_) => panic!(rt; "no board"),
    }
}

/// A desk for the empty theory, and its first seat.
fn opened<L: Ledger, R: Wait + Abort>(
    rt: &R,
    alloc: Global,
    book: Book<L>,
) -> (Desk<L>, DeskSeat<L>)
    requires { book.total ≡ 0 }
    ensures { (result.1.place ≡ result.0) × (result.1.number ≡ None) × (result.1.out ≡ None) }
{
    let board = blank_board(rt, alloc, book);
    match Desk::make(rt, alloc, board) {
        Ok(made) => made,
        Err((board, _)) => {
            drop(board);
            panic!(rt; "no desk")
        }
    }
}

/// One more seat, which has the next number.
fn seated<L: Ledger, R: Wait + Abort>(
    rt: &R,
    desk: &Desk<L>,
    first: &mut DeskSeat<L>,
    share: &mut Share<L>,
) -> DeskSeat<L>
    requires first { (first.old.place ≡ desk.now) × (first.old.out ≡ None) }
    requires whole { (share.old.parts ≡ L.parts) × (0 < share.old.parts) }
    requires room { share.old.amount < 2 ^ 64 - 1 }
    ensures first { first.new ≡ first.old }
    ensures seat { (result.place ≡ desk.now) × MayCall result }
    ensures share { (share.new.parts ≡ share.old.parts) × (share.new.amount ≡ share.old.amount + 1) }
{
    let mut seat = desk.split(first).expect(rt, "a seat");
    let _number = desk.enrol(rt, &mut seat, share).expect(rt, "a number");
    seat
}

/// How many entries of the board are of the seat.
fn count_of<L: Ledger>(board: &Board<L>, seat: u64) -> u64 {
    let mut count = 0u64;
    for at in 0..board.entries() {
        if let Some(entry) = board.entry(at) {
            if entry.seat == seat {
                count = count.wrapping_add(1);
            }
        }
    }
    count
}

fn expect_board<L: Ledger>(
    rt: &impl Abort,
    board: &Board<L>,
    published: u64,
    first: u64,
    second: u64,
) {
    assert!(rt; board.enrolled() == 2);
    assert!(rt; board.published() == published);
    assert!(rt; board.entries() as u64 == first.wrapping_add(second));
    assert!(rt; count_of(board, 0) == first);
    assert!(rt; count_of(board, 1) == second);
}

/// Publishes so many times, and keeps the numbers of the editions.
fn publish_all<O: Office, R: Wait + Abort>(
    rt: &R,
    alloc: Global,
    office: &O,
    mut seat: Seat<O::Board>,
    count: u64,
) -> (Seat<O::Board>, Vec<u64>)
    requires belongs { O.belongs office.now seat }
    requires may { MayCall seat }
    ensures belongs { O.belongs office.now result.0 }
    ensures may { MayCall result.0 }
{
    let mut numbers = Vec::new(alloc);
    for _ in 0..count {
        let number = office.publish(rt, &mut seat).expect(rt, "an edition");
        numbers.push(number).expect(rt, "room");
    }
    (seat, numbers)
}

/// Two seats publish in threads of their own. Both are then joined into the first one.
fn publish_in_threads<L: Ledger + Send + Sync, R: Threads + Wait + Abort + Sync>(
    rt: &R,
    alloc: Global,
    desk: &Desk<L>,
    first: &mut DeskSeat<L>,
    one: DeskSeat<L>,
    two: DeskSeat<L>,
) -> (Vec<u64>, Vec<u64>)
    requires first { (first.old.place ≡ desk.now) × (first.old.out ≡ None) }
    requires one { (one.place ≡ desk.now) × MayCall one }
    requires two { (two.place ≡ desk.now) × MayCall two }
    ensures first { (first.new.place ≡ desk.now) × (first.new.out ≡ None) }
{
    let ((one, numbers), (two, others)) = join(
        rt,
        move ||
            requires { (one.place ≡ desk.now) × MayCall one }
            ensures { (result.0.place ≡ desk.entry.now) × MayCall result.0 }
        { publish_all(rt, alloc, desk, one, 500) },
        move ||
            requires { (two.place ≡ desk.now) × MayCall two }
            ensures { (result.0.place ≡ desk.entry.now) × MayCall result.0 }
        { publish_all(rt, alloc, desk, two, 500) },
    );
    desk.join(first, one);
    desk.join(first, two);
    (numbers, others)
}

/// The board after two threads have published 500 times each, and the numbers that they got.
fn two_publish<L: Ledger + Send + Sync, R: Threads + Wait + Abort + Sync>(
    rt: &R,
    alloc: Global,
    blank: Blank,
) -> (Board<L>, Vec<u64>, Vec<u64>)
    requires name { blank.name ≡ L.name }
    requires parts { blank.parts ≡ L.parts }
    requires some { 0 < blank.parts }
{
    let (book, mut share) = blank.open::<L>();
    let (desk, mut first) = opened(rt, alloc, book);
    let one = seated(rt, &desk, &mut first, &mut share);
    let two = seated(rt, &desk, &mut first, &mut share);
    let (numbers, others) = publish_in_threads(rt, alloc, &desk, &mut first, one, two);
    let (mut board, _seat) = desk.finish(rt, first);
    board.audit(&mut share);
    (board, numbers, others)
}

/// Both lists are as long, and together they are the numbers from 0 on, each once.
fn expect_numbers(rt: &impl Abort, mut numbers: Vec<u64>, others: Vec<u64>) {
    assert!(rt; numbers.len() == others.len());
    numbers
        .extend_from_slice(others.as_slice())
        .expect(rt, "room");
    numbers.sort().expect(rt, "room");
    for (at, number) in numbers.iter().enumerate() {
        assert!(rt; *number == at as u64);
    }
}

/// Both threads get 500 numbers, and together each number once.
fn expect_publications<L: Ledger + Send + Sync, R: Threads + Wait + Abort + Sync>(
    rt: &R,
    alloc: Global,
    blank: Blank,
)
    requires name { blank.name ≡ L.name }
    requires parts { blank.parts ≡ L.parts }
    requires some { 0 < blank.parts }
{
    let (board, numbers, others) = two_publish::<L, R>(rt, alloc, blank);
    assert!(rt; numbers.len() == 500);
    expect_numbers(rt, numbers, others);
    expect_board(rt, &board, 1000, 501, 501);
    drop(board);
}

#[test]
fn two_threads_publish(rt: HostRuntime) {
    expect_publications::<Brand, _>(&rt, rt.alloc(), Blank::new(1));
}

/// 1 where the edit was made or refused.
fn counted_answer(edited: Result<(), EditStop>) -> u64 {
    match edited {
        Ok(()) | Err(EditStop::Refused(_)) => 1,
        Err(EditStop::Memory) => 0,
    }
}

/// Adds the fact and drops it again. How many of the two edits were answered.
fn toggle<O: Office, R: Wait + Abort>(
    rt: &R,
    office: &O,
    seat: &mut Seat<O::Board>,
    fact: &Literal,
) -> u64
    requires belongs { O.belongs office.now seat.old }
    requires may { MayCall seat.old }
    ensures belongs { O.belongs office.now seat.new }
    ensures may { MayCall seat.new }
{
    let added = fact.copy().expect(rt, "a copy");
    let dropped = fact.copy().expect(rt, "a copy");
    let first = counted_answer(office.edit(rt, seat, Edit::AddFact(added)));
    let second = counted_answer(office.edit(rt, seat, Edit::DropFact(dropped)));
    first.wrapping_add(second)
}

/// Adds the fact and drops it again, 100 times. How many edits were answered.
fn toggle_all<O: Office, R: Wait + Abort>(
    rt: &R,
    office: &O,
    mut seat: Seat<O::Board>,
    fact: &Literal,
) -> u64
    requires belongs { O.belongs office.now seat }
    requires may { MayCall seat }
{
    let mut answered = 0u64;
    for _ in 0..100 {
        answered = answered.wrapping_add(toggle(rt, office, &mut seat, fact));
    }
    answered
}

/// Each seat edits in a thread of its own.
fn edit_in_threads<L: Ledger + Send + Sync, R: Threads + Wait + Abort + Sync>(
    rt: &R,
    desk: &Desk<L>,
    seats: Vec<DeskSeat<L>>,
    fact: &Literal,
) -> Vec<u64>
    requires { All (λ seat. (seat.place ≡ desk.now) × MayCall seat) seats.items }
{
    thread::map_vec(rt, seats, &|seat| toggle_all(rt, desk, seat, fact)).expect(rt, "room")
}

/// 1 where the edition proves the literal.
fn counted_proof(held: &Held, literal: &Literal) -> u64 {
    match held.ask(Family::Blocking, literal) {
        Ok(answer) => (answer.verdict == Verdict::Proved) as u64,
        Err(_) => 0,
    }
}

/// Asks the edition 100 times. How often the literal was proved.
fn ask_all(held: &Held, literal: &Literal) -> u64 {
    let mut proved = 0u64;
    for _ in 0..100 {
        proved = proved.wrapping_add(counted_proof(held, literal));
    }
    proved
}

/// Each holder asks in a thread of its own.
fn ask_in_threads<R: Threads + Abort + Sync>(
    rt: &R,
    holders: Vec<Held>,
    literal: &Literal,
) -> Vec<u64> {
    thread::map_vec(rt, holders, &|held| ask_all(&held, literal)).expect(rt, "room")
}

/// Holds an edition that is there.
fn holding<L: Ledger, R: Wait + Abort>(
    rt: &R,
    desk: &Desk<L>,
    seat: &mut DeskSeat<L>,
    number: u64,
) -> Held
    requires { (seat.old.place ≡ desk.now) × MayCall seat.old }
    ensures { (seat.new.place ≡ desk.now) × MayCall seat.new }
{
    match desk.hold(rt, seat, number).expect(rt, "an answer") {
        HoldAnswer::Holding(held) => held,
        HoldAnswer::Unpublished { .. } => panic!(rt; "no edition"),
    }
}

/// Publishes a theory with the fact, and holds that edition.
fn published<L: Ledger, R: Wait + Abort>(
    rt: &R,
    desk: &Desk<L>,
    seat: &mut DeskSeat<L>,
    fact: &Literal,
) -> Held
    requires { (seat.old.place ≡ desk.now) × MayCall seat.old }
    ensures { (seat.new.place ≡ desk.now) × MayCall seat.new }
{
    let added = fact.copy().expect(rt, "a copy");
    assert!(rt; desk.edit(rt, seat, Edit::AddFact(added)).is_ok());
    let number = desk.publish(rt, seat).expect(rt, "an edition");
    holding(rt, desk, seat, number)
}

/// The seats edit while the holders ask: how many edits were answered, and how often the literal was proved.
fn side_by_side<L: Ledger + Send + Sync, R: Threads + Wait + Abort + Sync>(
    rt: &R,
    desk: &Desk<L>,
    seats: Vec<DeskSeat<L>>,
    holders: Vec<Held>,
    literal: &Literal,
) -> (Vec<u64>, Vec<u64>)
    requires { All (λ seat. (seat.place ≡ desk.now) × MayCall seat) seats.items }
{
    join(
        rt,
        move ||
            requires { IsSync R.row × All (λ seat. (seat.place ≡ desk.now) × MayCall seat) seats.items }
        { edit_in_threads(rt, desk, seats, literal) },
        move ||
            requires { IsSync R.row }
        { ask_in_threads(rt, holders, literal) },
    )
}

/// The board after two threads have edited while two others asked an edition with the fact, and what each counted.
fn readers_and_editors<L: Ledger + Send + Sync, R: Threads + Wait + Abort + Sync>(
    rt: &R,
    alloc: Global,
    fact: &Literal,
    blank: Blank,
) -> (Board<L>, Vec<u64>, Vec<u64>)
    requires name { blank.name ≡ L.name }
    requires parts { blank.parts ≡ L.parts }
    requires some { 0 < blank.parts }
{
    let (book, mut share) = blank.open::<L>();
    let (desk, mut first) = opened(rt, alloc, book);
    let mut one = seated(rt, &desk, &mut first, &mut share);
    let two = seated(rt, &desk, &mut first, &mut share);
    let held = published(rt, &desk, &mut one, fact);
    let other = held.copy().expect(rt, "a copy");
    let holders = vec![in alloc; held, other].expect(rt, "room");
    let seats = vec![in alloc; one, two].expect(rt, "room");
    let (answered, proved) = side_by_side(rt, &desk, seats, holders, fact);
    let (board, _seat) = desk.finish(rt, first);
    (board, answered, proved)
}

/// Each edit is answered, and each time that the edition is asked the fact is proved.
fn expect_answered<L: Ledger + Send + Sync, R: Threads + Wait + Abort + Sync>(
    rt: &R,
    alloc: Global,
    blank: Blank,
)
    requires name { blank.name ≡ L.name }
    requires parts { blank.parts ≡ L.parts }
    requires some { 0 < blank.parts }
{
    let p = fact(rt, alloc, "p");
    let (board, answered, proved) = readers_and_editors::<L, R>(rt, alloc, &p, blank);
    assert!(rt; answered.as_slice() == [200, 200].as_slice());
    assert!(rt; proved.as_slice() == [100, 100].as_slice());
    expect_board(rt, &board, 1, 204, 201);
    drop(board);
}

#[test]
fn readers_ask_while_others_edit(rt: HostRuntime) {
    expect_answered::<Brand, _>(&rt, rt.alloc(), Blank::new(1));
}

/// Whether an edit was refused since the fact is not there.
fn is_without_fact(edited: Result<(), EditStop>) -> bool {
    matches!(edited, Err(EditStop::Refused(EditRefusal::NoFact)))
}

/// A refused edit, an edition, an edit that is made, and one more edition.
fn expect_editions<L: Ledger, R: Wait + Abort>(
    rt: &R,
    desk: &Desk<L>,
    seat: &mut DeskSeat<L>,
    fact: &Literal,
)
    requires { (seat.old.place ≡ desk.now) × MayCall seat.old }
    ensures { (seat.new.place ≡ desk.now) × MayCall seat.new }
{
    let dropped = fact.copy().expect(rt, "a copy");
    assert!(rt; is_without_fact(desk.edit(rt, seat, Edit::DropFact(dropped))));
    assert!(rt; desk.publish(rt, seat).expect(rt, "an edition") == 0);
    let added = fact.copy().expect(rt, "a copy");
    assert!(rt; desk.edit(rt, seat, Edit::AddFact(added)).is_ok());
    assert!(rt; desk.publish(rt, seat).expect(rt, "an edition") == 1);
}

/// There is no edition 5, of two.
fn expect_unpublished<L: Ledger, R: Wait + Abort>(rt: &R, desk: &Desk<L>, seat: &mut DeskSeat<L>)
    requires { (seat.old.place ≡ desk.now) × MayCall seat.old }
    ensures { (seat.new.place ≡ desk.now) × MayCall seat.new }
{
    match desk.hold(rt, seat, 5).expect(rt, "an answer") {
        HoldAnswer::Unpublished { asked, published } => assert!(rt; asked == 5 && published == 2),
        HoldAnswer::Holding(_) => panic!(rt; "an edition"),
    }
}

/// The first edition has no fact.
fn expect_refuted(rt: &impl Abort, held: &Held, fact: &Literal) {
    assert!(rt; held.number() == 0);
    let answer = held.ask(Family::Definite, fact).expect(rt, "an answer");
    assert!(rt; answer.verdict == Verdict::Refuted);
    drop(answer);
}

/// The board after one seat has made each call.
fn after_each_call<L: Ledger, R: Wait + Abort>(
    rt: &R,
    alloc: Global,
    fact: &Literal,
    blank: Blank,
) -> Board<L>
    requires name { blank.name ≡ L.name }
    requires parts { blank.parts ≡ L.parts }
    requires some { 0 < blank.parts }
{
    let (book, mut share) = blank.open::<L>();
    let (desk, mut first) = opened(rt, alloc, book);
    let mut seat = seated(rt, &desk, &mut first, &mut share);
    assert!(rt; first.number().is_none());
    assert!(rt; seat.number() == Some(0));
    expect_editions(rt, &desk, &mut seat, fact);
    expect_unpublished(rt, &desk, &mut seat);
    let held = holding(rt, &desk, &mut seat, 0);
    expect_refuted(rt, &held, fact);
    drop(held);
    let (board, seat) = desk.finish(rt, seat);
    assert!(rt; seat.number() == Some(0));
    board
}

/// Each call has its entry in the history.
fn expect_entries<L: Ledger, R: Wait + Abort>(rt: &R, alloc: Global, blank: Blank)
    requires name { blank.name ≡ L.name }
    requires parts { blank.parts ≡ L.parts }
    requires some { 0 < blank.parts }
{
    let p = fact(rt, alloc, "p");
    let board = after_each_call::<L, R>(rt, alloc, &p, blank);
    assert!(rt; board.entries() == 7);
    drop(board);
}

#[test]
fn a_seat_gets_its_answers(rt: HostRuntime) {
    expect_entries::<Brand, _>(&rt, rt.alloc(), Blank::new(1));
}
