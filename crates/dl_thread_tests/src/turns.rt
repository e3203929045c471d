//! Two threads and many threads on one board. Each seat writes its notes in order, and the page has them all.
ghost use Rattle.std.specs.Prelude.{◌≡◌, None, IsSome, OnOk, IfOk, All};

mod page;

use dl_turn::{Memory, Seat, Turnstile};
use page::Page;
use std::alloc::{AllocError, Global};
use std::sync::Wait;
use std::test::Fail;
use std::thread;
use std::thread::Threads;

// A first turn, which gives the seat a number.
fn enrol<R: Wait>(rt: &R, turnstile: &Turnstile<Page>, seat: &mut Seat<Page>) -> Result<(), Memory>
    requires { (seat.old.place ≡ turnstile.now) × (seat.old.out ≡ None) × (seat.old.number ≡ None) }
    ensures within { (seat.new.place ≡ turnstile.now) × (seat.new.out ≡ None) }
    ensures number { OnOk result (IsSome seat.new.number) }
{
    let mut page = turnstile.take(rt, seat);
    let wrote = page.write_first(0);
    turnstile.give(rt, seat, page);
    wrote
}

// One more turn, with one more note.
fn write<R: Wait>(rt: &R, turnstile: &Turnstile<Page>, seat: &mut Seat<Page>, value: u64)
    requires { (seat.old.place ≡ turnstile.now) × (seat.old.out ≡ None) × IsSome seat.old.number }
    ensures { (seat.new.place ≡ turnstile.now) × (seat.new.out ≡ None) × IsSome seat.new.number }
{
    let mut page = turnstile.take(rt, seat);
    let Some(number) = seat.number() else {
        unreachable!()
    };
    let _ = page.write(number, value);
    turnstile.give(rt, seat, page);
}

// Writes the values from 1 to the last, in order.
fn write_all<R: Wait>(
    rt: &R,
    turnstile: &Turnstile<Page>,
    mut seat: Seat<Page>,
    last: u64,
) -> Seat<Page>
    requires { (seat.place ≡ turnstile.now) × (seat.out ≡ None) × IsSome seat.number }
    ensures { (result.place ≡ turnstile.now) × (result.out ≡ None) }
{
    for before in 0..last {
        write(rt, turnstile, &mut seat, before + 1);
    }
    seat
}

// Each seat writes in a thread of its own.
fn write_in_threads<R: Threads + Wait + Sync>(
    rt: &R,
    turnstile: &Turnstile<Page>,
    seats: Vec<Seat<Page>>,
    last: u64,
) -> Result<Vec<Seat<Page>>, AllocError>
    requires { All (λ seat. (seat.place ≡ turnstile.now) × (seat.out ≡ None) × IsSome seat.number) seats.items }
    ensures { IfOk result (λ v. All (λ seat. (seat.place ≡ turnstile.now) × (seat.out ≡ None)) v.items) }
{
    thread::map_vec(rt, seats, &|seat| write_all(rt, turnstile, seat, last))
}

// New seats beside one, each with a number.
fn enrol_all<R: Wait>(
    rt: &R,
    alloc: Global,
    turnstile: &Turnstile<Page>,
    first: &mut Seat<Page>,
    count: u64,
) -> Result<Vec<Seat<Page>>, Memory>
    requires { (first.old.place ≡ turnstile.now) × (first.old.out ≡ None) }
    ensures first { first.new ≡ first.old }
    ensures seats { IfOk result (λ v.
        All (λ seat. (seat.place ≡ turnstile.now) × (seat.out ≡ None) × IsSome seat.number) v.items) }
{
    let mut seats = Vec::new(alloc);
    for _ in 0..count {
        let mut seat = turnstile.split(first)?;
        enrol(rt, turnstile, &mut seat)?;
        seats.push(seat)?;
    }
    Ok(seats)
}

// Joins the seats into one.
fn join_all(turnstile: &Turnstile<Page>, first: &mut Seat<Page>, seats: Vec<Seat<Page>>)
    requires first { (first.old.place ≡ turnstile.now) × (first.old.out ≡ None) }
    requires seats { All (λ seat. (seat.place ≡ turnstile.now) × (seat.out ≡ None)) seats.items }
    ensures { (first.new.place ≡ turnstile.now) × (first.new.out ≡ None) }
{
    for other in seats {
        turnstile.join(first, other);
    }
}

// The page after so many threads have written so many notes each.
fn page_of<R: Threads + Wait + Sync>(
    rt: &R,
    alloc: Global,
    threads: u64,
    last: u64,
) -> Result<Page, Memory> {
    let (turnstile, mut first) = match Turnstile::make(rt, alloc, Page::new(alloc, 7)) {
        Ok(made) => made,
        Err((_, memory)) => return Err(memory),
    };
    let seats = enrol_all(rt, alloc, &turnstile, &mut first, threads)?;
    let seats = write_in_threads(rt, &turnstile, seats, last)?;
    join_all(&turnstile, &mut first, seats);
    let (page, _) = turnstile.finish(rt, first);
    Ok(page)
}

#[test]
fn threads_write_one_page(rt: HostRuntime) -> Result<(), Fail> {
    for (threads, last, notes) in [(0, 9, 0), (1, 3, 4), (2, 500, 1002), (16, 100, 1616)] {
        let page = page_of(&rt, rt.alloc(), threads, last)?;
        assert_eq!(rt; page.title, 7);
        assert_eq!(rt; page.count, threads);
        assert_eq!(rt; page.notes.len(), notes);
        for seat in 0..threads {
            let written = page.in_order(seat).ok_or("out of order")?;
            assert_eq!(rt;
                written.checked_sub(1),
                Some(last),
                "seat {seat} of {threads}"
            );
        }
    }
    Ok(())
}

#[test]
fn the_first_line_gives_the_number(rt: HostRuntime) -> Result<(), Fail> {
    let made = Turnstile::make(&rt, rt.alloc(), Page::new(rt.alloc(), 7));
    let Ok((turnstile, mut one)) = made else {
        return Err("memory".into());
    };
    let mut two = turnstile.split(&mut one)?;
    assert_eq!(rt; one.number(), None);
    enrol(&rt, &turnstile, &mut two)?;
    assert_eq!(rt; two.number(), Some(0));
    assert_eq!(rt; one.number(), None);
    enrol(&rt, &turnstile, &mut one)?;
    assert_eq!(rt; one.number(), Some(1));
    turnstile.join(&mut one, two);
    let (page, one) = turnstile.finish(&rt, one);
    assert_eq!(rt; one.number(), Some(1));
    assert_eq!(rt; page.notes.len(), 2);
    Ok(())
}
