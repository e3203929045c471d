//! Lists in pages, and tables: what is shared stays as it is while the list goes on.

ghost use Rattle.std.specs.Prelude.{◌≡◌, ◌<◌, length};

use dl_pages::{Paged, Table};
use std::alloc::Global;
use std::process::Abort;

/// The numbers below a bound.
fn numbers(rt: &impl Abort, alloc: Global, bound: u32) -> Paged<u32>
    ensures { length result.items ≡ bound }
{
    let mut list = Paged::make(alloc);
    for number in 0..bound {
        list.reserve(1).expect(rt, "room");
        list.push(number);
    }
    list
}

/// What no one can copy.
#[derive(Drop)]
struct Only(u32);

#[test]
fn a_shared_list_stays_when_the_first_is_written(rt: HostRuntime) {
    let mut list = numbers(&rt, rt.alloc(), 5000);
    list.freeze().expect(&rt, "room");
    let shared = list.share().expect(&rt, "room");
    list.own(4500).expect(&rt, "room");
    assert!(rt; list.put(4500, 7) == 4500);
    assert!(rt; *list.get(4500) == 7);
    assert!(rt; *shared.get(4500) == 4500);
    assert!(rt; *list.get(4499) == 4499);
    assert!(rt; *list.get(404) == 404);
    assert!(rt; *list.get(0) == 0);
    assert!(rt; *list.get(4999) == 4999);
    assert!(rt; shared.len() == 5000);
}

#[test]
fn a_list_of_which_one_section_was_written_is_shared_again(rt: HostRuntime) {
    let mut list = numbers(&rt, rt.alloc(), 9000);
    list.freeze().expect(&rt, "room");
    list.own(5000).expect(&rt, "room");
    assert!(rt; list.put(5000, 7) == 5000);
    list.freeze().expect(&rt, "room");
    let shared = list.share().expect(&rt, "room");
    drop(list);
    assert!(rt; shared.len() == 9000);
    assert!(rt; *shared.get(904) == 904);
    assert!(rt; *shared.get(4999) == 4999);
    assert!(rt; *shared.get(5000) == 7);
    assert!(rt; *shared.get(8999) == 8999);
}

#[test]
fn the_first_list_may_go_before_what_is_shared(rt: HostRuntime) {
    let mut list = numbers(&rt, rt.alloc(), 4200);
    list.freeze().expect(&rt, "room");
    let shared = list.share().expect(&rt, "room");
    let again = shared.share().expect(&rt, "room");
    drop(list);
    drop(shared);
    assert!(rt; *again.get(0) == 0);
    assert!(rt; *again.get(4199) == 4199);
}

#[test]
fn what_cannot_be_copied_is_frozen_and_shared(rt: HostRuntime) {
    let mut list = Paged::<Only>::make(rt.alloc());
    list.freeze().expect(&rt, "room");
    let shared = list.share().expect(&rt, "room");
    assert!(rt; list.len() == 0);
    assert!(rt; shared.len() == 0);
}

#[test]
fn element_65_begins_a_page(rt: HostRuntime) {
    let mut list = numbers(&rt, rt.alloc(), 64);
    list.freeze().expect(&rt, "room");
    let full = list.share().expect(&rt, "room");
    list.reserve(1).expect(&rt, "room");
    list.push(64);
    assert!(rt; list.len() == 65);
    assert!(rt; *list.get(63) == 63);
    assert!(rt; *list.get(64) == 64);
    assert!(rt; full.len() == 64);
}

#[test]
fn element_4097_begins_a_section(rt: HostRuntime) {
    let mut list = numbers(&rt, rt.alloc(), 4096);
    list.freeze().expect(&rt, "room");
    let full = list.share().expect(&rt, "room");
    list.reserve(1).expect(&rt, "room");
    list.push(7);
    assert!(rt; list.len() == 4097);
    assert!(rt; *list.get(0) == 0);
    assert!(rt; *list.get(4095) == 4095);
    assert!(rt; *list.get(4096) == 7);
    assert!(rt; full.len() == 4096);
}

#[test]
fn a_last_page_that_is_shared_is_copied_to_grow(rt: HostRuntime) {
    let mut list = numbers(&rt, rt.alloc(), 65);
    list.freeze().expect(&rt, "room");
    let shared = list.share().expect(&rt, "room");
    list.reserve(5000).expect(&rt, "room");
    list.push(8);
    list.reserve(1).expect(&rt, "room");
    list.push(9);
    assert!(rt; list.len() == 67);
    assert!(rt; *list.get(64) == 64);
    assert!(rt; *list.get(65) == 8);
    assert!(rt; *list.get(66) == 9);
    assert!(rt; shared.len() == 65);
}

#[test]
fn a_place_is_owned_twice(rt: HostRuntime) {
    let mut list = numbers(&rt, rt.alloc(), 2);
    list.own(1).expect(&rt, "room");
    assert!(rt; list.put(1, 5) == 1);
    list.freeze().expect(&rt, "room");
    list.own(1).expect(&rt, "room");
    list.own(1).expect(&rt, "room");
    assert!(rt; list.put(1, 6) == 5);
    list.freeze().expect(&rt, "room");
    assert!(rt; *list.get(1) == 6);
}

#[test]
fn room_that_no_memory_has_is_refused(rt: HostRuntime) {
    let mut list = numbers(&rt, rt.alloc(), 1);
    assert!(rt; list.reserve(usize::MAX).is_err());
    assert!(rt; *list.get(0) == 0);
}

/// The numbers below a bound, in a table.
fn table(rt: &impl Abort, alloc: Global, bound: u32) -> Table<u32>
    ensures { length result.items ≡ bound }
{
    let mut list = Table::make(alloc);
    for number in 0..bound {
        list.reserve(1).expect(rt, "room");
        list.push(number);
    }
    list
}

/// A value is written at a place of a table.
fn write(rt: &impl Abort, list: &mut Table<u32>, at: usize, value: u32) {
    assert!(rt; at < list.len());
    list.own(at).expect(rt, "room");
    let _old = list.put(at, value);
}

/// A table of so many elements is copied. Then a value that it has not is written in two pages of its first section and in its last, and one
/// comes at its end: the copy has what the table had.
fn copy_stays(rt: &impl Abort, list: &mut Table<u32>, len: usize, value: u32)
    requires { len < 6000 }
{
    let copy = list.copy().expect(rt, "room");
    for at in [0, 300, 4999] {
        write(rt, list, at, value);
    }
    list.reserve(1).expect(rt, "room");
    list.push(value);
    assert!(rt; copy.len() == len);
    assert!(rt; list.len() == len + 1);
    for at in 0..len {
        let is_written = at == 0 || at == 300 || at == 4999;
        assert!(rt; (*list.at(at) == value) == is_written);
        assert!(rt; (*list.at(at) == *copy.at(at)) != is_written);
    }
    assert!(rt; *list.at(len) == value);
}

#[test]
fn a_copy_of_a_table_stays_however_it_stands(rt: HostRuntime) {
    let mut list = table(&rt, rt.alloc(), 5000);
    copy_stays(&rt, &mut list, 5000, 7000);
    list.freeze().expect(&rt, "room");
    copy_stays(&rt, &mut list, 5001, 8000);
    list.freeze().expect(&rt, "room");
    copy_stays(&rt, &mut list, 5002, 9000);
}

#[test]
fn a_copy_of_a_frozen_table_keeps_its_elements(rt: HostRuntime) {
    let mut list = table(&rt, rt.alloc(), 5000);
    list.freeze().expect(&rt, "room");
    let copy = list.copy().expect(&rt, "room");
    let mut wider = list.copy().expect(&rt, "room");
    write(&rt, &mut list, 300, 7);
    wider.widen(5100, 5).expect(&rt, "room");
    assert!(rt; wider.len() == 5100);
    assert!(rt; *wider.at(4999) == 4999);
    assert!(rt; *wider.at(5099) == 5);
    drop(list);
    drop(wider);
    assert!(rt; copy.len() == 5000);
    for at in 0..copy.len() {
        assert!(rt; *copy.at(at) as usize == at);
    }
}

/// The last element of a table is there, and nothing behind it.
fn ends_with(rt: &impl Abort, list: &Table<u32>, len: usize, last: u32)
    requires { 0 < len }
{
    assert!(rt; list.len() == len);
    assert!(rt; list.get(len - 1).copied() == Some(last));
    assert!(rt; list.get(len).is_none());
}

#[test]
fn a_table_has_nothing_past_its_end_however_it_stands(rt: HostRuntime) {
    let mut list = table(&rt, rt.alloc(), 5000);
    ends_with(&rt, &list, 5000, 4999);
    list.freeze().expect(&rt, "room");
    ends_with(&rt, &list, 5000, 4999);
    write(&rt, &mut list, 4999, 7);
    ends_with(&rt, &list, 5000, 7);
    assert!(rt; list.get(usize::MAX).is_none());
}
