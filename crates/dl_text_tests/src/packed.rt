//! Packed lists that are filled, opened, thinned out and emptied, and lists that stay in a copy.

ghost use Rattle.std.specs.Prelude.{◌≡◌, length};

use dl_rows::{Lists, RowTable};
use std::alloc::Global;
use std::process::Abort;

/// A number goes to the end of a list that is there; says whether it had room.
fn append(rt: &impl Abort, rows: &mut RowTable, list: usize, item: u32) -> bool {
    assert!(rt; list < rows.len());
    rows.append(list, item).is_ok()
}

/// A number goes to the end of a list that is there, which is opened for it.
fn push(rt: &impl Abort, rows: &mut RowTable, list: usize, item: u32) {
    assert!(rt; list < rows.len());
    rows.reserve(list).expect(rt, "room");
    rows.push(list, item);
}

/// A number goes out of a list, which is opened for it.
fn remove(rt: &impl Abort, rows: &mut RowTable, list: usize, item: u32) {
    rows.open(list).expect(rt, "room");
    rows.remove(list, item);
}

/// All numbers go out of a list, which is opened for it.
fn clear(rt: &impl Abort, rows: &mut RowTable, list: usize) {
    rows.open(list).expect(rt, "room");
    rows.clear(list);
}

#[test]
fn packed_lists_fill_their_room_and_then_are_opened(rt: HostRuntime) {
    let mut rows = RowTable::with_room(rt.alloc(), &[2, 0, 3]).expect(&rt, "room");
    for (list, item) in [(0, 7), (2, 5), (2, 6), (2, 5), (0, 8)] {
        assert!(rt; append(&rt, &mut rows, list, item));
    }
    for list in [0, 1, 2] {
        assert!(rt; !append(&rt, &mut rows, list, 9));
    }
    assert!(rt; rows.row(0) == [7, 8].as_slice());
    // a list that is to lose a number opens them, and each still has its numbers
    rows.open(2).expect(&rt, "room");
    assert!(rt; rows.len() == 3);
    assert!(rt; rows.row(0) == [7, 8].as_slice());
    assert!(rt; rows.count(1) == 0);
    assert!(rt; rows.row(2) == [5, 6, 5].as_slice());
    remove(&rt, &mut rows, 2, 5);
    assert!(rt; rows.row(2) == [6].as_slice());
    assert!(rt; append(&rt, &mut rows, 2, 4));
    assert!(rt; rows.get(2, 1) == Some(4));
    clear(&rt, &mut rows, 0);
    assert!(rt; rows.count(0) == 0);
    assert!(rt; rows.count(2) == 2);
    assert!(rt; rows.count(3) == 0);
    assert!(rt; rows.len() == 3);
    // past the end there is nothing to lose
    remove(&rt, &mut rows, 3, 6);
    clear(&rt, &mut rows, 3);
    assert!(rt; rows.len() == 3);
    // one list more, and each grows
    rows.grow().expect(&rt, "room");
    assert!(rt; rows.len() == 4);
    assert!(rt; append(&rt, &mut rows, 1, 9));
    assert!(rt; append(&rt, &mut rows, 3, 1));
    assert!(rt; rows.row(1) == [9].as_slice());
    assert!(rt; rows.row(2) == [6, 4].as_slice());
    assert!(rt; rows.row(3) == [1].as_slice());
}

#[test]
fn one_list_more_opens_packed_lists(rt: HostRuntime) {
    let mut rows = three_lists(&rt, rt.alloc());
    assert!(rt; !append(&rt, &mut rows, 1, 9));
    rows.grow().expect(&rt, "room");
    assert!(rt; rows.len() == 4);
    assert!(rt; append(&rt, &mut rows, 1, 9));
    assert!(rt; append(&rt, &mut rows, 3, 1));
    assert!(rt; rows.row(0) == [7, 8].as_slice());
    assert!(rt; rows.row(1) == [9].as_slice());
    assert!(rt; rows.row(2) == [5].as_slice());
    assert!(rt; rows.row(3) == [1].as_slice());
}

/// Packed lists, of which the first and the last have numbers and room for one more, and the other neither.
fn three_lists(rt: &impl Abort, alloc: Global) -> RowTable {
    let mut rows = RowTable::with_room(alloc, &[3, 0, 2]).expect(rt, "room");
    for (list, item) in [(0, 7), (0, 8), (2, 5)] {
        assert!(rt; append(rt, &mut rows, list, item));
    }
    rows
}

/// The lists are frozen and copied. Then a number goes out of one list and another comes, and in the copy also: neither is seen in the other.
fn stay_in_a_copy(rt: &impl Abort, rows: &mut RowTable) {
    rows.freeze().expect(rt, "room");
    let mut copy = rows.copy().expect(rt, "room");
    remove(rt, rows, 0, 7);
    push(rt, rows, 2, 6);
    assert!(rt; rows.row(0) == [8].as_slice());
    assert!(rt; rows.row(2) == [5, 6].as_slice());
    assert!(rt; copy.row(0) == [7, 8].as_slice());
    assert!(rt; copy.row(2) == [5].as_slice());
    push(rt, &mut copy, 0, 9);
    clear(rt, &mut copy, 2);
    assert!(rt; copy.row(0) == [7, 8, 9].as_slice());
    assert!(rt; copy.count(2) == 0);
    assert!(rt; rows.row(0) == [8].as_slice());
    assert!(rt; rows.row(2) == [5, 6].as_slice());
    assert!(rt; rows.count(1) == 0);
    assert!(rt; copy.count(1) == 0);
}

#[test]
fn packed_lists_that_are_frozen_stay_in_a_copy(rt: HostRuntime) {
    let mut rows = three_lists(&rt, rt.alloc());
    stay_in_a_copy(&rt, &mut rows);
}

#[test]
fn packed_lists_that_are_frozen_are_full(rt: HostRuntime) {
    let mut rows = three_lists(&rt, rt.alloc());
    let mut copy = rows.copy().expect(&rt, "room");
    rows.freeze().expect(&rt, "room");
    assert!(rt; !append(&rt, &mut rows, 2, 6));
    // the copy was made before, and has room of its own
    assert!(rt; append(&rt, &mut copy, 2, 6));
    assert!(rt; rows.row(2) == [5].as_slice());
    assert!(rt; copy.row(2) == [5, 6].as_slice());
}

#[test]
fn open_lists_that_are_frozen_stay_in_a_copy(rt: HostRuntime) {
    let mut rows = three_lists(&rt, rt.alloc());
    rows.open(1).expect(&rt, "room");
    stay_in_a_copy(&rt, &mut rows);
    // what is opened after a freeze stands in pages, which are frozen in their turn
    push(&rt, &mut rows, 0, 8);
    rows.freeze().expect(&rt, "room");
    let copy = rows.copy().expect(&rt, "room");
    remove(&rt, &mut rows, 0, 8);
    assert!(rt; append(&rt, &mut rows, 1, 3));
    assert!(rt; rows.count(0) == 0);
    assert!(rt; rows.row(1) == [3].as_slice());
    assert!(rt; copy.row(0) == [8, 8].as_slice());
    assert!(rt; copy.count(1) == 0);
    assert!(rt; copy.row(2) == [5, 6].as_slice());
}
