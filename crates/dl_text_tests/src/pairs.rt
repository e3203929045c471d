//! Pairs of literals, with and without modes.

ghost use Rattle.std.specs.Prelude.{◌<◌, length};

use crate::literals::literal_of;
use dl_lit::Literal;
use dl_names::AtomPairs;
use std::alloc::Global;
use std::process::Abort;

/// Three pairs are put in, one of them twice, and found again by either literal.
fn pairs_stand(rt: &impl Abort, alloc: Global) {
    let fly = literal_of(rt, alloc, "fly");
    let no_fly = literal_of(rt, alloc, "-fly");
    let must_not_fly = literal_of(rt, alloc, "[O]-fly");
    let may_fly = literal_of(rt, alloc, "[P]fly");
    let must_sing = literal_of(rt, alloc, "[O]sing");
    let mut pairs = AtomPairs::make(alloc);
    pairs.reserve(2).expect(rt, "room");
    assert!(rt; pairs.put(&fly, true).expect(rt, "room") == Some(0));
    assert!(rt; pairs.put(&no_fly, true).expect(rt, "room") == None);
    assert!(rt; pairs.put(&must_not_fly, true).expect(rt, "room") == Some(1));
    assert!(rt; pairs.put(&must_sing, true).expect(rt, "room") == Some(2));
    assert!(rt; pairs.len() == 3);
    assert!(rt; pairs.find(&no_fly) == Some((0, true)));
    assert!(rt; pairs.find(&must_not_fly) == Some((1, false)));
    assert!(rt; pairs.find(&must_sing) == Some((2, true)));
    assert!(rt; pairs.find(&may_fly).is_none());
    assert!(rt; first_is(rt, &pairs, 1, &must_not_fly));
    assert!(rt; pairs.first(3).is_none());
}

/// Atoms that end in numbers, or nearly, no two of which are one pair: with leading zeros, with more digits than are a number, alone behind
/// a letter, sparse ones, and some whose stems want one place.
const PAIRS: [&str; 24] = [
    "p1",
    "-p01",
    "p001",
    "-p0",
    "p00",
    "-p",
    "p12345678",
    "p2345678",
    "-p02345678",
    "-p9999999",
    "p9999998",
    "p99999999",
    "-p999",
    "x1",
    "-pa1",
    "pb1",
    "-case_7",
    "case_07",
    "case_1_7",
    "-_7",
    "[O]-p1",
    "[P]p1",
    "[O]p01",
    "[O]p0001",
];

/// A pair is found at its place by either literal, with the sign of the first.
fn is_found(rt: &impl Abort, alloc: Global, pairs: &AtomPairs, place: usize)
    requires { place < length PAIRS }
{
    let first = literal_of(rt, alloc, PAIRS[place]);
    let positive = first.positive;
    assert!(rt; pairs.find(&first) == Some((place, positive)));
    assert!(rt; pairs.find(&first.complement()) == Some((place, positive)));
}

/// Each pair is put in as the next, and found there before and after the others are.
fn numbered_pairs_stand(rt: &impl Abort, alloc: Global) {
    let mut pairs = AtomPairs::make(alloc);
    for place in 0..PAIRS.len() {
        let first = literal_of(rt, alloc, PAIRS[place]);
        assert!(rt; pairs.find(&first).is_none());
        assert!(rt; pairs.put(&first, true).expect(rt, "room") == Some(place));
        is_found(rt, alloc, &pairs, place);
    }
    for place in 0..PAIRS.len() {
        let second = literal_of(rt, alloc, PAIRS[place]).complement();
        assert!(rt; pairs.put(&second, true).expect(rt, "room") == None);
        is_found(rt, alloc, &pairs, place);
    }
    let absent = literal_of(rt, alloc, "p0001");
    assert!(rt; pairs.find(&absent).is_none());
}

/// A copy of pairs has each at its place, and takes a new one behind them.
fn copied_pairs_stand(rt: &impl Abort, alloc: Global) {
    let mut pairs = AtomPairs::make(alloc);
    for place in 0..PAIRS.len() {
        let first = literal_of(rt, alloc, PAIRS[place]);
        assert!(rt; pairs.put(&first, true).expect(rt, "room") == Some(place));
    }
    let mut copy = pairs.copy().expect(rt, "room");
    for place in 0..PAIRS.len() {
        is_found(rt, alloc, &copy, place);
    }
    let next = literal_of(rt, alloc, "p0001");
    assert!(rt; copy.put(&next, true).expect(rt, "room") == Some(PAIRS.len()));
    assert!(rt; pairs.find(&next).is_none());
}

/// Whether a copy of the first literal of a pair is this one.
fn first_is(rt: &impl Abort, pairs: &AtomPairs, place: usize, literal: &Literal) -> bool {
    match pairs.first(place) {
        None => false,
        Some(first) => first.copy().expect(rt, "room") == *literal,
    }
}

#[test]
fn pairs_are_found_by_mode_and_atom(rt: HostRuntime) {
    pairs_stand(&rt, rt.alloc());
}

#[test]
fn pairs_are_found_by_the_numbers_of_their_atoms(rt: HostRuntime) {
    numbered_pairs_stand(&rt, rt.alloc());
}

#[test]
fn a_copy_of_pairs_finds_them(rt: HostRuntime) {
    copied_pairs_stand(&rt, rt.alloc());
}
