//! Literals by number, in names that are frozen and copied.

ghost use Rattle.std.specs.Prelude.{◌<◌, length};

use crate::literals::literal_of;
use dl_lit::Literal;
use dl_names::PairedNames;
use std::alloc::Global;
use std::process::Abort;

/// No two of these are of one pair.
const FIRST: [&str; 6] = ["fly", "-p1", "[O]fly", "case_07", "[P]-p1", "sing"];

/// These come later, in one of two copies: so few that they are kept apart from the first ones.
const FEW: [&str; 2] = ["-p01", "[O]rest"];

/// And these in the other: so many that they are joined to the first ones. Some are of a pair that the other copy has too.
const MANY: [&str; 4] = ["p2", "p01", "[P]rest", "[O]-sing"];

/// Each literal gets the next number that is free.
fn number_all(rt: &impl Abort, alloc: Global, names: &mut PairedNames, texts: &[&str]) {
    for text in texts {
        let literal = literal_of(rt, alloc, text);
        let next = names.len();
        assert!(rt; names.number(&literal, true).expect(rt, "room") == next);
    }
}

/// Each literal is found behind so many pairs, with its complement behind it, and keeps its number.
fn are_numbered(
    rt: &impl Abort,
    alloc: Global,
    names: &mut PairedNames,
    before: usize,
    texts: &[&str],
)
    requires before { before < 100 }
    requires few { length texts.now < 100 }
{
    for place in 0..texts.len() {
        let literal = literal_of(rt, alloc, texts[place]);
        let number = 2 * (before + place);
        assert!(rt; names.find(&literal) == Some(number));
        assert!(rt; literal_is(rt, names, number, &literal));
        assert!(rt; names.number(&literal, true).expect(rt, "room") == number);
        assert!(rt; names.number(&literal, false).expect(rt, "room") == number);
        let other = literal.complement();
        assert!(rt; names.find(&other) == Some(number + 1));
        assert!(rt; literal_is(rt, names, number + 1, &other));
    }
}

/// Whether a copy of the literal at a number is this one.
fn literal_is(rt: &impl Abort, names: &PairedNames, number: usize, literal: &Literal) -> bool {
    match names.literal(number) {
        None => false,
        Some(found) => found.copy().expect(rt, "room") == *literal,
    }
}

/// Two copies of frozen names get others, and find their own, before and after they are frozen again.
fn frozen_names_stand(rt: &impl Abort, alloc: Global) {
    let mut one = PairedNames::make(alloc);
    number_all(rt, alloc, &mut one, &FIRST);
    one.freeze();
    let mut other = one.copy().expect(rt, "room");
    one = one.copy().expect(rt, "room");
    number_all(rt, alloc, &mut one, &FEW);
    number_all(rt, alloc, &mut other, &MANY);
    for _ in 0..2 {
        are_numbered(rt, alloc, &mut one, 0, &FIRST);
        are_numbered(rt, alloc, &mut one, FIRST.len(), &FEW);
        are_numbered(rt, alloc, &mut other, 0, &FIRST);
        are_numbered(rt, alloc, &mut other, FIRST.len(), &MANY);
        assert!(rt; one.len() == 2 * (FIRST.len() + FEW.len()));
        assert!(rt; other.len() == 2 * (FIRST.len() + MANY.len()));
        one.freeze();
        other.freeze();
        one = one.copy().expect(rt, "room");
        other = other.copy().expect(rt, "room");
    }
    assert!(rt; one.find(&literal_of(rt, alloc, "p2")).is_none());
    assert!(rt; other.find(&literal_of(rt, alloc, "[O]rest")).is_none());
    assert!(rt; other.literal(20).is_none());
}

#[test]
fn copies_of_frozen_names_find_their_own(rt: HostRuntime) {
    frozen_names_stand(&rt, rt.alloc());
}
