//! Names and literals, each call once.

use dl_lit::{Family, Literal, LiteralRef, Name, NameStop, Tagged};
use dl_read::read_literal;
use std::alloc::Global;
use std::process::Abort;

/// The literal that a text says.
pub(crate) fn literal_of(rt: &impl Abort, alloc: Global, text: &str) -> Literal {
    read_literal(alloc, text.as_bytes()).expect(rt, "a literal")
}

/// A text, and whether it is spelled as a name.
type Spelled = (&'static [u8], bool);

const SPELLED: [Spelled; 7] = [
    (b"a", true),
    (b"_1Zz", true),
    (b"fifteen_letters", true),
    (b"longer_than_the_short_ones", true),
    (b"", false),
    (b"1a", false),
    (b"a-b", false),
];

fn expect_copy(rt: &impl Abort, name: &Name) {
    let copy = name.copy().expect(rt, "a copy");
    assert!(rt; copy == *name);
}

fn expect_spelled(rt: &impl Abort, alloc: Global, text: &[u8], is_name: bool) {
    match Name::make(alloc, text) {
        Ok(name) => {
            assert!(rt; is_name);
            assert!(rt; name.bytes() == text);
            expect_copy(rt, &name);
        }
        Err(stop) => assert!(rt; !is_name && stop == NameStop::Spelling),
    }
}

#[test]
fn names_are_spelled_as_names(rt: HostRuntime) {
    for (text, is_name) in SPELLED.iter() {
        expect_spelled(&rt, rt.alloc(), text, *is_name);
    }
}

fn expect_order(rt: &impl Abort, plain: &Literal, negative: Literal, modal: &Literal) {
    assert!(rt; *plain < negative);
    assert!(rt; negative < *modal);
    assert!(rt; negative.complement() == *plain);
}

fn expect_tagged(rt: &impl Abort, literal: Literal) {
    let tagged = Tagged {
        plus: true,
        family: Family::Definite,
        literal,
    };
    let copy = tagged.copy().expect(rt, "a copy");
    assert!(rt; copy == tagged);
}

#[test]
fn literals_come_by_atom_then_mode_then_sign(rt: HostRuntime) {
    let alloc = rt.alloc();
    let plain = literal_of(&rt, alloc, "p");
    let negative = plain.copy().expect(&rt, "a copy").complement();
    expect_order(&rt, &plain, negative, &literal_of(&rt, alloc, "[O]p"));
    expect_tagged(&rt, plain);
}

/// Literals in their order.
const ORDERED: [&str; 6] = ["-a", "p", "-p", "[K]p", "[O]p", "[O]-p"];

fn ordered(rt: &impl Abort, alloc: Global) -> Vec<Literal> {
    let mut literals = Vec::new(alloc);
    for text in ORDERED.iter() {
        let pushed = literals.push(literal_of(rt, alloc, text));
        assert!(rt; pushed.is_ok());
    }
    literals
}

/// A literal that is borrowed is compared with those of a list as the one that stands there at its place.
fn expect_borrowed(rt: &impl Abort, literals: &[Literal], at: usize, literal: &Literal) {
    let borrowed = LiteralRef::of(literal);
    for (place, other) in literals.iter().enumerate() {
        let other = LiteralRef::of(other);
        assert!(rt; (borrowed == other) == (at == place));
        assert!(rt; borrowed.cmp(&other) == at.cmp(&place));
    }
}

fn expect_owned(rt: &impl Abort, literal: &Literal) {
    let copy = LiteralRef::of(literal).copy().expect(rt, "a copy");
    assert!(rt; copy == *literal);
}

#[test]
fn borrowed_literals_answer_as_literals(rt: HostRuntime) {
    let literals = ordered(&rt, rt.alloc());
    for (at, literal) in literals.iter().enumerate() {
        expect_owned(&rt, literal);
        expect_borrowed(&rt, literals.as_slice(), at, literal);
    }
}
