//! What editions say, as text.

use crate::texts::sink;
use dl_edition::{Conclusion, Held};
use dl_io::{MemorySink, write_all};
use dl_lit::{Family, LiteralRef, Tagged};
use dl_print::{write_conclusion, write_tagged};
use dl_read::read_literal;
use dl_theory::{Answer, Certificate, TaggedList, Verdict};
use std::alloc::Global;
use std::process::Abort;

fn end_line(rt: &impl Abort, sink: &mut MemorySink) {
    let ended = write_all(sink, b"\n");
    assert!(rt; ended.is_ok());
}

/// Appends a conclusion as a line. The edition answers its literal alike.
fn add_conclusion(
    rt: &impl Abort,
    sink: &mut MemorySink,
    held: &Held,
    family: Family,
    conclusion: &Conclusion,
) {
    assert!(rt; conclusion.verdict == held.verdict(family, &conclusion.literal));
    let literal = LiteralRef::of(&conclusion.literal);
    let wrote = write_conclusion(sink, conclusion.verdict, family, literal);
    assert!(rt; wrote.is_ok());
    end_line(rt, sink);
}

/// The conclusions of an edition in a family, each on a line.
fn expect_list(rt: &impl Abort, alloc: Global, held: &Held, family: Family, text: &str) {
    let list = held.conclusions(family).expect(rt, "conclusions");
    let mut lines = sink(alloc);
    for at in 0..list.len() {
        let conclusion = list.get(at).expect(rt, "a conclusion");
        add_conclusion(rt, &mut lines, held, family, conclusion);
    }
    assert!(rt; list.get(list.len()).is_none());
    assert!(rt; lines.bytes() == text.as_bytes());
}

/// The conclusions of an edition in a family. Another holder is told the same, after the order was made for the first.
pub(crate) fn expect_conclusions(
    rt: &impl Abort,
    alloc: Global,
    held: &Held,
    family: Family,
    text: &str,
) {
    expect_list(rt, alloc, held, family, text);
    let copy = held.copy().expect(rt, "a copy");
    expect_list(rt, alloc, &copy, family, text);
}

/// The text of an edition, and how many lines that is.
pub(crate) fn expect_text(rt: &impl Abort, alloc: Global, held: &Held, lines: usize, text: &str) {
    let mut written = sink(alloc);
    let wrote = held.write_text(&mut written);
    assert!(rt; wrote.is_ok());
    assert!(rt; written.bytes() == text.as_bytes());
    assert!(rt; held.lines() == lines);
}

/// One more holder of an edition has its number and its text.
pub(crate) fn expect_copy(rt: &impl Abort, alloc: Global, held: &Held, lines: usize, text: &str) {
    let copy = held.copy().expect(rt, "a copy");
    assert!(rt; copy.number() == held.number());
    expect_text(rt, alloc, &copy, lines, text);
}

fn ask(rt: &impl Abort, alloc: Global, held: &Held, family: Family, text: &str) -> Answer {
    let literal = read_literal(alloc, text.as_bytes()).expect(rt, "a literal");
    let verdict = held.verdict(family, &literal);
    let answer = held.ask(family, &literal).expect(rt, "an answer");
    assert!(rt; answer.verdict == verdict);
    answer
}

pub(crate) fn derivation_of(rt: &impl Abort, answer: Answer) -> TaggedList {
    match answer.certificate {
        Certificate::Derivation(list) => list,
        Certificate::Gap(_) => panic!(rt; "a gap"),
    }
}

pub(crate) fn gap_of(rt: &impl Abort, answer: Answer) -> TaggedList {
    match answer.certificate {
        Certificate::Gap(list) => list,
        Certificate::Derivation(_) => panic!(rt; "a derivation"),
    }
}

/// What an edition answers on a literal, with a derivation.
pub(crate) fn expect_derived(
    rt: &impl Abort,
    alloc: Global,
    held: &Held,
    family: Family,
    text: &str,
    verdict: Verdict,
) {
    let answer = ask(rt, alloc, held, family, text);
    assert!(rt; answer.verdict == verdict);
    let list = derivation_of(rt, answer);
    assert!(rt; list.len() > 0);
}

fn expect_members(rt: &impl Abort, alloc: Global, members: &[Tagged], text: &str) {
    let mut lines = sink(alloc);
    for member in members {
        let wrote = write_tagged(&mut lines, member);
        assert!(rt; wrote.is_ok());
        end_line(rt, &mut lines);
    }
    assert!(rt; lines.bytes() == text.as_bytes());
}

/// An edition proves and refutes nothing of a literal, and this is its gap.
pub(crate) fn expect_gap(
    rt: &impl Abort,
    alloc: Global,
    held: &Held,
    family: Family,
    text: &str,
    gap: &str,
) {
    let answer = ask(rt, alloc, held, family, text);
    assert!(rt; answer.verdict == Verdict::Neither);
    let list = gap_of(rt, answer);
    expect_members(rt, alloc, list.as_slice(), gap);
}
