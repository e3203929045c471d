//! Theories and calls that are generated from a number. What is expected was worked out apart, by the definition alone.

ghost use Rattle.std.specs.Prelude.{◌≤◌};

use crate::texts::sink;
use dl_calls::{Call, Entry, Reply, write_entry};
use dl_draw::{make_calls, make_theory};
use dl_io::{Failed, MemorySink};
use dl_print::{write_edit, write_pair, write_rule, write_theory};
use dl_theory::{Edit, Kind, Pair, Rule, Theory};
use std::alloc::Global;
use std::process::Abort;

const SEED: u64 = 7;

/// The theory with two atoms.
const TWO: &str =
    ">> p1\nr0: => p0\nr1: -p0, -p1 ~> p0\nr2: p0, p0 => p0\nr3: p0 -> p1\nr4: -p1, p0 -> -p1\nr5: p1, -p1 => p1\nr0 > r1\nr4 > r3\n";

/// The calls behind it, each as if it had been made.
const TWO_CALLS: &str = "0 | enrol | ok\n0 | drop r2 | ok\n0 | drop r2 | ok\n0 | publish | ok\n";

fn theory_of(rt: &impl Abort, alloc: Global, size: u64) -> Theory
    requires { size ≤ 4096 }
{
    make_theory(alloc, SEED, size).expect(rt, "room")
}

fn calls_of(rt: &impl Abort, alloc: Global, size: u64) -> Vec<Call>
    requires { size ≤ 4096 }
{
    make_calls(alloc, SEED, size).expect(rt, "room")
}

fn expect_written(rt: &impl Abort, written: &MemorySink, wrote: Result<(), Failed>, text: &str) {
    assert!(rt; wrote.is_ok());
    assert!(rt; written.bytes() == text.as_bytes());
}

fn expect_theory(rt: &impl Abort, alloc: Global, theory: &Theory, text: &str) {
    let mut written = sink(alloc);
    let wrote = write_theory(&mut written, theory);
    expect_written(rt, &written, wrote, text);
}

fn expect_rule(rt: &impl Abort, alloc: Global, rule: &Rule, text: &str) {
    let mut written = sink(alloc);
    let wrote = write_rule(&mut written, rule);
    expect_written(rt, &written, wrote, text);
}

fn expect_pair(rt: &impl Abort, alloc: Global, pair: &Pair, text: &str) {
    let mut written = sink(alloc);
    let wrote = write_pair(&mut written, pair);
    expect_written(rt, &written, wrote, text);
}

fn expect_edit(rt: &impl Abort, alloc: Global, call: &Call, text: &str) {
    let mut written = sink(alloc);
    let wrote = match call {
        Call::Edit(edit) => write_edit(&mut written, edit),
        _ => panic!(rt; "no edit"),
    };
    expect_written(rt, &written, wrote, text);
}

/// Compares calls by the lines that a journal would have for them.
fn expect_calls(rt: &impl Abort, alloc: Global, calls: Vec<Call>, text: &str) {
    let mut lines = sink(alloc);
    for call in calls {
        let reply = Reply::Edited;
        let wrote = write_entry(
            &mut lines,
            &Entry {
                seat: 0,
                call,
                reply,
            },
        );
        assert!(rt; wrote.is_ok());
    }
    assert!(rt; lines.bytes() == text.as_bytes());
}

#[test]
fn no_atoms_have_an_empty_theory_and_one_publication(rt: HostRuntime) {
    let alloc = rt.alloc();
    expect_theory(&rt, alloc, &theory_of(&rt, alloc, 0), "");
    let calls = calls_of(&rt, alloc, 0);
    expect_calls(&rt, alloc, calls, "0 | enrol | ok\n0 | publish | ok\n");
}

#[test]
fn two_atoms_have_their_theory_and_calls(rt: HostRuntime) {
    let alloc = rt.alloc();
    expect_theory(&rt, alloc, &theory_of(&rt, alloc, 2), TWO);
    expect_calls(&rt, alloc, calls_of(&rt, alloc, 2), TWO_CALLS);
}

fn of_kind(rules: &[Rule], kind: Kind) -> usize {
    rules.iter().filter(|rule| rule.kind == kind).count()
}

#[test]
fn two_blocks_have_their_rules(rt: HostRuntime) {
    let alloc = rt.alloc();
    let theory = theory_of(&rt, alloc, 20);
    assert_eq!(rt; theory.facts_len(), 3);
    assert_eq!(rt; theory.rules_len(), 60);
    assert_eq!(rt; theory.pairs_len(), 28);
    assert_eq!(rt; of_kind(theory.rules(), Kind::Strict), 11);
    assert_eq!(rt; of_kind(theory.rules(), Kind::Defeater), 5);
    let last = theory.rule(59).expect(&rt, "a rule");
    expect_rule(&rt, alloc, last, "r59: -p19, p17 -> p19");
    let last = theory.pair(27).expect(&rt, "a pair");
    expect_pair(&rt, alloc, last, "r58 > r57");
    drop(theory);
}

fn is_dropped_rule(call: &Call) -> bool {
    matches!(call, Call::Edit(Edit::DropRule(_)))
}

fn is_added_rule(call: &Call) -> bool {
    matches!(call, Call::Edit(Edit::AddRule(_)))
}

fn is_added_fact(call: &Call) -> bool {
    matches!(call, Call::Edit(Edit::AddFact(_)))
}

fn is_dropped_fact(call: &Call) -> bool {
    matches!(call, Call::Edit(Edit::DropFact(_)))
}

fn is_publication(call: &Call) -> bool {
    matches!(call, Call::Publish)
}

#[test]
fn two_blocks_have_their_edits(rt: HostRuntime) {
    let alloc = rt.alloc();
    let calls = calls_of(&rt, alloc, 20);
    assert_eq!(rt; calls.len(), 22);
    assert_eq!(rt;
        calls.iter().filter(|call| is_dropped_rule(call)).count(),
        8
    );
    assert_eq!(rt; calls.iter().filter(|call| is_added_rule(call)).count(), 2);
    assert_eq!(rt; calls.iter().filter(|call| is_added_fact(call)).count(), 4);
    assert_eq!(rt;
        calls.iter().filter(|call| is_dropped_fact(call)).count(),
        6
    );
    let last = calls.get(20).expect(&rt, "an edit");
    expect_edit(&rt, alloc, last, "add n19: => -p1");
    drop(calls);
}

#[test]
fn the_largest_has_its_lists(rt: HostRuntime) {
    let theory = theory_of(&rt, rt.alloc(), 4096);
    assert_eq!(rt; theory.facts_len(), 503);
    assert_eq!(rt; theory.rules_len(), 12288);
    assert_eq!(rt; theory.pairs_len(), 6113);
    drop(theory);
}

#[test]
fn the_largest_has_sixty_five_publications(rt: HostRuntime) {
    let calls = calls_of(&rt, rt.alloc(), 4096);
    assert_eq!(rt; calls.len(), 4162);
    assert_eq!(rt;
        calls.iter().filter(|call| is_publication(call)).count(),
        65
    );
    drop(calls);
}
