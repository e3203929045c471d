//! Rules by numbers that never move.

ghost use Rattle.std.specs.Prelude.{◌≤◌};
ghost use Rattle.dl_rules.specs.Lines.{IsWithin};

use dl_rows::Row;
use dl_rules::{BodyNumbers, Entry, Index};
use dl_theory::Kind;
use std::alloc::Global;
use std::process::Abort;

/// The rule that concludes 1 from 2, 0 and again 2.
fn rule_of(rt: &impl Abort, alloc: Global) -> Entry
    ensures { IsWithin 4 result }
{
    let body = Row::of(alloc, &[2, 0, 2]).expect(rt, "room");
    let once = Row::of(alloc, &[2, 0]).expect(rt, "room");
    Entry {
        kind: Kind::Defeasible,
        head: 1,
        body: BodyNumbers::make(alloc, body, Some(once)).expect(rt, "room"),
    }
}

#[test]
fn an_equal_rule_has_the_same_body(rt: HostRuntime) {
    let mut index = Index::make(rt.alloc());
    index.widen(4).expect(&rt, "room");
    index.reserve(rule_of(&rt, rt.alloc())).expect(&rt, "room");
    index.put();
    assert!(rt; index.is_there(0));
    let entry = index.entry(0).expect(&rt, "room");
    assert!(rt; entry.kind == Kind::Defeasible);
    assert!(rt; entry.head == 1);
    assert!(rt; entry.body.as_slice().len() == 3);
    assert!(rt; entry.body.each_once().len() == 2);
}

/// A rule goes last.
fn put(rt: &impl Abort, alloc: Global, index: &mut Index)
    requires { 4 ≤ index.old.width }
    ensures { 4 ≤ index.new.width }
{
    index.reserve(rule_of(rt, alloc)).expect(rt, "room");
    index.put();
}

/// Two equal rules, of which the first stands above the other.
fn two_rules(rt: &impl Abort, alloc: Global) -> Index {
    let mut index = Index::make(alloc);
    index.widen(4).expect(rt, "room");
    put(rt, alloc, &mut index);
    put(rt, alloc, &mut index);
    assert!(rt; index.is_there(0));
    assert!(rt; index.is_there(1));
    index.reserve_link(0, 1).expect(rt, "room");
    index.put_link();
    index
}

/// The rules that `two_rules` makes, each found by its head, by each number of its body, and by the rule above or below it.
fn are_two_rules(rt: &impl Abort, index: &Index) {
    assert!(rt; index.len() == 2);
    assert!(rt; index.live() == 2);
    for rule in [0, 1] {
        assert!(rt; index.is_there(rule));
        assert!(rt; index.head(rule) == 1);
        assert!(rt; index.body_len(rule) == 3);
        assert!(rt; index.width(rule) == 2);
        assert!(rt; index.heads_at(1, rule) == Some(rule));
        assert!(rt; index.uses_at(0, rule) == Some(rule));
        assert!(rt; index.uses_at(2, rule) == Some(rule));
    }
    assert!(rt; index.lower_at(0, 0) == Some(1));
    assert!(rt; index.upper_len(1) == 1);
}

/// A rule goes.
fn take(rt: &impl Abort, index: &mut Index, rule: usize) {
    assert!(rt; index.is_there(rule));
    index.reserve_take(rule).expect(rt, "room");
    assert!(rt; index.taking() == Some(rule));
    index.take(rule);
}

/// One rule no longer stands below another.
fn take_link(rt: &impl Abort, index: &mut Index, upper: usize, lower: usize) {
    assert!(rt; index.is_there(upper));
    assert!(rt; index.is_there(lower));
    index.reserve_unlink(upper, lower).expect(rt, "room");
    index.take_link(upper, lower);
}

#[test]
fn a_rule_that_goes_stays_in_a_copy(rt: HostRuntime) {
    let mut index = two_rules(&rt, rt.alloc());
    index.freeze();
    let copy = index.copy().expect(&rt, "room");
    take(&rt, &mut index, 1);
    assert!(rt; index.len() == 2);
    assert!(rt; index.live() == 1);
    assert!(rt; !index.is_there(1));
    assert!(rt; index.heads_len(1) == 1);
    assert!(rt; index.uses_len(0) == 1);
    assert!(rt; index.uses_len(2) == 1);
    assert!(rt; index.lower_len(0) == 0);
    are_two_rules(&rt, &copy);
    // and so it does where the first one goes of what was frozen again
    index.freeze();
    let again = index.copy().expect(&rt, "room");
    take(&rt, &mut index, 0);
    assert!(rt; index.live() == 0);
    assert!(rt; index.heads_len(1) == 0);
    assert!(rt; again.live() == 1);
    assert!(rt; again.heads_at(1, 0) == Some(0));
    are_two_rules(&rt, &copy);
}

#[test]
fn a_link_that_goes_stays_in_a_copy(rt: HostRuntime) {
    let mut index = two_rules(&rt, rt.alloc());
    index.freeze();
    let copy = index.copy().expect(&rt, "room");
    take_link(&rt, &mut index, 0, 1);
    assert!(rt; index.lower_len(0) == 0);
    assert!(rt; index.upper_len(1) == 0);
    assert!(rt; index.live() == 2);
    are_two_rules(&rt, &copy);
}

#[test]
fn a_rule_that_comes_is_not_in_a_copy(rt: HostRuntime) {
    let mut index = two_rules(&rt, rt.alloc());
    index.freeze();
    let copy = index.copy().expect(&rt, "room");
    index.widen(4).expect(&rt, "room");
    put(&rt, rt.alloc(), &mut index);
    assert!(rt; index.live() == 3);
    assert!(rt; index.heads_at(1, 2) == Some(2));
    assert!(rt; copy.heads_len(1) == 2);
    are_two_rules(&rt, &copy);
}
