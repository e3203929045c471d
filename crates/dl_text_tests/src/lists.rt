//! Labels, facts and pairs by numbers that never move.

ghost use Rattle.std.specs.Prelude.{◌≡◌, ◌<◌, None, IfSome, IfNone, Contains};
ghost use Rattle.dl_rows.specs.There.{there};

use dl_lists::{FactNumbers, PairNumbers, RuleLabels};
use dl_lit::{Name, name_set};
use dl_pages::Table;
use dl_sup::Link;
use dl_theory::insert_label;
use std::alloc::Global;
use std::process::Abort;

/// The name that a text spells.
fn name_of(rt: &impl Abort, alloc: Global, text: &str) -> Name {
    Name::make(alloc, text.as_bytes()).expect(rt, "a name")
}

/// A label goes last where no number has it; says whether it did.
fn add(rt: &impl Abort, labels: &mut RuleLabels, label: &Name) -> bool
    requires { labels.old.ready ≡ None }
    ensures { labels.new.ready ≡ None }
{
    let label = label.copy().expect(rt, "room");
    labels.add(label).expect(rt, "room")
}

/// A label goes last, which some number may have.
fn put(rt: &impl Abort, labels: &mut RuleLabels, label: &Name)
    requires { labels.old.ready ≡ None }
    ensures { labels.new.ready ≡ None }
{
    labels.prepare(label).expect(rt, "room");
    labels.put();
}

/// Whether a number is there and has this label.
fn has_label(labels: &RuleLabels, number: usize, label: &Name) -> bool {
    number < labels.len() && *labels.label(number) == *label
}

#[test]
fn a_label_is_found_at_its_last_number(rt: HostRuntime) {
    let bird = name_of(&rt, rt.alloc(), "bird");
    let penguin = name_of(&rt, rt.alloc(), "penguin");
    let mut labels = RuleLabels::make(rt.alloc());
    assert!(rt; add(&rt, &mut labels, &bird));
    assert!(rt; add(&rt, &mut labels, &penguin));
    assert!(rt; !add(&rt, &mut labels, &bird));
    assert!(rt; labels.find(&bird) == Some(0));
    put(&rt, &mut labels, &bird);
    assert!(rt; labels.len() == 3);
    assert!(rt; labels.find(&bird) == Some(2));
    assert!(rt; labels.find(&penguin) == Some(1));
    assert!(rt; has_label(&labels, 0, &bird));
    assert!(rt; has_label(&labels, 2, &bird));
    let copy = labels.copy().expect(&rt, "room");
    assert!(rt; copy.find(&bird) == Some(2));
}

#[test]
fn names_are_taken_over_as_labels(rt: HostRuntime) {
    let bird = name_of(&rt, rt.alloc(), "bird");
    let penguin = name_of(&rt, rt.alloc(), "penguin");
    let mut names = name_set(rt.alloc());
    for name in [&bird, &penguin] {
        let name = name.copy().expect(&rt, "room");
        insert_label(&mut names, name).expect(&rt, "room");
    }
    assert!(rt; names.len() < 100);
    let mut labels = RuleLabels::of(names);
    assert!(rt; labels.len() == 2);
    assert!(rt; labels.find(&penguin) == Some(1));
    put(&rt, &mut labels, &bird);
    assert!(rt; labels.find(&bird) == Some(2));
}

#[test]
fn a_forgotten_label_is_not_there(rt: HostRuntime) {
    let bird = name_of(&rt, rt.alloc(), "bird");
    let mut labels = RuleLabels::make(rt.alloc());
    labels.prepare(&bird).expect(&rt, "room");
    labels.forget();
    assert!(rt; labels.len() == 0);
    assert!(rt; labels.find(&bird).is_none());
    assert!(rt; labels.add(bird).expect(&rt, "room"));
    assert!(rt; labels.len() == 1);
}

/// Labels `x0`, `x1` .. are added, from one number up to another; says whether all were new.
fn add_numbered(
    rt: &impl Abort,
    alloc: Global,
    labels: &mut RuleLabels,
    from: usize,
    to: usize,
) -> bool
    requires { labels.old.ready ≡ None }
    ensures { labels.new.ready ≡ None }
{
    let mut all = true;
    for number in from..to {
        let label = numbered(rt, alloc, number);
        all = labels.add(label).expect(rt, "room") && all;
    }
    all
}

/// The label with a number.
fn numbered(rt: &impl Abort, alloc: Global, number: usize) -> Name {
    let text = format!(in alloc; "x{number}").expect(rt, "room");
    name_of(rt, alloc, &text)
}

#[test]
fn frozen_labels_are_found_in_each_copy(rt: HostRuntime) {
    let mut labels = RuleLabels::make(rt.alloc());
    assert!(rt; add_numbered(&rt, rt.alloc(), &mut labels, 0, 20));
    labels.freeze();
    let copy = labels.copy().expect(&rt, "room");
    let old = numbered(&rt, rt.alloc(), 7);
    let new = numbered(&rt, rt.alloc(), 20);
    assert!(rt; !add(&rt, &mut labels, &old));
    assert!(rt; add(&rt, &mut labels, &new));
    assert!(rt; labels.find(&old) == Some(7));
    assert!(rt; labels.find(&new) == Some(20));
    assert!(rt; copy.find(&old) == Some(7));
    assert!(rt; copy.find(&new).is_none());
    assert!(rt; copy.len() == 20);
}

#[test]
fn many_labels_after_a_freeze_are_joined_with_those_before(rt: HostRuntime) {
    let mut labels = RuleLabels::make(rt.alloc());
    assert!(rt; add_numbered(&rt, rt.alloc(), &mut labels, 0, 20));
    labels.freeze();
    assert!(rt; add_numbered(&rt, rt.alloc(), &mut labels, 20, 30));
    labels.freeze();
    assert!(rt; add_numbered(&rt, rt.alloc(), &mut labels, 30, 31));
    labels.freeze();
    for number in [0, 19, 20, 29, 30] {
        let label = numbered(&rt, rt.alloc(), number);
        assert!(rt; labels.find(&label) == Some(number));
        assert!(rt; has_label(&labels, number, &label));
    }
    let again = numbered(&rt, rt.alloc(), 25);
    put(&rt, &mut labels, &again);
    assert!(rt; labels.find(&again) == Some(31));
    let absent = numbered(&rt, rt.alloc(), 31);
    labels.prepare(&absent).expect(&rt, "room");
    labels.forget();
    assert!(rt; labels.find(&absent).is_none());
}

/// The number of the fact of a literal, looked for among all.
fn number_of(facts: &FactNumbers, literal: usize) -> Option<usize>
    ensures there { IfSome result (λ _. Contains (there facts.now.items) literal) }
    ensures absent { IfNone result (¬ Contains (there facts.now.items) literal) }
{
    for number in 0..facts.len() {
        if facts.at(number) == Some(literal) {
            return Some(number);
        }
    }
    None
}

/// A literal becomes a fact, where it is none; says its number.
fn fact_of(rt: &impl Abort, facts: &mut FactNumbers, literal: usize) -> usize
    requires { literal < 100 }
{
    match number_of(facts, literal) {
        Some(number) => number,
        None => {
            facts.prepare(literal, 100).expect(rt, "room");
            facts.put(literal);
            facts.len() - 1
        }
    }
}

/// The fact of a literal goes, where it is one.
fn drop_fact(rt: &impl Abort, facts: &mut FactNumbers, literal: usize) {
    if let Some(_number) = number_of(facts, literal) {
        facts.prepare_drop(literal).expect(rt, "room");
        facts.drop_fact(literal);
    }
}

#[test]
fn a_fact_that_comes_again_has_another_number(rt: HostRuntime) {
    let mut facts = FactNumbers::make(rt.alloc());
    assert!(rt; fact_of(&rt, &mut facts, 7) == 0);
    assert!(rt; fact_of(&rt, &mut facts, 3) == 1);
    assert!(rt; fact_of(&rt, &mut facts, 7) == 0);
    assert!(rt; facts.len() == 2);
    drop_fact(&rt, &mut facts, 7);
    assert!(rt; facts.at(0).is_none());
    assert!(rt; facts.live() == 1);
    assert!(rt; fact_of(&rt, &mut facts, 7) == 2);
    expect_facts(&rt, &facts);
    let mut copy = facts.copy().expect(&rt, "room");
    expect_facts(&rt, &copy);
    assert!(rt; number_of(&copy, 7) == Some(2));
    drop_fact(&rt, &mut copy, 7);
    assert!(rt; copy.at(2).is_none());
    assert!(rt; copy.live() == 1);
}

#[test]
fn literals_are_taken_over_as_facts(rt: HostRuntime) {
    let mut literals = Table::make(rt.alloc());
    literals.reserve(1).expect(&rt, "room");
    literals.push(7);
    let mut facts = FactNumbers::of(literals, 8);
    assert!(rt; facts.live() == 1);
    assert!(rt; facts.at(0) == Some(7));
    assert!(rt; fact_of(&rt, &mut facts, 7) == 0);
    assert!(rt; fact_of(&rt, &mut facts, 9) == 1);
}

/// The first fact has gone, and came again behind another.
fn expect_facts(rt: &impl Abort, facts: &FactNumbers) {
    assert!(rt; facts.live() == 2);
    assert!(rt; facts.at(0).is_none());
    assert!(rt; facts.at(1) == Some(3));
    assert!(rt; facts.at(2) == Some(7));
    assert!(rt; facts.at(3).is_none());
}

/// A pair goes last; says its number.
fn pair_of(rt: &impl Abort, pairs: &mut PairNumbers, upper: usize, lower: usize) -> usize {
    let number = pairs.len();
    pairs.prepare(Link { upper, lower }).expect(rt, "room");
    pairs.put();
    number
}

/// Whether a pair is there, found by its rules.
fn has_pair(rt: &impl Abort, pairs: &mut PairNumbers, upper: usize, lower: usize) -> bool {
    let found = pairs.prepare_drop(Link { upper, lower });
    found.expect(rt, "room")
}

/// A pair goes, where it is there.
fn drop_pair(rt: &impl Abort, pairs: &mut PairNumbers, upper: usize, lower: usize) {
    let pair = Link { upper, lower };
    if pairs.prepare_drop(pair).expect(rt, "room") {
        pairs.drop_pair(pair);
    }
}

/// All pairs of a rule go.
fn drop_rule(rt: &impl Abort, pairs: &mut PairNumbers, rule: usize) {
    pairs.prepare_drop_rule(rule).expect(rt, "room");
    pairs.drop_rule(rule);
}

#[test]
fn all_pairs_of_a_rule_go(rt: HostRuntime) {
    let mut pairs = PairNumbers::make(rt.alloc());
    assert!(rt; pair_of(&rt, &mut pairs, 1, 2) == 0);
    assert!(rt; pair_of(&rt, &mut pairs, 2, 3) == 1);
    assert!(rt; has_pair(&rt, &mut pairs, 2, 3));
    assert!(rt; pair_of(&rt, &mut pairs, 3, 1) == 2);
    assert!(rt; pair_of(&rt, &mut pairs, 2, 2) == 3);
    drop_rule(&rt, &mut pairs, 2);
    assert!(rt; pairs.live() == 1);
    assert!(rt; pairs.len() == 4);
    assert!(rt; pairs.at(0).is_none());
    assert!(rt; pairs.at(1).is_none());
    assert!(rt; pairs.at(2) == Some(Link { upper: 3, lower: 1 }));
    assert!(rt; pairs.at(3).is_none());
    assert!(rt; has_pair(&rt, &mut pairs, 3, 1));
    assert!(rt; !has_pair(&rt, &mut pairs, 1, 3));
    drop_rule(&rt, &mut pairs, 9);
    assert!(rt; pairs.live() == 1);
}

#[test]
fn a_pair_that_comes_again_has_another_number(rt: HostRuntime) {
    let mut pairs = PairNumbers::make(rt.alloc());
    assert!(rt; pair_of(&rt, &mut pairs, 1, 2) == 0);
    assert!(rt; has_pair(&rt, &mut pairs, 1, 2));
    assert!(rt; pairs.len() == 1);
    drop_pair(&rt, &mut pairs, 1, 2);
    assert!(rt; pairs.at(0).is_none());
    assert!(rt; !has_pair(&rt, &mut pairs, 1, 2));
    assert!(rt; pair_of(&rt, &mut pairs, 1, 2) == 1);
    assert!(rt; has_pair(&rt, &mut pairs, 1, 2));
    pairs
        .prepare(Link { upper: 4, lower: 5 })
        .expect(&rt, "room");
    pairs.forget();
    assert!(rt; !has_pair(&rt, &mut pairs, 4, 5));
    let mut copy = pairs.copy().expect(&rt, "room");
    assert!(rt; copy.len() == 2);
    assert!(rt; copy.at(1) == Some(Link { upper: 1, lower: 2 }));
    assert!(rt; has_pair(&rt, &mut copy, 1, 2));
}

#[test]
fn pairs_are_taken_over(rt: HostRuntime) {
    let first = Link { upper: 3, lower: 1 };
    let second = Link { upper: 2, lower: 3 };
    let mut pairs = PairNumbers::of(rt.alloc(), &[first, second]).expect(&rt, "room");
    assert!(rt; pairs.live() == 2);
    assert!(rt; pairs.at(0) == Some(first));
    assert!(rt; has_pair(&rt, &mut pairs, 2, 3));
    drop_rule(&rt, &mut pairs, 1);
    assert!(rt; pairs.at(0).is_none());
    assert!(rt; pairs.at(1) == Some(second));
}

#[test]
fn a_rule_has_a_number_of_32_bits(rt: HostRuntime) {
    let wide = Link {
        upper: 4_294_967_295,
        lower: 1,
    };
    assert!(rt; PairNumbers::of(rt.alloc(), &[wide]).is_err());
    let mut pairs = PairNumbers::make(rt.alloc());
    for (upper, lower, fits) in [
        (4_294_967_295, 1, false),
        (1, 4_294_967_295, false),
        (1, 4_294_967_294, true),
    ] {
        assert!(rt; pairs.prepare(Link { upper, lower }).is_ok() == fits);
    }
}

#[test]
fn a_fact_that_goes_stays_in_a_copy(rt: HostRuntime) {
    let mut facts = FactNumbers::make(rt.alloc());
    for (literal, number) in [(7, 0), (3, 1), (5, 2)] {
        assert!(rt; fact_of(&rt, &mut facts, literal) == number);
    }
    facts.freeze();
    let copy = facts.copy().expect(&rt, "room");
    drop_fact(&rt, &mut facts, 7);
    assert!(rt; fact_of(&rt, &mut facts, 9) == 3);
    facts.freeze();
    // its places are shared now, and each of the two finds its facts by them
    let mut again = facts.copy().expect(&rt, "room");
    drop_fact(&rt, &mut facts, 3);
    drop_fact(&rt, &mut again, 9);
    assert!(rt; fact_of(&rt, &mut again, 7) == 4);
    expect_numbers(&rt, &copy, &[Some(7), Some(3), Some(5)]);
    expect_numbers(&rt, &facts, &[None, None, Some(5), Some(9)]);
    expect_numbers(&rt, &again, &[None, Some(3), Some(5), None, Some(7)]);
    assert!(rt; copy.live() == 3);
    assert!(rt; facts.live() == 2);
    assert!(rt; again.live() == 3);
}

/// The literals of the facts by number are these.
fn expect_numbers(rt: &impl Abort, facts: &FactNumbers, literals: &[Option<usize>]) {
    assert!(rt; facts.len() == literals.len());
    for number in 0..literals.len() {
        assert!(rt; facts.at(number) == literals[number]);
    }
}

#[test]
fn a_pair_that_goes_stays_in_a_copy(rt: HostRuntime) {
    let first = Link { upper: 1, lower: 2 };
    let second = Link { upper: 2, lower: 3 };
    let third = Link { upper: 4, lower: 5 };
    let mut pairs = PairNumbers::of(rt.alloc(), &[first, second]).expect(&rt, "room");
    pairs.freeze();
    let mut copy = pairs.copy().expect(&rt, "room");
    drop_pair(&rt, &mut pairs, 1, 2);
    assert!(rt; pair_of(&rt, &mut pairs, 4, 5) == 2);
    pairs.freeze();
    // where the pairs of a rule are is shared now, and each of the two finds its pairs by it
    let mut again = pairs.copy().expect(&rt, "room");
    drop_pair(&rt, &mut pairs, 4, 5);
    drop_rule(&rt, &mut again, 2);
    expect_pairs(&rt, &copy, &[Some(first), Some(second)]);
    expect_pairs(&rt, &pairs, &[None, Some(second), None]);
    expect_pairs(&rt, &again, &[None, None, Some(third)]);
    assert!(rt; copy.live() == 2);
    assert!(rt; pairs.live() == 1);
    assert!(rt; again.live() == 1);
    assert!(rt; has_pair(&rt, &mut copy, 1, 2));
    assert!(rt; !has_pair(&rt, &mut copy, 4, 5));
    assert!(rt; has_pair(&rt, &mut pairs, 2, 3));
    assert!(rt; !has_pair(&rt, &mut again, 2, 3));
    assert!(rt; has_pair(&rt, &mut again, 4, 5));
}

/// The pairs by number are these.
fn expect_pairs(rt: &impl Abort, pairs: &PairNumbers, links: &[Option<Link>]) {
    assert!(rt; pairs.len() == links.len());
    for number in 0..links.len() {
        assert!(rt; pairs.at(number) == links[number]);
    }
}
