//! A theory that is loaded into numbers, and what a fill reads of it.

use crate::texts::{PENGUIN as RULES, edit_of, theory_of};
use dl_graph::{Graph, Link};
use dl_net::{Net, NumberedTheory};
use dl_read::read_literal;
use dl_theory::{Edit, Loading};
use std::alloc::Global;
use std::process::Abort;

/// A penguin, which is no flying bird, and whether each addition is accepted. What is there already is refused.
const PENGUIN: [(&str, bool); 6] = [
    ("add >> penguin", true),
    ("add bird: penguin => fly", true),
    ("add cold: penguin => -fly", true),
    ("add >> penguin", false),
    ("add cold: snow => -fly", false),
    ("add cold > bird", true),
];

/// Adds what an edit adds. Whether it was accepted.
fn add<T: Loading>(rt: &impl Abort, theory: &mut T, edit: Edit) -> bool {
    match edit {
        Edit::AddFact(fact) => theory.add_fact(fact).is_ok(),
        Edit::AddRule(rule) => theory.add_rule(rule).is_ok(),
        Edit::AddPair(pair) => theory.add_pairs(&[pair]).is_ok(),
        _ => panic!(rt; "no addition"),
    }
}

fn load(rt: &impl Abort, alloc: Global, theory: &mut NumberedTheory) {
    for (text, accepted) in PENGUIN.iter() {
        let edit = edit_of(rt, alloc, text);
        assert!(rt; add(rt, theory, edit) == *accepted);
    }
}

fn number(rt: &impl Abort, alloc: Global, graph: &Graph<'_>, atom: &str) -> usize {
    let literal = read_literal(alloc, atom.as_bytes()).expect(rt, "a literal");
    graph.find(&literal).expect(rt, "a number")
}

fn expect_literals(rt: &impl Abort, graph: &Graph<'_>, penguin: usize, fly: usize) {
    assert!(rt; penguin < graph.names() && fly < graph.names());
    assert!(rt; graph.is_fact(penguin) && !graph.is_fact(fly));
    assert!(rt; graph.literal(penguin).positive && graph.lives(fly));
    assert!(rt; graph.attacker(fly, 0) == Some(graph.other(fly)));
    assert_eq!(rt; graph.next_len(Link::Uses, penguin), 2);
}

fn expect_rules(rt: &impl Abort, graph: &Graph<'_>, fly: usize) {
    assert_eq!(rt; graph.rules_len(), 2);
    assert!(rt; graph.has_rule(0) && graph.head(0) == fly);
    assert_eq!(rt; graph.next_len(Link::Defends, 1), 1);
    assert_eq!(rt; graph.next(Link::Defends, 1, 0), 0);
    assert_eq!(rt; graph.back_len(Link::Counters, 0), 1);
}

fn expect_penguin(rt: &impl Abort, alloc: Global, graph: &Graph<'_>) {
    let penguin = number(rt, alloc, graph, "penguin");
    let fly = number(rt, alloc, graph, "fly");
    expect_literals(rt, graph, penguin, fly);
    expect_rules(rt, graph, fly);
}

#[test]
fn a_fill_reads_what_was_loaded(rt: HostRuntime) {
    let alloc = rt.alloc();
    let mut theory = NumberedTheory::make(alloc);
    load(&rt, alloc, &mut theory);
    let net = Net::load(theory).expect(&rt, "room");
    expect_penguin(&rt, alloc, &net.graph());
    drop(net);
}

fn make_edit(rt: &impl Abort, alloc: Global, net: &mut Net, text: &str) {
    match net.prepare(&edit_of(rt, alloc, text)) {
        Ok(ready) => net.commit(ready),
        Err(_) => panic!(rt; "an edit was not made"),
    }
}

/// How many rules there are under how many numbers, of which these have one.
fn expect_numbers(rt: &impl Abort, graph: &Graph<'_>, rules: usize, there: &[bool]) {
    assert_eq!(rt; graph.rules_len(), rules);
    assert_eq!(rt; graph.rule_numbers(), there.len());
    for number in 0..there.len() {
        assert!(rt; graph.has_rule(number) == there[number]);
        assert!(rt; graph.rule(number).is_some() == there[number]);
    }
}

#[test]
fn the_number_of_a_rule_that_went_stays_empty(rt: HostRuntime) {
    let alloc = rt.alloc();
    let theory = theory_of(&rt, alloc, RULES);
    let mut net = Net::of(alloc, &theory).expect(&rt, "room");
    expect_numbers(&rt, &net.graph(), 3, &[true, true, true]);
    make_edit(&rt, alloc, &mut net, "drop r2");
    expect_numbers(&rt, &net.graph(), 2, &[true, false, true]);
    make_edit(&rt, alloc, &mut net, "add r4: penguin => swims");
    expect_numbers(&rt, &net.graph(), 3, &[true, false, true, true]);
    make_edit(&rt, alloc, &mut net, "add r2: bird => flies");
    expect_numbers(&rt, &net.graph(), 4, &[true, false, true, true, true]);
    drop(net);
}
