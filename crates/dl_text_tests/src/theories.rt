//! Rows of edits with their answers, and each call once with ample memory.

ghost use Rattle.std.specs.Prelude.{◌≤◌, All, length};
ghost use Rattle.dl_theory.specs.Pairs.{IsWithin};

use dl_lit::{Literal, Name, NameSet, name_set};
use dl_read::{read_edit, read_tagged};
use dl_theory::{
    Body, Edit, EditRefusal, EditStop, Pair, PairsStop, Path, RulePairs, TaggedList, Theory,
};
use std::alloc::Global;
use std::process::Abort;

/// An edit, and its answer.
type Row = (&'static str, &'static str);

/// Makes the edits in order, and compares each answer.
fn expect_all(rt: &impl Abort, alloc: Global, theory: &mut Theory, rows: &[Row]) {
    for (text, answer) in rows {
        let edit = read_edit(alloc, text.as_bytes()).expect(rt, "an edit");
        expect(rt, alloc, theory, edit, answer);
    }
}

const THREE_RULES: [Row; 3] = [
    ("add r1: => p", "ok"),
    ("add r2: => p", "ok"),
    ("add r3: => p", "ok"),
];

/// A theory with the rules r1, r2 and r3.
fn three_rules(rt: &impl Abort, alloc: Global) -> Theory {
    let mut theory = Theory::make(alloc);
    expect_all(rt, alloc, &mut theory, &THREE_RULES);
    theory
}

fn write(rt: &impl Abort, text: &mut Vec<u8>, bytes: &[u8]) {
    let done = text.extend_from_slice(bytes);
    assert!(rt; done.is_ok());
}

fn write_labels(rt: &impl Abort, text: &mut Vec<u8>, labels: &[Name]) {
    for label in labels {
        write(rt, text, b" ");
        write(rt, text, label.bytes());
    }
}

fn word(refusal: &EditRefusal) -> &'static str {
    match refusal {
        EditRefusal::LabelThere(_) => "label there",
        EditRefusal::NoLabel(_) => "no label",
        EditRefusal::FactThere => "fact there",
        EditRefusal::NoFact => "no fact",
        EditRefusal::PairThere => "pair there",
        EditRefusal::NoPair => "no pair",
        EditRefusal::Cycle(_) => "cycle",
        EditRefusal::RulesFull => "rules full",
        EditRefusal::FactsFull => "facts full",
        EditRefusal::PairsFull => "pairs full",
    }
}

/// A refusal as text: its word, and the labels that it carries.
fn text_of(rt: &impl Abort, alloc: Global, refusal: &EditRefusal) -> Vec<u8> {
    let mut text = Vec::new(alloc);
    write(rt, &mut text, word(refusal).as_bytes());
    match refusal {
        EditRefusal::Cycle(path) => write_labels(rt, &mut text, path.as_slice()),
        EditRefusal::NoLabel(label) => {
            write(rt, &mut text, b" ");
            write(rt, &mut text, label.bytes());
        }
        _ => {}
    }
    text
}

/// Makes an edit and compares its answer; the refusal is copied first.
fn expect(rt: &impl Abort, alloc: Global, theory: &mut Theory, edit: Edit, want: &str) {
    match theory.apply(&edit) {
        Ok(()) => assert!(rt; want == "ok"),
        Err(EditStop::Refused(refusal)) => match refusal.copy() {
            Ok(copy) => assert!(rt; text_of(rt, alloc, &copy).as_slice() == want.as_bytes()),
            Err(_) => assert!(rt; false),
        },
        Err(EditStop::Memory) => assert!(rt; false),
    }
}

/// Compares the places of the rules of the pairs.
fn expect_places(rt: &impl Abort, pairs: &RulePairs, want: &[(usize, usize)]) {
    assert!(rt; pairs.len() == want.len() && pairs.rules_of(want.len()).is_none());
    for (at, (upper, lower)) in want.iter().enumerate() {
        match pairs.rules_of(at) {
            Some((above, below)) => assert!(rt; above == *upper && below == *lower),
            None => assert!(rt; false),
        }
    }
}

fn expect_rules(rt: &impl Abort, theory: &Theory, want: &[(usize, usize)]) {
    let pairs = theory.rule_pairs().expect(rt, "the pairs");
    expect_places(rt, &pairs, want);
}

fn name(rt: &impl Abort, alloc: Global, text: &str) -> Name {
    Name::make(alloc, text.as_bytes()).expect(rt, "a name")
}

const LABELS: [&str; 3] = ["r1", "r2", "r3"];

/// The labels r1, r2 and r3.
fn three_labels(rt: &impl Abort, alloc: Global) -> NameSet<Name> {
    let mut labels = name_set(alloc);
    for label in LABELS.iter() {
        let done = labels.insert(name(rt, alloc, label));
        assert!(rt; done.is_ok());
    }
    labels
}

fn fact(rt: &impl Abort, alloc: Global, text: &str) -> Literal {
    Literal {
        mode: None,
        atom: name(rt, alloc, text),
        positive: true,
    }
}

fn pair(rt: &impl Abort, alloc: Global, upper: &str, lower: &str) -> Pair {
    Pair {
        upper: name(rt, alloc, upper),
        lower: name(rt, alloc, lower),
    }
}

/// The pairs r1 above r2 and r2 above r3.
fn two_pairs(rt: &impl Abort, alloc: Global, labels: &NameSet<Name>) -> RulePairs
    ensures within { All (IsWithin labels.now.keys) result }
    ensures few { length result ≤ 1000000 }
{
    let mut pairs = RulePairs::make(alloc);
    let more = [pair(rt, alloc, "r1", "r2"), pair(rt, alloc, "r2", "r3")];
    let done = pairs.add_labelled(labels, &more);
    assert!(rt; done.is_ok());
    assert!(rt; pairs.len() <= 1_000_000);
    pairs
}

/// Compares the place and the cause of a refusal.
fn expect_stop(
    rt: &impl Abort,
    alloc: Global,
    done: Result<(), PairsStop>,
    place: usize,
    want: &str,
) {
    match done {
        Err(PairsStop::Refused { at, refusal }) => {
            assert!(rt; at == place);
            assert!(rt; text_of(rt, alloc, &refusal).as_slice() == want.as_bytes());
        }
        _ => assert!(rt; false),
    }
}

const PAIR_ROWS: [Row; 10] = [
    ("add r1 > r2", "ok"),
    ("add r2 > r3", "ok"),
    ("add r3 > r1", "cycle r1 r2 r3"),
    ("drop r2", "ok"),
    ("drop r1 > r2", "no pair"),
    ("add r3 > r1", "ok"),
    ("add zz > yy", "no label zz"),
    ("add r3 > r1", "pair there"),
    ("add r1 > r1", "cycle r1"),
    ("drop r3 > r1", "ok"),
];

#[test]
fn pairs_are_added_and_dropped_by_the_rows(rt: HostRuntime) {
    let alloc = rt.alloc();
    let mut theory = three_rules(&rt, alloc);
    expect_all(&rt, alloc, &mut theory, &PAIR_ROWS);
    assert!(rt; theory.pairs_len() == 0 && theory.rules_len() == 2);
}

const FACT_ROWS: [Row; 6] = [
    ("add r2: => p", "label there"),
    ("drop zz", "no label zz"),
    ("add >> q", "ok"),
    ("add >> q", "fact there"),
    ("drop >> q", "ok"),
    ("drop >> q", "no fact"),
];

#[test]
fn facts_and_rules_are_added_once(rt: HostRuntime) {
    let alloc = rt.alloc();
    let mut theory = three_rules(&rt, alloc);
    expect_all(&rt, alloc, &mut theory, &FACT_ROWS);
    assert!(rt; theory.fact(0).is_none() && theory.rule(2).is_some());
}

const FULL_ROWS: [Row; 4] = [
    ("add >> q", "facts full"),
    ("add >> p0", "fact there"),
    ("drop >> p0", "ok"),
    ("add >> q", "ok"),
];

#[test]
fn a_full_list_of_facts_refuses_one_more(rt: HostRuntime) {
    let alloc = rt.alloc();
    let mut theory = Theory::make(alloc);
    for n in 0..1_000_000 {
        let text = format!(in alloc; "p{n}").expect(&rt, "a text");
        let done = theory.apply_owned(Edit::AddFact(fact(&rt, alloc, text.as_str())));
        assert!(rt; done.is_ok());
    }
    expect_all(&rt, alloc, &mut theory, &FULL_ROWS);
    assert!(rt; theory.facts_len() == 1_000_000);
}

/// The edit that this text is.
fn edit(rt: &impl Abort, alloc: Global, text: &str) -> Edit {
    read_edit(alloc, text.as_bytes()).expect(rt, "an edit")
}

/// A theory of the rules r0 to r100000, each above the next.
fn long_chain(rt: &impl Abort, alloc: Global) -> Theory {
    let mut theory = Theory::make(alloc);
    for n in 0..100_001u32 {
        let text = format!(in alloc; "add r{n}: => p").expect(rt, "a text");
        assert!(rt; theory.apply_owned(edit(rt, alloc, text.as_str())).is_ok());
    }
    for n in 0..100_000u32 {
        let text = format!(in alloc; "add r{n} > r{}", n + 1).expect(rt, "a text");
        assert!(rt; theory.apply_owned(edit(rt, alloc, text.as_str())).is_ok());
    }
    theory
}

/// The labels are r0, r1 and so on.
fn expect_labels(rt: &impl Abort, alloc: Global, labels: &[Name]) {
    for (n, label) in labels.iter().enumerate() {
        let text = format!(in alloc; "r{n}").expect(rt, "a text");
        assert!(rt; label.bytes() == text.as_bytes());
    }
}

#[test]
fn a_cycle_of_many_rules_is_shown_whole(rt: HostRuntime) {
    let alloc = rt.alloc();
    let mut theory = long_chain(&rt, alloc);
    match theory.apply(&edit(&rt, alloc, "add r100000 > r0")) {
        Err(EditStop::Refused(EditRefusal::Cycle(path))) => {
            assert!(rt; path.as_slice().len() == 100_001);
            expect_labels(&rt, alloc, path.as_slice());
        }
        _ => assert!(rt; false),
    }
}

#[test]
fn several_pairs_stop_at_the_first_that_is_refused(rt: HostRuntime) {
    let alloc = rt.alloc();
    let mut theory = three_rules(&rt, alloc);
    let pairs = [pair(&rt, alloc, "r1", "r2"), pair(&rt, alloc, "r2", "r3")];
    let done = theory.add_pairs(&pairs);
    assert!(rt; done.is_ok() && theory.pairs_len() == 2);
    let more = [pair(&rt, alloc, "r1", "r3"), pair(&rt, alloc, "r1", "r2")];
    expect_stop(&rt, alloc, theory.add_pairs(&more), 1, "pair there");
    assert!(rt; theory.pair(2).is_some() && theory.pair(3).is_none());
    expect_rules(&rt, &theory, &[(0, 1), (1, 2), (0, 2)]);
}

const RULE_ROWS: [Row; 3] = [
    ("drop r1", "ok"),
    ("add r4: => p", "ok"),
    ("add r4 > r2", "ok"),
];

#[test]
fn the_rules_of_a_pair_are_found_where_others_went(rt: HostRuntime) {
    let alloc = rt.alloc();
    let mut theory = three_rules(&rt, alloc);
    let pairs = [pair(&rt, alloc, "r2", "r3")];
    assert!(rt; theory.add_pairs(&pairs).is_ok());
    expect_rules(&rt, &theory, &[(1, 2)]);
    expect_all(&rt, alloc, &mut theory, &RULE_ROWS);
    expect_rules(&rt, &theory, &[(0, 1), (2, 0)]);
}

#[test]
fn pairs_are_added_by_their_places(rt: HostRuntime) {
    let alloc = rt.alloc();
    let labels = three_labels(&rt, alloc);
    let mut pairs = two_pairs(&rt, alloc, &labels);
    expect_places(&rt, &pairs, &[(0, 1), (1, 2)]);
    let done = pairs.add_labelled(&labels, &[pair(&rt, alloc, "r1", "r3")]);
    assert!(rt; done.is_ok());
    expect_places(&rt, &pairs, &[(0, 1), (1, 2), (0, 2)]);
}

#[test]
fn the_pairs_before_a_missing_label_are_kept(rt: HostRuntime) {
    let alloc = rt.alloc();
    let labels = three_labels(&rt, alloc);
    let mut pairs = RulePairs::make(alloc);
    let more = [
        pair(&rt, alloc, "r3", "r1"),
        pair(&rt, alloc, "r1", "zz"),
        pair(&rt, alloc, "r3", "r2"),
    ];
    let done = pairs.add_labelled(&labels, &more);
    expect_stop(&rt, alloc, done, 1, "no label zz");
    expect_places(&rt, &pairs, &[(2, 0)]);
}

#[test]
fn a_pair_that_is_there_stops_the_others(rt: HostRuntime) {
    let alloc = rt.alloc();
    let labels = three_labels(&rt, alloc);
    let mut pairs = two_pairs(&rt, alloc, &labels);
    let more = [pair(&rt, alloc, "r1", "r3"), pair(&rt, alloc, "r1", "r2")];
    let done = pairs.add_labelled(&labels, &more);
    expect_stop(&rt, alloc, done, 1, "pair there");
    expect_places(&rt, &pairs, &[(0, 1), (1, 2), (0, 2)]);
}

#[test]
fn a_cycle_is_shown_by_its_labels(rt: HostRuntime) {
    let alloc = rt.alloc();
    let labels = three_labels(&rt, alloc);
    let mut pairs = two_pairs(&rt, alloc, &labels);
    let done = pairs.add_labelled(&labels, &[pair(&rt, alloc, "r3", "r1")]);
    expect_stop(&rt, alloc, done, 0, "cycle r1 r2 r3");
    expect_places(&rt, &pairs, &[(0, 1), (1, 2)]);
}

const COPY_ROWS: [Row; 2] = [("add >> q", "ok"), ("add r1 > r2", "ok")];

#[test]
fn a_copy_has_all_of_its_theory(rt: HostRuntime) {
    let alloc = rt.alloc();
    let mut theory = three_rules(&rt, alloc);
    expect_all(&rt, alloc, &mut theory, &COPY_ROWS);
    match theory.copy() {
        Ok(copy) => {
            assert!(rt; copy.facts().len() == 1 && copy.rules().len() == 3);
            assert!(rt; copy.pairs() == theory.pairs());
        }
        Err(_) => assert!(rt; false),
    }
}

#[test]
fn lists_keep_what_is_pushed(rt: HostRuntime) {
    let alloc = rt.alloc();
    let mut path = Path::make(alloc);
    assert!(rt; path.push(name(&rt, alloc, "r")).is_ok());
    let mut tags = TaggedList::make(alloc);
    let tagged = read_tagged(alloc, b"+D q").expect(&rt, "a tagged literal");
    assert!(rt; tags.push(tagged).is_ok());
    let mut body = Body::make(alloc);
    assert!(rt; body.reserve(5).is_ok() && body.len() == 0);
    assert!(rt; body.push(fact(&rt, alloc, "p")).is_ok());
    body.clear();
    assert!(rt; body.len() == 0);
    assert!(rt; body.push(fact(&rt, alloc, "q")).is_ok());
    assert!(rt; path.copy().is_ok() && tags.copy().is_ok() && body.copy().is_ok());
    assert!(rt; path.len() == 1 && tags.get(0).is_some() && body.get(1).is_none());
}
