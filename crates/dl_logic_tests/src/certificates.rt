//! Certificates that are made, against the checker.

ghost use Rattle.std.specs.Prelude.{◌≡◌, ◌<◌};

use crate::drafts::{edition, saturated};
use crate::editions::{derivation_of, gap_of};
use crate::texts::{AMBIGUOUS, PENGUIN, tagged_of, theory_of};
use dl_check::{CheckStop, Checker};
use dl_lit::{Family, Literal, Tagged};
use dl_marks::Steps;
use dl_read::read_literal;
use dl_theory::{Answer, TaggedList, Theory, Verdict};
use std::alloc::Global;
use std::marker::Brand;
use std::process::Abort;
use std::sync::ledger::{Blank, Ledger};

const LOOP: &str = "r: p => p\n";

const CHAIN: &str = "r1: => p1\nr2: p1 => p2\nr3: p2 => p3\n";

const TEAM: &str = "r1: => p\nr2: => p\ns1: => -p\ns2: => -p\nr1 > s1\nr2 > s2\n";

/// A question, its verdict, and the members that its derivation has, of which the last is the answer.
#[derive(Clone, Copy)]
struct Derived {
    theory: &'static str,
    family: Family,
    literal: &'static str,
    verdict: Verdict,
    members: &'static [&'static str],
}

/// Each theory leaves no other choice of members, but of their order.
const DERIVED: [Derived; 19] = [
    Derived {
        theory: PENGUIN,
        family: Family::Definite,
        literal: "bird",
        verdict: Verdict::Proved,
        members: &["+D penguin", "+D bird"],
    },
    Derived {
        theory: PENGUIN,
        family: Family::Definite,
        literal: "flies",
        verdict: Verdict::Refuted,
        members: &["-D flies"],
    },
    Derived {
        theory: PENGUIN,
        family: Family::Blocking,
        literal: "-flies",
        verdict: Verdict::Proved,
        members: &["+D penguin", "-D flies", "+d penguin", "+d -flies"],
    },
    Derived {
        theory: PENGUIN,
        family: Family::Blocking,
        literal: "flies",
        verdict: Verdict::Refuted,
        members: &["+D penguin", "-D flies", "+d penguin", "-d flies"],
    },
    Derived {
        theory: PENGUIN,
        family: Family::Propagating,
        literal: "-flies",
        verdict: Verdict::Proved,
        members: &["+D penguin", "-D flies", "+a penguin", "+a -flies"],
    },
    Derived {
        theory: PENGUIN,
        family: Family::Support,
        literal: "flies",
        verdict: Verdict::Refuted,
        members: &["+D penguin", "-D flies", "+a penguin", "-s flies"],
    },
    Derived {
        theory: AMBIGUOUS,
        family: Family::Blocking,
        literal: "q",
        verdict: Verdict::Proved,
        members: &["-D p", "-D -q", "-d p", "+d q"],
    },
    Derived {
        theory: AMBIGUOUS,
        family: Family::Propagating,
        literal: "q",
        verdict: Verdict::Refuted,
        members: &["-D q", "+s p", "-a q"],
    },
    Derived {
        theory: AMBIGUOUS,
        family: Family::Propagating,
        literal: "p",
        verdict: Verdict::Refuted,
        members: &["-D p", "-a p"],
    },
    Derived {
        theory: AMBIGUOUS,
        family: Family::Support,
        literal: "-q",
        verdict: Verdict::Proved,
        members: &["+s p", "+s -q"],
    },
    Derived {
        theory: LOOP,
        family: Family::Blocking,
        literal: "-p",
        verdict: Verdict::Refuted,
        members: &["-D -p", "-d -p"],
    },
    Derived {
        theory: LOOP,
        family: Family::Support,
        literal: "zz",
        verdict: Verdict::Refuted,
        members: &["-D zz", "-s zz"],
    },
    Derived {
        theory: "r: => p\n",
        family: Family::Blocking,
        literal: "p",
        verdict: Verdict::Proved,
        members: &["-D -p", "+d p"],
    },
    Derived {
        theory: ">> p\nr: => p\n",
        family: Family::Blocking,
        literal: "p",
        verdict: Verdict::Proved,
        members: &["+D p", "+d p"],
    },
    Derived {
        theory: ">> -p\nr: => p\n",
        family: Family::Blocking,
        literal: "p",
        verdict: Verdict::Refuted,
        members: &["-D p", "+D -p", "-d p"],
    },
    Derived {
        theory: "",
        family: Family::Blocking,
        literal: "p",
        verdict: Verdict::Refuted,
        members: &["-D p", "-d p"],
    },
    Derived {
        theory: CHAIN,
        family: Family::Blocking,
        literal: "p3",
        verdict: Verdict::Proved,
        members: &["-D -p1", "-D -p2", "-D -p3", "+d p1", "+d p2", "+d p3"],
    },
    Derived {
        theory: TEAM,
        family: Family::Blocking,
        literal: "p",
        verdict: Verdict::Proved,
        members: &["-D -p", "+d p"],
    },
    Derived {
        theory: "r1: a => q\nr2: b => q\n",
        family: Family::Blocking,
        literal: "q",
        verdict: Verdict::Refuted,
        members: &["-D a", "-D b", "-D q", "-d a", "-d b", "-d q"],
    },
];

/// Either rule is enough, and no derivation that has both is without an idle member.
const EITHER: &str = ">> a\n>> b\nr1: a => q\nr2: b => q\n";

const BY_ONE: [&str; 4] = ["+D a", "-D -q", "+d a", "+d q"];

const BY_THE_OTHER: [&str; 4] = ["+D b", "-D -q", "+d b", "+d q"];

/// A question to which neither tag is the answer, and the whole gap, in order.
#[derive(Clone, Copy)]
struct Open {
    theory: &'static str,
    family: Family,
    literal: &'static str,
    gap: &'static [&'static str],
}

const OPEN: [Open; 6] = [
    Open {
        theory: "r: p -> p\n",
        family: Family::Definite,
        literal: "p",
        gap: &["+D p", "-D p", "+D -p"],
    },
    Open {
        theory: LOOP,
        family: Family::Blocking,
        literal: "p",
        gap: &["+D p", "+d p", "-d p", "+D -p", "+d -p"],
    },
    Open {
        theory: LOOP,
        family: Family::Propagating,
        literal: "p",
        gap: &[
            "+D p", "+a p", "-a p", "+s p", "-s p", "+D -p", "+a -p", "+s -p",
        ],
    },
    Open {
        theory: LOOP,
        family: Family::Support,
        literal: "p",
        gap: &[
            "+D p", "+a p", "-a p", "+s p", "-s p", "+D -p", "+a -p", "+s -p",
        ],
    },
    // What does not matter for the literal is no member.
    Open {
        theory: ">> q\ns: p, q => t\nr: p => p\n",
        family: Family::Blocking,
        literal: "p",
        gap: &["+D p", "+d p", "-d p", "+D -p", "+d -p"],
    },
    // What matters and follows is no member.
    Open {
        theory: ">> q\nr: q, p => p\n",
        family: Family::Blocking,
        literal: "p",
        gap: &[
            "+D p", "+d p", "-d p", "+D -p", "+d -p", "-D q", "-d q", "+D -q", "+d -q",
        ],
    },
];

/// A theory of 26 atoms, and so of 52 literals. At most ten of them matter for each literal that is asked below, which is less than a
/// quarter: the answer is made from a theory of these alone. The rules of the others stand between theirs, above some and below some.
const LARGE: &str = concat!(
    "w1: x1, x2, x3, x4, x5, x6, x7, x8 => y\n>> x1\nw2: d, q => x2\n>> a\nr1: a => b\nw3: y => x3\nr2: b => c\ns2: => -c\n",
    "w4: x9, x10, x11, x12, x13, x14, x15, x16 => z\nr3: c => d\ns3: e => -d\nt1: f => q\nt2: b => q\nu1: c => -q\n",
    "w5: p => x4\nr4: p => p\nr2 > s2\nu1 > w1\nt1 > u1\nw2 > t2\n",
);

/// The conditions leave no other choice of members here either. For `d`, `s2` is on and beaten by `r2`, and `s3` is off. For `q`, `t2`
/// is on, but `u1` is too, and only `t1` beats it, which is off.
const IN_PART: [Derived; 4] = [
    Derived {
        theory: LARGE,
        family: Family::Blocking,
        literal: "d",
        verdict: Verdict::Proved,
        members: &[
            "+D a", "+d a", "-D -b", "+d b", "-D -c", "+d c", "-D e", "-d e", "-D -d", "+d d",
        ],
    },
    Derived {
        theory: LARGE,
        family: Family::Blocking,
        literal: "q",
        verdict: Verdict::Refuted,
        members: &[
            "+D a", "+d a", "-D -b", "+d b", "-D -c", "+d c", "-D f", "-d f", "-D q", "-d q",
        ],
    },
    Derived {
        theory: LARGE,
        family: Family::Propagating,
        literal: "d",
        verdict: Verdict::Proved,
        members: &[
            "+D a", "+a a", "-D -b", "+a b", "-D -c", "+a c", "-D e", "-s e", "-D -d", "+a d",
        ],
    },
    // Here `u1` is on by support, for which nothing has to be refuted.
    Derived {
        theory: LARGE,
        family: Family::Propagating,
        literal: "q",
        verdict: Verdict::Refuted,
        members: &[
            "+D a", "+s a", "+s b", "+s c", "-D f", "-a f", "-D q", "-a q",
        ],
    },
];

/// The one rule for `p` rests on `p`, and no rule is for `-p`: nothing follows of the two but `-D p`, `-D -p` and `-d -p`.
const OPEN_IN_PART: Open = Open {
    theory: LARGE,
    family: Family::Blocking,
    literal: "p",
    gap: &["+D p", "+d p", "-d p", "+D -p", "+d -p"],
};

/// The answer to a question, asked of an edition. What is counted belongs to a new ledger.
fn counted_answer<L: Ledger>(
    rt: &impl Abort,
    alloc: Global,
    theory: &Theory,
    family: Family,
    literal: &Literal,
    blank: Blank,
) -> Answer
    requires name { blank.name ≡ L.name }
    requires parts { blank.parts ≡ L.parts }
    requires some { 0 < blank.parts }
{
    let mut steps = Steps::<L>::make(blank);
    let mut draft = saturated(rt, alloc, theory, &mut steps);
    let held = edition(alloc, &mut draft).expect(rt, "room");
    drop(draft);
    let answer = held.ask(family, literal).expect(rt, "room");
    drop(held);
    answer
}

fn answer(rt: &impl Abort, alloc: Global, theory: &Theory, family: Family, text: &str) -> Answer {
    let literal = read_literal(alloc, text.as_bytes()).expect(rt, "a literal");
    counted_answer::<Brand>(rt, alloc, theory, family, &literal, Blank::new(1))
}

/// Whether a list has all these members.
fn has_members(rt: &impl Abort, alloc: Global, list: &[Tagged], texts: &[&str]) -> bool {
    for text in texts {
        let member = tagged_of(rt, alloc, text);
        if !list.contains(&member) {
            return false;
        }
    }
    true
}

/// Asks that a list has just these members. None stands there twice in a derivation.
fn expect_members(rt: &impl Abort, alloc: Global, list: &[Tagged], texts: &[&str]) {
    assert!(rt; list.len() == texts.len(), "more or fewer members");
    let has = has_members(rt, alloc, list, texts);
    assert!(rt; has, "a member is missing");
}

/// Asks that a list has these members in this order.
fn expect_list(rt: &impl Abort, alloc: Global, list: &[Tagged], texts: &[&str]) {
    assert!(rt; list.len() == texts.len(), "more or fewer members");
    for (member, text) in list.iter().zip(texts) {
        let expected = tagged_of(rt, alloc, text);
        assert!(rt; *member == expected, "another member");
    }
}

/// Asks that the last member is the answer.
fn expect_last(rt: &impl Abort, alloc: Global, list: &[Tagged], texts: &[&str]) {
    let last = list.last().expect(rt, "a member");
    let text = texts.last().expect(rt, "a member");
    let expected = tagged_of(rt, alloc, text);
    assert!(rt; *last == expected, "the last member is not the answer");
}

/// The list without the member at a place.
fn without(rt: &impl Abort, alloc: Global, list: &[Tagged], left_out: usize) -> TaggedList {
    let mut rest = TaggedList::make(alloc);
    for (at, member) in list.iter().enumerate() {
        if at != left_out {
            let copy = member.copy().expect(rt, "room");
            rest.push(copy).expect(rt, "room");
        }
    }
    rest
}

/// Whether the checker accepts a list as a derivation.
fn is_accepted(rt: &impl Abort, checker: &Checker, list: &TaggedList) -> bool {
    match checker.check_derivation(list) {
        Ok(()) => true,
        Err(CheckStop::Rejected(_)) => false,
        Err(CheckStop::Memory) => panic!(rt; "no room"),
    }
}

/// Whether a list is a derivation without the member at a place too.
fn is_idle(rt: &impl Abort, alloc: Global, checker: &Checker, list: &[Tagged], at: usize) -> bool {
    let rest = without(rt, alloc, list, at);
    is_accepted(rt, checker, &rest)
}

/// Asks that no member but the last can be left out, so that each serves a later one.
fn expect_no_idle_member(rt: &impl Abort, alloc: Global, checker: &Checker, list: &[Tagged]) {
    for at in 0..list.len() {
        let idle = is_idle(rt, alloc, checker, list, at);
        assert!(rt; !idle || at + 1 == list.len(), "a member is idle");
    }
}

/// Asks for a derivation with just these members, none of them idle, of which the last is the answer.
fn expect_derivation(
    rt: &impl Abort,
    alloc: Global,
    theory: &Theory,
    list: &TaggedList,
    texts: &[&str],
) {
    let checker = Checker::make(alloc, theory).expect(rt, "room");
    let accepted = is_accepted(rt, &checker, list);
    assert!(rt; accepted, "no derivation");
    expect_no_idle_member(rt, alloc, &checker, list.as_slice());
    expect_members(rt, alloc, list.as_slice(), texts);
    expect_last(rt, alloc, list.as_slice(), texts);
}

fn expect_derived(rt: &impl Abort, alloc: Global, row: &Derived) {
    let theory = theory_of(rt, alloc, row.theory);
    let answer = answer(rt, alloc, &theory, row.family, row.literal);
    assert!(rt; answer.verdict == row.verdict, "another verdict");
    let list = derivation_of(rt, answer);
    expect_derivation(rt, alloc, &theory, &list, row.members);
    drop(list);
    drop(theory);
}

/// Asks for a gap that the checker accepts, with these members in this order.
fn expect_gap(rt: &impl Abort, alloc: Global, theory: &Theory, list: &TaggedList, texts: &[&str]) {
    let checker = Checker::make(alloc, theory).expect(rt, "room");
    let checked = checker.check_gap(list);
    assert!(rt; checked.is_ok(), "no gap");
    expect_list(rt, alloc, list.as_slice(), texts);
}

fn expect_open(rt: &impl Abort, alloc: Global, row: &Open) {
    let theory = theory_of(rt, alloc, row.theory);
    let answer = answer(rt, alloc, &theory, row.family, row.literal);
    assert!(rt; answer.verdict == Verdict::Neither, "another verdict");
    let list = gap_of(rt, answer);
    expect_gap(rt, alloc, &theory, &list, row.gap);
    drop(list);
    drop(theory);
}

#[test]
fn no_member_of_a_derivation_is_idle(rt: HostRuntime) {
    for row in DERIVED.iter() {
        expect_derived(&rt, rt.alloc(), row);
    }
}

/// A derivation by either rule, with the members for that rule.
fn expect_one_way(rt: &impl Abort, alloc: Global, theory: &Theory, list: &TaggedList) {
    let by_one = has_members(rt, alloc, list.as_slice(), &BY_ONE);
    let members = if by_one { &BY_ONE } else { &BY_THE_OTHER };
    expect_derivation(rt, alloc, theory, list, members);
}

#[test]
fn one_of_two_ways_is_kept(rt: HostRuntime) {
    let alloc = rt.alloc();
    let theory = theory_of(&rt, alloc, EITHER);
    let answer = answer(&rt, alloc, &theory, Family::Blocking, "q");
    let list = derivation_of(&rt, answer);
    expect_one_way(&rt, alloc, &theory, &list);
    drop(list);
    drop(theory);
}

#[test]
fn a_gap_is_what_matters_and_does_not_follow(rt: HostRuntime) {
    for row in OPEN.iter() {
        expect_open(&rt, rt.alloc(), row);
    }
}

#[test]
fn no_member_is_idle_where_a_part_is_cut_out(rt: HostRuntime) {
    for row in IN_PART.iter() {
        expect_derived(&rt, rt.alloc(), row);
    }
}

#[test]
fn a_gap_of_a_part_is_one_of_the_whole(rt: HostRuntime) {
    expect_open(&rt, rt.alloc(), &OPEN_IN_PART);
}
