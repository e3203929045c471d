//! Drafts, saturated at once and edit by edit.

ghost use Rattle.std.specs.Prelude.{◌≡◌, ◌<◌};
ghost use Rattle.dl_update.specs.Bound.{IsWithinCone};

use crate::editions::expect_conclusions;
use crate::texts::{AMBIGUOUS, PENGUIN, edit_of, numbered_of, tagged_of, theory_of};
use dl_edition::Held;
use dl_graph::Graph;
use dl_lit::{Family, Memory, Tag};
use dl_marks::{Marks, Steps};
use dl_net::Net;
use dl_theory::{Edit, EditRefusal, EditStop, Theory};
use dl_update::{Draft, Families};
use std::alloc::Global;
use std::marker::Brand;
use std::process::Abort;
use std::sync::ledger::{Blank, Ledger};

/// A family, and what is concluded in it.
type Concluded = (Family, &'static str);

/// A family, and tagged literals of it that follow.
type Marked = (Family, [&'static str; 4]);

/// Edits that are made one after another, and what is concluded then.
#[derive(Clone, Copy)]
struct Stage {
    edits: &'static [&'static str],
    concluded: &'static [Concluded],
}

/// What follows from it, family by family.
const AMBIGUOUS_MARKS: [Marked; 4] = [
    (Family::Definite, ["-D p", "-D -p", "-D q", "-D -q"]),
    (Family::Blocking, ["-d p", "-d -p", "+d q", "-d -q"]),
    (Family::Propagating, ["-a p", "-a -p", "-a q", "-a -q"]),
    (Family::Support, ["+s p", "+s -p", "+s q", "+s -q"]),
];

/// What is concluded from it.
const AMBIGUOUS_CONCLUDED: [Concluded; 4] = [
    (Family::Definite, "-D p\n-D -p\n-D q\n-D -q\n"),
    (Family::Blocking, "-d p\n-d -p\n+d q\n-d -q\n"),
    (Family::Propagating, "-a p\n-a -p\n-a q\n-a -q\n"),
    (Family::Support, "+s p\n+s -p\n+s q\n+s -q\n"),
];

/// What is concluded where the rule for `p` is above the one for `-p`.
const ABOVE_CONCLUDED: [Concluded; 4] = [
    (Family::Definite, "-D p\n-D -p\n-D q\n-D -q\n"),
    (Family::Blocking, "+d p\n-d -p\n-d q\n-d -q\n"),
    (Family::Propagating, "+a p\n-a -p\n-a q\n-a -q\n"),
    (Family::Support, "+s p\n-s -p\n+s q\n+s -q\n"),
];

/// The rules one by one; then a pair that comes and goes, and a rule that goes.
const AMBIGUOUS_STAGES: [Stage; 5] = [
    Stage {
        edits: &[],
        concluded: &[(Family::Definite, ""), (Family::Support, "")],
    },
    Stage {
        edits: &[
            "add r1: => p",
            "add r2: => -p",
            "add r3: => q",
            "add r4: p => -q",
        ],
        concluded: &AMBIGUOUS_CONCLUDED,
    },
    Stage {
        edits: &["add r1 > r2"],
        concluded: &ABOVE_CONCLUDED,
    },
    Stage {
        edits: &["drop r1 > r2"],
        concluded: &AMBIGUOUS_CONCLUDED,
    },
    Stage {
        edits: &["drop r2"],
        concluded: &[(Family::Blocking, "+d p\n-d -p\n-d q\n-d -q\n")],
    },
];

/// A loop is proved as long as something outside it proves it.
const LOOP_STAGES: [Stage; 2] = [
    Stage {
        edits: &["add r1: p => q", "add r2: q => p", "add f: => p"],
        concluded: &[(Family::Blocking, "+d p\n-d -p\n+d q\n-d -q\n")],
    },
    Stage {
        edits: &["drop f"],
        concluded: &[(Family::Blocking, "?d p\n-d -p\n?d q\n-d -q\n")],
    },
];

/// Facts that contradict each other, and a rule that a fact defeats.
const FACT_STAGES: [Stage; 2] = [
    Stage {
        edits: &["add >> p", "add >> -p"],
        concluded: &[(Family::Blocking, "+d p\n+d -p\n")],
    },
    Stage {
        edits: &["drop >> p", "add r: => p"],
        concluded: &[(Family::Blocking, "-d p\n+d -p\n")],
    },
];

/// Two rules beat their attackers as a team.
const TEAM_STAGES: [Stage; 2] = [
    Stage {
        edits: &[
            "add r1: => p",
            "add r2: => p",
            "add s1: => -p",
            "add s2: => -p",
        ],
        concluded: &[(Family::Blocking, "-d p\n-d -p\n")],
    },
    Stage {
        edits: &["add r1 > s1", "add r2 > s2"],
        concluded: &[(Family::Blocking, "+d p\n-d -p\n")],
    },
];

/// Five rules for `p`, of which three are on and two of these are above the rule for `-p`.
const FIVE: &str =
    ">> a\nr1: c => p\nr2: a => p\nr3: c => p\nr4: a => p\nr5: a => p\ns: => -p\nr2 > s\nr5 > s\n";

/// What is concluded where a rule for `p` is on that is above the one for `-p`.
const P_WINS: [Concluded; 2] = [
    (Family::Blocking, "+d a\n-d -a\n-d c\n-d -c\n+d p\n-d -p\n"),
    (Family::Support, "+s a\n-s -a\n-s c\n-s -c\n+s p\n-s -p\n"),
];

/// What is concluded where a rule for `p` is on, and none that is above the one for `-p`.
const P_TIES: [Concluded; 2] = [
    (Family::Blocking, "+d a\n-d -a\n-d c\n-d -c\n-d p\n-d -p\n"),
    (Family::Support, "+s a\n-s -a\n-s c\n-s -c\n+s p\n+s -p\n"),
];

/// What is concluded where every rule for `p` is off.
const P_LOSES: [Concluded; 2] = [
    (Family::Blocking, "+d a\n-d -a\n-d c\n-d -c\n-d p\n+d -p\n"),
    (Family::Support, "+s a\n-s -a\n-s c\n-s -c\n-s p\n+s -p\n"),
];

/// Rules for `p` go and come, one by one: there are five, then two, five again and at last three. Those that rest on `a` are on, and
/// those that rest on `c` are off.
const FIVE_STAGES: [Stage; 10] = [
    Stage {
        edits: &[],
        concluded: &P_WINS,
    },
    Stage {
        edits: &["drop r2"],
        concluded: &P_WINS,
    },
    Stage {
        edits: &["drop r5"],
        concluded: &P_TIES,
    },
    Stage {
        edits: &["drop r4"],
        concluded: &P_LOSES,
    },
    Stage {
        edits: &["add r6: a => p"],
        concluded: &P_TIES,
    },
    Stage {
        edits: &["add r7: c => p"],
        concluded: &P_TIES,
    },
    Stage {
        edits: &["add r8: c => p"],
        concluded: &P_TIES,
    },
    Stage {
        edits: &["add r6 > s"],
        concluded: &P_WINS,
    },
    Stage {
        edits: &["drop r1"],
        concluded: &P_WINS,
    },
    Stage {
        edits: &["drop r6"],
        concluded: &P_LOSES,
    },
];

const PENGUIN_CONCLUDED: [Concluded; 1] = [(
    Family::Blocking,
    "+d bird\n-d -bird\n-d flies\n+d -flies\n+d penguin\n-d -penguin\n",
)];

/// What is concluded without the pair.
const TIED_CONCLUDED: [Concluded; 1] = [(
    Family::Blocking,
    "+d bird\n-d -bird\n-d flies\n-d -flies\n+d penguin\n-d -penguin\n",
)];

const QUAKER: &str =
    ">> quaker\n>> republican\nr1: quaker => pacifist\nr2: republican => -pacifist\n";

const QUAKER_CONCLUDED: [Concluded; 2] = [
    (
        Family::Blocking,
        "-d pacifist\n-d -pacifist\n+d quaker\n-d -quaker\n+d republican\n-d -republican\n",
    ),
    (
        Family::Support,
        "+s pacifist\n+s -pacifist\n+s quaker\n-s -quaker\n+s republican\n-s -republican\n",
    ),
];

/// Makes an edit of a draft that keeps all families.
pub(crate) fn edit_draft<L: Ledger>(
    rt: &impl Abort,
    draft: &mut Draft,
    edit: &Edit,
    steps: &mut Steps<L>,
) -> Result<(), EditStop>
    ensures { IsWithinCone draft.old.theory draft.old.names edit.now steps.old steps.new }
{
    match draft.families() {
        Families::All => draft.touch(edit, steps),
        Families::One(_) => panic!(rt; "a draft of one family takes no edits"),
    }
}

/// Makes an edit that is accepted.
fn touch<L: Ledger>(
    rt: &impl Abort,
    alloc: Global,
    draft: &mut Draft,
    text: &str,
    steps: &mut Steps<L>,
) {
    let edit = edit_of(rt, alloc, text);
    let touched = edit_draft(rt, draft, &edit, steps);
    assert!(rt; touched.is_ok(), "an edit was not made");
}

fn touch_all<L: Ledger>(
    rt: &impl Abort,
    alloc: Global,
    draft: &mut Draft,
    texts: &[&str],
    steps: &mut Steps<L>,
) {
    for text in texts {
        touch(rt, alloc, draft, text, steps);
    }
}

/// An edition of what the draft stands for, where it keeps all families.
pub(crate) fn edition(alloc: Global, draft: &mut Draft) -> Result<Held, Memory> {
    draft.freeze()?;
    let (net, marks) = draft.share()?;
    match draft.families() {
        Families::All => Held::make(alloc, 0, net, marks),
        Families::One(_) => Err(Memory),
    }
}

/// Compares what a draft concludes with what it is to conclude.
fn expect_draft(rt: &impl Abort, alloc: Global, draft: &mut Draft, concluded: &[Concluded]) {
    let held = edition(alloc, draft).expect(rt, "room");
    expect_concluded(rt, alloc, &held, concluded);
    drop(held);
}

fn expect_concluded(rt: &impl Abort, alloc: Global, held: &Held, concluded: &[Concluded]) {
    for &(family, text) in concluded {
        expect_conclusions(rt, alloc, held, family, text);
    }
}

/// The draft of a theory.
pub(crate) fn saturated<L: Ledger>(
    rt: &impl Abort,
    alloc: Global,
    theory: &Theory,
    steps: &mut Steps<L>,
) -> Draft {
    let net = Net::of(alloc, theory).expect(rt, "room");
    Draft::saturate(alloc, net, Families::All, steps).expect(rt, "room")
}

/// One stage after another, from a theory on.
fn go_through<L: Ledger>(
    rt: &impl Abort,
    alloc: Global,
    theory: &Theory,
    stages: &[Stage],
    blank: Blank,
)
    requires name { blank.name ≡ L.name }
    requires parts { blank.parts ≡ L.parts }
    requires some { 0 < blank.parts }
{
    let mut steps = Steps::<L>::make(blank);
    let mut draft = saturated(rt, alloc, theory, &mut steps);
    for stage in stages {
        touch_all(rt, alloc, &mut draft, stage.edits, &mut steps);
        expect_draft(rt, alloc, &mut draft, stage.concluded);
    }
    drop(draft);
}

fn expect_stages(rt: &impl Abort, alloc: Global, text: &str, stages: &[Stage]) {
    let theory = theory_of(rt, alloc, text);
    go_through::<Brand>(rt, alloc, &theory, stages, Blank::new(1));
    drop(theory);
}

#[test]
fn what_is_concluded_follows_each_edit(rt: HostRuntime) {
    let alloc = rt.alloc();
    expect_stages(&rt, alloc, "", &AMBIGUOUS_STAGES);
    expect_stages(&rt, alloc, "", &LOOP_STAGES);
    expect_stages(&rt, alloc, "", &FACT_STAGES);
    expect_stages(&rt, alloc, "", &TEAM_STAGES);
}

#[test]
fn many_rules_for_a_literal_come_and_go(rt: HostRuntime) {
    expect_stages(&rt, rt.alloc(), FIVE, &FIVE_STAGES);
}

/// Asks for a mark of a tagged literal, and that its opposite has none.
fn expect_mark(rt: &impl Abort, alloc: Global, net: &Graph<'_>, marks: &Marks, text: &str) {
    let tagged = tagged_of(rt, alloc, text);
    let number = net.find(&tagged.literal).expect(rt, "a number");
    assert!(rt; number < marks.len());
    let family = tagged.family;
    let plus = marks.get(Tag { plus: true, family }, number);
    let minus = marks.get(
        Tag {
            plus: false,
            family,
        },
        number,
    );
    assert!(rt; plus == tagged.plus, "another plus mark");
    assert!(rt; minus != tagged.plus, "another minus mark");
}

pub(crate) fn expect_marks(
    rt: &impl Abort,
    alloc: Global,
    net: &Graph<'_>,
    marks: &Marks,
    texts: &[&str],
) {
    for text in texts {
        expect_mark(rt, alloc, net, marks, text);
    }
}

/// The marks of a draft of one family, and of what it shares.
fn expect_alone<L: Ledger>(rt: &impl Abort, alloc: Global, marked: &Marked, steps: &mut Steps<L>) {
    let (family, texts) = marked;
    let net = Net::load(numbered_of(rt, alloc, AMBIGUOUS)).expect(rt, "room");
    let mut draft = Draft::saturate(alloc, net, Families::One(*family), steps).expect(rt, "room");
    expect_marks(rt, alloc, &draft.graph(), draft.marks(), texts);
    draft.freeze().expect(rt, "room");
    let (net, marks) = draft.share().expect(rt, "room");
    drop(draft);
    expect_marks(rt, alloc, &net.graph(), &marks, texts);
}

fn mark_ambiguous<L: Ledger>(rt: &impl Abort, alloc: Global, blank: Blank)
    requires name { blank.name ≡ L.name }
    requires parts { blank.parts ≡ L.parts }
    requires some { 0 < blank.parts }
{
    let mut steps = Steps::<L>::make(blank);
    let theory = theory_of(rt, alloc, AMBIGUOUS);
    let draft = saturated(rt, alloc, &theory, &mut steps);
    for marked in AMBIGUOUS_MARKS.iter() {
        let (_, texts) = marked;
        expect_marks(rt, alloc, &draft.graph(), draft.marks(), texts);
        expect_alone(rt, alloc, marked, &mut steps);
    }
    drop(draft);
}

#[test]
fn each_family_is_marked(rt: HostRuntime) {
    mark_ambiguous::<Brand>(&rt, rt.alloc(), Blank::new(1));
}

/// Whether an edit was refused since its label is there.
pub(crate) fn is_label_there(touched: Result<(), EditStop>) -> bool {
    matches!(touched, Err(EditStop::Refused(EditRefusal::LabelThere(_))))
}

/// An edit of a label that is there is refused, and a draft concludes what it did.
fn refuse<L: Ledger>(rt: &impl Abort, alloc: Global, blank: Blank)
    requires name { blank.name ≡ L.name }
    requires parts { blank.parts ≡ L.parts }
    requires some { 0 < blank.parts }
{
    let mut steps = Steps::<L>::make(blank);
    let theory = theory_of(rt, alloc, QUAKER);
    let mut draft = saturated(rt, alloc, &theory, &mut steps);
    let edit = edit_of(rt, alloc, "add r1: hawk => -dove");
    let there = is_label_there(edit_draft(rt, &mut draft, &edit, &mut steps));
    assert!(rt; there, "not refused");
    expect_draft(rt, alloc, &mut draft, &QUAKER_CONCLUDED);
    drop(draft);
}

#[test]
fn a_refused_edit_changes_nothing(rt: HostRuntime) {
    refuse::<Brand>(&rt, rt.alloc(), Blank::new(1));
}

/// What was shared stays as it was under a later edit of the draft.
fn share<L: Ledger>(rt: &impl Abort, alloc: Global, blank: Blank)
    requires name { blank.name ≡ L.name }
    requires parts { blank.parts ≡ L.parts }
    requires some { 0 < blank.parts }
{
    let mut steps = Steps::<L>::make(blank);
    let theory = theory_of(rt, alloc, PENGUIN);
    let mut draft = saturated(rt, alloc, &theory, &mut steps);
    let before = edition(alloc, &mut draft).expect(rt, "room");
    touch(rt, alloc, &mut draft, "drop r3 > r2", &mut steps);
    expect_concluded(rt, alloc, &before, &PENGUIN_CONCLUDED);
    drop(before);
    expect_draft(rt, alloc, &mut draft, &TIED_CONCLUDED);
    drop(draft);
}

#[test]
fn what_is_shared_stays(rt: HostRuntime) {
    share::<Brand>(&rt, rt.alloc(), Blank::new(1));
}

/// Edits of the penguin's theory that change its facts, its rules and its pairs.
const PENGUIN_EDITS: [&str; 7] = [
    "drop >> penguin",
    "add >> bird",
    "drop r3 > r2",
    "drop r3",
    "add r4: bird => sings",
    "add r3: sings => -flies",
    "add r2 > r3",
];

/// What the penguin's theory answers, by numbers.
fn expect_penguin(rt: &impl Abort, alloc: Global, net: &Graph<'_>, marks: &Marks) {
    assert_eq!(rt; net.facts_len(), 1);
    assert_eq!(rt; net.rules_len(), 3);
    assert_eq!(rt; net.pairs_len(), 1);
    assert!(rt; net.fact(0).is_some() && net.fact(1).is_none());
    assert!(rt; net.has_rule(2) && net.pair(0).is_some());
    expect_marks(rt, alloc, net, marks, &["+d -flies", "-d flies", "+D bird"]);
}

/// What a net answers that was shared twice before the edits of a draft, after each of them.
fn go_on<L: Ledger>(rt: &impl Abort, alloc: Global, blank: Blank)
    requires name { blank.name ≡ L.name }
    requires parts { blank.parts ≡ L.parts }
    requires some { 0 < blank.parts }
{
    let mut steps = Steps::<L>::make(blank);
    let theory = theory_of(rt, alloc, PENGUIN);
    let mut draft = saturated(rt, alloc, &theory, &mut steps);
    draft.freeze().expect(rt, "room");
    let (one, one_marks) = draft.share().expect(rt, "room");
    let (two, two_marks) = draft.share().expect(rt, "room");
    for text in PENGUIN_EDITS.iter() {
        touch(rt, alloc, &mut draft, text, &mut steps);
        expect_penguin(rt, alloc, &one.graph(), &one_marks);
        expect_penguin(rt, alloc, &two.graph(), &two_marks);
    }
    drop(one);
    drop(one_marks);
    expect_penguin(rt, alloc, &two.graph(), &two_marks);
    expect_marks(
        rt,
        alloc,
        &draft.graph(),
        draft.marks(),
        &["-D penguin", "+d flies", "+d sings"],
    );
    drop(draft);
    expect_penguin(rt, alloc, &two.graph(), &two_marks);
}

#[test]
fn a_net_that_two_share_stays_under_edits(rt: HostRuntime) {
    go_on::<Brand>(&rt, rt.alloc(), Blank::new(1));
}
