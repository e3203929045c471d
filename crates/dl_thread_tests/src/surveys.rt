//! What surveys count.

ghost use Rattle.std.specs.Prelude.{◌≡◌, ◌<◌};

use dl_edition::Held;
use dl_gen::{Counts, survey};
use dl_lit::{Literal, Name};
use dl_marks::Steps;
use dl_net::Net;
use dl_read::read_file;
use dl_theory::{Edit, Theory};
use dl_update::{Draft, Families};
use std::alloc::Global;
use std::marker::Brand;
use std::process::Abort;
use std::sync::ledger::{Blank, Ledger};
use std::thread::Threads;

/// How many literals are proved, refuted and neither: in definite, blocking, propagating and support.
type Numbers = [[u64; 3]; 4];

const PENGUIN: &[u8] =
    b">> penguin\nr1: penguin -> bird\nr2: bird => flies\nr3: penguin => -flies\nr3 > r2\n";

const QUAKER: &[u8] =
    b">> quaker\n>> republican\nr1: quaker => pacifist\nr2: republican => -pacifist\n";

const LOOP: &[u8] = b"r: p => p\n";

const FOUNDED_LOOP: &[u8] = b"r1: p => q\nr2: q => p\nf: => p\n";

const UNFOUNDED_LOOP: &[u8] = b"r1: p => q\nr2: q => p\n";

/// A theory, what is counted of it, and how many answers are checked.
type Row = (&'static [u8], Numbers, usize);

const ROWS: [Row; 6] = [
    (PENGUIN, [[2, 4, 0], [3, 3, 0], [3, 3, 0], [3, 3, 0]], 24),
    (QUAKER, [[2, 4, 0], [2, 4, 0], [2, 4, 0], [4, 2, 0]], 24),
    (LOOP, [[0, 2, 0], [0, 1, 1], [0, 1, 1], [0, 1, 1]], 8),
    (
        FOUNDED_LOOP,
        [[0, 4, 0], [2, 2, 0], [2, 2, 0], [2, 2, 0]],
        16,
    ),
    (
        UNFOUNDED_LOOP,
        [[0, 4, 0], [0, 2, 2], [0, 2, 2], [0, 2, 2]],
        16,
    ),
    (b"", [[0, 0, 0], [0, 0, 0], [0, 0, 0], [0, 0, 0]], 0),
];

/// The edition of a theory.
fn edition_of<L: Ledger>(rt: &impl Abort, alloc: Global, theory: &Theory, blank: Blank) -> Held
    requires name { blank.name ≡ L.name }
    requires parts { blank.parts ≡ L.parts }
    requires some { 0 < blank.parts }
    ensures { result.theory ≡ theory.now }
{
    let mut steps = Steps::<L>::make(blank);
    let net = Net::of(alloc, theory).expect(rt, "a net");
    let mut draft = Draft::saturate(alloc, net, Families::All, &mut steps).expect(rt, "a draft");
    draft.freeze().expect(rt, "room");
    let (net, marks) = draft.share().expect(rt, "room");
    Held::make(alloc, 0, net, marks).expect(rt, "an edition")
}

fn is_counted(counts: Counts, numbers: [u64; 3]) -> bool {
    counts.proved == numbers[0] && counts.refuted == numbers[1] && counts.neither == numbers[2]
}

fn expect_survey<R: Threads + Abort + Sync>(
    rt: &R,
    alloc: Global,
    theory: &Theory,
    numbers: &Numbers,
    checked: usize,
) {
    let held = edition_of::<Brand>(rt, alloc, theory, Blank::new(1));
    let found = survey(rt, alloc, &held, theory).expect(rt, "a survey");
    assert!(rt; is_counted(found.definite, numbers[0]));
    assert!(rt; is_counted(found.blocking, numbers[1]));
    assert!(rt; is_counted(found.propagating, numbers[2]));
    assert!(rt; is_counted(found.support, numbers[3]));
    assert!(rt; found.checked.len() == checked);
    drop(found);
    drop(held);
}

#[test]
fn each_verdict_is_counted(rt: HostRuntime) {
    for (text, numbers, checked) in &ROWS {
        let theory = match read_file(rt.alloc(), text) {
            Ok(theory) => theory,
            Err(_) => panic!(rt; "no theory"),
        };
        expect_survey(&rt, rt.alloc(), &theory, numbers, *checked);
        drop(theory);
    }
}

/// A theory with this many facts.
fn with_facts(rt: &impl Abort, alloc: Global, count: u64) -> Theory {
    let mut theory = Theory::make(alloc);
    for number in 0..count {
        let name = format!(in alloc; "p{number}").expect(rt, "room");
        let fact = Literal {
            mode: None,
            atom: Name::make(alloc, name.as_bytes()).expect(rt, "a name"),
            positive: true,
        };
        let added = theory.apply(&Edit::AddFact(fact));
        assert!(rt; added.is_ok());
    }
    theory
}

/// As many literals as several threads share.
#[test]
fn literals_of_all_threads_are_counted(rt: HostRuntime) {
    let theory = with_facts(&rt, rt.alloc(), 100);
    expect_survey(&rt, rt.alloc(), &theory, &[[100, 100, 0]; 4], 800);
    drop(theory);
}
