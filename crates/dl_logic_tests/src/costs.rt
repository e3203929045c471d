//! What edits of a draft cost, and many edits of a large theory.

ghost use Rattle.std.specs.Prelude.{◌≡◌, ◌+◌, ◌<◌, ◌≤◌, Contains};
ghost use Rattle.dl_lit.specs.declared.literal.Literal.{Literal};
ghost use Rattle.dl_lit.specs.Literal.{complement};
ghost use Rattle.dl_theory.specs.Listings.{Mentions};
ghost use Rattle.dl_update.specs.Bound.{IsWithinCone};
ghost use Rattle.dl_logic_tests.specs.Costs.{two_rules, fact_a, rule_c, pair_apart, rule_again};

use crate::drafts::{edit_draft, expect_marks, is_label_there, saturated};
use crate::texts::{edit_of, theory_of};
use dl_marks::Steps;
use dl_theory::{Edit, EditStop};
use dl_update::Draft;
use std::alloc::Global;
use std::marker::Brand;
use std::process::Abort;
use std::sync::ledger::{Blank, Ledger};

const TWO_RULES: &str = "r1: => a\nr2: => b\n";

/// How many rules the large theory has, in a chain.
const RULES: u64 = 100_000;

/// How often a fact comes and goes.
const ROUNDS: u64 = 20_000;

/// Makes an edit, and shows what numbers there were before.
fn touch_known<L: Ledger>(
    rt: &impl Abort,
    draft: &mut Draft,
    edit: &Edit,
    steps: &mut Steps<L>,
) -> Result<(), EditStop>
    ensures mentioned { (q : Literal) → Mentions draft.old.theory q → Contains draft.old.names q }
    ensures complements { (q : Literal) → Contains draft.old.names q → Contains draft.old.names (complement q) }
    ensures steps { IsWithinCone draft.old.theory draft.old.names edit.now steps.old steps.new }
{
    let _names = draft.graph().names();
    edit_draft(rt, draft, edit, steps)
}

/// A fact that two rules do not use: two literals are written anew.
fn add_fact<L: Ledger>(
    rt: &impl Abort,
    draft: &mut Draft,
    edit: &Edit,
    steps: &mut Steps<L>,
) -> Result<(), EditStop>
    ensures { draft.old.theory ≡ two_rules → edit.now ≡ fact_a → steps.new ≤ steps.old + 32 }
{
    touch_known(rt, draft, edit, steps)
}

/// A rule for a literal that may be new.
fn add_rule<L: Ledger>(
    rt: &impl Abort,
    draft: &mut Draft,
    edit: &Edit,
    steps: &mut Steps<L>,
) -> Result<(), EditStop>
    ensures { draft.old.theory ≡ two_rules → edit.now ≡ rule_c → steps.new ≤ steps.old + 48 }
{
    touch_known(rt, draft, edit, steps)
}

/// A pair of rules whose heads do not attack each other: nothing is written.
fn add_pair<L: Ledger>(
    rt: &impl Abort,
    draft: &mut Draft,
    edit: &Edit,
    steps: &mut Steps<L>,
) -> Result<(), EditStop>
    ensures { draft.old.theory ≡ two_rules → edit.now ≡ pair_apart → steps.new ≤ steps.old }
{
    touch_known(rt, draft, edit, steps)
}

/// A rule whose label is there: nothing is written.
fn add_again<L: Ledger>(
    rt: &impl Abort,
    draft: &mut Draft,
    edit: &Edit,
    steps: &mut Steps<L>,
) -> Result<(), EditStop>
    ensures { draft.old.theory ≡ two_rules → edit.now ≡ rule_again → steps.new ≤ steps.old }
{
    touch_known(rt, draft, edit, steps)
}

/// The draft of the two rules.
fn two<L: Ledger>(rt: &impl Abort, alloc: Global, steps: &mut Steps<L>) -> Draft {
    let theory = theory_of(rt, alloc, TWO_RULES);
    let draft = saturated(rt, alloc, &theory, steps);
    drop(theory);
    draft
}

fn cost<L: Ledger>(rt: &impl Abort, alloc: Global, blank: Blank)
    requires name { blank.name ≡ L.name }
    requires parts { blank.parts ≡ L.parts }
    requires some { 0 < blank.parts }
{
    let mut steps = Steps::<L>::make(blank);
    let mut draft = two(rt, alloc, &mut steps);
    let fact = add_fact(rt, &mut draft, &edit_of(rt, alloc, "add >> a"), &mut steps);
    assert!(rt; fact.is_ok());
    drop(draft);
    let mut draft = two(rt, alloc, &mut steps);
    let rule = add_rule(
        rt,
        &mut draft,
        &edit_of(rt, alloc, "add r3: => c"),
        &mut steps,
    );
    assert!(rt; rule.is_ok());
    drop(draft);
    let mut draft = two(rt, alloc, &mut steps);
    let again = add_again(
        rt,
        &mut draft,
        &edit_of(rt, alloc, "add r1: => a"),
        &mut steps,
    );
    assert!(rt; is_label_there(again));
    let pair = add_pair(
        rt,
        &mut draft,
        &edit_of(rt, alloc, "add r1 > r2"),
        &mut steps,
    );
    assert!(rt; pair.is_ok());
    assert!(rt; draft.graph().pairs_len() == 1);
    drop(draft);
}

#[test]
fn an_edit_costs_its_cone(rt: HostRuntime) {
    cost::<Brand>(&rt, rt.alloc(), Blank::new(1));
}

/// Rules in a chain, of which the first needs nothing.
fn chain(rt: &impl Abort, alloc: Global) -> String {
    let mut text = String::from_str(alloc, "r0: => p0\n").expect(rt, "room");
    for number in 1..RULES {
        let before = number - 1;
        let line = format!(in alloc; "r{number}: p{before} => p{number}\n").expect(rt, "room");
        text.push_str(line.as_str()).expect(rt, "room");
    }
    text
}

/// A fact that no rule uses comes and goes.
fn come_and_go<L: Ledger>(rt: &impl Abort, alloc: Global, draft: &mut Draft, steps: &mut Steps<L>) {
    let come = edit_of(rt, alloc, "add >> z");
    let go = edit_of(rt, alloc, "drop >> z");
    for _ in 0..ROUNDS {
        let came = edit_draft(rt, draft, &come, steps);
        assert!(rt; came.is_ok());
        let went = edit_draft(rt, draft, &go, steps);
        assert!(rt; went.is_ok());
    }
}

/// The theory is as it was, and the end of the chain is proved.
fn expect_chain(rt: &impl Abort, alloc: Global, draft: &mut Draft) {
    draft.freeze().expect(rt, "room");
    let (net, marks) = draft.share().expect(rt, "room");
    assert!(rt; net.graph().rules_len() as u64 == RULES);
    assert!(rt; net.graph().facts_len() == 0);
    expect_marks(rt, alloc, &net.graph(), &marks, &["+d p99999"]);
    drop(marks);
    drop(net);
}

fn edit_often<L: Ledger>(rt: &impl Abort, alloc: Global, blank: Blank)
    requires name { blank.name ≡ L.name }
    requires parts { blank.parts ≡ L.parts }
    requires some { 0 < blank.parts }
{
    let mut steps = Steps::<L>::make(blank);
    let text = chain(rt, alloc);
    let theory = theory_of(rt, alloc, text.as_str());
    drop(text);
    let mut draft = saturated(rt, alloc, &theory, &mut steps);
    drop(theory);
    come_and_go(rt, alloc, &mut draft, &mut steps);
    expect_chain(rt, alloc, &mut draft);
    drop(draft);
}

#[test]
fn many_edits_of_a_large_theory(rt: HostRuntime) {
    edit_often::<Brand>(&rt, rt.alloc(), Blank::new(1));
}
