//! Edits, editions, and which of them a session holds.

use crate::serving::{expect_journal, expect_replies};

/// Requests that publish two editions, hold the first by name and the second by a question.
pub(crate) const TWO_EDITIONS: &str =
    "add r: => p\npublish\nhold 0\ndrop r\npublish\nask 0 d p\nask 1 d p\nquit\n";

pub(crate) const TWO_EDITIONS_REPLIES: &str =
    "ok\nedition 0\nholding 0\nok\nedition 1\nproved 2\n-D -p\n+d p\nrefuted 2\n-D p\n-d p\n";

#[test]
fn editions_are_held_once(rt: HostRuntime) {
    let journal =
        "0 | enrol | enrolled 0\n0 | add r: => p | ok\n0 | publish | edition 0\n0 | hold 0 | holding 0\n0 | drop r | ok\n0 | publish | edition 1\n0 | hold 1 | holding 1\n";
    expect_journal(
        &rt,
        rt.alloc(),
        "",
        TWO_EDITIONS,
        TWO_EDITIONS_REPLIES,
        journal,
    );
}

#[test]
fn questions_about_no_edition_are_holds(rt: HostRuntime) {
    let input = "publish\npublish\nask 5 d p\nask 1 d zz\n";
    let replies = "edition 0\nedition 1\nrefused unpublished 5 of 2\nrefuted 2\n-D zz\n-d zz\n";
    let journal =
        "0 | enrol | enrolled 0\n0 | publish | edition 0\n0 | publish | edition 1\n0 | hold 5 | refused unpublished 5 of 2\n0 | hold 1 | holding 1\n";
    expect_journal(&rt, rt.alloc(), ">> p\n", input, replies, journal);
}

#[test]
fn each_question_about_no_edition_is_a_hold(rt: HostRuntime) {
    let input = "text 0\nconclusions 0 s\nask 0 a p\npublish\ntext 0\nconclusions 0 s\n";
    let replies =
        "refused unpublished 0 of 0\nrefused unpublished 0 of 0\nrefused unpublished 0 of 0\nedition 0\nlines 0\nlines 0\n";
    let journal =
        "0 | enrol | enrolled 0\n0 | hold 0 | refused unpublished 0 of 0\n0 | hold 0 | refused unpublished 0 of 0\n0 | hold 0 | refused unpublished 0 of 0\n0 | publish | edition 0\n0 | hold 0 | holding 0\n";
    expect_journal(&rt, rt.alloc(), "", input, replies, journal);
}

#[test]
fn each_hold_is_an_entry(rt: HostRuntime) {
    let input = "publish\nhold 0\nhold 0\ntext 0\n";
    let replies = "edition 0\nholding 0\nholding 0\nlines 1\n>> p\n";
    let journal =
        "0 | enrol | enrolled 0\n0 | publish | edition 0\n0 | hold 0 | holding 0\n0 | hold 0 | holding 0\n";
    expect_journal(&rt, rt.alloc(), ">> p\n", input, replies, journal);
}

#[test]
fn editions_are_found_in_any_order(rt: HostRuntime) {
    let input =
        "publish\nadd >> a\npublish\nadd >> b\npublish\nadd >> c\npublish\nhold 2\ntext 0\ntext 3\ntext 1\ntext 2\n";
    let replies =
        "edition 0\nok\nedition 1\nok\nedition 2\nok\nedition 3\nholding 2\nlines 0\nlines 3\n>> a\n>> b\n>> c\nlines 1\n>> a\nlines 2\n>> a\n>> b\n";
    expect_replies(&rt, rt.alloc(), "", input.as_bytes(), replies);
}

#[test]
fn edits_have_their_entries(rt: HostRuntime) {
    let input =
        "add >>p\nadd r : [O]p , -q=>-s# a rule\nadd q: ~> s\nadd r>q\ndrop r>q\ndrop >> p\ndrop q\n";
    let replies = "ok\nok\nok\nok\nok\nok\nok\n";
    let journal =
        "0 | enrol | enrolled 0\n0 | add >> p | ok\n0 | add r: [O]p, -q => -s | ok\n0 | add q: ~> s | ok\n0 | add r > q | ok\n0 | drop r > q | ok\n0 | drop >> p | ok\n0 | drop q | ok\n";
    expect_journal(&rt, rt.alloc(), "", input, replies, journal);
}
