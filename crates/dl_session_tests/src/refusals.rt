//! Lines that are refused, for their form or by the theory.

use crate::serving::{expect_journal, expect_replies};

#[test]
fn refused_edits_have_their_words(rt: HostRuntime) {
    let theory = ">> p\nr1: => q\nr2: => -q\nr1 > r2\n";
    let input =
        b"add r1: => s\ndrop zz\nadd >> p\nadd r1 > r2\nadd r2 > r1\ndrop >> q\ndrop r2 > r1\nadd r1 > zz\npublish\ntext 0\n";
    let replies =
        "refused label r1\nrefused unknown zz\nrefused fact\nrefused pair\nrefused cycle r1 r2\nrefused nofact\nrefused nopair\nrefused unknown zz\nedition 0\nlines 4\n>> p\nr1: => q\nr2: => -q\nr1 > r2\n";
    expect_replies(&rt, rt.alloc(), theory, input, replies);
}

#[test]
fn refused_edits_are_entries(rt: HostRuntime) {
    let input =
        "add r1: => s\ndrop zz\nadd >> p\nadd r1 > r2\nadd r2 > r1\ndrop >> q\ndrop r2 > r1\nadd r1 > zz\n";
    let replies =
        "refused label r1\nrefused unknown zz\nrefused fact\nrefused pair\nrefused cycle r1 r2\nrefused nofact\nrefused nopair\nrefused unknown zz\n";
    let journal =
        "0 | enrol | enrolled 0\n0 | add r1: => s | refused label r1\n0 | drop zz | refused unknown zz\n0 | add >> p | refused fact\n0 | add r1 > r2 | refused pair\n0 | add r2 > r1 | refused cycle r1 r2\n0 | drop >> q | refused nofact\n0 | drop r2 > r1 | refused nopair\n0 | add r1 > zz | refused unknown zz\n";
    expect_journal(
        &rt,
        rt.alloc(),
        ">> p\nr1: => q\nr2: => -q\nr1 > r2\n",
        input,
        replies,
        journal,
    );
}

#[test]
fn lines_that_are_no_requests_are_refused(rt: HostRuntime) {
    let input = "hello\nadd => p\nask 0 x p\nhold 007\n\nadd r: p(X) => q\n";
    let replies = "refused form\nrefused form\nrefused form\nrefused form\nrefused variables\n";
    expect_journal(
        &rt,
        rt.alloc(),
        "",
        input,
        replies,
        "0 | enrol | enrolled 0\n",
    );
}

#[test]
fn a_bracket_is_refused_before_a_comment_only(rt: HostRuntime) {
    let input = b"add r: p(X) => q # (\nadd r: p => q # (X)\nhello (\nquit (\n";
    let replies = "refused variables\nok\nrefused variables\nrefused variables\n";
    expect_replies(&rt, rt.alloc(), "", input, replies);
}

#[test]
fn comments_and_bytes_of_names(rt: HostRuntime) {
    let replies = "edition 0\nrefused form\nholding 0\n";
    let input = b"publish # \xff\ndrop \xff\nhold 0";
    expect_replies(&rt, rt.alloc(), "", input, replies);
}

#[test]
fn lines_of_blanks_and_comments_have_no_reply(rt: HostRuntime) {
    let input = "\n \t\n# publish\n \r\n\r\n\tpublish\t# twice\r\n#\n";
    expect_journal(
        &rt,
        rt.alloc(),
        "",
        input,
        "edition 0\n",
        "0 | enrol | enrolled 0\n0 | publish | edition 0\n",
    );
}

#[test]
fn numbers_are_spelled_plainly(rt: HostRuntime) {
    let input =
        b"hold 0#x\nhold 10000000000000000000\nhold 9999999999999999999\nhold\nask 0 d\ntext 0 x\nhold00\nhold -1\n";
    let replies =
        "refused unpublished 0 of 0\nrefused form\nrefused unpublished 9999999999999999999 of 0\nrefused form\nrefused form\nrefused form\nrefused form\nrefused form\n";
    expect_replies(&rt, rt.alloc(), "", input, replies);
}
