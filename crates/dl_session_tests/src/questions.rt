//! What editions answer.

use crate::serving::expect_replies;

#[test]
fn gaps_are_written(rt: HostRuntime) {
    let replies = "edition 0\nneither 5\n+D p\n+d p\n-d p\n+D -p\n+d -p\n";
    expect_replies(
        &rt,
        rt.alloc(),
        "r: p => p\n",
        b"publish\nask 0 d p\n",
        replies,
    );
}

#[test]
fn conclusions_are_those_of_their_edition(rt: HostRuntime) {
    let theory = "r1: p => q\nr2: q => p\nf: => p\n";
    let input = b"publish\nconclusions 0 d\ndrop f\npublish\nconclusions 1 d\n";
    let replies =
        "edition 0\nlines 4\n+d p\n-d -p\n+d q\n-d -q\nok\nedition 1\nlines 4\n?d p\n-d -p\n?d q\n-d -q\n";
    expect_replies(&rt, rt.alloc(), theory, input, replies);
}

#[test]
fn an_old_edition_stays(rt: HostRuntime) {
    let theory =
        ">> penguin\nr1: penguin -> bird\nr2: bird => flies\nr3: penguin => -flies\nr3 > r2\n";
    let input = b"publish\ndrop r3 > r2\npublish\nconclusions 1 d\nconclusions 0 d\n";
    let replies =
        "edition 0\nok\nedition 1\nlines 6\n+d bird\n-d -bird\n-d flies\n-d -flies\n+d penguin\n-d -penguin\nlines 6\n+d bird\n-d -bird\n-d flies\n+d -flies\n+d penguin\n-d -penguin\n";
    expect_replies(&rt, rt.alloc(), theory, input, replies);
}

#[test]
fn each_family_has_its_conclusions(rt: HostRuntime) {
    let theory = ">> quaker\n>> republican\nr1: quaker => pacifist\nr2: republican => -pacifist\n";
    let input = b"publish\nconclusions 0 d\nconclusions 0 s\nconclusions 0 D\n";
    let replies =
        "edition 0\nlines 6\n-d pacifist\n-d -pacifist\n+d quaker\n-d -quaker\n+d republican\n-d -republican\nlines 6\n+s pacifist\n+s -pacifist\n+s quaker\n-s -quaker\n+s republican\n-s -republican\nlines 6\n-D pacifist\n-D -pacifist\n+D quaker\n-D -quaker\n+D republican\n-D -republican\n";
    expect_replies(&rt, rt.alloc(), theory, input, replies);
}
