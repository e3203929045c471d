//! Lines at the limit of their length.

use crate::serving::{expect_replies, run_session, sink_of, source_of};
use std::alloc::Global;
use std::process::Abort;

/// These words, so many letters, and a tail.
fn long_line(rt: &impl Abort, alloc: Global, words: &[u8], letters: usize, tail: &[u8]) -> Vec<u8> {
    let mut input = words.to_vec(alloc).expect(rt, "bytes");
    for _ in 0..letters {
        input.push(b'x').expect(rt, "bytes");
    }
    input.extend_from_slice(tail).expect(rt, "bytes");
    input
}

#[test]
fn a_line_may_have_65536_bytes(rt: HostRuntime) {
    let alloc = rt.alloc();
    let input = long_line(&rt, alloc, b"drop ", 65_531, b"\npublish\n");
    let replies = long_line(&rt, alloc, b"refused unknown ", 65_531, b"\nedition 0\n");
    let source = source_of(&rt, alloc, input.as_slice(), &[]);
    let outcome = run_session(&rt, alloc, "", source, sink_of(&rt, alloc, &[]));
    assert!(&rt; outcome.replies.bytes() == replies.as_slice());
}

#[test]
fn a_longer_line_is_refused(rt: HostRuntime) {
    let alloc = rt.alloc();
    let input = long_line(&rt, alloc, b"drop ", 65_532, b"\npublish\n");
    expect_replies(
        &rt,
        alloc,
        "",
        input.as_slice(),
        "refused long\nedition 0\n",
    );
}

#[test]
fn a_cr_and_a_comment_are_counted(rt: HostRuntime) {
    let alloc = rt.alloc();
    let fits = long_line(&rt, alloc, b"quit#", 65_530, b"\r\npublish\n");
    expect_replies(&rt, alloc, "", fits.as_slice(), "");
    let long = long_line(&rt, alloc, b"quit#", 65_531, b"\r\npublish\n");
    expect_replies(&rt, alloc, "", long.as_slice(), "refused long\nedition 0\n");
    let comment = long_line(&rt, alloc, b"#", 65_536, b"\npublish\n");
    expect_replies(
        &rt,
        alloc,
        "",
        comment.as_slice(),
        "refused long\nedition 0\n",
    );
}

#[test]
fn a_long_last_line_is_refused(rt: HostRuntime) {
    let alloc = rt.alloc();
    let input = long_line(&rt, alloc, b"publish\n", 200_000, b"");
    expect_replies(
        &rt,
        alloc,
        "",
        input.as_slice(),
        "edition 0\nrefused long\n",
    );
}
