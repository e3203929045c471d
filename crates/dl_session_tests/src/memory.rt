//! Want of memory for a request. With ample memory there is none: `rt try --test --fail-alloc N` has the Nth allocation of a test fail.

use crate::serving::{run_session, sink_of, source_of};
use dl_session::End;
use std::process::Abort;

const MEMORY: &[u8] = b"memory\n";

const REQUESTS: &str =
    "publish\npublish\ntext 0\nask 0 d p\nconclusions 0 d\nhold 0\nhello\nadd r: => q\ndrop zz\npublish\nquit\n";

/// The replies to each, where at most one allocation fails. After a publication without memory the next one has its number.
const REPLIES: [&[&str]; 10] = [
    &["edition 0\n"],
    &["edition 1\n", "edition 0\n"],
    &["lines 1\n>> p\n"],
    &["proved 2\n+D p\n+d p\n"],
    &["lines 2\n+d p\n-d -p\n"],
    &["holding 0\n"],
    &["refused form\n"],
    &["ok\n"],
    &["refused unknown zz\n"],
    &["edition 2\n", "edition 1\n"],
];

/// How long the reply is that these begin with, if it is one of these or `memory`.
fn length_of(replies: &[u8], allowed: &[&str]) -> Option<usize> {
    for reply in allowed {
        if replies.starts_with(reply.as_bytes()) {
            return Some(reply.len());
        }
    }
    if replies.starts_with(MEMORY) {
        return Some(MEMORY.len());
    }
    None
}

/// What follows behind the reply, if it is one of these or `memory`.
fn behind<'a>(replies: &'a [u8], allowed: &[&str]) -> Option<&'a [u8]> {
    let length = length_of(replies, allowed)?;
    replies.get(length..)
}

fn expect_all(rt: &impl Abort, replies: &[u8]) {
    let mut rest = replies;
    for allowed in REPLIES {
        match behind(rest, allowed) {
            Some(later) => rest = later,
            None => panic!(rt; "another reply"),
        }
    }
    assert!(rt; rest.is_empty());
}

#[test]
fn each_reply_is_its_own_or_memory(rt: HostRuntime) {
    let alloc = rt.alloc();
    let source = source_of(&rt, alloc, REQUESTS.as_bytes(), &[]);
    let outcome = run_session(&rt, alloc, ">> p\n", source, sink_of(&rt, alloc, &[]));
    // the sink takes memory too
    if outcome.end != End::WriteFault {
        expect_all(&rt, outcome.replies.bytes());
        assert!(&rt; outcome.end == End::Done);
    }
}
