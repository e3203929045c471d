//! Certificates that are checked.

use crate::houses::{Asked, expect, faultless};
use ddl::Status;
use std::alloc::Global;
use std::process::Abort;
use std::sync::Wait;
use std::test::Fail;
use std::thread::Threads;

const PENGUIN: &[u8] =
    b">> penguin\nr1: penguin -> bird\nr2: bird => flies\nr3: penguin => -flies\nr3 > r2\n";

const LOOP: &[u8] = b"r: p => p\n";

/// A theory and a certificate, which are the files `t` and `c`, and what comes of checking it.
type Row = (&'static [u8], &'static [u8], Status, &'static [u8]);

const ROWS: [Row; 11] = [
    (
        PENGUIN,
        b"derivation\n+D penguin\n+d penguin\n-D flies\n+d -flies\n",
        Status::Done,
        b"accepted\n",
    ),
    (
        PENGUIN,
        b"derivation\n+d penguin\n+D penguin\n-D flies\n+d -flies\n",
        Status::Rejected,
        b"rejected 2\n",
    ),
    (
        PENGUIN,
        b"derivation\n+D penguin\n+d penguin\n-D flies\n",
        Status::Done,
        b"accepted\n",
    ),
    (
        PENGUIN,
        b"derivation\n+D penguin\n+D penguin\n-D flies\n+d -flies\n",
        Status::Rejected,
        b"rejected 3\n",
    ),
    (PENGUIN, b"derivation\n", Status::Rejected, b"rejected 2\n"),
    (PENGUIN, b"derivation", Status::Rejected, b"rejected 2\n"),
    (
        PENGUIN,
        b"derivation\n+D",
        Status::Rejected,
        b"rejected 2\n",
    ),
    (PENGUIN, b"", Status::Rejected, b"rejected 1\n"),
    (
        LOOP,
        b"gap\n+D p\n+d p\n-d p\n+D -p\n+d -p\n",
        Status::Done,
        b"accepted\n",
    ),
    (
        LOOP,
        b"gap\n+D p\n+d p\n-d p\n+d -p\n",
        Status::Rejected,
        b"rejected 4\n",
    ),
    (
        b">> 1\n",
        b"gap\n",
        Status::Refused,
        b"refused line 1 form\n",
    ),
];

fn expect_row<R: Threads + Wait + Sync + Abort>(
    rt: &R,
    alloc: Global,
    row: &Row,
) -> Result<(), Fail> {
    let (theory, certificate, status, text) = *row;
    let asked = Asked {
        words: &["check", "t", "c"],
        one: faultless("t", theory),
        other: faultless("c", certificate),
    };
    expect(rt, alloc, asked, status, text)
}

#[test]
fn certificates_are_checked(rt: HostRuntime) -> Result<(), Fail> {
    for row in ROWS.iter() {
        expect_row(&rt, rt.alloc(), row)?;
    }
    Ok(())
}
