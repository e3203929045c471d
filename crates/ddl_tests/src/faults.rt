//! Reads and writes that fail, and files that are not there.

use crate::houses::{Asked, File, expect, faultless};
use ddl::Status;
use std::alloc::Global;
use std::process::Abort;
use std::sync::Wait;
use std::test::Fail;
use std::thread::Threads;

/// Words, the bytes of the file `t`, the calls at which reads of it fail, those at which writes to standard output or flushes of it do,
/// and the text that standard output has then.
#[derive(Clone, Copy)]
struct Row {
    words: &'static [&'static str],
    theory: &'static [u8],
    read_fails: &'static [usize],
    write_fails: &'static [usize],
    text: &'static [u8],
}

const PRINT: &[&str] = &["print", "t"];

const CONCLUDE: &[&str] = &["conclude", "D", "t"];

const ROWS: [Row; 6] = [
    // No file of that name.
    Row {
        words: &["print", "u"],
        theory: b"",
        read_fails: &[],
        write_fails: &[],
        text: b"",
    },
    // No theory, and a file in the place of the certificate.
    Row {
        words: &["check", "u", "t"],
        theory: b"",
        read_fails: &[],
        write_fails: &[],
        text: b"",
    },
    // A theory, and no certificate.
    Row {
        words: &["check", "t", "u"],
        theory: b">> a\n",
        read_fails: &[],
        write_fails: &[],
        text: b"",
    },
    // The second read fails.
    Row {
        words: PRINT,
        theory: b">> a\n",
        read_fails: &[1],
        write_fails: &[],
        text: b"",
    },
    // The second write fails: what was written stays.
    Row {
        words: PRINT,
        theory: b">> a\n",
        read_fails: &[],
        write_fails: &[1],
        text: b">> ",
    },
    // The same of a run, which reads nothing.
    Row {
        words: &["gen", "7", "0"],
        theory: b"",
        read_fails: &[0],
        write_fails: &[1],
        text: b"edits accepted ",
    },
];

/// What is written reaches standard output at a flush. There is one behind the last write, whether that failed or not.
const FLUSHES: [Row; 4] = [
    // The usage line is one write.
    Row {
        words: &[],
        theory: b"",
        read_fails: &[],
        write_fails: &[1],
        text: b"",
    },
    // So are a few conclusions together.
    Row {
        words: CONCLUDE,
        theory: b">> a\n",
        read_fails: &[],
        write_fails: &[1],
        text: b"",
    },
    // Nothing is written.
    Row {
        words: CONCLUDE,
        theory: b"",
        read_fails: &[],
        write_fails: &[0],
        text: b"",
    },
    // The second write fails, and then the flush.
    Row {
        words: PRINT,
        theory: b">> a\n",
        read_fails: &[],
        write_fails: &[1, 2],
        text: b"",
    },
];

fn expect_fault<R: Threads + Wait + Sync + Abort>(
    rt: &R,
    alloc: Global,
    row: &Row,
) -> Result<(), Fail> {
    let theory = File {
        read_fails: row.read_fails,
        ..faultless("t", row.theory)
    };
    let output = File {
        write_fails: row.write_fails,
        ..faultless("-", b"")
    };
    let asked = Asked {
        words: row.words,
        one: theory,
        other: output,
    };
    expect(rt, alloc, asked, Status::Fault, row.text)
}

#[test]
fn a_fault_is_a_fault(rt: HostRuntime) -> Result<(), Fail> {
    for row in ROWS.iter() {
        expect_fault(&rt, rt.alloc(), row)?;
    }
    Ok(())
}

#[test]
fn a_flush_that_fails_hands_nothing_on(rt: HostRuntime) -> Result<(), Fail> {
    for row in FLUSHES.iter() {
        expect_fault(&rt, rt.alloc(), row)?;
    }
    Ok(())
}
