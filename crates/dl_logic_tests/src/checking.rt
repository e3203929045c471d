//! Certificates of small theories, accepted or rejected at the first bad line.

use dl_check::{CertStop, CheckStop, Checker, Flaw, read_certificate};
use dl_lit::Memory;
use dl_read::read_file;
use dl_theory::{Certificate, Theory};
use std::alloc::Global;
use std::process::Abort;

/// The line at which a certificate is rejected, if it is.
fn rejected_line(
    alloc: Global,
    theory: &Theory,
    certificate: &[u8],
) -> Result<Option<u64>, Memory> {
    let checker = Checker::make(alloc, theory)?;
    let checked = match read_certificate(alloc, certificate) {
        Ok(Certificate::Derivation(list)) => checker.check_derivation(&list),
        Ok(Certificate::Gap(list)) => checker.check_gap(&list),
        Err(CertStop::BadLine { line }) => return Ok(Some(line)),
        Err(CertStop::Memory) => return Err(Memory),
    };
    match checked {
        Ok(()) => Ok(None),
        Err(CheckStop::Rejected(Flaw::Empty)) => Ok(Some(2)),
        Err(CheckStop::Rejected(Flaw::Repeat { at })) => Ok(Some((at as u64).wrapping_add(2))),
        Err(CheckStop::Rejected(Flaw::Step { at })) => Ok(Some((at as u64).wrapping_add(2))),
        Err(CheckStop::Memory) => Err(Memory),
    }
}

const PENGUIN: &[u8] =
    b">> penguin\nr1: penguin -> bird\nr2: bird => flies\nr3: penguin => -flies\nr3 > r2\n";

const LOOP: &[u8] = b"r: p => p\n";

/// A theory, a certificate, and the line at which it is rejected.
type Row = (&'static [u8], &'static [u8], Option<u64>);

const ROWS: [Row; 14] = [
    (
        PENGUIN,
        b"derivation\n+D penguin\n+d penguin\n-D flies\n+d -flies\n",
        None,
    ),
    (
        PENGUIN,
        b"derivation\n+d penguin\n+D penguin\n-D flies\n+d -flies\n",
        Some(2),
    ),
    (
        PENGUIN,
        b"derivation\n+D penguin\n+d penguin\n-D flies\n",
        None,
    ),
    (
        PENGUIN,
        b"derivation\n+D penguin\n+D penguin\n-D flies\n+d -flies\n",
        Some(3),
    ),
    (PENGUIN, b"derivation\n", Some(2)),
    (PENGUIN, b"", Some(1)),
    (
        PENGUIN,
        b"derivation\r\n+D penguin\r\n+d penguin\r\n-D flies\r\n+d -flies",
        None,
    ),
    (PENGUIN, b"derivation\n+D penguin\n\n-D flies\n", Some(3)),
    (
        PENGUIN,
        b"derivation\n+D penguin\n+d penguin # fact\n",
        Some(3),
    ),
    (PENGUIN, b"derivation\n+D penguin\n\r", Some(3)),
    (PENGUIN, b"proof\n+D penguin\n", Some(1)),
    (LOOP, b"gap\n+D p\n+d p\n-d p\n+D -p\n+d -p\n", None),
    (LOOP, b"gap\n+D p\n+d p\n-d p\n+d -p\n", Some(4)),
    (LOOP, b"gap\n+D p\n+D p\n", Some(3)),
];

fn expect_row(rt: &impl Abort, alloc: Global, row: &Row) {
    let (text, certificate, line) = *row;
    match read_file(alloc, text) {
        Ok(theory) => assert!(rt; rejected_line(alloc, &theory, certificate) == Ok(line)),
        Err(_) => assert!(rt; false),
    }
}

#[test]
fn certificates_are_rejected_at_the_first_bad_line(rt: HostRuntime) {
    for row in ROWS.iter() {
        expect_row(&rt, rt.alloc(), row);
    }
}
