//! Sessions and journals that are cut off: each read, write and flush that can fail does so once.

use crate::houses::{File, faultless, served, text_under};
use ddl::Status;
use dl_io::MemoryHouse;
use std::alloc::Global;
use std::process::Abort;
use std::sync::Wait;
use std::test::Fail;
use std::thread::Threads;

const INPUT: &[u8] = b"add r: => p\npublish\nhold 0\ndrop r\npublish\nask 0 d p\nask 1 d p\nquit\n";

/// The replies to the requests of the input, in order, and the entries that they make.
const REQUESTS: [(&[u8], &[u8]); 7] = [
    (b"ok\n", b"0 | add r: => p | ok\n"),
    (b"edition 0\n", b"0 | publish | edition 0\n"),
    (b"holding 0\n", b"0 | hold 0 | holding 0\n"),
    (b"ok\n", b"0 | drop r | ok\n"),
    (b"edition 1\n", b"0 | publish | edition 1\n"),
    (b"proved 2\n-D -p\n+d p\n", b""),
    (b"refuted 2\n-D p\n-d p\n", b"0 | hold 1 | holding 1\n"),
];

/// The replies to so many requests.
fn replies_to(alloc: Global, count: usize) -> Result<Vec<u8>, Fail> {
    let mut replies = Vec::new(alloc);
    for (reply, _) in REQUESTS.iter().take(count) {
        replies.extend_from_slice(reply)?;
    }
    Ok(replies)
}

/// The journal of a session that ends so after so many requests.
fn journal_of(alloc: Global, count: usize, end: &[u8]) -> Result<Vec<u8>, Fail> {
    let mut journal = b"0 | enrol | enrolled 0\n".to_vec(alloc)?;
    for (_, entry) in REQUESTS.iter().take(count) {
        journal.extend_from_slice(entry)?;
    }
    journal.extend_from_slice(end)?;
    Ok(journal)
}

/// Whether the session has replied to so many requests, been cut off there, and handed on no more than that.
fn has_read(alloc: Global, house: &MemoryHouse, count: usize) -> Result<bool, Fail> {
    let journal = journal_of(alloc, count, b"session 0 read fault\n")?;
    let is_told = text_under(alloc, house, "-")?.as_slice() == journal.as_slice();
    let replies = replies_to(alloc, count)?;
    Ok(is_told && text_under(alloc, house, "a.out")?.as_slice() == replies.as_slice())
}

/// The input gives a line at each read. The first read that fails is the last.
#[test]
fn each_read_that_fails_ends_its_session(rt: HostRuntime) -> Result<(), Fail> {
    let alloc = rt.alloc();
    for call in 0..8usize {
        let input = File {
            by_lines: true,
            read_fails: &[call],
            ..faultless("a", INPUT)
        };
        let files = [faultless("t", b""), input];
        let (house, status) = served(&rt, alloc, &["serve", "t", "a"], &files)?;
        assert_eq!(&rt; status, Status::Fault);
        assert!(&rt; has_read(alloc, &house, call)?);
    }
    Ok(())
}

/// Whether the session was cut off at the reply to the request behind so many others: nothing is lacking but bytes of that reply.
fn has_written(alloc: Global, house: &MemoryHouse, count: usize) -> Result<bool, Fail> {
    let served = count.saturating_add(1);
    let journal = journal_of(alloc, served, b"session 0 write fault\n")?;
    let is_told = text_under(alloc, house, "-")?.as_slice() == journal.as_slice();
    let output = text_under(alloc, house, "a.out")?;
    let has_others = output
        .as_slice()
        .starts_with(replies_to(alloc, count)?.as_slice());
    let is_front = replies_to(alloc, served)?
        .as_slice()
        .starts_with(output.as_slice());
    Ok(is_told && has_others && is_front)
}

/// Whether it was cut off at one of the requests.
fn has_written_some(alloc: Global, house: &MemoryHouse) -> Result<bool, Fail> {
    for count in 0..7usize {
        if has_written(alloc, house, count)? {
            return Ok(true);
        }
    }
    Ok(false)
}

/// How the program ends where this call of the output fails, and its house then.
fn written<R: Threads + Wait + Sync>(
    rt: &R,
    alloc: Global,
    call: usize,
) -> Result<(MemoryHouse, Status), Fail> {
    let output = File {
        write_fails: &[call],
        ..faultless("a.out", b"")
    };
    let files = [faultless("t", b""), faultless("a", INPUT), output];
    served(rt, alloc, &["serve", "t", "a"], &files)
}

/// More calls than a session of the input makes of its output, or than the journals below take.
const MOST_CALLS: usize = 80;

#[test]
fn each_write_or_flush_that_fails_ends_its_session(rt: HostRuntime) -> Result<(), Fail> {
    let alloc = rt.alloc();
    for call in 0..MOST_CALLS {
        let (house, status) = written(&rt, alloc, call)?;
        if status == Status::Done {
            // no call has this number
            assert!(&rt; 20 < call);
            let replies = replies_to(alloc, 7)?;
            assert!(&rt; text_under(alloc, &house, "a.out")?.as_slice() == replies.as_slice());
            return Ok(());
        }
        assert_eq!(&rt; status, Status::Fault);
        assert!(&rt; has_written_some(alloc, &house)?);
    }
    Err("a session makes fewer calls".into())
}

/// The second session makes no entry but its enrolment, so their order is told.
const TWO: &[u8] =
    b"0 | enrol | enrolled 0\n1 | enrol | enrolled 1\n0 | publish | edition 0\n0 | drop zz | refused unknown zz\nsession 0 done\nsession 1 done\n";

/// Two sessions, where this call of standard output fails.
fn printed<R: Threads + Wait + Sync>(
    rt: &R,
    alloc: Global,
    call: usize,
) -> Result<(MemoryHouse, Status), Fail> {
    let journal = File {
        write_fails: &[call],
        ..faultless("-", b"")
    };
    let files = [
        faultless("t", b""),
        faultless("a", b"publish\ndrop zz\n"),
        faultless("b", b"hello\n"),
        journal,
    ];
    served(rt, alloc, &["serve", "t", "a", "b"], &files)
}

fn expect_outputs<R: Abort>(rt: &R, alloc: Global, house: &MemoryHouse) -> Result<(), Fail> {
    let first = text_under(alloc, house, "a.out")?;
    assert_eq!(rt;
        first.as_slice(),
        b"edition 0\nrefused unknown zz\n".as_slice()
    );
    let second = text_under(alloc, house, "b.out")?;
    assert_eq!(rt; second.as_slice(), b"refused form\n".as_slice());
    Ok(())
}

/// The sessions have ended by then: their outputs are whole.
#[test]
fn a_journal_that_is_cut_off_is_a_front(rt: HostRuntime) -> Result<(), Fail> {
    let alloc = rt.alloc();
    for call in 0..MOST_CALLS {
        let (house, status) = printed(&rt, alloc, call)?;
        let journal = text_under(alloc, &house, "-")?;
        expect_outputs(&rt, alloc, &house)?;
        if status == Status::Done {
            // no call has this number
            assert!(&rt; 20 < call && journal.as_slice() == TWO);
            return Ok(());
        }
        assert_eq!(&rt; status, Status::Fault);
        assert!(&rt; TWO.starts_with(journal.as_slice()) && journal.as_slice() != TWO);
    }
    Err("a journal takes fewer calls".into())
}

/// The output of the first fails at its first call. The second one's requests are served all the same.
#[test]
fn a_session_that_fails_leaves_the_others(rt: HostRuntime) -> Result<(), Fail> {
    let alloc = rt.alloc();
    let failing = File {
        write_fails: &[0],
        ..faultless("a.out", b"")
    };
    let files = [
        faultless("t", b">> p\n"),
        faultless("a", b"hello\npublish\n"),
        faultless("b", b"publish\ntext 0\n"),
        failing,
    ];
    let (house, status) = served(&rt, alloc, &["serve", "t", "a", "b"], &files)?;
    assert_eq!(&rt; status, Status::Fault);
    assert!(&rt; text_under(alloc, &house, "a.out")?.is_empty());
    let replies = text_under(alloc, &house, "b.out")?;
    assert_eq!(&rt;
        replies.as_slice(),
        b"edition 0\nlines 1\n>> p\n".as_slice()
    );
    let journal = text_under(alloc, &house, "-")?;
    let told =
        b"0 | enrol | enrolled 0\n1 | enrol | enrolled 1\n1 | publish | edition 0\n1 | hold 0 | holding 0\nsession 0 write fault\nsession 1 done\n";
    assert_eq!(&rt; journal.as_slice(), told.as_slice());
    Ok(())
}
