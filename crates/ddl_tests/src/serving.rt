//! Sessions under a name, from the bytes of their input to their output, their journal and their ends.

use crate::houses::{File, faultless, served, served_words, text_under};
use ddl::Status;
use std::alloc::Global;
use std::process::Abort;
use std::sync::Wait;
use std::test::Fail;
use std::thread::Threads;

/// A theory, the input of a session, and what comes of them: how the program ends, the output, and standard output.
#[derive(Clone, Copy)]
struct Row {
    theory: &'static [u8],
    input: &'static [u8],
    status: Status,
    output: &'static [u8],
    journal: &'static [u8],
}

/// The calls that fail: reads of the theory, reads of the input, writes and flushes of the output, and those of standard output.
#[derive(Clone, Copy)]
struct Faults {
    theory: &'static [usize],
    input: &'static [usize],
    output: &'static [usize],
    journal: &'static [usize],
}

const NO_FAULTS: Faults = Faults {
    theory: &[],
    input: &[],
    output: &[],
    journal: &[],
};

fn expect_row<R: Threads + Wait + Sync + Abort>(
    rt: &R,
    alloc: Global,
    row: &Row,
    faults: &Faults,
) -> Result<(), Fail> {
    let files = [
        File {
            read_fails: faults.theory,
            ..faultless("t", row.theory)
        },
        File {
            read_fails: faults.input,
            ..faultless("a", row.input)
        },
        File {
            write_fails: faults.output,
            ..faultless("a.out", b"an earlier output")
        },
        File {
            write_fails: faults.journal,
            ..faultless("-", b"")
        },
    ];
    let (house, status) = served(rt, alloc, &["serve", "t", "a"], &files)?;
    assert_eq!(rt; text_under(alloc, &house, "a.out")?.as_slice(), row.output);
    assert_eq!(rt; text_under(alloc, &house, "-")?.as_slice(), row.journal);
    assert_eq!(rt; status, row.status);
    Ok(())
}

const EDITIONS: Row = Row {
    theory: b"",
    input: b"add r: => p\npublish\nhold 0\ndrop r\npublish\nask 0 d p\nask 1 d p\nquit\n",
    status: Status::Done,
    output: b"ok\nedition 0\nholding 0\nok\nedition 1\nproved 2\n-D -p\n+d p\nrefuted 2\n-D p\n-d p\n",
    journal: b"0 | enrol | enrolled 0\n0 | add r: => p | ok\n0 | publish | edition 0\n0 | hold 0 | holding 0\n0 | drop r | ok\n0 | publish | edition 1\n0 | hold 1 | holding 1\nsession 0 done\n",
};

const ROWS: [Row; 6] = [
    EDITIONS,
    // A question about an edition that is not there, and one about a literal that no statement has.
    Row {
        theory: b">> p\n",
        input: b"publish\npublish\nask 5 d p\nask 1 d zz\n",
        status: Status::Done,
        output: b"edition 0\nedition 1\nrefused unpublished 5 of 2\nrefuted 2\n-D zz\n-d zz\n",
        journal: b"0 | enrol | enrolled 0\n0 | publish | edition 0\n0 | publish | edition 1\n0 | hold 5 | refused unpublished 5 of 2\n0 | hold 1 | holding 1\nsession 0 done\n",
    },
    // A loop is neither proved nor refuted.
    Row {
        theory: b"r: p => p\n",
        input: b"publish\nask 0 d p\n",
        status: Status::Done,
        output: b"edition 0\nneither 5\n+D p\n+d p\n-d p\n+D -p\n+d -p\n",
        journal: b"0 | enrol | enrolled 0\n0 | publish | edition 0\n0 | hold 0 | holding 0\nsession 0 done\n",
    },
    // A loop loses the rule that fed it.
    Row {
        theory: b"r1: p => q\nr2: q => p\nf: => p\n",
        input: b"publish\nconclusions 0 d\ndrop f\npublish\nconclusions 1 d\n",
        status: Status::Done,
        output: b"edition 0\nlines 4\n+d p\n-d -p\n+d q\n-d -q\nok\nedition 1\nlines 4\n?d p\n-d -p\n?d q\n-d -q\n",
        journal: b"0 | enrol | enrolled 0\n0 | publish | edition 0\n0 | hold 0 | holding 0\n0 | drop f | ok\n0 | publish | edition 1\n0 | hold 1 | holding 1\nsession 0 done\n",
    },
    // Each refusal stands in the journal too.
    Row {
        theory: b">> p\nr1: => q\nr2: => -q\nr1 > r2\n",
        input: b"add r1: => s\ndrop zz\nadd >> p\nadd r1 > r2\nadd r2 > r1\ndrop >> q\ndrop r2 > r1\nadd r1 > zz\npublish\ntext 0\n",
        status: Status::Done,
        output: b"refused label r1\nrefused unknown zz\nrefused fact\nrefused pair\nrefused cycle r1 r2\nrefused nofact\nrefused nopair\nrefused unknown zz\nedition 0\nlines 4\n>> p\nr1: => q\nr2: => -q\nr1 > r2\n",
        journal: b"0 | enrol | enrolled 0\n0 | add r1: => s | refused label r1\n0 | drop zz | refused unknown zz\n0 | add >> p | refused fact\n0 | add r1 > r2 | refused pair\n0 | add r2 > r1 | refused cycle r1 r2\n0 | drop >> q | refused nofact\n0 | drop r2 > r1 | refused nopair\n0 | add r1 > zz | refused unknown zz\n0 | publish | edition 0\n0 | hold 0 | holding 0\nsession 0 done\n",
    },
    // An edition stays as it was published.
    Row {
        theory: b">> penguin\nr1: penguin -> bird\nr2: bird => flies\nr3: penguin => -flies\nr3 > r2\n",
        input: b"publish\ndrop r3 > r2\npublish\nconclusions 1 d\nconclusions 0 d\n",
        status: Status::Done,
        output: b"edition 0\nok\nedition 1\nlines 6\n+d bird\n-d -bird\n-d flies\n-d -flies\n+d penguin\n-d -penguin\nlines 6\n+d bird\n-d -bird\n-d flies\n+d -flies\n+d penguin\n-d -penguin\n",
        journal: b"0 | enrol | enrolled 0\n0 | publish | edition 0\n0 | drop r3 > r2 | ok\n0 | publish | edition 1\n0 | hold 1 | holding 1\n0 | hold 0 | holding 0\nsession 0 done\n",
    },
];

#[test]
fn a_session_has_its_replies_and_its_journal(rt: HostRuntime) -> Result<(), Fail> {
    for row in ROWS.iter() {
        expect_row(&rt, rt.alloc(), row, &NO_FAULTS)?;
    }
    Ok(())
}

/// The theory is refused, and no session is served.
const REFUSED: Row = Row {
    theory: b"r1: p(X) => q\n",
    input: b"publish\n",
    status: Status::Refused,
    output: b"",
    journal: b"refused line 1 variables\n",
};

#[test]
fn no_session_begins_from_a_bad_theory(rt: HostRuntime) -> Result<(), Fail> {
    expect_row(&rt, rt.alloc(), &REFUSED, &NO_FAULTS)
}

/// The theory cannot be read, so there is no journal.
const UNREAD: Row = Row {
    theory: b">> p\n",
    input: b"publish\n",
    status: Status::Fault,
    output: b"",
    journal: b"",
};

/// The input fails behind its first line.
const UNREAD_INPUT: Row = Row {
    theory: b"",
    input: b"publish\npublish",
    status: Status::Fault,
    output: b"edition 0\n",
    journal: b"0 | enrol | enrolled 0\n0 | publish | edition 0\nsession 0 read fault\n",
};

/// The second line of the output is not written.
const UNWRITTEN: Row = Row {
    theory: b"",
    input: b"publish\nhello\npublish\n",
    status: Status::Fault,
    output: b"edition 0\n",
    journal: b"0 | enrol | enrolled 0\n0 | publish | edition 0\nsession 0 write fault\n",
};

/// The journal is cut behind its first piece.
const CUT: Row = Row {
    theory: b"",
    input: b"publish\n",
    status: Status::Fault,
    output: b"edition 0\n",
    journal: b"0",
};

#[test]
fn a_fault_ends_a_session_or_the_program(rt: HostRuntime) -> Result<(), Fail> {
    let alloc = rt.alloc();
    expect_row(
        &rt,
        alloc,
        &UNREAD,
        &Faults {
            theory: &[0],
            ..NO_FAULTS
        },
    )?;
    expect_row(
        &rt,
        alloc,
        &UNREAD_INPUT,
        &Faults {
            input: &[1],
            ..NO_FAULTS
        },
    )?;
    expect_row(
        &rt,
        alloc,
        &UNWRITTEN,
        &Faults {
            output: &[4],
            ..NO_FAULTS
        },
    )?;
    expect_row(
        &rt,
        alloc,
        &CUT,
        &Faults {
            journal: &[1],
            ..NO_FAULTS
        },
    )
}

#[test]
fn a_name_that_is_not_there_stops_the_program_before_its_sessions(
    rt: HostRuntime,
) -> Result<(), Fail> {
    let alloc = rt.alloc();
    let files = [faultless("t", b">> p\n")];
    let (house, status) = served(&rt, alloc, &["serve", "t", "a"], &files)?;
    assert!(&rt; text_under(alloc, &house, "a.out")?.is_empty());
    assert!(&rt; text_under(alloc, &house, "-")?.is_empty());
    assert_eq!(&rt; status, Status::Fault);
    Ok(())
}

/// Words that ask for no sessions: too few names, an empty one, one that comes twice, and one that is the output of another.
const NO_SESSIONS: [&[&str]; 10] = [
    &["serve"],
    &["serve", "t"],
    &["serve", "", "a"],
    &["serve", "t", ""],
    &["serve", "a", "a"],
    &["serve", "a.out", "a"],
    &["serve", "t", "a", "a"],
    &["serve", "t", "a", "b", "a"],
    &["serve", "t", "a", "a.out"],
    &["serve", "t", "a.out", "a"],
];

#[test]
fn sessions_have_names_of_their_own(rt: HostRuntime) -> Result<(), Fail> {
    let alloc = rt.alloc();
    let files = [faultless("t", b""), faultless("a", b"publish\n")];
    for words in NO_SESSIONS.iter() {
        let (house, status) = served(&rt, alloc, words, &files)?;
        assert!(&rt; text_under(alloc, &house, "a.out")?.is_empty());
        assert_eq!(&rt; status, Status::Usage);
    }
    Ok(())
}

/// The words that ask for so many sessions, under the names `0`, `1` and so on.
fn words_for(alloc: Global, count: u64) -> Result<Vec<String>, Fail> {
    let mut words = vec![in alloc;
        String::from_str(alloc, "serve")?,
        String::from_str(alloc, "t")?,
    ]?;
    for number in 0..count {
        words.push(format!(in alloc; "{number}")?)?;
    }
    Ok(words)
}

/// The first name is not there, which shows only where names are looked for.
#[test]
fn there_are_at_most_64_sessions(rt: HostRuntime) -> Result<(), Fail> {
    let alloc = rt.alloc();
    let files = [faultless("t", b"")];
    let (_, most) = served_words(&rt, alloc, &words_for(alloc, 64)?, &files)?;
    assert_eq!(&rt; most, Status::Fault);
    let (_, too_many) = served_words(&rt, alloc, &words_for(alloc, 65)?, &files)?;
    assert_eq!(&rt; too_many, Status::Usage);
    Ok(())
}

const PUBLICATIONS: &[u8] = b"publish\npublish\npublish\n";

/// Each session publishes three editions of one draft. The input of the first fails behind its third line.
#[test]
fn sessions_publish_one_sequence_of_editions(rt: HostRuntime) -> Result<(), Fail> {
    let alloc = rt.alloc();
    let cut = File {
        read_fails: &[1],
        ..faultless("a", PUBLICATIONS)
    };
    let files = [faultless("t", b""), cut, faultless("b", PUBLICATIONS)];
    let (house, status) = served(&rt, alloc, &["serve", "t", "a", "b"], &files)?;
    let mut replies = text_under(alloc, &house, "a.out")?;
    replies.extend_from_slice(text_under(alloc, &house, "b.out")?.as_slice())?;
    assert_eq!(&rt; replies.len(), 6 * b"edition 0\n".len());
    for digit in b'0'..b'6' {
        assert_eq!(&rt; replies.iter().filter(|byte| **byte == digit).count(), 1);
    }
    let journal = text_under(alloc, &house, "-")?;
    assert!(&rt;
        journal
            .as_slice()
            .ends_with(b"session 0 read fault\nsession 1 done\n")
    );
    assert_eq!(&rt; status, Status::Fault);
    Ok(())
}
