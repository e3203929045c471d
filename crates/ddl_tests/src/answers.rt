//! What the program answers on words and a theory.

use crate::houses::{Asked, expect, faultless, served, text_under};
use ddl::Status;
use std::alloc::Global;
use std::process::Abort;
use std::sync::Wait;
use std::test::Fail;
use std::thread::Threads;

const CONCLUDE: &[&str] = &["conclude", "D", "t"];

const BLOCKING: &[&str] = &["conclude", "d", "t"];

const PROPAGATING: &[&str] = &["conclude", "a", "t"];

const SUPPORT: &[&str] = &["conclude", "s", "t"];

const PRINT: &[&str] = &["print", "t"];

/// Words and a theory, which is the file `t`, and what comes of them.
#[derive(Clone, Copy)]
struct Row {
    words: &'static [&'static str],
    theory: &'static [u8],
    status: Status,
    text: &'static [u8],
}

fn expect_row<R: Threads + Wait + Sync + Abort>(
    rt: &R,
    alloc: Global,
    row: &Row,
) -> Result<(), Fail> {
    let asked = Asked {
        words: row.words,
        one: faultless("t", row.theory),
        other: faultless("-", b""),
    };
    expect(rt, alloc, asked, row.status, row.text)
}

const FAMILIES: [Row; 12] = [
    Row {
        words: BLOCKING,
        theory: b">> quaker\n>> republican\nr1: quaker => pacifist\nr2: republican => -pacifist\n",
        status: Status::Done,
        text: b"-d pacifist\n-d -pacifist\n+d quaker\n-d -quaker\n+d republican\n-d -republican\n",
    },
    Row {
        words: SUPPORT,
        theory: b">> quaker\n>> republican\nr1: quaker => pacifist\nr2: republican => -pacifist\n",
        status: Status::Done,
        text: b"+s pacifist\n+s -pacifist\n+s quaker\n-s -quaker\n+s republican\n-s -republican\n",
    },
    Row {
        words: BLOCKING,
        theory: b"r1: => p\nr2: => -p\nr3: => q\nr4: p => -q\n",
        status: Status::Done,
        text: b"-d p\n-d -p\n+d q\n-d -q\n",
    },
    Row {
        words: PROPAGATING,
        theory: b"r1: => p\nr2: => -p\nr3: => q\nr4: p => -q\n",
        status: Status::Done,
        text: b"-a p\n-a -p\n-a q\n-a -q\n",
    },
    Row {
        words: SUPPORT,
        theory: b"r1: => p\nr2: => -p\nr3: => q\nr4: p => -q\n",
        status: Status::Done,
        text: b"+s p\n+s -p\n+s q\n+s -q\n",
    },
    Row {
        words: BLOCKING,
        theory: b"r: p => p\n",
        status: Status::Done,
        text: b"?d p\n-d -p\n",
    },
    Row {
        words: BLOCKING,
        theory: b"r1: => p\nr2: ~> -p\n",
        status: Status::Done,
        text: b"-d p\n-d -p\n",
    },
    Row {
        words: BLOCKING,
        theory: b"r1: => p\nr2: => p\ns1: => -p\ns2: => -p\nr1 > s1\nr2 > s2\n",
        status: Status::Done,
        text: b"+d p\n-d -p\n",
    },
    Row {
        words: BLOCKING,
        theory: b">> -p\nr: => p\n",
        status: Status::Done,
        text: b"-d p\n+d -p\n",
    },
    Row {
        words: BLOCKING,
        theory: b">> p\n>> -p\n",
        status: Status::Done,
        text: b"+d p\n+d -p\n",
    },
    Row {
        words: BLOCKING,
        theory: b"r[O]: => pay\n",
        status: Status::Done,
        text: b"+d [O]pay\n-d [O]-pay\n",
    },
    Row {
        words: BLOCKING,
        theory: b"# tax\n>> resident\n>> income\nr1[O]: income => pay_tax\nr2[O]: diplomat => -pay_tax\nr3: ambassador -> diplomat\nr2 > r1\n",
        status: Status::Done,
        text: b"-d ambassador\n-d -ambassador\n-d diplomat\n-d -diplomat\n+d income\n-d -income\n+d [O]pay_tax\n-d [O]-pay_tax\n+d resident\n-d -resident\n",
    },
];

#[test]
fn each_family_concludes_by_its_conditions(rt: HostRuntime) -> Result<(), Fail> {
    for row in FAMILIES.iter() {
        expect_row(&rt, rt.alloc(), row)?;
    }
    Ok(())
}

const FILES: [Row; 14] = [
    Row {
        words: CONCLUDE,
        theory: b">> penguin\nr1: penguin -> bird\nr2: bird -> animal\n",
        status: Status::Done,
        text: b"+D animal\n-D -animal\n+D bird\n-D -bird\n+D penguin\n-D -penguin\n",
    },
    Row {
        words: CONCLUDE,
        theory: b"r: p -> p",
        status: Status::Done,
        text: b"?D p\n-D -p\n",
    },
    Row {
        words: CONCLUDE,
        theory: b"",
        status: Status::Done,
        text: b"",
    },
    Row {
        words: CONCLUDE,
        theory: b"r1: p => q # (X)\n",
        status: Status::Done,
        text: b"-D p\n-D -p\n-D q\n-D -q\n",
    },
    Row {
        words: CONCLUDE,
        theory: b">> p\n>> -p\n",
        status: Status::Done,
        text: b"+D p\n+D -p\n",
    },
    Row {
        words: CONCLUDE,
        theory: b">> a\n>> a\n",
        status: Status::Refused,
        text: b"refused line 2 fact\n",
    },
    Row {
        words: CONCLUDE,
        theory: b"r: -> a\nr: -> b\n",
        status: Status::Refused,
        text: b"refused line 2 label r\n",
    },
    Row {
        words: CONCLUDE,
        theory: b"r1: p(X) => q\n",
        status: Status::Refused,
        text: b"refused line 1 variables\n",
    },
    Row {
        words: CONCLUDE,
        theory: b"# 1\n>> 1\n",
        status: Status::Refused,
        text: b"refused line 2 form\n",
    },
    Row {
        words: CONCLUDE,
        theory: b"r > s\n",
        status: Status::Refused,
        text: b"refused line 1 unknown r\n",
    },
    Row {
        words: PRINT,
        theory: b"r[O]: => pay\n",
        status: Status::Done,
        text: b"r: => [O]pay\n",
    },
    Row {
        words: PRINT,
        theory: b"# notes\r\n  a,b=>-c   # body\r\n>>a\r\nr[O]: -> pay\r\nr > _2\r\n",
        status: Status::Done,
        text: b">> a\n_2: a, b => -c\nr: -> [O]pay\nr > _2\n",
    },
    Row {
        words: PRINT,
        theory: b"r1: => p\nr2: => -p\nr1 > r2\nr2 > r1\n",
        status: Status::Refused,
        text: b"refused line 4 cycle r1 r2\n",
    },
    Row {
        words: PRINT,
        theory: b"r: => p\nr > r\n",
        status: Status::Refused,
        text: b"refused line 2 cycle r\n",
    },
];

#[test]
fn files_are_answered(rt: HostRuntime) -> Result<(), Fail> {
    for row in FILES.iter() {
        expect_row(&rt, rt.alloc(), row)?;
    }
    Ok(())
}

/// A file with an edit in each of its lines, none of which needs the next.
const NOTES: &[u8] = b"# notes\r\n  a,b=>-c   # body\r\n>>a\r\nr[O]: -> pay\r\nr > _2\r\n";

/// A file may end at each of its bytes.
#[test]
fn each_front_of_a_file_is_answered(rt: HostRuntime) -> Result<(), Fail> {
    let alloc = rt.alloc();
    for end in 0..=NOTES.len() {
        let front = NOTES.get(..end).unwrap_or(NOTES);
        let (house, status) = served(&rt, alloc, PRINT, &[faultless("t", front)])?;
        let text = text_under(alloc, &house, "-")?;
        let is_refused = text.as_slice().starts_with(b"refused line ");
        if is_refused {
            assert_eq!(&rt; status, Status::Refused);
        } else {
            assert_eq!(&rt; status, Status::Done);
        }
    }
    Ok(())
}

const CHECK: &[&str] = &["check", "t", "c"];

/// There is no file `c`: to open it would be a fault.
const WITHOUT_CERTIFICATE: [Row; 2] = [
    Row {
        words: CHECK,
        theory: b">> a\n>> 1\n",
        status: Status::Refused,
        text: b"refused line 2 form\n",
    },
    Row {
        words: CHECK,
        theory: b"r: => a\nr > s\n",
        status: Status::Refused,
        text: b"refused line 2 unknown s\n",
    },
];

#[test]
fn no_certificate_is_opened_for_a_bad_theory(rt: HostRuntime) -> Result<(), Fail> {
    for row in WITHOUT_CERTIFICATE.iter() {
        expect_row(&rt, rt.alloc(), row)?;
    }
    Ok(())
}

/// No file is opened: there is none but `t`.
const RUNS: [Row; 3] = [
    Row {
        words: &["gen", "7", "0"],
        theory: b"",
        status: Status::Done,
        text: b"edits accepted 0 refused 0\neditions 1\nfacts 0 rules 0 pairs 0\nD proved 0 refuted 0 neither 0\nd proved 0 refuted 0 neither 0\na proved 0 refuted 0 neither 0\ns proved 0 refuted 0 neither 0\nchecked 0\n",
    },
    Row {
        words: &["gen", "1", "3"],
        theory: b"",
        status: Status::Done,
        text: b"edits accepted 2 refused 1\neditions 1\nfacts 2 rules 9 pairs 5\nD proved 2 refuted 4 neither 0\nd proved 3 refuted 3 neither 0\na proved 3 refuted 3 neither 0\ns proved 5 refuted 1 neither 0\nchecked 24\n",
    },
    // A number of 19 digits.
    Row {
        words: &["gen", "9999999999999999999", "0"],
        theory: b"",
        status: Status::Done,
        text: b"edits accepted 0 refused 0\neditions 1\nfacts 0 rules 0 pairs 0\nD proved 0 refuted 0 neither 0\nd proved 0 refuted 0 neither 0\na proved 0 refuted 0 neither 0\ns proved 0 refuted 0 neither 0\nchecked 0\n",
    },
];

#[test]
fn runs_of_numbers_are_summed_up(rt: HostRuntime) -> Result<(), Fail> {
    for row in RUNS.iter() {
        expect_row(&rt, rt.alloc(), row)?;
    }
    Ok(())
}

const USAGE: &[u8] =
    b"usage: ddl conclude F FILE, print FILE, check THEORY CERT, gen N SIZE, serve THEORY NAME [NAME ...]\n";

const NO_FORM: [&[&str]; 12] = [
    &[],
    &["conclude", "x", "t"],
    &["conclude", "D"],
    &["conclude", "D", ""],
    &["print", ""],
    &["--help"],
    &["gen", "7", "4097"],
    &["gen", "07", "1"],
    &["gen", "7"],
    &["gen", "7", "1", "1"],
    &["gen", "-1", "2"],
    &["gen", "18446744073709551616", "1"],
];

#[test]
fn words_of_no_form_get_the_usage_line(rt: HostRuntime) -> Result<(), Fail> {
    for words in NO_FORM.iter() {
        let row = Row {
            words,
            theory: b"",
            status: Status::Usage,
            text: USAGE,
        };
        expect_row(&rt, rt.alloc(), &row)?;
    }
    Ok(())
}
