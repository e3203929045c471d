//! What lines of a session ask for.

use dl_io::{Failed, MemorySink, write_all};
use dl_lit::{Family, Memory};
use dl_print::{write_edit, write_literal, write_number};
use dl_request::{Asked, Request, read_request};
use std::alloc::Global;

fn write_family(sink: &mut MemorySink, family: Family) -> Result<(), Failed> {
    match family {
        Family::Definite => write_all(sink, b" D"),
        Family::Blocking => write_all(sink, b" d"),
        Family::Propagating => write_all(sink, b" a"),
        Family::Support => write_all(sink, b" s"),
    }
}

fn write_request(sink: &mut MemorySink, request: &Request) -> Result<(), Failed> {
    match request {
        Request::Edit(edit) => write_edit(sink, edit),
        Request::Publish => write_all(sink, b"publish"),
        Request::Hold(edition) => {
            write_all(sink, b"hold ")?;
            write_number(sink, *edition)
        }
        Request::Ask {
            edition,
            family,
            literal,
        } => {
            write_all(sink, b"ask ")?;
            write_number(sink, *edition)?;
            write_family(sink, *family)?;
            write_all(sink, b" ")?;
            write_literal(sink, literal)
        }
        Request::Text { edition } => {
            write_all(sink, b"text ")?;
            write_number(sink, *edition)
        }
        Request::Conclusions { edition, family } => {
            write_all(sink, b"conclusions ")?;
            write_number(sink, *edition)?;
            write_family(sink, *family)
        }
    }
}

fn write_asked(sink: &mut MemorySink, asked: &Result<Asked, Memory>) -> Result<(), Failed> {
    match asked {
        Ok(Asked::Nothing) => write_all(sink, b"nothing"),
        Ok(Asked::Quit) => write_all(sink, b"quit"),
        Ok(Asked::Request(request)) => write_request(sink, request),
        Ok(Asked::Variables) => write_all(sink, b"refused variables"),
        Ok(Asked::Form) => write_all(sink, b"refused form"),
        Err(Memory) => write_all(sink, b"memory"),
    }
}

fn shown(alloc: Global, line: &[u8]) -> MemorySink {
    let mut sink = MemorySink::make(alloc, Vec::new(alloc));
    let asked = read_request(alloc, line);
    let _ = write_asked(&mut sink, &asked);
    sink
}

/// A line, and what it asks for.
type Row = (&'static [u8], &'static [u8]);

const SKIPPED_OR_LAST: [Row; 7] = [
    (b"", b"nothing"),
    (b" \t\r", b"nothing"),
    (b"# notes (on p)", b"nothing"),
    (b"quit\r", b"quit"),
    (b"  quit  # now", b"quit"),
    (b"quit#", b"quit"),
    (b"quit\r\r", b"refused form"),
];

const REQUESTS: [Row; 15] = [
    (b"add >>p", b"add >> p"),
    (b"add r: p,q=>-s", b"add r: p, q => -s"),
    (b"add a > b # upper first", b"add a > b"),
    (b"drop >> p", b"drop >> p"),
    (b"\tdrop\tr\r", b"drop r"),
    (b"publish", b"publish"),
    (b"publish # it", b"publish"),
    (b"hold 0#x", b"hold 0"),
    (b"hold 9999999999999999999", b"hold 9999999999999999999"),
    (b"ask 0 d p # c", b"ask 0 d p"),
    (b"ask 12\tD\t[O]-pay", b"ask 12 D [O]-pay"),
    (b"ask 1 a p#(", b"ask 1 a p"),
    (b"text 3", b"text 3"),
    (b"conclusions 1 s", b"conclusions 1 s"),
    (b" conclusions  10  a ", b"conclusions 10 a"),
];

const REFUSED: [Row; 20] = [
    (b"hello", b"refused form"),
    (b"add => p", b"refused form"),
    (b"add", b"refused form"),
    (b"drop>> p", b"refused form"),
    (b"add r: p(X) => q", b"refused variables"),
    (b"add r: p(X) => q # (", b"refused variables"),
    (b"hello(", b"refused variables"),
    (b"quit now", b"refused form"),
    (b"quit(now)", b"refused variables"),
    (b"publish x", b"refused form"),
    (b"hold", b"refused form"),
    (b"hold 007", b"refused form"),
    (b"hold +7", b"refused form"),
    (b"hold 10000000000000000000", b"refused form"),
    (b"hold 0 1", b"refused form"),
    (b"ask 0 x p", b"refused form"),
    (b"ask 0 d", b"refused form"),
    (b"ask 0d p", b"refused form"),
    (b"conclusions 1", b"refused form"),
    (b"text 1 s", b"refused form"),
];

#[test]
fn lines_are_skipped_or_end_the_session(rt: HostRuntime) {
    for (line, asked) in SKIPPED_OR_LAST.iter() {
        let sink = shown(rt.alloc(), line);
        assert!(rt; sink.bytes() == *asked);
    }
}

#[test]
fn lines_make_requests(rt: HostRuntime) {
    for (line, asked) in REQUESTS.iter() {
        let sink = shown(rt.alloc(), line);
        assert!(rt; sink.bytes() == *asked);
    }
}

#[test]
fn other_lines_are_refused(rt: HostRuntime) {
    for (line, asked) in REFUSED.iter() {
        let sink = shown(rt.alloc(), line);
        assert!(rt; sink.bytes() == *asked);
    }
}
