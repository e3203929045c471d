//! The lines of entries.

use crate::texts::{edit_of, sink};
use dl_calls::{Call, Entry, Reply, write_entry, write_reply};
use dl_lit::Name;
use dl_theory::{EditRefusal, Path};
use std::alloc::Global;
use std::process::Abort;

/// The journal's line of an entry.
pub(crate) fn line_of(rt: &impl Abort, alloc: Global, entry: &Entry) -> Vec<u8> {
    let mut line = sink(alloc);
    let wrote = write_entry(&mut line, entry);
    assert!(rt; wrote.is_ok());
    line.bytes().to_vec(alloc).expect(rt, "room for a line")
}

fn expect_line(rt: &impl Abort, alloc: Global, seat: u64, call: Call, reply: Reply, line: &str) {
    let entry = Entry { seat, call, reply };
    assert!(rt; line_of(rt, alloc, &entry).as_slice() == line.as_bytes());
}

/// The line of an edit that a seat made.
fn expect_edit(rt: &impl Abort, alloc: Global, seat: u64, edit: &str, reply: Reply, line: &str) {
    let call = Call::Edit(edit_of(rt, alloc, edit));
    expect_line(rt, alloc, seat, call, reply, line);
}

fn path_of(rt: &impl Abort, alloc: Global, labels: &[&str]) -> Path {
    let mut path = Path::make(alloc);
    for label in labels {
        let name = Name::make(alloc, label.as_bytes()).expect(rt, "a name");
        let pushed = path.push(name);
        assert!(rt; pushed.is_ok());
    }
    path
}

fn cycle(rt: &impl Abort, alloc: Global) -> Reply {
    let path = path_of(rt, alloc, &["s", "t", "r"]);
    Reply::EditRefused(EditRefusal::Cycle(path))
}

fn expect_edits(rt: &impl Abort, alloc: Global) {
    let made = Reply::Edited;
    expect_edit(rt, alloc, 0, "add r: => p", made, "0 | add r: => p | ok\n");
    let line = "12 | add r > s | refused cycle s t r\n";
    expect_edit(rt, alloc, 12, "add r > s", cycle(rt, alloc), line);
    let label = Name::make(alloc, b"r").expect(rt, "a name");
    let missing = Reply::EditRefused(EditRefusal::NoLabel(label));
    let line = "1 | drop r | refused unknown r\n";
    expect_edit(rt, alloc, 1, "drop r", missing, line);
}

fn expect_holds(rt: &impl Abort, alloc: Global) {
    let holding = Reply::Holding(0);
    let line = "1 | hold 0 | holding 0\n";
    expect_line(rt, alloc, 1, Call::Hold(0), holding, line);
    let none = Reply::Unpublished {
        asked: 2,
        published: 2,
    };
    let line = "0 | hold 2 | refused unpublished 2 of 2\n";
    expect_line(rt, alloc, 0, Call::Hold(2), none, line);
}

#[test]
fn entries_have_their_lines(rt: HostRuntime) {
    let alloc = rt.alloc();
    let line = "0 | enrol | enrolled 0\n";
    expect_line(&rt, alloc, 0, Call::Enrol, Reply::Enrolled(0), line);
    let line = "0 | publish | edition 0\n";
    expect_line(&rt, alloc, 0, Call::Publish, Reply::Edition(0), line);
    expect_edits(&rt, alloc);
    expect_holds(&rt, alloc);
}

fn expect_words(rt: &impl Abort, alloc: Global, reply: &Reply, words: &str) {
    let mut line = sink(alloc);
    assert!(rt; write_reply(&mut line, reply).is_ok());
    assert!(rt; line.bytes() == words.as_bytes());
}

#[test]
fn replies_have_their_words(rt: HostRuntime) {
    let alloc = rt.alloc();
    expect_words(&rt, alloc, &Reply::Edited, "ok");
    expect_words(&rt, alloc, &cycle(&rt, alloc), "refused cycle s t r");
    let none = Reply::Unpublished {
        asked: 1,
        published: 0,
    };
    expect_words(&rt, alloc, &none, "refused unpublished 1 of 0");
}
