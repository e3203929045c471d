//! Lines read from a source.

use dl_io::{Call, Failed, MemorySource, RawMemorySource, Source, SystemSource};
use dl_lines::{Ending, LONGEST_LINE, LineReader, MOST_BYTES, Next};
use std::alloc::Global;
use std::process::Abort;

fn reader(rt: &impl Abort, alloc: Global) -> LineReader {
    LineReader::make(alloc).expect(rt, "room")
}

/// So many bytes `x`, and then more.
fn xs(rt: &impl Abort, alloc: Global, count: usize, more: &[u8]) -> Vec<u8> {
    let mut bytes = vec![in alloc; b'x'; count].expect(rt, "bytes");
    bytes.extend_from_slice(more).expect(rt, "bytes");
    bytes
}

/// A source whose reads of these numbers fail.
fn source(rt: &impl Abort, alloc: Global, bytes: &[u8], fails: &[usize]) -> MemorySource {
    let bytes = bytes.to_vec(alloc).expect(rt, "bytes");
    let fails = fails.to_vec(alloc).expect(rt, "a plan");
    MemorySource::make(alloc, bytes, fails)
}

/// The next answer is this line.
fn is_line<S: Source>(rt: &impl Abort, reader: &mut LineReader, source: &mut S, line: &[u8]) {
    assert!(rt; reader.next_line(source) == Next::Line);
    assert!(rt; reader.line() == line);
}

/// The next answer is a line of so many bytes.
fn has_length<S: Source>(rt: &impl Abort, reader: &mut LineReader, source: &mut S, length: usize) {
    assert!(rt; reader.next_line(source) == Next::Line);
    assert!(rt; reader.line().len() == length);
}

fn is_long<S: Source>(rt: &impl Abort, reader: &mut LineReader, source: &mut S) {
    assert!(rt; reader.next_line(source) == Next::Long);
}

/// The lines have ended so, and a further call says so again.
fn is_over<S: Source>(rt: &impl Abort, reader: &mut LineReader, source: &mut S, ending: Ending) {
    assert!(rt; reader.next_line(source) == Next::Over(ending));
    assert!(rt; reader.next_line(source) == Next::Over(ending));
}

/// A source has these two lines, of which the second may have no LF.
fn has_two(rt: &impl Abort, alloc: Global, bytes: &[u8], first: &[u8], second: &[u8]) {
    let mut source = source(rt, alloc, bytes, &[]);
    let mut reader = reader(rt, alloc);
    is_line(rt, &mut reader, &mut source, first);
    is_line(rt, &mut reader, &mut source, second);
    is_over(rt, &mut reader, &mut source, Ending::End);
}

#[test]
fn no_bytes_are_no_line(rt: HostRuntime) {
    let mut source = source(&rt, rt.alloc(), b"", &[]);
    let mut reader = reader(&rt, rt.alloc());
    is_over(&rt, &mut reader, &mut source, Ending::End);
}

#[test]
fn lines_end_at_their_lf(rt: HostRuntime) {
    has_two(&rt, rt.alloc(), b"ab\ncd\n", b"ab", b"cd");
    has_two(&rt, rt.alloc(), b"\n\n", b"", b"");
}

#[test]
fn a_last_line_needs_no_lf(rt: HostRuntime) {
    has_two(&rt, rt.alloc(), b"ab\ncd", b"ab", b"cd");
}

#[test]
fn a_cr_is_kept(rt: HostRuntime) {
    has_two(&rt, rt.alloc(), b"ab\r\n\r", b"ab\r", b"\r");
}

/// The first line of a source is too long exactly where the answer is `long`, and `y` follows it.
fn then_y(rt: &impl Abort, alloc: Global, bytes: &[u8], long: bool) {
    let mut source = source(rt, alloc, bytes, &[]);
    let mut reader = reader(rt, alloc);
    if long {
        is_long(rt, &mut reader, &mut source);
    } else {
        has_length(rt, &mut reader, &mut source, LONGEST_LINE);
    }
    is_line(rt, &mut reader, &mut source, b"y");
    is_over(rt, &mut reader, &mut source, Ending::End);
}

#[test]
fn the_longest_line_is_a_line(rt: HostRuntime) {
    let alloc = rt.alloc();
    then_y(
        &rt,
        alloc,
        xs(&rt, alloc, 65536, b"\ny\n").as_slice(),
        false,
    );
    then_y(
        &rt,
        alloc,
        xs(&rt, alloc, 65535, b"\r\ny").as_slice(),
        false,
    );
}

#[test]
fn one_byte_more_is_too_long_and_a_cr_counts(rt: HostRuntime) {
    let alloc = rt.alloc();
    then_y(&rt, alloc, xs(&rt, alloc, 65537, b"\ny\n").as_slice(), true);
    then_y(&rt, alloc, xs(&rt, alloc, 65536, b"\r\ny").as_slice(), true);
}

#[test]
fn a_line_over_several_reads_is_too_long_once(rt: HostRuntime) {
    let alloc = rt.alloc();
    then_y(
        &rt,
        alloc,
        xs(&rt, alloc, 131071, b"\ny\n").as_slice(),
        true,
    );
    then_y(
        &rt,
        alloc,
        xs(&rt, alloc, 131072, b"\ny\n").as_slice(),
        true,
    );
    then_y(&rt, alloc, xs(&rt, alloc, 300000, b"\ny").as_slice(), true);
}

#[test]
fn a_last_line_without_lf_may_be_too_long(rt: HostRuntime) {
    let alloc = rt.alloc();
    let mut fits = source(&rt, alloc, xs(&rt, alloc, 65536, b"").as_slice(), &[]);
    let mut lines = reader(&rt, alloc);
    has_length(&rt, &mut lines, &mut fits, LONGEST_LINE);
    is_over(&rt, &mut lines, &mut fits, Ending::End);
    let mut more = source(&rt, alloc, xs(&rt, alloc, 65537, b"").as_slice(), &[]);
    let mut lines = reader(&rt, alloc);
    is_long(&rt, &mut lines, &mut more);
    is_over(&rt, &mut lines, &mut more, Ending::End);
}

#[test]
fn a_line_may_end_where_a_read_ends(rt: HostRuntime) {
    let alloc = rt.alloc();
    let bytes = xs(&rt, alloc, 65535, b"\ny\n");
    let mut source = source(&rt, alloc, bytes.as_slice(), &[]);
    let mut reader = reader(&rt, alloc);
    has_length(&rt, &mut reader, &mut source, 65535);
    is_line(&rt, &mut reader, &mut source, b"y");
    is_over(&rt, &mut reader, &mut source, Ending::End);
}

#[test]
fn lines_lie_across_reads(rt: HostRuntime) {
    let alloc = rt.alloc();
    let mut bytes = Vec::new(alloc);
    for _ in 0..20000 {
        bytes
            .extend_from_slice(b"abc\n\ndefg\n")
            .expect(&rt, "bytes");
    }
    let mut source = source(&rt, alloc, bytes.as_slice(), &[]);
    let mut reader = reader(&rt, alloc);
    for _ in 0..20000 {
        is_line(&rt, &mut reader, &mut source, b"abc");
        is_line(&rt, &mut reader, &mut source, b"");
        is_line(&rt, &mut reader, &mut source, b"defg");
    }
    is_over(&rt, &mut reader, &mut source, Ending::End);
}

#[test]
fn a_source_may_give_one_byte_a_read(rt: HostRuntime) {
    let alloc = rt.alloc();
    let plan = vec![in alloc; Call::AtMost(1); 8].expect(&rt, "a plan");
    let bytes = b"ab\n\nc".to_vec(alloc).expect(&rt, "bytes");
    let mut source = SystemSource::make(RawMemorySource::make(bytes, plan), String::new(alloc));
    let mut reader = reader(&rt, alloc);
    is_line(&rt, &mut reader, &mut source, b"ab");
    is_line(&rt, &mut reader, &mut source, b"");
    is_line(&rt, &mut reader, &mut source, b"c");
    is_over(&rt, &mut reader, &mut source, Ending::End);
}

#[test]
fn what_was_read_whole_comes_before_a_fault(rt: HostRuntime) {
    let alloc = rt.alloc();
    let mut source = source(&rt, alloc, b"ab\ncd\ne", &[1]);
    let mut reader = reader(&rt, alloc);
    is_line(&rt, &mut reader, &mut source, b"ab");
    is_line(&rt, &mut reader, &mut source, b"cd");
    is_over(&rt, &mut reader, &mut source, Ending::Fault);
}

/// A source that never ends and has no LF. It counts what it gave.
#[derive(Drop)]
struct Endless {
    given: usize,
}

impl Source for Endless {
    ghost use Rattle.std.specs.Prelude.{[], None};

    ghost rest = { λ _. None };

    ghost faults = { λ _. 0 };

    ghost name = { λ _. [] };

    fn read(&mut self, room: &mut [u8]) -> Result<usize, Failed> {
        self.given = self.given.saturating_add(room.len());
        Ok(room.len())
    }
}

#[test]
fn no_more_than_the_limit_is_read(rt: HostRuntime) {
    let mut source = Endless { given: 0 };
    let mut reader = reader(&rt, rt.alloc());
    is_over(&rt, &mut reader, &mut source, Ending::Limit);
    assert!(rt; source.given == MOST_BYTES);
}
