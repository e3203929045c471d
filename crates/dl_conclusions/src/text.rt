//! The text of conclusions, written to a sink block by block.

ghost use Rattle.std.specs.Prelude.{◌≡◌, ◌+◌, ◌<◌, ◌≤◌, ◌++◌, List, ℕ, Option, IsTrue, length};
ghost use Rattle.std.specs.Vec.{vec_len, vec_capacity};
ghost use Rattle.std.specs.Io.KnownBytes.{append_known};
ghost use Rattle.dl_io.specs.Outside.{HasCause};
ghost use Rattle.dl_io.specs.Streams.{WritesAll};
ghost use Rattle.dl_lit.specs.declared.literal.Family.{Family};
ghost use Rattle.dl_lit.specs.Borrowed.{literal_of};
ghost use Rattle.dl_print.specs.Room.{HasRoom, Puts};
ghost use Rattle.dl_conclusions.specs.Text.{conclusion_line, conclusions_text, lines_before};

use crate::concluded::Concluded;
use dl_io::{Failed, Sink, write_all};
use dl_lit::{Family, LiteralRef};
use dl_print::{put_conclusion, room_behind, write_conclusion};
use dl_theory::Verdict;
use std::alloc::Global;

fn write_line<S: Sink>(
    sink: &mut S,
    family: Family,
    verdict: Verdict,
    literal: LiteralRef<'_>,
) -> Result<(), Failed>
    ensures bytes { WritesAll (S.written sink.old) (S.written sink.new) result (conclusion_line family (record { literal = literal_of literal.entry; verdict = verdict })) }
    ensures cause { HasCause (S.faults sink.old) (S.faults sink.new) result }
    ensures name { S.name sink.new ≡ S.name sink.old }
{
    write_conclusion(sink, verdict, family, literal)?;
    write_all(sink, b"\n")
}

/// How many conclusions go to the sink together.
const BLOCK: usize = 32;

/// How many bytes the lines of a block may take, to be put together before they are written.
const ROOM: usize = 16_384;

/// Whether the lines from a place on, up to another, fit into so many bytes. Where they nearly fill them, it may say no.
// In their order literals lie anywhere in memory. Measuring a block waits for all of them at once, where each line would wait for its own.
fn fit(conclusions: &Concluded, from: usize, to: usize, room: usize) -> bool
    requires ordered { from ≤ to }
    requires within { to ≤ length conclusions.now }
    ensures { IsTrue result → (family : Family) → length (lines_before family conclusions.now to) ≤ length (lines_before family conclusions.now from) + room }
{
    let mut left = room;
    for at in from..to {
        let (literal, _) = conclusions.at(at);
        match room_behind(literal, left) {
            Some(behind) if behind > 0 => left = behind - 1,
            _ => return false,
        }
    }
    true
}

/// Puts a line behind a text that has room for it.
#[inline(always)]
fn put_line(text: &mut Vec<u8>, family: Family, verdict: Verdict, literal: LiteralRef<'_>)
    requires { HasRoom text.old (conclusion_line family (record { literal = literal_of literal; verdict = verdict })) }
    ensures { Puts text.old text.new (conclusion_line family (record { literal = literal_of literal.entry; verdict = verdict })) }
{
    put_conclusion(text, verdict, family, literal);
    text.push_reserved(b'\n');
}

/// Puts the lines from a place on, up to another, into an empty text that has room for them.
fn put_lines(text: &mut Vec<u8>, family: Family, conclusions: &Concluded, from: usize, to: usize)
    requires ordered { from ≤ to }
    requires within { to ≤ length conclusions.now }
    requires empty { vec_len text.old ≡ 0 }
    requires room { length (lines_before family conclusions.now to) ≤ length (lines_before family conclusions.now from) + vec_capacity text.old }
    ensures lines { lines_before family conclusions.now to ≡ lines_before family conclusions.now from ++ text.new.items }
{
    for at in from..to {
        let (literal, verdict) = conclusions.at(at);
        put_line(text, family, verdict, literal);
    }
}

/// Writes the lines from a place on, up to another, piece by piece.
fn write_lines<S: Sink>(
    sink: &mut S,
    family: Family,
    conclusions: &Concluded,
    from: usize,
    to: usize,
) -> Result<(), Failed>
    requires ordered { from ≤ to }
    requires within { to ≤ length conclusions.now }
    ensures bytes { (before : Option (List ℕ)) → S.written sink.old ≡ append_known before (lines_before family conclusions.now from)
        → WritesAll before (S.written sink.new) result (lines_before family conclusions.now to) }
    ensures cause { HasCause (S.faults sink.old) (S.faults sink.new) result }
    ensures name { S.name sink.new ≡ S.name sink.old }
{
    for at in from..to {
        let (literal, verdict) = conclusions.at(at);
        write_line(sink, family, verdict, literal)?;
    }
    Ok(())
}

/// Writes the lines from a place on, up to another: as one piece where they fit into the text.
fn write_block<S: Sink>(
    sink: &mut S,
    text: &mut Vec<u8>,
    family: Family,
    conclusions: &Concluded,
    from: usize,
    to: usize,
) -> Result<(), Failed>
    requires ordered { from ≤ to }
    requires within { to ≤ length conclusions.now }
    ensures bytes { (before : Option (List ℕ)) → S.written sink.old ≡ append_known before (lines_before family conclusions.now from)
        → WritesAll before (S.written sink.new) result (lines_before family conclusions.now to) }
    ensures cause { HasCause (S.faults sink.old) (S.faults sink.new) result }
    ensures name { S.name sink.new ≡ S.name sink.old }
{
    text.clear();
    if fit(conclusions, from, to, text.capacity()) {
        put_lines(text, family, conclusions, from, to);
        write_all(sink, text.as_slice())
    } else {
        write_lines(sink, family, conclusions, from, to)
    }
}

/// Where the block ends that begins at a place.
fn block_end(from: usize, len: usize) -> usize
    requires { from < len }
    ensures later { from < result }
    ensures within { result ≤ len }
{
    if len - from > BLOCK {
        from + BLOCK
    } else {
        len
    }
}

/// Room for the lines of a block. Where there is no memory for it, there is none, and lines are written piece by piece.
fn room(alloc: Global) -> Vec<u8> {
    match Vec::with_capacity(alloc, ROOM) {
        Ok(text) => text,
        Err(_) => Vec::new(alloc),
    }
}

/// Appends a line for each conclusion, in order, or a front of these lines where the sink fails. It puts the lines of a block together,
/// and writes them piece by piece where there is no memory for that.
pub fn write_conclusions<S: Sink>(
    alloc: Global,
    sink: &mut S,
    family: Family,
    conclusions: &Concluded,
) -> Result<(), Failed>
    ensures bytes { WritesAll (S.written sink.old) (S.written sink.new) result (conclusions_text family conclusions.now) }
    ensures cause { HasCause (S.faults sink.old) (S.faults sink.new) result }
    ensures name { S.name sink.new ≡ S.name sink.old }
{
    let mut text = room(alloc);
    let mut from = 0;
    while from < conclusions.len() {
        let to = block_end(from, conclusions.len());
        write_block(sink, &mut text, family, conclusions, from, to)?;
        from = to;
    }
    Ok(())
}
