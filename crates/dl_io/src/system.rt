// Sources and sinks over the calls of the system: calls that were interrupted are tried again, short ones are continued,
// and a sink holds back small pieces, so that it makes few calls.
ghost use Rattle.std.specs.Prelude.{◌≡◌, ◌≤◌, ℕ, [], List, Option, IfOk, OnOk, length, drop, string_bytes, vec_len};
ghost use Rattle.std.specs.Io.{ReadsAtMost, WritesAtMost};
ghost use Rattle.std.specs.Io.KnownBytes.{append_known};
ghost use Rattle.dl_io.specs.Outside.{Rose};
ghost use Rattle.dl_io.specs.Streams.{Reads, Writes, IsKnownFront};

use crate::raw::{RawSink, RawSource};
use crate::{Failed, Sink, Source};
use std::alloc::{AllocError, Global};
use std::io::ErrorKind;

// How often a call is made that signals interrupt.
const TRIES: usize = 1000;

// Counts a failure.
fn fault(faults: &mut u64) -> Failed
    ensures { Rose faults.old faults.new }
{
    *faults = faults.saturating_add(1);
    Failed
}

// Reads once, and again where the call was interrupted.
fn read_retried<R: RawSource>(raw: &mut R, room: &mut [u8]) -> Result<usize, Failed>
    ensures bound { ReadsAtMost result room.new }
    ensures bytes { Reads (R.rest raw.old) (R.rest raw.new) result room.new }
{
    for _ in 0..TRIES {
        match raw.read_once(room) {
            Ok(count) => return Ok(count),
            Err(error) => {
                if error.kind() != ErrorKind::Interrupted {
                    return Err(Failed);
                }
            }
        }
    }
    Err(Failed)
}

// Writes once, and again where the call was interrupted. To take nothing of some bytes is a failure.
fn write_retried<W: RawSink>(raw: &mut W, piece: &[u8]) -> Result<usize, Failed>
    ensures bound { WritesAtMost result piece.now }
    ensures bytes { Writes (W.got raw.old) (W.got raw.new) result piece.now }
{
    for _ in 0..TRIES {
        match raw.write_once(piece) {
            Ok(count) if count > 0 || piece.is_empty() => return Ok(count),
            Ok(_) => return Err(Failed),
            Err(error) => {
                if error.kind() != ErrorKind::Interrupted {
                    return Err(Failed);
                }
            }
        }
    }
    Err(Failed)
}

// Writes what is held from a place on, until all is taken or a call fails. The place goes along.
fn write_held<W: RawSink>(raw: &mut W, held: &[u8], start: &mut usize) -> Result<(), Failed>
    requires { start.old ≤ length held.now }
    ensures within { start.new ≤ length held.now }
    ensures bytes { append_known (W.got raw.new) (drop start.new held.now)
        ≡ append_known (W.got raw.old) (drop start.old held.now) }
    ensures handed { IsKnownFront (W.got raw.old) (W.got raw.new) }
    ensures whole { OnOk result (start.new ≡ length held.now) }
{
    while *start < held.len() {
        *start += write_retried(raw, &held[*start..])?;
    }
    Ok(())
}

/// A source over calls of the system.
pub struct SystemSource<R> {
    pub(crate) raw: R,
    pub(crate) faults: u64,
    pub(crate) name: String,
}

impl<R: Drop> Drop for SystemSource<R> {
    fn drop(self) {
        let SystemSource {
            raw: _,
            faults: _,
            name: _,
        } = self;
    }
}

impl<R: RawSource> SystemSource<R> {
    /// A source of the bytes that these calls read.
    pub fn make(raw: R, name: String) -> Self
        ensures raw { result.raw ≡ raw }
        ensures name { string_bytes result.name ≡ string_bytes name }
        ensures faults { result.faults ≡ 0 }
    {
        SystemSource {
            raw,
            faults: 0,
            name,
        }
    }
}

impl<R: RawSource> Source for SystemSource<R> {
    ghost use Rattle.std.specs.Prelude.{string_bytes};

    ghost rest = { λ s. R.rest s.raw };

    ghost faults = { λ s. s.faults };

    ghost name = { λ s. string_bytes s.name };

    fn read(&mut self, room: &mut [u8]) -> Result<usize, Failed> {
        match read_retried(&mut self.raw, room) {
            Ok(count) => Ok(count),
            Err(Failed) => Err(fault(&mut self.faults)),
        }
    }
}

/// A sink over calls of the system. It holds back small pieces.
pub struct SystemSink<W> {
    pub(crate) raw: W,
    // What was written last. The bytes from `start` on are still held back.
    pub(crate) held: Vec<u8>,
    pub(crate) start: usize,
    pub(crate) faults: u64,
    pub(crate) name: String,
    ghost within: { start ≤ vec_len held },
}

impl<W: Drop> Drop for SystemSink<W> {
    fn drop(self) {
        let SystemSink {
            raw: _,
            held: _,
            start: _,
            faults: _,
            name: _,
        } = self;
    }
}

impl<W: RawSink> SystemSink<W> {
    ghost use Rattle.dl_io.specs.System.{system_written};

    /// A sink of these calls, which holds back as many bytes as there is room for.
    pub fn make(alloc: Global, raw: W, name: String, room: usize) -> Result<Self, AllocError>
    where
        W: Drop,
        ensures raw { IfOk result (λ sink. sink.raw ≡ raw) }
        ensures bytes { IfOk result (λ sink. system_written W.got sink ≡ W.got raw) }
        ensures name { IfOk result (λ sink. string_bytes sink.name ≡ string_bytes name) }
        ensures faults { IfOk result (λ sink. sink.faults ≡ 0) }
    {
        Ok(SystemSink {
            raw,
            held: Vec::with_capacity(alloc, room)?,
            start: 0,
            faults: 0,
            name,
        })
    }

    /// What the calls write to.
    pub fn raw(&self) -> &W
        ensures { result.now ≡ self.now.raw }
    {
        &self.raw
    }

    // Hands on what is held back.
    fn hand_on(&mut self) -> Result<(), Failed>
        ensures bytes { system_written W.got self.new ≡ system_written W.got self.old }
        ensures handed { IsKnownFront (W.got self.old.raw) (W.got self.new.raw) }
        ensures whole { OnOk result (W.got self.new.raw ≡ system_written W.got self.new) }
        ensures empty { OnOk result (self.new.held.items ≡ []) }
        ensures faults { self.new.faults ≡ self.old.faults }
        ensures name { self.new.name ≡ self.old.name }
    {
        write_held(&mut self.raw, self.held.as_slice(), &mut self.start)?;
        self.held.clear();
        self.start = 0;
        Ok(())
    }

    // Holds back a piece that fits beside what is held. A larger one goes on once nothing is held.
    fn put(&mut self, piece: &[u8]) -> Result<usize, Failed>
        ensures bound { WritesAtMost result piece.now }
        ensures bytes { Writes (system_written W.got self.old) (system_written W.got self.new) result piece.now }
        ensures handed { IsKnownFront (W.got self.old.raw) (W.got self.new.raw) }
        ensures faults { self.new.faults ≡ self.old.faults }
        ensures name { self.new.name ≡ self.old.name }
    {
        if piece.len() > self.held.capacity() - self.held.len() {
            self.hand_on()?;
            if piece.len() > self.held.capacity() {
                return write_retried(&mut self.raw, piece);
            }
        }
        match self.held.extend_from_slice(piece) {
            Ok(()) => Ok(piece.len()),
            Err(_) => Err(Failed),
        }
    }
}

impl<W: RawSink> Sink for SystemSink<W> {
    ghost use Rattle.std.specs.Prelude.{drop, string_bytes, refl};
    ghost use Rattle.dl_io.specs.System.{system_written};

    ghost written = { system_written W.got };

    ghost handed = { λ s. W.got s.raw };

    ghost faults = { λ s. s.faults };

    ghost name = { λ s. string_bytes s.name };

    ghost front = { λ s. (drop s.start s.held.items, refl) };

    fn write(&mut self, piece: &[u8]) -> Result<usize, Failed> {
        match self.put(piece) {
            Ok(count) => Ok(count),
            Err(Failed) => Err(fault(&mut self.faults)),
        }
    }

    fn flush(&mut self) -> Result<(), Failed> {
        match self.hand_on() {
            Ok(()) => Ok(()),
            Err(Failed) => Err(fault(&mut self.faults)),
        }
    }
}
