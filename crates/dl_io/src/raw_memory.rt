// Raw sources and sinks in memory, each of whose calls does what a plan says of it.
ghost use Rattle.std.specs.Prelude.{◌≡◌, ◌≤◌, [], Some, vec_len, slice_index};
ghost use Rattle.dl_io.specs.Outside.{raised};

use crate::raw::{RawSink, RawSource};
use std::alloc::Global;
use std::io;
use std::io::ErrorKind;

/// What one call does.
#[derive(Clone, Copy, Debug, PartialEq, Eq)]
pub enum Call {
    /// It moves so many bytes at most. A read moves one at least.
    AtMost(usize),
    /// A signal interrupts it.
    Interrupted,
    /// It fails.
    Fails,
}

// How many bytes a call may move at most. Past the plan there is no bound.
fn most_of(plan: &[Call], call: usize) -> io::Result<usize> {
    match plan.get(call) {
        None => Ok(usize::MAX),
        Some(Call::AtMost(most)) => Ok(*most),
        Some(Call::Interrupted) => Err(io::Error::from(ErrorKind::Interrupted)),
        Some(Call::Fails) => Err(io::Error::from(ErrorKind::Other)),
    }
}

/// Bytes to be read, by calls that do what a plan says.
pub struct RawMemorySource {
    pub(crate) bytes: Vec<u8>,
    pub(crate) at: usize,
    pub(crate) plan: Vec<Call>,
    pub(crate) calls: usize,
    ghost within: { at ≤ vec_len bytes },
}

impl Drop for RawMemorySource {
    fn drop(self) {
        let RawMemorySource {
            bytes: _,
            at: _,
            plan: _,
            calls: _,
        } = self;
    }
}

impl RawMemorySource {
    ghost use Rattle.dl_io.specs.RawMemory.{raw_rest};

    /// A source of these bytes. Calls past the plan read as much as there is room for.
    pub fn make(bytes: Vec<u8>, plan: Vec<Call>) -> Self
        ensures { raw_rest result ≡ Some bytes.items }
    {
        RawMemorySource {
            bytes,
            at: 0,
            plan,
            calls: 0,
        }
    }
}

impl RawSource for RawMemorySource {
    ghost use Rattle.dl_io.specs.RawMemory.{raw_rest};

    ghost rest = { raw_rest };

    fn read_once(&mut self, room: &mut [u8]) -> io::Result<usize> {
        let call = self.calls;
        self.calls = call.saturating_add(1);
        let most = most_of(&self.plan, call)?.max(1);
        let rest = &self.bytes[self.at..];
        let count = rest.len().min(room.len()).min(most);
        room[..count].copy_from_slice(&rest[..count]);
        self.at += count;
        Ok(count)
    }
}

/// Bytes that were written, by calls that do what a plan says.
pub struct RawMemorySink {
    pub(crate) bytes: Vec<u8>,
    pub(crate) plan: Vec<Call>,
    pub(crate) calls: usize,
}

impl Drop for RawMemorySink {
    fn drop(self) {
        let RawMemorySink {
            bytes: _,
            plan: _,
            calls: _,
        } = self;
    }
}

impl RawMemorySink {
    ghost use Rattle.dl_io.specs.RawMemory.{raw_got};

    /// An empty sink. Calls past the plan take the whole piece.
    pub fn make(alloc: Global, plan: Vec<Call>) -> Self
        ensures { raw_got result ≡ Some [] }
    {
        RawMemorySink {
            bytes: Vec::new(alloc),
            plan,
            calls: 0,
        }
    }

    /// What it got.
    pub fn bytes(&self) -> &[u8]
        ensures { Some result.now ≡ raw_got self.now }
    {
        &self.bytes
    }

    /// How many calls were made.
    pub fn calls(&self) -> usize
        ensures { result ≡ self.now.calls }
    {
        self.calls
    }
}

impl RawSink for RawMemorySink {
    ghost use Rattle.dl_io.specs.RawMemory.{raw_got};

    ghost got = { raw_got };

    fn write_once(&mut self, piece: &[u8]) -> io::Result<usize> {
        let call = self.calls;
        self.calls = call.saturating_add(1);
        let count = piece.len().min(most_of(&self.plan, call)?);
        self.bytes.extend_from_slice(&piece[..count])?;
        Ok(count)
    }
}
