// The calls of the system: single reads and writes, and what is trusted of them.
ghost use Rattle.std.specs.Prelude.{List, ℕ, Option};
ghost use Rattle.std.specs.Io.{ReadsAtMost, WritesAtMost};
ghost use Rattle.dl_io.specs.Streams.{Reads, Takes};

use std::fs::File;
use std::io;
use std::io::{Read, Write};
use std::rt::{Stdin, Stdout};

/// What the system reads from.
pub trait RawSource {
    /// The bytes not yet read, where they are told.
    ghost rest: { Self → Option (List ℕ) };

    /// One call: it reads some of the next bytes. `Ok(0)` into a room that is not empty is the end.
    fn read_once(&mut self, room: &mut [u8]) -> io::Result<usize>
        ensures bound { ReadsAtMost result room.new }
        ensures bytes { Reads (rest self.old) (rest self.new) result room.new };
}

/// What the system writes to.
pub trait RawSink {
    /// The bytes that it got, where they are told.
    ghost got: { Self → Option (List ℕ) };

    /// One call: it takes some of the first bytes of the piece, possibly none.
    fn write_once(&mut self, piece: &[u8]) -> io::Result<usize>
        ensures bound { WritesAtMost result piece.now }
        ensures bytes { Takes (got self.old) (got self.new) result piece.now };
}

/// A file or standard input. It tells no bytes: what they hold is the system's.
#[derive(Drop)]
pub enum Input {
    File(File),
    Standard(Stdin),
}

impl RawSource for Input {
    ghost use Rattle.std.specs.Prelude.{None};

    ghost rest = { λ _. None };

    fn read_once(&mut self, room: &mut [u8]) -> io::Result<usize> {
        match self {
            Input::File(file) => file.read(room),
            Input::Standard(stdin) => stdin.read(room),
        }
    }
}

/// A file or standard output. It tells no bytes: what they get is the system's.
#[derive(Drop)]
pub enum Output {
    File(File),
    Standard(Stdout),
}

impl RawSink for Output {
    ghost use Rattle.std.specs.Prelude.{None};

    ghost got = { λ _. None };

    fn write_once(&mut self, piece: &[u8]) -> io::Result<usize> {
        match self {
            Output::File(file) => file.write(piece),
            Output::Standard(stdout) => stdout.write(piece),
        }
    }
}
