//! A sink that is lent for one reply.
//!
//! That a writer takes nothing back of what was handed on is said here once, by the type of the sink, and by none of the writers.

ghost use Rattle.std.specs.Prelude.{◌≡◌, OnOk};
ghost use Rattle.std.proofs.Props.{props};
ghost use Rattle.dl_io.specs.Outside.{HasCause};
ghost use Rattle.dl_io.specs.Streams.{WritesAll};
ghost use Rattle.dl_session.specs.Answering.{text_of};
ghost use Rattle.dl_session.specs.Lent.{StillHands};

use crate::ready::Ready;
use crate::write::send;
use dl_io::{Failed, Sink};
use std::snapshot::Snapshot;

/// Another sink, of which all is still handed on that was so when it was lent. It costs nothing when the program runs.
pub(crate) struct LentSink<'a, P: Sink> {
    pub(crate) sink: &'a mut P,
    /// The sink when it was lent, for contracts alone.
    pub(crate) was: Snapshot<P>,
    pub(crate) ghost still: { StillHands (P.handed was.value) (P.handed sink.now) } by { Prim.hlevel props },
}

impl<P: Sink> Drop for LentSink<'_, P> {
    #[inline(always)]
    fn drop(self)
        ensures { self.exit.0.now ≡ self.entry.sink.now }
    {
        let LentSink { sink: _, was: _ } = self;
    }
}

impl<'a, P: Sink> LentSink<'a, P> {
    /// Lends a sink.
    #[inline(always)]
    pub(crate) fn of(sink: &'a mut P) -> LentSink<'a, P>
        ensures same_reference { result.sink.ghost_name ≡ sink.entry.ghost_name }
        ensures same { result.sink.now ≡ sink.old }
        ensures was { result.was.value ≡ sink.old }
    {
        let was = Snapshot::of(sink);
        LentSink { sink, was }
    }

    /// Sends a reply.
    pub(crate) fn send(&mut self, ready: &Ready) -> Result<(), Failed>
        ensures same_reference { self.new.sink.ghost_name ≡ self.old.sink.ghost_name }
        ensures bytes { WritesAll (P.written self.old.sink.now) (P.written self.new.sink.now) result (text_of ready.now) }
        ensures handed { OnOk result (P.handed self.new.sink.now ≡ P.written self.new.sink.now) }
        ensures still { StillHands (P.handed self.old.was.value) (P.handed self.new.sink.now) }
        ensures cause { HasCause (P.faults self.old.sink.now) (P.faults self.new.sink.now) result }
        ensures name { P.name self.new.sink.now ≡ P.name self.old.sink.now }
    {
        send(self, ready)
    }
}

impl<P: Sink> Sink for LentSink<'_, P> {
    ghost use Rattle.dl_session.specs.Lent.{lent_name};

    ghost written = { λ s. P.written s.sink.now };

    ghost handed = { λ s. P.handed s.sink.now };

    ghost faults = { λ s. P.faults s.sink.now };

    // Each writer says that it keeps the name, so it keeps what this tells: which sink was lent, and what that had handed on.
    ghost name = { λ s. lent_name s.sink.ghost_name (P.name s.sink.now) (P.handed s.was.value) };

    ghost front = { λ s. P.front s.sink.now };

    #[inline(always)]
    fn write(&mut self, piece: &[u8]) -> Result<usize, Failed> {
        self.sink.write(piece)
    }

    #[inline(always)]
    fn flush(&mut self) -> Result<(), Failed> {
        self.sink.flush()
    }
}
