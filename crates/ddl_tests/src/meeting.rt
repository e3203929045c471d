//! Sessions that wait for each other: both come to their ends only where they are served at once.
//!
//! That sessions run side by side is in no clause, since nothing is promised of a thread that waits. So a house of the test's own lets
//! the sessions `a` and `b` meet: each read of their inputs waits, a limited time, for what the other session has to do meanwhile.

ghost use Rattle.std.specs.Prelude.{◌≡◌, ◌≤◌, ◌<◌, IfOk, true};
ghost use Rattle.dl_io.specs.House.{IsShut};
ghost use Rattle.dl_io.specs.Memory.{house_in_memory, source_rest};
ghost use Rattle.dl_io.specs.Outside.{HasCause};
ghost use Rattle.dl_io.specs.Streams.{take_front};

use crate::houses::{File, faultless, filled, text_under, words_of};
use ddl::{Status, run};
use dl_io::{Failed, House, MemoryHouse, MemorySink, MemorySource, OpenStop, Sink, Source};
use std::alloc::{AllocError, Global};
use std::process::Abort;
use std::sync::atomic::{AtomicBool, Ordering};
use std::sync::{Arc, Wait};
use std::test::Fail;
use std::thread::{Threads, yield_now};

/// How often a read looks for what it waits for.
const TURNS: u32 = 1_000_000;

/// The call of an input in memory that is to fail. A read that waited in vain makes calls for no bytes up to it.
const FAILING_CALL: usize = 8;

/// The first line of an input, with its LF.
const FIRST_LINE: usize = b"add r1: => p\n".len();

/// What a session has done, for the other one to see.
#[derive(Drop)]
struct Side {
    /// Its input was asked for a line.
    begun: AtomicBool,
    /// It has written to its output.
    replied: AtomicBool,
}

impl Side {
    fn make(alloc: Global) -> Result<Arc<Side>, AllocError> {
        let side = Arc::new(
            alloc,
            Side {
                begun: AtomicBool::new(false),
                replied: AtomicBool::new(false),
            },
        )?;
        Ok(side)
    }
}

/// Whether the flag is up within the limit. Each look but the last lets another thread run.
fn comes(flag: &AtomicBool) -> bool {
    for _ in 0..TURNS {
        if flag.load(Ordering::SeqCst) {
            return true;
        }
        yield_now();
    }
    false
}

/// How an input waits.
#[derive(Drop)]
struct Meeting {
    own: Arc<Side>,
    other: Arc<Side>,
    has_begun: bool,
}

impl Meeting {
    fn make(own: &Arc<Side>, other: &Arc<Side>) -> Result<Meeting, AllocError> {
        Ok(Meeting {
            own: Arc::try_clone(own)?,
            other: Arc::try_clone(other)?,
            has_begun: false,
        })
    }

    /// Waits before a read: before the first one until the other session reads too, and before each later one until the other has
    /// replied. Whether that came.
    fn waits(&mut self) -> bool {
        if self.has_begun {
            return comes(&self.other.replied);
        }
        self.has_begun = true;
        self.own.begun.store(true, Ordering::SeqCst);
        comes(&self.other.begun)
    }
}

/// Makes calls for no bytes, up to the one that is to fail. Bytes are left as they are.
fn pass_calls(source: &mut MemorySource) -> Result<(), Failed>
    ensures rest { source_rest source.new ≡ source_rest source.old }
    ensures cause { HasCause (⟦<MemorySource as Source>⟧.faults source.old) (⟦<MemorySource as Source>⟧.faults source.new) result }
    ensures name { ⟦<MemorySource as Source>⟧.name source.new ≡ ⟦<MemorySource as Source>⟧.name source.old }
{
    for _ in 0..FAILING_CALL {
        source.read(&mut [])?;
    }
    Ok(())
}

/// An input that may have to wait. It gives one line a read.
#[derive(Drop)]
pub(crate) struct MeetingSource {
    inner: MemorySource,
    meeting: Option<Meeting>,
}

impl MeetingSource {
    /// How much of the room the next read may fill.
    fn most(&self, room: usize) -> usize
        ensures within { result ≤ room }
        ensures some { 0 < room → 0 < result }
    {
        match &self.meeting {
            Some(meeting) if !meeting.has_begun => room.min(FIRST_LINE),
            _ => room,
        }
    }

    fn has_met(&mut self) -> bool
        ensures { self.new.inner ≡ self.old.inner }
    {
        match &mut self.meeting {
            Some(meeting) => meeting.waits(),
            None => true,
        }
    }

    /// Waits. Where that was in vain, the input fails, here or at its next read.
    fn meet(&mut self) -> Result<(), Failed>
        ensures rest { source_rest self.new.inner ≡ source_rest self.old.inner }
        ensures cause { HasCause (⟦<MemorySource as Source>⟧.faults self.old.inner) (⟦<MemorySource as Source>⟧.faults self.new.inner) result }
        ensures name { ⟦<MemorySource as Source>⟧.name self.new.inner ≡ ⟦<MemorySource as Source>⟧.name self.old.inner }
    {
        if self.has_met() {
            return Ok(());
        }
        pass_calls(&mut self.inner)
    }
}

impl Source for MeetingSource {
    ghost rest = { λ s. source_rest s.inner };

    ghost faults = { λ s. ⟦<MemorySource as Source>⟧.faults s.inner };

    ghost name = { λ s. ⟦<MemorySource as Source>⟧.name s.inner };

    fn read(&mut self, room: &mut [u8]) -> Result<usize, Failed> {
        let most = self.most(room.len());
        self.meet()?;
        self.inner.read(&mut room[..most])
    }
}

/// An output that shows when something was written to it, or when that was handed on.
#[derive(Drop)]
pub(crate) struct MeetingSink {
    inner: MemorySink,
    side: Option<Arc<Side>>,
    at_flush: bool,
}

impl MeetingSink {
    fn show(&self) {
        if let Some(side) = &self.side {
            side.replied.store(true, Ordering::SeqCst);
        }
    }
}

impl Sink for MeetingSink {
    ghost written = { λ s. ⟦<MemorySink as Sink>⟧.written s.inner };

    ghost handed = { λ s. ⟦<MemorySink as Sink>⟧.handed s.inner };

    ghost faults = { λ s. ⟦<MemorySink as Sink>⟧.faults s.inner };

    ghost name = { λ s. ⟦<MemorySink as Sink>⟧.name s.inner };

    ghost front = { λ s. take_front _ _ };

    fn write(&mut self, piece: &[u8]) -> Result<usize, Failed> {
        let count = self.inner.write(piece)?;
        if !self.at_flush {
            self.show();
        }
        Ok(count)
    }

    fn flush(&mut self) -> Result<(), Failed> {
        self.inner.flush()?;
        if self.at_flush {
            self.show();
        }
        Ok(())
    }
}

/// A house in memory whose sessions `a` and `b` wait for each other.
pub(crate) struct MeetingHouse {
    inner: MemoryHouse,
    a: Arc<Side>,
    b: Arc<Side>,
    at_flush: bool,
}

impl MeetingHouse {
    fn make(alloc: Global, inner: MemoryHouse, at_flush: bool) -> Result<MeetingHouse, AllocError>
        ensures { IfOk result (λ house. house.inner ≡ inner) }
    {
        let a = Side::make(alloc)?;
        let b = Side::make(alloc)?;
        Ok(MeetingHouse {
            inner,
            a,
            b,
            at_flush,
        })
    }

    fn meeting_of(&self, name: &String) -> Result<Option<Meeting>, AllocError> {
        if name.as_str() == "a" {
            Ok(Some(Meeting::make(&self.a, &self.b)?))
        } else if name.as_str() == "b" {
            Ok(Some(Meeting::make(&self.b, &self.a)?))
        } else {
            Ok(None)
        }
    }

    fn side_of(&self, name: &String) -> Result<Option<Arc<Side>>, AllocError> {
        if name.as_str() == "a.out" {
            Ok(Some(Arc::try_clone(&self.a)?))
        } else if name.as_str() == "b.out" {
            Ok(Some(Arc::try_clone(&self.b)?))
        } else {
            Ok(None)
        }
    }
}

impl House for MeetingHouse {
    type In = MeetingSource;

    type Out = MeetingSink;

    ghost tells = { true };

    ghost state = { λ h. house_in_memory h.inner };

    fn input(&mut self, name: &String) -> Result<MeetingSource, OpenStop> {
        let meeting = self.meeting_of(name)?;
        let inner = self.inner.input(name)?;
        Ok(MeetingSource { inner, meeting })
    }

    fn output(&mut self, name: &String) -> Result<MeetingSink, OpenStop> {
        let side = self.side_of(name)?;
        let inner = self.inner.output(name)?;
        Ok(MeetingSink {
            inner,
            side,
            at_flush: self.at_flush,
        })
    }

    fn settle_in(&mut self, name: &String, stream: MeetingSource) {
        let MeetingSource { inner, meeting: _ } = stream;
        self.inner.settle_in(name, inner);
    }

    fn settle_out(&mut self, name: &String, stream: MeetingSink) {
        let MeetingSink {
            inner,
            side: _,
            at_flush: _,
        } = stream;
        self.inner.settle_out(name, inner);
    }
}

/// An input that may have to wait.
fn waiting(name: &'static str, bytes: &'static [u8]) -> File<'static> {
    File {
        read_fails: &[FAILING_CALL],
        ..faultless(name, bytes)
    }
}

/// Which of the two edits comes first is not told.
const JOURNALS: [&[u8]; 2] = [
    b"0 | enrol | enrolled 0\n1 | enrol | enrolled 1\n0 | add r1: => p | ok\n1 | add r2: => q | ok\n0 | publish | edition 0\nsession 0 done\nsession 1 done\n",
    b"0 | enrol | enrolled 0\n1 | enrol | enrolled 1\n1 | add r2: => q | ok\n0 | add r1: => p | ok\n0 | publish | edition 0\nsession 0 done\nsession 1 done\n",
];

/// How the program ends, and what its house has then.
fn met<R: Threads + Wait + Sync>(
    rt: &R,
    alloc: Global,
    at_flush: bool,
) -> Result<(MemoryHouse, Status), Fail> {
    let words = words_of(alloc, &["serve", "t", "a", "b"])?;
    let files = [
        faultless("t", b""),
        waiting("a", b"add r1: => p\npublish\n"),
        waiting("b", b"add r2: => q\n"),
    ];
    let mut house = MeetingHouse::make(alloc, filled(alloc, &files)?, at_flush)?;
    let status = run(rt, alloc, &words, &mut house);
    let MeetingHouse {
        inner,
        a: _,
        b: _,
        at_flush: _,
    } = house;
    Ok((inner, status))
}

fn expect_meeting<R: Threads + Wait + Sync + Abort>(
    rt: &R,
    alloc: Global,
    at_flush: bool,
) -> Result<(), Fail> {
    let (house, status) = met(rt, alloc, at_flush)?;
    assert_eq!(rt; status, Status::Done);
    assert_eq!(rt;
        text_under(alloc, &house, "a.out")?.as_slice(),
        b"ok\nedition 0\n".as_slice()
    );
    assert_eq!(rt;
        text_under(alloc, &house, "b.out")?.as_slice(),
        b"ok\n".as_slice()
    );
    let journal = text_under(alloc, &house, "-")?;
    assert!(rt; journal.as_slice() == JOURNALS[0] || journal.as_slice() == JOURNALS[1]);
    Ok(())
}

#[test]
fn sessions_that_wait_for_each_others_replies_come_to_their_ends(
    rt: HostRuntime,
) -> Result<(), Fail> {
    expect_meeting(&rt, rt.alloc(), false)
}

/// A reply is handed on before the next line is read.
#[test]
fn replies_are_handed_on_while_their_sessions_go_on(rt: HostRuntime) -> Result<(), Fail> {
    expect_meeting(&rt, rt.alloc(), true)
}
