//! A reader of lines.

ghost use Rattle.std.specs.Prelude.{◌≡◌, ◌+◌, ◌<◌, ◌≤◌, IfOk, IfSome, MatchOption, None, length, take};
ghost use Rattle.dl_lines.specs.Reading.{HasFault, IsNext, IsOver, unread};
ghost use Rattle.dl_lines.specs.Steps.{CutsOff, Ends, EndsRightly, Forgets, Grows, HasNoLf, HasReadFault, IsCutAnswer, IsFound};

use crate::fill::{find_lf, move_to_front, read_behind};
use crate::next::{Ending, Next};
use dl_base::Memory;
use dl_io::Source;
use std::alloc::Global;
use std::marker::Model;

/// A line has at most so many bytes, its LF not counted. A longer one is answered as such.
pub const LONGEST_LINE: usize = 65536;

/// So many bytes are read of a source at most: 2^30.
pub const MOST_BYTES: usize = 1073741824;

// So many bytes are asked for at once.
const READ: usize = 65536;

// The room for a line and a read behind it.
const ROOM: usize = 131072;

/// A reader of the lines of one source.
pub struct LineReader {
    room: Vec<u8>,
    // Where the line stands that was answered last.
    line_start: usize,
    line_end: usize,
    // Where the bytes stand that are in no answer yet.
    next: usize,
    filled: usize,
    count: usize,
    ended: Option<Ending>,
}

impl Model for LineReader {
    ghost use Rattle.dl_lines.specs.Reading.{Reading};

    ghost Value = { Reading };

    ghost use Rattle.dl_lines.specs.Inside.{reading_of, IsKept};

    ghost view = { reading_of };

    ghost invariant = { IsKept };
}

impl Drop for LineReader {
    fn drop(self) {
        let LineReader {
            room: _,
            line_start: _,
            line_end: _,
            next: _,
            filled: _,
            count: _,
            ended: _,
        } = self;
    }
}

impl LineReader {
    /// A reader that has read nothing. No other call takes memory.
    pub fn make(alloc: Global) -> Result<LineReader, Memory>
        ensures { IfOk result (λ reader. reader ≡ unread) }
    {
        Ok(LineReader {
            room: vec![in alloc; 0u8; ROOM]?,
            line_start: 0,
            line_end: 0,
            next: 0,
            filled: 0,
            count: 0,
            ended: None,
        })
    }

    /// Forgets all, to read the lines of another source.
    pub fn restart(&mut self)
        ensures { self.new ≡ unread }
    {
        self.line_start = 0;
        self.line_end = 0;
        self.next = 0;
        self.filled = 0;
        self.count = 0;
        self.ended = None;
    }

    /// The next line of the source, or how its lines ended; then a further call answers so again and reads nothing.
    ///
    /// A line is without its LF; a CR before it is kept. Where the input has ended, what stands behind the last LF is a line too, unless it
    /// is empty. The source is read only while no whole line is ahead.
    pub fn next_line<S: Source>(&mut self, source: &mut S) -> Next
        ensures next { self.old.ended ≡ None → IsNext (S.rest source.old) (S.rest source.new) self.old self.new result }
        ensures cause { self.old.ended ≡ None → HasFault (S.faults source.old) (S.faults source.new) result }
        ensures over { IfSome self.old.ended (λ ending. IsOver source.old source.new self.old self.new ending result) }
        ensures name { S.name source.new ≡ S.name source.old }
    {
        if let Some(ending) = self.ended {
            return Next::Over(ending);
        }
        match self.find(0) {
            Some(len) => self.cut(len, false),
            None => self.read_line(source),
        }
    }

    /// The line, where the last answer was one.
    pub fn line(&self) -> &[u8]
        ensures { result.now ≡ self.now.line }
    {
        &self.room[self.line_start..self.line_end]
    }

    // How many bytes are ahead.
    fn held(&self) -> usize
        ensures { result ≡ length self.now.ahead }
    {
        self.filled - self.next
    }

    // Where the first LF ahead stands, which is known not to be among the first bytes.
    fn find(&self, from: usize) -> Option<usize>
        requires { from ≤ length self.now.ahead }
        ensures { HasNoLf (take from self.now.ahead) → IsFound self.now.ahead result }
    {
        find_lf(&self.room[self.next..self.filled], from)
    }

    // Reads until an LF comes or the lines end.
    fn read_line<S: Source>(&mut self, source: &mut S) -> Next
        requires clear { HasNoLf self.old.ahead }
        requires going { self.old.ended ≡ None }
        ensures next { IsNext (S.rest source.old) (S.rest source.new) self.old self.new result }
        ensures cause { HasFault (S.faults source.old) (S.faults source.new) result }
        ensures name { S.name source.new ≡ S.name source.old }
    {
        let mut long = false;
        'reading: loop {
            long = self.forget(long);
            let held = self.held();
            if let Err(ending) = self.read_more(source) {
                return self.end(ending, long);
            }
            if let Some(len) = self.find(held) {
                return self.cut(len, long);
            }
        }
    }

    // Whether the line is too long by now. Then its bytes are not kept.
    fn forget(&mut self, long: bool) -> bool
        ensures { Forgets self.old self.new long result }
    {
        if !long && self.held() <= LONGEST_LINE {
            return false;
        }
        self.next = 0;
        self.filled = 0;
        true
    }

    // Reads once, behind what is ahead.
    fn read_more<S: Source>(&mut self, source: &mut S) -> Result<(), Ending>
        requires { length self.old.ahead ≤ LONGEST_LINE }
        ensures grows { Grows (S.rest source.old) (S.rest source.new) self.old self.new }
        ensures ends { EndsRightly (S.rest source.old) (S.rest source.new) self.old self.new result }
        ensures cause { HasReadFault (S.faults source.old) (S.faults source.new) result }
        ensures name { S.name source.new ≡ S.name source.old }
    {
        let left = MOST_BYTES - self.count;
        if left == 0 {
            return Err(Ending::Limit);
        }
        let held = self.held();
        move_to_front(&mut self.room, self.next, self.filled);
        self.next = 0;
        self.filled = held;
        match read_behind(source, &mut self.room, held, left.min(READ)) {
            Err(_) => Err(Ending::Fault),
            Ok(0) => Err(Ending::End),
            Ok(count) => {
                self.filled = held + count;
                self.count += count;
                Ok(())
            }
        }
    }

    // Takes a line and its LF off what is ahead. Some bytes of a long line were dropped before.
    fn cut(&mut self, len: usize, long: bool) -> Next
        requires { len < length self.old.ahead }
        ensures off { CutsOff self.old self.new len }
        ensures answers { IsCutAnswer len long result }
    {
        self.line_start = self.next;
        self.line_end = self.next + len;
        self.next = self.line_end + 1;
        if long || len > LONGEST_LINE {
            Next::Long
        } else {
            Next::Line
        }
    }

    // The lines end, at the end of the input with a line that has no LF.
    fn end(&mut self, ending: Ending, long: bool) -> Next
        ensures { Ends self.old self.new ending long result }
    {
        self.line_start = self.next;
        self.line_end = self.filled;
        self.next = 0;
        self.filled = 0;
        self.ended = Some(ending);
        if ending != Ending::End {
            Next::Over(ending)
        } else if long {
            Next::Long
        } else if self.line_start < self.line_end {
            Next::Line
        } else {
            Next::Over(ending)
        }
    }
}
