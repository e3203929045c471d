//! What a reader of lines does to its room.

ghost use Rattle.std.specs.Prelude.{◌≡◌, ◌+◌, ◌-◌, ◌<◌, ◌≤◌, IfErr, IfOk, length, slice_range, take};
ghost use Rattle.dl_io.specs.Outside.{HasCause};
ghost use Rattle.dl_lines.specs.Steps.{HasNoLf, IsFound, ReadsBehind};

use dl_io::{Failed, Source};
use memchr::memchr;

/// Where the first LF stands. The bytes before `from` are known to have none, and are not looked at again.
pub fn find_lf(bytes: &[u8], from: usize) -> Option<usize>
    requires { from ≤ length bytes.now }
    ensures { HasNoLf (take from bytes.now) → IsFound bytes.now result }
{
    match memchr(b'\n', &bytes[from..]) {
        None => None,
        Some(len) => Some(from + len),
    }
}

/// Moves some bytes to the front.
pub fn move_to_front(room: &mut [u8], start: usize, end: usize)
    requires order { start ≤ end }
    requires within { end ≤ length room.old }
    ensures { take (end - start) room.new ≡ slice_range room.old start end }
{
    if start == 0 {
        return;
    }
    room.copy_within(start..end, 0);
}

/// One read of at most so many bytes, behind those that are held.
pub fn read_behind<S: Source>(
    source: &mut S,
    room: &mut [u8],
    held: usize,
    want: usize,
) -> Result<usize, Failed>
    requires some { 0 < want }
    requires within { held + want ≤ length room.old }
    ensures more { IfOk result (ReadsBehind (S.rest source.old) (S.rest source.new) room.old room.new held want) }
    ensures kept { take held room.new ≡ take held room.old }
    ensures none { IfErr result (λ _. S.rest source.new ≡ S.rest source.old) }
    ensures cause { HasCause (S.faults source.old) (S.faults source.new) result }
    ensures name { S.name source.new ≡ S.name source.old }
{
    source.read(&mut room[held..held + want])
}
