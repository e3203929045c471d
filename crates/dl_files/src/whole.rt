// A source read to its end.
ghost use Rattle.std.specs.Prelude.{◌≡◌, ◌+◌, ◌<◌, ◌≤◌, ◌^◌, length, vec_len, IfSome, MatchOption, OnErr, IfOk, IfErr};
ghost use Rattle.dl_io.specs.Outside.{HasCause};
ghost use Rattle.dl_files.specs.Whole.{IsWhole, HasFault, ReadsMore, TakesAtMost};
ghost use Rattle.dl_files.specs.declared.whole.Stop.TheVariants.{Memory, Fault};

use dl_io::{Failed, Source};
use std::alloc::{AllocError, Global};

/// Why the program stops before it has said anything.
#[derive(Clone, Copy, Debug, PartialEq, Eq)]
pub enum Stop {
    Memory,
    Fault,
}

impl From<AllocError> for Stop {
    ghost from_gives = { λ _ e. e ≡ Memory };

    fn from(_: AllocError) -> Self {
        Stop::Memory
    }
}

impl From<dl_lit::Memory> for Stop {
    ghost from_gives = { λ _ e. e ≡ Memory };

    fn from(_: dl_lit::Memory) -> Self {
        Stop::Memory
    }
}

impl From<Failed> for Stop {
    ghost from_gives = { λ _ e. e ≡ Fault };

    fn from(_: Failed) -> Self {
        Stop::Fault
    }
}

const ROOM: usize = 65536;

// One more read, of at most as many bytes as there is room for, behind those read before.
fn read_more<S: Source>(source: &mut S, room: &mut [u8], bytes: &mut Vec<u8>) -> Result<usize, Stop>
    ensures more { IfOk result (ReadsMore (S.rest source.old) (S.rest source.new) bytes.old.items bytes.new.items (length room.old)) }
    ensures most { TakesAtMost (length room.old) (S.rest source.old) (S.rest source.new) }
    ensures cause { HasFault (S.faults source.old) (S.faults source.new) result }
    ensures name { S.name source.new ≡ S.name source.old }
{
    let count = source.read(room)?;
    bytes.extend_from_slice(&room[..count])?;
    Ok(count)
}

/// All bytes of a source, or `None` where there are more than the limit. At most one byte more than the limit is read.
pub fn read_whole<S: Source>(
    alloc: Global,
    source: &mut S,
    limit: usize,
) -> Result<Option<Vec<u8>>, Stop>
    requires { limit < 2 ^ 62 }
    ensures whole { IfOk result (λ whole. IsWhole limit (S.rest source.old) whole) }
    ensures most { TakesAtMost (limit + 1) (S.rest source.old) (S.rest source.new) }
    ensures cause { HasFault (S.faults source.old) (S.faults source.new) result }
    ensures name { S.name source.new ≡ S.name source.old }
{
    let mut room = vec![in alloc; 0u8; ROOM]?;
    let mut bytes = Vec::new(alloc);
    while bytes.len() <= limit {
        let want = (limit + 1 - bytes.len()).min(ROOM);
        let count = read_more(source, &mut room[..want], &mut bytes)?;
        if count == 0 {
            return Ok(Some(bytes));
        }
    }
    Ok(None)
}
