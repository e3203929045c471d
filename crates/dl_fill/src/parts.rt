//! What a fill counts with.

ghost use Rattle.std.specs.Prelude.{IfOk};
ghost use Rattle.dl_fill.specs.Idle.{IsIdle};

use crate::counters::Counters;
use dl_base::Memory;
use dl_graph::Region;
use std::alloc::Global;

/// The counters, and the rules that a region touches.
#[derive(Drop)]
pub struct Parts {
    pub counters: Counters,
    pub rules: Region,
}

/// No room.
pub fn no_parts(alloc: Global, _width: usize) -> Parts
    ensures { IsIdle _width 0 result.counters result.rules }
{
    Parts {
        counters: Counters::make(alloc),
        rules: Region::none(alloc),
    }
}

/// Room for nodes of each kind at that many places. `Memory` where there is none for that.
pub fn make_parts(alloc: Global, width: usize, places: usize) -> Result<Parts, Memory>
    ensures { IfOk result (λ parts. IsIdle width places parts.counters parts.rules) }
{
    let size = match places.checked_mul(width) {
        Some(size) => size,
        None => return Err(Memory),
    };
    let rules = Region::make(alloc, places)?;
    let mut counters = Counters::make(alloc);
    counters.renew(size)?;
    Ok(Parts { counters, rules })
}
