//! Why an order is not changed.

ghost use Rattle.std.specs.Prelude.{◌≡◌};

use crate::track::Track;
use dl_base::Memory;

/// Why a pair was not added.
#[derive(Drop)]
pub enum SupStop {
    /// The pair is in the list.
    There,
    /// The pair is not in the list, and would close a cycle: a path from the lower item to the upper one.
    Cycle(Track),
    Memory,
}

/// Why a list of pairs was not added whole. Where one is refused, those before its place were added.
#[derive(Drop)]
pub enum LoadStop {
    /// The pair at this place is in the list by then.
    There { at: usize },
    /// The pair at this place is not in the list by then, and would close a cycle.
    Cycle { at: usize, track: Track },
    /// Nothing was added.
    Memory,
}

/// The pair is not in the list.
#[derive(Clone, Copy, Debug, PartialEq, Eq)]
pub struct NoPair;

impl From<Memory> for SupStop {
    ghost use Rattle.dl_sup.specs.declared.stop.SupStop.TheVariants as variants;

    ghost from_gives = { λ _ stop. stop ≡ variants.Memory };

    fn from(_: Memory) -> SupStop {
        SupStop::Memory
    }
}

impl From<Memory> for LoadStop {
    ghost use Rattle.dl_sup.specs.declared.stop.LoadStop.TheVariants as variants;

    ghost from_gives = { λ _ stop. stop ≡ variants.Memory };

    fn from(_: Memory) -> LoadStop {
        LoadStop::Memory
    }
}
