//! Pairs at places that never move.

ghost use Rattle.std.specs.Prelude.{◌≡◌};
ghost use Rattle.dl_sup.specs.Slots.{near, far, older};

use crate::link::Link;

/// The two ways along pairs: from an upper item to a lower one, or back.
#[derive(Clone, Copy, Debug, PartialEq, Eq)]
pub(crate) enum Way {
    Down,
    Up,
}

/// A pair that was added. The pairs with one upper item form a chain, and those with one lower item form another;
/// each leads from the last of them to the first.
#[derive(Clone, Copy, Debug)]
pub(crate) struct Slot {
    pub(crate) link: Link,
    /// Whether the pair is still there.
    pub(crate) alive: bool,
    /// One past the place of the pair before it in the chain of its upper item, and 0 where it is the first.
    pub(crate) down: usize,
    /// The same in the chain of its lower item.
    pub(crate) up: usize,
}

/// The item that a chain belongs to.
pub(crate) fn near(way: Way, slot: Slot) -> usize
    ensures { result ≡ near way slot }
{
    match way {
        Way::Down => slot.link.upper,
        Way::Up => slot.link.lower,
    }
}

/// The item that the pair leads to.
pub(crate) fn far(way: Way, slot: Slot) -> usize
    ensures { result ≡ far way slot }
{
    match way {
        Way::Down => slot.link.lower,
        Way::Up => slot.link.upper,
    }
}

/// Where the chain goes on.
pub(crate) fn older(way: Way, slot: Slot) -> usize
    ensures { result ≡ older way slot }
{
    match way {
        Way::Down => slot.down,
        Way::Up => slot.up,
    }
}
