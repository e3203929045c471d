//! What stands at the number of a pair.

ghost use Rattle.std.specs.Prelude.{◌≡◌, ◌<◌, None, Some};
ghost use Rattle.dl_lists.specs.KeptPairs.{pair_in};

use crate::slots::EMPTY;
use dl_sup::Link;
use std::mem::size_of;

/// The numbers of the rules of a pair, or nothing where it has gone.
#[derive(Clone, Copy, Debug, PartialEq, Eq)]
pub(crate) struct PairSlot {
    upper: u32,
    lower: u32,
}

const _: () = prove!(size_of::<PairSlot>() == 8);

impl PairSlot {
    /// A pair. Numbers stay below what stands for an empty place.
    pub fn of(pair: Link) -> PairSlot
        requires upper { pair.upper < 4294967295 }
        requires lower { pair.lower < 4294967295 }
        ensures { pair_in result ≡ Some pair }
    {
        PairSlot {
            upper: pair.upper as u32,
            lower: pair.lower as u32,
        }
    }

    /// No pair.
    pub fn empty() -> PairSlot
        ensures { pair_in result ≡ None }
    {
        PairSlot {
            upper: u32::MAX,
            lower: u32::MAX,
        }
    }

    /// The pair that stands here.
    #[inline(always)]
    pub fn pair(self) -> Option<Link>
        ensures { result ≡ pair_in self }
    {
        let upper = self.upper as usize;
        if upper == EMPTY {
            None
        } else {
            Some(Link {
                upper,
                lower: self.lower as usize,
            })
        }
    }
}
