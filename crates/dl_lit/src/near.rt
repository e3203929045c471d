//! A hasher for names, and tables that use it.

ghost use Rattle.std.specs.Prelude.{◌≡◌, []};

use indexmap::IndexSet;
use std::alloc::Global;
use std::hash::{BuildHasherDefault, Hash, Hasher};

const SEED: u64 = 0x243f_6a88_85a3_08d3;

const STEP: u64 = 0x9e37_79b9_7f4a_7c15;

const SPREAD: u64 = 0xd6e8_feb8_6659_fd93;

/// The lowest of the bits that a table keeps beside a place, to tell most keys apart without a look at them.
const TAG: u64 = 0x100_0000;

/// A hasher that gives what differs in its last byte alone places beside each other, with different tags. Most labels and atoms come
/// in such runs, and what lies near is in the cache: a look-up in a large table costs mostly the wait for memory. It has no secret, so whoever picks
/// the names can make them collide.
#[derive(Clone, Copy)]
pub struct NearHasher {
    /// All bytes but the last, mixed.
    mixed: u64,
    last: u8,
}

/// A set in the order of its insertions, of what is found by names.
pub type NameSet<T> = IndexSet<T, BuildHasherDefault<NearHasher>>;

impl Default for NearHasher {
    ghost use Rattle.dl_lit.specs.Near.{fresh};

    ghost is_default = { λ s. s ≡ fresh };

    fn default() -> NearHasher {
        NearHasher {
            mixed: SEED,
            last: 0,
        }
    }
}

impl NearHasher {
    ghost use Rattle.dl_lit.specs.Near.{after};

    /// The hasher after one byte more.
    fn after(self, byte: u8) -> NearHasher
        ensures { result ≡ after self byte }
    {
        NearHasher {
            mixed: self.mixed.wrapping_mul(STEP).wrapping_add(self.last as u64),
            last: byte,
        }
    }
}

impl Hasher for NearHasher {
    ghost use Rattle.dl_lit.specs.Near.{after_all, place};

    ghost write = { after_all };

    ghost finish = { place };

    fn finish(&self) -> u64 {
        (self.mixed.wrapping_mul(SPREAD) >> 32) + self.last as u64 * TAG + self.last as u64 / 2
    }

    fn write(&mut self, bytes: &[u8]) {
        *self = bytes.iter().fold(*self, |hasher, byte| hasher.after(*byte));
    }
}

/// The set without members.
pub fn name_set<T: Eq + Hash>(alloc: Global) -> NameSet<T>
    ensures { result.keys ≡ [] }
{
    IndexSet::with_hasher(alloc, BuildHasherDefault::new())
}
