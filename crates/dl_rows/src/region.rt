//! Regions: sets of literals by their numbers.

ghost use Rattle.std.specs.Prelude.{◌≡◌, ℕ, ◌<◌, ◌≤◌, ◌/◌, [], ◌∷◌, ◌++◌, ◌↔◌, ◌==◌, IsTrue, IfOk, OnOk, OnErr, All, Contains, true, length, slice_get, if◌then◌else◌};
ghost use Rattle.dl_rows.specs.Region.{has};

use dl_base::Memory;
use std::alloc::{AllocError, Global};
use std::marker::Model;

/// A set of numbers below a bound, in the order in which they came.
pub struct Region {
    bound: usize,
    /// A bit for each number, which is set where the number is a member.
    words: Vec<u64>,
    /// The members, with room for all numbers. The bound has 32 bits, so that they take half of the memory.
    members: Vec<u32>,
}

impl Drop for Region {
    fn drop(self) {
        let Region {
            bound: _,
            words: _,
            members: _,
        } = self;
    }
}

impl Model for Region {
    ghost use Rattle.dl_rows.specs.Region.{Numbers, IsKeptRegion};
    ghost use Rattle.std.specs.Prelude.{vec_capacity};

    ghost Value = { Numbers };

    ghost view = { λ r. record { bound = r.bound; members = r.members.items } };

    ghost invariant = { λ r. IsKeptRegion r.bound r.words.items r.members.items (vec_capacity r.members) };
}

impl Region {
    ghost use Rattle.dl_rows.specs.Region.{IsRegion};

    /// No members, with room for all numbers below the bound. `Memory` where there is none for that, or where the bound takes more
    /// than 32 bits.
    pub fn make(alloc: Global, names: usize) -> Result<Region, Memory>
        ensures bound { IfOk result (λ region. region.bound ≡ names) }
        ensures members { IfOk result (λ region. region.members ≡ []) }
    {
        if names > u32::MAX as usize {
            return Err(Memory);
        }
        let mut words = Vec::new(alloc);
        words.resize(names / 64 + 1, 0u64)?;
        let members = Vec::with_capacity(alloc, names)?;
        Ok(Region {
            bound: names,
            words,
            members,
        })
    }

    /// No members, below the bound 0. Takes no memory.
    pub fn none(alloc: Global) -> Region
        ensures bound { result.bound ≡ 0 }
        ensures members { result.members ≡ [] }
    {
        Region {
            bound: 0,
            words: Vec::new(alloc),
            members: Vec::new(alloc),
        }
    }

    /// Numbers below so many can be members from here on; room grows by doubling. `Memory` where there is none for that, or where the
    /// bound takes more than 32 bits: nothing changes.
    pub fn widen(&mut self, names: usize) -> Result<(), Memory>
        requires { self.old.bound ≤ names }
        ensures bound { OnOk result (self.new.bound ≡ names) }
        ensures same { OnErr result (self.new.bound ≡ self.old.bound) }
        ensures members { self.new.members ≡ self.old.members }
    {
        if names > u32::MAX as usize {
            return Err(Memory);
        }
        lengthen(&mut self.words, names / 64 + 1)?;
        self.members
            .reserve(names.saturating_sub(self.members.len()))?;
        self.bound = names;
        Ok(())
    }

    /// Adds a number at the end, unless it is a member. Takes no memory.
    pub fn put(&mut self, number: usize)
        requires { number < self.old.bound }
        ensures bound { self.new.bound ≡ self.old.bound }
        ensures there { Contains self.old.members number → self.new.members ≡ self.old.members }
        ensures new { (¬ Contains self.old.members number) → self.new.members ≡ self.old.members ++ number ∷ [] }
    {
        if is_set(self.words.as_slice(), number) {
            return;
        }
        set(&mut self.words, number);
        self.members.push_reserved(number as u32);
    }

    /// Removes all members, at the cost of these alone. The room stays.
    pub fn clear(&mut self)
        ensures bound { self.new.bound ≡ self.old.bound }
        ensures members { self.new.members ≡ [] }
    {
        wipe(&mut self.words, self.members.as_slice());
        self.members.clear();
    }

    /// The numbers below it can be members.
    pub fn bound(&self) -> usize
        ensures { result ≡ self.now.bound }
    {
        self.bound
    }

    /// The members, in order.
    pub fn members(&self) -> &[u32]
        ensures { result.now ≡ self.now.members }
    {
        self.members.as_slice()
    }

    /// Whether a number is a member.
    pub fn holds(&self, number: usize) -> bool
        requires { number < self.now.bound }
        ensures member { IsTrue result ↔ Contains self.now.members number }
        ensures region { IsRegion self.now }
    {
        is_set(self.words.as_slice(), number)
    }

    /// How many members there are.
    pub fn len(&self) -> usize
        ensures len { result ≡ length self.now.members }
        ensures region { IsRegion self.now }
    {
        self.members.len()
    }

    /// The member at a place; `None` exactly past the last.
    pub fn at(&self, place: usize) -> Option<usize>
        ensures member { result ≡ slice_get self.now.members place }
        ensures region { IsRegion self.now }
    {
        match self.members.get(place) {
            None => None,
            Some(number) => Some(*number as usize),
        }
    }
}

fn is_set(words: &[u64], number: usize) -> bool
    requires { number / 64 < length words.now }
    ensures { result ≡ has words.now number }
{
    (words[number / 64] >> (number % 64)) & 1 == 1
}

/// Sets the bit of a number.
fn set(words: &mut Vec<u64>, number: usize)
    requires { number / 64 < length words.old.items }
    ensures len { length words.new.items ≡ length words.old.items }
    ensures bits { (n : ℕ) → has words.new.items n ≡ (if n == number then true else has words.old.items n) }
{
    let word = words[number / 64] | (1u64 << (number % 64));
    words[number / 64] = word;
}

/// So many words at least, of which the new ones have no bit. `Memory` leaves the bits as they were.
fn lengthen(words: &mut Vec<u64>, count: usize) -> Result<(), AllocError>
    ensures enough { OnOk result (count ≤ length words.new.items) }
    ensures longer { length words.old.items ≤ length words.new.items }
    ensures bits { (n : ℕ) → has words.new.items n ≡ has words.old.items n }
{
    if count <= words.len() {
        return Ok(());
    }
    words.resize(count, 0u64)
}

/// Clears the words of numbers.
fn wipe(words: &mut Vec<u64>, numbers: &[u32])
    requires { All (λ n. n / 64 < length words.old.items) numbers.now }
    ensures len { length words.new.items ≡ length words.old.items }
    ensures bits { (n : ℕ) → has words.new.items n ≡ true → (has words.old.items n ≡ true) × (¬ Contains numbers.now n) }
{
    for number in numbers {
        words[*number as usize / 64] = 0;
    }
}
