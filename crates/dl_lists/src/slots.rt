//! Numbers at places, some of which are empty.

ghost use Rattle.std.specs.Prelude.{◌≡◌, ℕ, ◌<◌, ◌≤◌, [], ◌∷◌, ◌++◌, true, None, Some, OnOk, OnErr, IfOk, All, length, get_or, set, map};
ghost use Rattle.dl_pages.specs.Paged.{Owns, KeepsOwned};

use dl_base::Memory;
use dl_pages::Table;
use std::alloc::Global;
use std::marker::Model;

/// What stands at an empty place. Numbers and how many there are stay below it.
pub(crate) const EMPTY: usize = 4294967295;

/// Numbers at places, some of which are empty, in 32 bits each. What is frozen is shared with each copy, and a place is written only
/// while it is owned.
pub(crate) struct Slots {
    numbers: Table<u32>,
}

impl Drop for Slots {
    fn drop(self) {
        let Slots { numbers: _ } = self;
    }
}

impl Model for Slots {
    ghost use Rattle.std.specs.Prelude.{ℕ, Option};
    ghost use Rattle.dl_pages.specs.Paged.{PagedItems};
    ghost use Rattle.dl_lists.specs.KeptSlots.{slots_of};

    ghost Value = { PagedItems (Option ℕ) };

    ghost view = { λ s. slots_of s.numbers };
}

impl Slots {
    /// No places. Takes no memory.
    pub fn make(alloc: Global) -> Slots
        ensures { result.items ≡ [] }
    {
        Slots {
            numbers: Table::make(alloc),
        }
    }

    /// These numbers, each at its place. Takes no memory.
    pub fn of(numbers: Table<u32>) -> Slots
        requires { All (λ n. n < 4294967295) numbers.items }
        ensures { result.items ≡ map Some numbers.items }
    {
        Slots { numbers }
    }

    /// Room for one more number. `Memory` where there is none: the numbers stay, and what is owned.
    pub fn reserve(&mut self) -> Result<(), Memory>
        ensures items { self.new.items ≡ self.old.items }
        ensures owned { KeepsOwned self.old self.new }
        ensures room { OnOk result (0 < self.new.spare) }
    {
        self.numbers.reserve(1)
    }

    /// The place may be written from now on. `Memory` where there is none for that: the numbers stay, and what is owned.
    pub fn own(&mut self, at: usize) -> Result<(), Memory>
        requires { at < length self.old.items }
        ensures items { self.new.items ≡ self.old.items }
        ensures owned { KeepsOwned self.old self.new }
        ensures here { OnOk result (Owns self.new at) }
        ensures spare { OnOk result (self.old.spare ≤ self.new.spare) }
    {
        self.numbers.own(at)
    }

    /// A number at the end, in room that is there.
    pub fn push(&mut self, number: usize)
        requires room { 0 < self.old.spare }
        requires few { number < 4294967295 }
        ensures { self.new.items ≡ self.old.items ++ Some number ∷ [] }
    {
        self.numbers.push(number as u32);
    }

    /// A number at a place that is owned.
    pub fn write(&mut self, at: usize, number: usize)
        requires owned { Owns self.old at }
        requires few { number < 4294967295 }
        ensures items { self.new.items ≡ set self.old.items at (Some number) }
        ensures owned { self.new.owned ≡ self.old.owned }
    {
        self.numbers.put(at, number as u32);
    }

    /// A place that is owned becomes empty.
    pub fn clear(&mut self, at: usize)
        requires { Owns self.old at }
        ensures items { self.new.items ≡ set self.old.items at None }
        ensures owned { self.new.owned ≡ self.old.owned }
    {
        self.numbers.put(at, u32::MAX);
    }

    /// Empty places at the end, until there are so many, and these are owned. `Memory` where there is none for them leaves the places as
    /// they were.
    pub fn widen(&mut self, len: usize) -> Result<(), Memory>
        requires { length self.old.items ≤ len }
        ensures len { OnOk result (length self.new.items ≡ len) }
        ensures kept { OnOk result ((n : ℕ) → get_or self.new.items n None ≡ get_or self.old.items n None) }
        ensures fresh { OnOk result ((n : ℕ) → length self.old.items ≤ n → n < len → Owns self.new n) }
        ensures err { OnErr result (self.new.items ≡ self.old.items) }
    {
        self.numbers.widen(len, u32::MAX)?;
        Ok(())
    }

    /// From here on a copy shares these places, but for what is written later. Where there is no memory, it shares less.
    pub fn freeze(&mut self)
        ensures { self.new.items ≡ self.old.items }
    {
        let _ = self.numbers.freeze();
    }

    /// How many places there are.
    pub fn len(&self) -> usize
        ensures { result ≡ length self.now.items }
    {
        self.numbers.len()
    }

    /// The number at a place; `None` exactly where it is empty, and past the end.
    #[inline(always)]
    pub fn at(&self, at: usize) -> Option<usize>
        ensures { result ≡ get_or self.now.items at None }
    {
        if at >= self.numbers.len() {
            return None;
        }
        let number = *self.numbers.at(at) as usize;
        if number == EMPTY { None } else { Some(number) }
    }

    /// Where its memory comes from.
    pub fn alloc(&self) -> Global {
        self.numbers.alloc()
    }

    /// The same numbers at the same places. What is frozen is shared.
    pub fn copy(&self) -> Result<Slots, Memory>
        ensures { IfOk result (λ copy. copy.items ≡ self.now.items) }
    {
        let numbers = self.numbers.copy()?;
        Ok(Slots { numbers })
    }
}
