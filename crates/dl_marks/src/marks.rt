//! Marks by number.

ghost use Rattle.std.specs.Prelude.{◌≡◌, ℕ, ◌+◌, ◌-◌, ◌*◌, ◌<◌, ◌≤◌, IsTrue, OnOk, OnErr, IfOk, true, false, not, length};

use crate::bits::{NEW, has, with};
use crate::steps::Steps;
use dl_base::Memory;
use dl_lit::Tag;
use dl_pages::Table;
use std::alloc::Global;
use std::marker::Model;
use std::sync::ledger::Ledger;

/// Which tags stand at which numbers. A number has one byte.
///
/// The bytes stand in one list, which is owned, and from the first freeze on shared as a whole. Whoever owns a number of it then copies it into
/// pages of 256 numbers, which all that share them have in common: from then on `share` copies a pointer to each page, `own` copies the one
/// page of its number, and whoever reads pays one look-up more, for the page.
pub struct Marks {
    bytes: Table<u8>,
}

impl Drop for Marks {
    fn drop(self) {
        let Marks { bytes: _ } = self;
    }
}

impl Model for Marks {
    ghost use Rattle.dl_marks.specs.Marks.{Marking};

    ghost Value = { Marking };

    ghost use Rattle.dl_marks.specs.KeptMarks.{marking_of};

    ghost view = { marking_of };
}

impl Marks {
    ghost use Rattle.dl_marks.specs.Marks.{no_marks, places, marked, is_owned, IsFrozen, IsMarked};

    /// No numbers.
    pub fn make(alloc: Global) -> Marks
        ensures { result ≡ no_marks }
    {
        Marks {
            bytes: Table::make(alloc),
        }
    }

    /// Goes up to a length. Each new number has the four minus tags, which makes eight steps. `Memory` comes before
    /// any step, and leaves the marks as they were.
    pub fn grown<L: Ledger>(&mut self, len: usize, steps: &mut Steps<L>) -> Result<(), Memory>
        requires { places self.old ≤ len }
        ensures len { OnOk result (places self.new ≡ len) }
        ensures kept { OnOk result ((t : Tag) (n : ℕ) → n < places self.old → marked self.new t n ≡ marked self.old t n) }
        ensures fresh { OnOk result ((t : Tag) (n : ℕ) → places self.old ≤ n → n < len → marked self.new t n ≡ not t.plus) }
        ensures fresh_owned { OnOk result ((n : ℕ) → places self.old ≤ n → n < len → IsTrue (is_owned self.new n)) }
        ensures still_owned { OnOk result ((n : ℕ) → IsTrue (is_owned self.old n) → IsTrue (is_owned self.new n)) }
        ensures steps { OnOk result (steps.new ≡ steps.old + 8 * (len - places self.old)) }
        ensures same_len { OnErr result (places self.new ≡ places self.old) }
        ensures same { OnErr result ((t : Tag) (n : ℕ) → marked self.new t n ≡ marked self.old t n) }
        ensures same_owned { OnErr result ((n : ℕ) → is_owned self.new n ≡ is_owned self.old n) }
        ensures no_steps { OnErr result (steps.new ≡ steps.old) }
    {
        let old = self.bytes.len();
        self.bytes.widen(len, NEW)?;
        steps.grow(len - old);
        Ok(())
    }

    /// From here on the marks of a number may be written, and those of the numbers in its page. A page that was shared is copied for that, and
    /// marks that are shared as a whole are copied into pages, once.
    /// `Memory` leaves the marks as they were.
    pub fn own(&mut self, number: usize) -> Result<(), Memory>
        requires { number < places self.old }
        ensures len { places self.new ≡ places self.old }
        ensures same { (t : Tag) (n : ℕ) → marked self.new t n ≡ marked self.old t n }
        ensures owned { OnOk result (IsTrue (is_owned self.new number)) }
        ensures still_owned { OnOk result ((n : ℕ) → IsTrue (is_owned self.old n) → IsTrue (is_owned self.new n)) }
        ensures same_owned { OnErr result ((n : ℕ) → is_owned self.new n ≡ is_owned self.old n) }
    {
        self.bytes.own(number)
    }

    /// Sets a mark, in one step.
    pub fn set<L: Ledger>(&mut self, tag: Tag, number: usize, steps: &mut Steps<L>)
        requires { IsTrue (is_owned self.old number) }
        ensures marked { IsMarked self.old self.new tag number true }
        ensures len { places self.new ≡ places self.old }
        ensures owned { (n : ℕ) → is_owned self.new n ≡ is_owned self.old n }
        ensures step { steps.new ≡ steps.old + 1 }
    {
        self.write(tag, number, true, steps);
    }

    /// Clears a mark, in one step.
    pub fn clear<L: Ledger>(&mut self, tag: Tag, number: usize, steps: &mut Steps<L>)
        requires { IsTrue (is_owned self.old number) }
        ensures marked { IsMarked self.old self.new tag number false }
        ensures len { places self.new ≡ places self.old }
        ensures owned { (n : ℕ) → is_owned self.new n ≡ is_owned self.old n }
        ensures step { steps.new ≡ steps.old + 1 }
    {
        self.write(tag, number, false, steps);
    }

    /// Sets or clears a mark.
    fn write<L: Ledger>(&mut self, tag: Tag, number: usize, value: bool, steps: &mut Steps<L>)
        requires { IsTrue (is_owned self.old number) }
        ensures marked { IsMarked self.old self.new tag number value }
        ensures len { places self.new ≡ places self.old }
        ensures owned { (n : ℕ) → is_owned self.new n ≡ is_owned self.old n }
        ensures step { steps.new ≡ steps.old + 1 }
    {
        // A number that is owned is below the length.
        let _len = self.bytes.len();
        let byte = *self.bytes.at(number);
        self.bytes.put(number, with(byte, tag, value));
        steps.tick();
    }

    /// From here on the marks can be shared, and none may be written. It costs one `Arc`, or one for each page that was owned, and copies no
    /// marks. `Memory` leaves the marks as they were, but fewer may be owned.
    pub fn freeze(&mut self) -> Result<(), Memory>
        ensures len { places self.new ≡ places self.old }
        ensures same { (t : Tag) (n : ℕ) → marked self.new t n ≡ marked self.old t n }
        ensures frozen { OnOk result (IsFrozen self.new) }
    {
        self.bytes.freeze()
    }

    /// How many numbers there are.
    pub fn len(&self) -> usize
        ensures len { result ≡ places self.now }
        ensures within { (n : ℕ) → IsTrue (is_owned self.now n) → n < result }
    {
        self.bytes.len()
    }

    /// Whether a tag stands at a number.
    pub fn get(&self, tag: Tag, number: usize) -> bool
        requires { number < places self.now }
        ensures { result ≡ marked self.now tag number }
    {
        has(*self.bytes.at(number), tag)
    }

    /// The same marks once more, frozen. It copies one pointer, or one for each page, and no marks. `Memory` where there is none for the
    /// pointers, or where a count is full.
    pub fn share(&self) -> Result<Marks, Memory>
        requires { IsFrozen self.now }
        ensures { IfOk result (λ marks. marks ≡ self.now) }
    {
        Ok(Marks {
            bytes: self.bytes.share()?,
        })
    }
}
