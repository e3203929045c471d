//! Lists of numbers by number.

ghost use Rattle.std.specs.Prelude.{◌≡◌, ℕ, ◌<◌, [], ◌∷◌, ◌++◌, List, OnOk, OnErr, length, slice_get, set};
ghost use Rattle.dl_rows.specs.Tables.{list_of};

use dl_base::Memory;

/// A list of numbers at each number below a length.
pub trait Lists {
    ghost lists: { Self → List (List ℕ) };

    /// How many lists there are.
    fn len(&self) -> usize
        ensures { result ≡ length (lists self.now) };

    /// The numbers of a list. Past the end there are none.
    fn row(&self, number: usize) -> &[u32]
        ensures { result.now ≡ list_of (lists self.now) number };

    /// How many numbers a list has.
    #[inline(always)]
    fn count(&self, number: usize) -> usize
        ensures { result ≡ length (list_of (lists self.now) number) }
    {
        self.row(number).len()
    }

    /// The number at a place of a list.
    #[inline(always)]
    fn get(&self, number: usize, at: usize) -> Option<u32>
        ensures { result ≡ slice_get (list_of (lists self.now) number) at }
    {
        self.row(number).get(at).copied()
    }

    /// A number at the end of a list. `Memory` where there is none for it, or where the lists are packed and
    /// this one is full, or all are shared.
    fn append(&mut self, number: usize, item: u32) -> Result<(), Memory>
        requires { number < length (lists self.old) }
        ensures lists { OnOk result (lists self.new ≡ set (lists self.old) number (list_of (lists self.old) number ++ item ∷ [])) }
        ensures kept { OnErr result (lists self.new ≡ lists self.old) };

    /// Whether one more number has room in a list without moving it. To ask brings near where the list stands, and no clause rests on
    /// the answer.
    fn has_room(&self, number: usize) -> bool;
}
