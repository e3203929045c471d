//! A flag and a number at each place, in one word.

ghost use Rattle.std.specs.Prelude.{◌≡◌, ◌<◌, ◌-◌, ◌^◌, ◌==◌, true, false, [], length, replicate, slice_index_or, slice_set, IfOk};
ghost use Rattle.dl_fill.specs.Cells.{flag_of, number_of, counted_down, comes_down};

use dl_base::Memory;
use std::alloc::Global;
use std::marker::Model;

/// The highest bit of a word, which is the flag.
const FLAG: u32 = 0x8000_0000;

/// A flag and a number of 31 bits, by place.
#[derive(Drop)]
pub(crate) struct Cells {
    /// The flag, above the bits of the number: one look at memory finds both.
    words: Vec<u32>,
}

impl Model for Cells {
    ghost use Rattle.dl_fill.specs.Cells.{CellLists, flags_of, numbers_of};

    ghost Value = { CellLists };

    ghost view = { λ w. record { flags = flags_of w.words.items; numbers = numbers_of w.words.items } };
}

impl Cells {
    /// No places.
    pub(crate) fn make(alloc: Global) -> Cells
        ensures { result ≡ record { flags = []; numbers = [] } }
    {
        Cells {
            words: Vec::new(alloc),
        }
    }

    /// So many places, with no flag and the number 0. `Memory` where there is none for them.
    pub(crate) fn of_len(alloc: Global, len: usize) -> Result<Cells, Memory>
        ensures { IfOk result (λ cells. cells ≡ record { flags = replicate len false; numbers = replicate len 0 }) }
    {
        let words = vec![in alloc; 0u32; len]?;
        Ok(Cells { words })
    }

    pub(crate) fn alloc(&self) -> Global {
        *self.words.allocator()
    }

    /// How many places there are.
    pub(crate) fn len(&self) -> usize
        ensures flags { result ≡ length self.now.flags }
        ensures numbers { result ≡ length self.now.numbers }
    {
        self.words.len()
    }

    /// No flag, and the number 0, at each place.
    pub(crate) fn clear(&mut self)
        ensures { self.new ≡ record { flags = replicate (length self.old.flags) false; numbers = replicate (length self.old.flags) 0 } }
    {
        self.words.as_mut_slice().fill(0);
    }

    /// The flag at a place.
    pub(crate) fn flag(&self, place: usize) -> bool
        requires { place < length self.now.flags }
        ensures { result ≡ slice_index_or self.now.flags place false }
    {
        self.words[place] >= FLAG
    }

    /// A place without a flag counts down, and has its flag set where it comes to 0: whether that was so now. A place at 0 stays.
    #[inline(always)]
    pub(crate) fn hit(&mut self, place: usize) -> bool
        requires { place < length self.old.flags }
        ensures fires { result ≡ comes_down self.old place }
        ensures lower { self.new ≡ counted_down self.old place }
    {
        let word = self.words[place];
        self.words[place] = lowered(word);
        word == 1
    }

    /// The flag, and the number 0, at a place.
    pub(crate) fn fire(&mut self, place: usize)
        requires { place < length self.old.flags }
        ensures { self.new ≡ record { flags = slice_set self.old.flags place true; numbers = slice_set self.old.numbers place 0 } }
    {
        self.words[place] = FLAG;
    }

    /// No flag, and the number 0, at a place.
    pub(crate) fn wipe(&mut self, place: usize)
        requires { place < length self.old.flags }
        ensures { self.new ≡ record { flags = slice_set self.old.flags place false; numbers = slice_set self.old.numbers place 0 } }
    {
        self.words[place] = 0;
    }

    /// Another number at a place without a flag.
    pub(crate) fn put(&mut self, place: usize, number: usize)
        requires place { place < length self.old.flags }
        requires free { slice_index_or self.old.flags place false ≡ false }
        requires few { number < 2 ^ 31 }
        ensures { self.new ≡ record { flags = self.old.flags; numbers = slice_set self.old.numbers place number } }
    {
        self.words[place] = number as u32;
    }
}

/// A word after a hit.
// without a branch, so that hits behind it need not wait for the word
#[inline(always)]
fn lowered(word: u32) -> u32
    ensures high { flag_of word ≡ true → result ≡ word }
    ensures flag { flag_of word ≡ false → flag_of result ≡ (word == 1) }
    ensures number { flag_of word ≡ false → number_of result ≡ word - 1 }
{
    let less = word - (word != 0 && word < FLAG) as u32;
    if word == 1 { FLAG } else { less }
}
