//! Steps, which are counted and take no bytes.

ghost use Rattle.std.specs.Prelude.{◌≡◌, ◌<◌, ◌+◌, ◌*◌};

use std::marker::Model;
use std::sync::ledger::{Blank, Book, Ledger, Share};

/// How many steps were made: marks set, marks cleared, and eight for each new number. Only `Marks` makes steps.
pub struct Steps<L: Ledger> {
    book: Book<L>,
    share: Share<L>,
}

impl<L: Ledger> Drop for Steps<L> {
    fn drop(self) {
        let Steps { book: _, share: _ } = self;
    }
}

impl<L: Ledger> Model for Steps<L> {
    ghost use Rattle.std.specs.Prelude.{ℕ, ◌<◌};

    ghost Value = { ℕ };

    ghost view = { λ s. s.book.total };

    ghost invariant = { λ s. 0 < s.share.parts };
}

impl<L: Ledger> Steps<L> {
    /// A counter without steps, of a blank ledger.
    pub fn make(blank: Blank) -> Steps<L>
        requires name { blank.name ≡ L.name }
        requires parts { blank.parts ≡ L.parts }
        requires some { 0 < blank.parts }
        ensures { result ≡ 0 }
    {
        let (book, share) = blank.open::<L>();
        Steps { book, share }
    }

    /// One mark is set or cleared.
    pub(crate) fn tick(&mut self)
        ensures { self.new ≡ self.old + 1 }
    {
        self.book.add(&mut self.share, 1);
    }

    /// Numbers are new, each with eight marks.
    pub(crate) fn grow(&mut self, count: usize)
        ensures { self.new ≡ self.old + 8 * count }
    {
        for _ in 0..8u8 {
            self.book.add(&mut self.share, count as u64);
        }
    }
}
