//! A board and what it tells.

ghost use Rattle.std.specs.Prelude.{◌≡◌, ◌<◌, ◌^◌, ◌-◌, ◌+◌, ◌++◌, ◌∷◌, [], IfErr, IfOk, OnErr, OnOk, Some, length, slice_get};
ghost use Rattle.std.specs.Option.{option_copied};
ghost use Rattle.dl_calls.specs.Histories.{IsLegal, state_after};
ghost use Rattle.dl_board.specs.Boards.{opening_board};
ghost use Rattle.dl_update.specs.declared.families.Families.TheVariants as families_of;

use crate::opening::opened;
use dl_base::Memory;
use dl_calls::{Call, Entry, Reply, seats_are_enrolled};
use dl_edition::Held;
use dl_theory::Theory;
use dl_turn::Chronicle;
use dl_update::Draft;
use std::alloc::Global;
use std::marker::Model;
use std::sync::ledger::{Book, Ledger, Share};

/// A draft, editions and a history. The board keeps the book of a ledger, whose total is how many seats are enrolled.
pub struct Board<L: Ledger> {
    /// The theory that the history begins from.
    pub(crate) start: Theory,
    pub(crate) draft: Draft,
    ghost all_families: { draft.families ≡ families_of.All },
    pub(crate) editions: Vec<Held>,
    pub(crate) entries: Vec<Entry>,
    pub(crate) count: u64,
    pub(crate) book: Book<L>,
}

impl<L: Ledger> Drop for Board<L> {
    fn drop(self) {
        let Board {
            start: _,
            draft: _,
            editions: _,
            entries: _,
            count: _,
            book: _,
        } = self;
    }
}

impl<L: Ledger> Model for Board<L> {
    ghost use Rattle.dl_board.specs.Boards.{BoardLists};

    ghost Value = { BoardLists };

    ghost use Rattle.dl_board.specs.Kept.{IsKept};

    ghost view = { λ b. record { start = b.start; history = b.entries.items; enrolled = b.count; names = b.draft.names } };

    ghost invariant = { λ b. IsKept (record { start = b.start; history = b.entries.items; enrolled = b.count; names = b.draft.names }) b.draft.theory b.editions.items b.book.total };
}

/// A turnstile sees what callers see.
impl<L: Ledger> Chronicle for Board<L> {
    type Line = Entry;

    ghost start = { λ b. b.start };

    ghost history = { λ b. b.history };

    ghost enrolled = { λ b. b.enrolled };

    fn enrolled(&self) -> u64 {
        seats_are_enrolled();
        self.count
    }
}

impl<L: Ledger> Board<L> {
    /// A board that begins from a theory, of which it keeps a copy. `Memory` where there is none for the copy or the draft;
    /// the book is handed back.
    pub fn make(
        alloc: Global,
        theory: &Theory,
        book: Book<L>,
    ) -> Result<Board<L>, (Book<L>, Memory)>
        requires { book.total ≡ 0 }
        ensures board { IfOk result (λ board. board ≡ opening_board theory.now board.names) }
        ensures book { IfErr result (λ stop. stop.0 ≡ book) }
    {
        match opened(alloc, theory) {
            Ok((start, draft)) => Ok(Board {
                start,
                draft,
                editions: Vec::new(alloc),
                entries: Vec::new(alloc),
                count: 0,
                book,
            }),
            Err(memory) => Err((book, memory)),
        }
    }

    /// Gives the next seat its number. Only who has the whole share of the ledger can call it. `Memory` where there is none
    /// for the entry; board and share are as before then.
    pub fn enrol(&mut self, share: &mut Share<L>) -> Result<u64, Memory>
        requires whole { share.old.parts ≡ L.parts }
        requires some { 0 < share.old.parts }
        requires room { share.old.amount < 2 ^ 64 - 1 }
        ensures number { IfOk result (λ number. (number ≡ share.old.amount) × (number ≡ self.old.enrolled)) }
        ensures history { IfOk result (λ number. self.new.history ≡ self.old.history ++ record { seat = number; call = Call.Enrol; reply = Reply.Enrolled number } ∷ []) }
        ensures enrolled { OnOk result (self.new.enrolled ≡ self.old.enrolled + 1) }
        ensures amount { OnOk result (share.new.amount ≡ share.old.amount + 1) }
        ensures parts { share.new.parts ≡ share.old.parts }
        ensures start { self.new.start ≡ self.old.start }
        ensures legal { IsLegal self.new.start self.new.history }
        ensures kept { OnErr result (self.new ≡ self.old) }
        ensures same_amount { OnErr result (share.new.amount ≡ share.old.amount) }
    {
        self.book.audit(share);
        let number = self.count;
        self.entries.push(Entry {
            seat: number,
            call: Call::Enrol,
            reply: Reply::Enrolled(number),
        })?;
        self.book.add(share, 1);
        self.count = number + 1;
        Ok(number)
    }

    /// Shows that the whole share's amount is the number of enrolled seats. It changes nothing.
    pub fn audit(&mut self, share: &mut Share<L>)
        requires { share.old.parts ≡ L.parts }
        ensures enrolled { self.new.enrolled ≡ share.old.amount }
        ensures board { self.new ≡ self.old }
        ensures amount { share.new.amount ≡ share.old.amount }
        ensures parts { share.new.parts ≡ share.old.parts }
    {
        self.book.audit(share);
    }

    /// How many entries the history has.
    pub fn entries(&self) -> usize
        ensures len { result ≡ length self.now.history }
        ensures legal { IsLegal self.now.start self.now.history }
    {
        self.entries.len()
    }

    /// The entry at a place; `None` exactly past the last.
    pub fn entry(&self, at: usize) -> Option<&Entry>
        ensures { option_copied result ≡ slice_get self.now.history at }
    {
        self.entries.get(at)
    }

    /// How many editions were published.
    pub fn published(&self) -> u64
        ensures { result ≡ length (state_after self.now.start self.now.history).editions }
    {
        self.editions.len() as u64
    }

    /// How many seats are enrolled.
    pub fn enrolled(&self) -> u64
        ensures count { result ≡ self.now.enrolled }
        ensures seats { result ≡ (state_after self.now.start self.now.history).count }
    {
        self.count
    }

    /// One more holder of the edition with this number. `Memory` where there is none for it.
    pub fn held(&self, number: u64) -> Result<Held, Memory>
        requires { number < length (state_after self.now.start self.now.history).editions }
        ensures number { IfOk result (λ held. held.number ≡ number) }
        ensures theory { IfOk result (λ held. slice_get (state_after self.now.start self.now.history).editions number ≡ Some held.theory) }
    {
        self.editions[number as usize].copy()
    }
}
