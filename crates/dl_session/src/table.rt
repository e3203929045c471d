//! The editions that a session holds.

ghost use Rattle.std.specs.Prelude.{◌≡◌, ◌<◌, ◌≤◌, [], IfErr, IfOk, IsSome, MatchOption, OnErr, OnOk, length};
ghost use Rattle.dl_session.specs.Table.{theory_in, Gains, IsAt, IsGapFor};

use dl_base::Memory;
use dl_edition::Held;
use std::alloc::Global;
use std::marker::Model;

/// Editions in the order of their numbers.
pub(crate) struct HeldTable {
    editions: Vec<Held>,
}

impl Drop for HeldTable {
    fn drop(self) {
        let HeldTable { editions: _ } = self;
    }
}

impl Model for HeldTable {
    ghost use Rattle.dl_session.specs.Table.{TableView, table_of, IsRising};

    ghost Value = { TableView };

    ghost view = { table_of };

    ghost invariant = { λ t. IsRising t.editions.items };
}

impl HeldTable {
    /// A table that holds nothing.
    pub(crate) fn make(alloc: Global) -> HeldTable
        ensures { result.editions ≡ [] }
    {
        HeldTable {
            editions: Vec::new(alloc),
        }
    }

    /// Lets go of all editions.
    pub(crate) fn clear(&mut self)
        ensures { self.new.editions ≡ [] }
    {
        self.editions.clear();
    }

    /// The allocator.
    pub(crate) fn alloc(&self) -> Global {
        *self.editions.allocator()
    }

    /// Takes the memory to keep one more edition.
    pub(crate) fn reserve(&mut self) -> Result<(), Memory>
        ensures same { self.new.editions ≡ self.old.editions }
        ensures room { OnOk result (0 < self.new.room) }
    {
        Ok(self.editions.reserve(1)?)
    }

    /// Keeps an edition, in place of one with its number. It takes no memory.
    pub(crate) fn keep(&mut self, held: Held)
        requires { 0 < self.old.room }
        ensures { Gains self.old.editions self.new.editions held }
    {
        match self.search(held.number()) {
            Ok(at) => self.editions[at] = held,
            Err(at) => {
                let Ok(()) = self.editions.insert(at, held) else {
                    unreachable!()
                };
            }
        }
    }

    /// The edition with this number, if it is held.
    pub(crate) fn find(&self, number: u64) -> Option<&Held>
        ensures { MatchOption result (theory_in self.now.editions number ≡ None) (λ held. theory_in self.now.editions number ≡ Some held.now.theory) }
    {
        match self.search(number) {
            Ok(at) => Some(&self.editions[at]),
            Err(_) => None,
        }
    }

    // Where the number is, or where it would go.
    fn search(&self, number: u64) -> Result<usize, usize>
        ensures found { IfOk result (IsAt self.now.editions number) }
        ensures absent { IfErr result (IsGapFor self.now.editions number) }
    {
        self.editions.binary_search_by_key(
            &number,
            |held|
                ensures { result ≡ held.now.number }
            { held.number() },
        )
    }
}
