//! The items that a search met.

ghost use Rattle.std.specs.Prelude.{◌≡◌, ℕ, ◌<◌, [], ◌∷◌, ◌++◌, OnOk, OnErr, IfOk, MatchOption, Contains, length};

use dl_base::Memory;
use indexmap::IndexMap;
use std::alloc::Global;
use std::marker::Model;

/// Distinct items in the order of their first visits, each with the place of the item from which it was met.
pub(crate) struct Visits {
    map: IndexMap<usize, usize>,
}

impl Drop for Visits {
    fn drop(self) {
        let Visits { map: _ } = self;
    }
}

impl Model for Visits {
    ghost use Rattle.std.specs.Prelude.{List, ℕ};

    ghost Value = { List (ℕ × ℕ) };

    ghost view = { λ v. v.map.entries };
}

impl Visits {
    ghost use Rattle.dl_sup.specs.Searching.{items_of, item_at, from_at};

    /// The item at which a search begins.
    pub(crate) fn start(alloc: Global, item: usize) -> Result<Visits, Memory>
        ensures { IfOk result (λ v. v ≡ (item, 0) ∷ []) }
    {
        let mut map = IndexMap::new(alloc);
        map.insert(item, 0)?;
        Ok(Visits { map })
    }

    pub(crate) fn len(&self) -> usize
        ensures { result ≡ length self.now }
    {
        self.map.len()
    }

    pub(crate) fn item(&self, at: usize) -> usize
        requires { at < length self.now }
        ensures { result ≡ item_at self.now at }
    {
        match self.map.get_index(at) {
            Some((item, _)) => *item,
            None => unreachable!(),
        }
    }

    pub(crate) fn from(&self, at: usize) -> usize
        requires { at < length self.now }
        ensures { result ≡ from_at self.now at }
    {
        match self.map.get_index(at) {
            Some((_, from)) => *from,
            None => unreachable!(),
        }
    }

    /// The place of an item that was met.
    pub(crate) fn place(&self, item: usize) -> Option<usize>
        ensures { MatchOption result (¬ Contains (items_of self.now) item) (λ at. (at < length self.now) × (item_at self.now at ≡ item)) }
    {
        self.map.get_index_of(&item)
    }

    /// Adds an item that was not met before.
    pub(crate) fn put(&mut self, item: usize, from: usize) -> Result<(), Memory>
        requires { ¬ Contains (items_of self.old) item }
        ensures put { OnOk result (self.new ≡ self.old ++ (item, from) ∷ []) }
        ensures kept { OnErr result (self.new ≡ self.old) }
    {
        self.map.insert(item, from)?;
        Ok(())
    }
}
