//! Paths of numbered items.

ghost use Rattle.std.specs.Prelude.{◌≡◌, ◌==◌, length, slice_get, IfOk, [], ◌∷◌};
ghost use Rattle.std.specs.Option.{option_copied};

use dl_base::Memory;
use std::alloc::Global;
use std::marker::Model;

/// A path of items, each above the next.
pub struct Track {
    pub(crate) items: Vec<usize>,
}

impl Drop for Track {
    fn drop(self) {
        let Track { items: _ } = self;
    }
}

impl Model for Track {
    ghost use Rattle.std.specs.Prelude.{List, ℕ};

    ghost Value = { List ℕ };

    ghost view = { λ t. t.items.items };
}

impl Track {
    /// One item alone.
    pub(crate) fn single(alloc: Global, item: usize) -> Result<Track, Memory>
        ensures { IfOk result (λ track. track ≡ item ∷ []) }
    {
        let mut items = Vec::new(alloc);
        items.push(item)?;
        Ok(Track { items })
    }

    pub fn len(&self) -> usize
        ensures { result ≡ length self.now }
    {
        self.items.len()
    }

    pub fn is_empty(&self) -> bool
        ensures { result ≡ (length self.now == 0) }
    {
        self.items.is_empty()
    }

    /// The item at a place; `None` exactly past the end.
    pub fn get(&self, at: usize) -> Option<&usize>
        ensures { option_copied result ≡ slice_get self.now at }
    {
        self.items.get(at)
    }

    pub fn as_slice(&self) -> &[usize]
        ensures { result.now ≡ self.now }
    {
        self.items.as_slice()
    }
}
