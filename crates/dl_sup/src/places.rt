//! Where a pair stands.

ghost use Rattle.std.specs.Prelude.{◌≡◌, [], Option, Some, OnOk, OnErr, if◌then◌else◌};

use crate::link::Link;
use dl_base::Memory;
use std::alloc::Global;
use std::collections::HashMap;
use std::marker::Model;

/// The place of each pair that was added.
#[derive(Drop)]
pub(crate) struct Places {
    map: HashMap<Link, usize>,
}

impl Model for Places {
    ghost use Rattle.std.specs.Prelude.{List, ℕ};
    ghost use Rattle.dl_sup.specs.declared.link.Link.{Link};

    ghost Value = { List (Link × ℕ) };

    ghost view = { λ p. p.map.entries };
}

impl Places {
    ghost use Rattle.dl_sup.specs.declared.link.Link.{Link};
    ghost use Rattle.dl_sup.specs.Slots.{place_of};
    ghost use Rattle.dl_sup.specs.Links.{same_link};

    pub(crate) fn make(alloc: Global) -> Places
        ensures { result ≡ [] }
    {
        Places {
            map: HashMap::new(alloc),
        }
    }

    /// Makes room for as many more places.
    pub(crate) fn reserve(&mut self, more: usize) -> Result<(), Memory>
        ensures { (q : Link) → place_of self.new q ≡ place_of self.old q }
    {
        self.map.reserve(more)?;
        Ok(())
    }

    pub(crate) fn get(&self, link: Link) -> Option<usize>
        ensures { result ≡ place_of self.now link }
    {
        self.map.get(&link).copied()
    }

    pub(crate) fn put(&mut self, link: Link, at: usize) -> Result<(), Memory>
        ensures put { OnOk result ((q : Link) → place_of self.new q ≡ (if same_link link q then Some at else place_of self.old q)) }
        ensures kept { OnErr result (self.new ≡ self.old) }
    {
        self.map.insert(link, at)?;
        Ok(())
    }
}
