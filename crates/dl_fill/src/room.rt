//! Room for fills.

ghost use Rattle.std.specs.Prelude.{◌≡◌, ◌≤◌, OnOk, OnErr};
ghost use Rattle.dl_fill.specs.Idle.{IsIdle};

use crate::family::FamilyGates;
use crate::parts::{Parts, make_parts, no_parts};
use dl_base::Memory;
use std::alloc::Global;
use std::marker::Model;

/// Counters for fills by tables with so many kinds of nodes, at places for so many rules and names. A fill takes no memory.
pub struct FillRoom {
    alloc: Global,
    pub(crate) width: usize,
    pub(crate) places: usize,
    pub(crate) parts: Parts,
}

impl Drop for FillRoom {
    fn drop(self) {
        let FillRoom {
            alloc: _,
            width: _,
            places: _,
            parts: _,
        } = self;
    }
}

impl Model for FillRoom {
    ghost use Rattle.dl_fill.specs.Prepared.{Room};
    ghost use Rattle.dl_fill.specs.Idle.{IsIdle};

    ghost Value = { Room };

    ghost view = { λ w. record { width = w.width; places = w.places } };

    ghost invariant = { λ w. IsIdle w.width w.places w.parts.counters w.parts.rules };
}

impl FillRoom {
    /// No room, for fills of the families of a table.
    pub fn make<G: FamilyGates>(alloc: Global, gates: &G) -> FillRoom
        ensures width { result.width ≡ G.table.width }
        ensures places { result.places ≡ 0 }
    {
        let width = gates.width();
        FillRoom {
            alloc,
            width,
            places: 0,
            parts: no_parts(alloc, width),
        }
    }

    /// Room for so many rules and names at least. `Memory`, where there is none for that, leaves it as it was.
    pub fn reserve(&mut self, rules: usize, names: usize) -> Result<(), Memory>
        ensures width { self.new.width ≡ self.old.width }
        ensures rules { OnOk result (rules ≤ self.new.places) }
        ensures names { OnOk result (names ≤ self.new.places) }
        ensures grows { self.old.places ≤ self.new.places }
        ensures kept { OnErr result (self.new ≡ self.old) }
    {
        let places = if rules < names { names } else { rules };
        if self.places < places {
            self.parts = make_parts(self.alloc, self.width, places)?;
            self.places = places;
        }
        Ok(())
    }

    /// What it counts with, for the last fill of it.
    pub(crate) fn into_parts(self) -> Parts
        ensures { IsIdle self.width self.places result.counters result.rules }
    {
        let FillRoom {
            alloc: _,
            width: _,
            places: _,
            parts,
        } = self;
        parts
    }
}
