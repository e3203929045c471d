//! A list of distinct pairs, with each pair's place and each item's pairs at hand.

ghost use Rattle.std.specs.Prelude.{◌≡◌, ℕ, ◌<◌, ◌≢◌, [], ◌∷◌, ◌++◌, ◌↔◌, IsTrue, OnOk, OnErr, IfOk, MatchOption, Contains, filter, not, length};

use crate::heads::Heads;
use crate::link::Link;
use crate::places::Places;
use crate::search::search;
use crate::slot::{Slot, Way, older};
use crate::track::Track;
use dl_base::Memory;
use std::alloc::Global;
use std::marker::Model;

/// Distinct pairs. A pair that goes leaves its place empty.
pub(crate) struct Table {
    slots: Vec<Slot>,
    places: Places,
    /// The chains of upper items.
    downs: Heads,
    /// The chains of lower items.
    ups: Heads,
    /// How many places were emptied since the last `tidy`, or more.
    gone: usize,
}

impl Drop for Table {
    fn drop(self) {
        let Table {
            slots: _,
            places: _,
            downs: _,
            ups: _,
            gone: _,
        } = self;
    }
}

impl Model for Table {
    ghost use Rattle.std.specs.Prelude.{List};
    ghost use Rattle.dl_sup.specs.declared.link.Link.{Link};

    ghost Value = { List Link };

    ghost use Rattle.dl_sup.specs.Slots.{live, IsKept};

    ghost view = { λ t. live t.slots.items };

    ghost invariant = { λ t. IsKept t.slots.items t.places t.downs t.ups };
}

impl Table {
    ghost use Rattle.dl_sup.specs.Links.{names_item, link, same_link};
    ghost use Rattle.dl_sup.specs.Links.{IsOver};
    ghost use Rattle.dl_sup.specs.Searching.{IsApart, IsWalk};
    ghost use Rattle.dl_base.specs.Paths.{IsDistinct, HasCycle};
    ghost use Rattle.std.specs.Prelude.{true};

    pub(crate) fn make(alloc: Global) -> Table
        ensures { result ≡ [] }
    {
        Table {
            slots: Vec::new(alloc),
            places: Places::make(alloc),
            downs: Heads::make(alloc),
            ups: Heads::make(alloc),
            gone: 0,
        }
    }

    pub(crate) fn alloc(&self) -> Global {
        *self.slots.allocator()
    }

    /// A path from an item down to another one, where there is one.
    pub(crate) fn path(&self, from: usize, to: usize) -> Result<Option<Track>, Memory>
        requires { from ≢ to }
        ensures { IfOk result (λ found. MatchOption found (IsApart self.now from to) (IsWalk self.now from to)) }
    {
        search(
            self.alloc(),
            self.slots.as_slice(),
            &self.downs,
            &self.ups,
            from,
            to,
        )
    }

    pub(crate) fn has(&self, pair: Link) -> bool
        ensures { IsTrue result ↔ Contains self.now pair }
    {
        find(self.slots.as_slice(), &self.places, pair).is_some()
    }

    /// Makes room for as many more pairs, so that the lists do not grow step by step.
    fn reserve(&mut self, more: usize) -> Result<(), Memory>
        ensures { self.new ≡ self.old }
    {
        self.slots.reserve(more)?;
        self.places.reserve(more)
    }

    /// Adds a new pair at the end.
    pub(crate) fn put(&mut self, pair: Link) -> Result<(), Memory>
        requires { ¬ Contains self.old pair }
        ensures put { OnOk result (self.new ≡ self.old ++ pair ∷ []) }
        ensures kept { OnErr result (self.new ≡ self.old) }
    {
        let at = self.slots.len();
        self.slots.push(Slot {
            link: pair,
            alive: false,
            down: self.downs.get(pair.upper),
            up: self.ups.get(pair.lower),
        })?;
        self.downs.put(pair.upper, at + 1)?;
        self.ups.put(pair.lower, at + 1)?;
        self.places.put(pair, at)?;
        let slot = &mut self.slots[at];
        slot.alive = true;
        Ok(())
    }

    /// Removes a pair, and says whether it was there.
    pub(crate) fn drop_pair(&mut self, pair: Link) -> bool
        ensures there { IsTrue result ↔ Contains self.old pair }
        ensures dropped { self.new ≡ filter (λ q. not (same_link q pair)) self.old }
    {
        match find(self.slots.as_slice(), &self.places, pair) {
            None => false,
            Some(at) => {
                let slot = &mut self.slots[at];
                slot.alive = false;
                self.gone = self.gone.saturating_add(1);
                true
            }
        }
    }

    /// Removes the pairs that name an item.
    pub(crate) fn drop_item(&mut self, item: usize)
        ensures { self.new ≡ filter (λ p. not (names_item item p)) self.old }
    {
        let below = drop_chain(&mut self.slots, Way::Down, &self.downs, item);
        let over = drop_chain(&mut self.slots, Way::Up, &self.ups, item);
        self.gone = self.gone.saturating_add(below).saturating_add(over);
    }

    /// The same pairs at places without gaps.
    pub(crate) fn copy(&self) -> Result<Table, Memory>
        ensures { IfOk result (λ table. table ≡ self.now) }
    {
        let mut fresh = Table::make(self.alloc());
        fresh.reserve(self.slots.len())?;
        for slot in self.slots.iter() {
            put_slot(&mut fresh, *slot)?;
        }
        Ok(fresh)
    }

    /// The pairs, and more behind them.
    pub(crate) fn with(&self, more: &[Link]) -> Result<Vec<Link>, Memory>
        ensures { IfOk result (λ all. all.items ≡ self.now ++ more.now) }
    {
        let mut all = Vec::with_capacity(self.alloc(), self.slots.len())?;
        for slot in self.slots.iter() {
            if slot.alive {
                all.push(slot.link)?;
            }
        }
        all.extend_from_slice(more)?;
        Ok(all)
    }

    /// The list of these pairs.
    pub(crate) fn of(alloc: Global, links: &[Link]) -> Result<Table, Memory>
        requires { IsDistinct links.now }
        ensures { IfOk result (λ table. table ≡ links.now) }
    {
        let mut table = Table::make(alloc);
        table.reserve(links.len())?;
        for link in links {
            table.put(*link)?;
        }
        Ok(table)
    }

    /// Closes the gaps, where more than half of the places are empty.
    pub(crate) fn tidy(&mut self) -> Result<(), Memory>
        ensures { self.new ≡ self.old }
    {
        if self.gone > self.slots.len() / 2 {
            let fresh = self.copy()?;
            *self = fresh;
        }
        Ok(())
    }
}

ghost use Rattle.dl_sup.specs.Slots.{near as near_of, live, slot_at, IsAlive, IsChained, KeepsSlots, IsFoundAt, place_of};
ghost use Rattle.dl_sup.specs.Links.{names_item as names};
ghost use Rattle.std.specs.Prelude.{Some, true};

/// The place of a pair that is there.
fn find(slots: &[Slot], places: &Places, pair: Link) -> Option<usize>
    requires { (t : ℕ) → IsAlive slots.now t → place_of places.now (slot_at slots.now t).link ≡ Some t }
    ensures { MatchOption result (¬ Contains (live slots.now) pair) (λ t. IsFoundAt slots.now pair t) }
{
    match places.get(pair) {
        None => None,
        Some(at) => match slots.get(at) {
            None => None,
            Some(slot) => {
                if slot.alive && slot.link == pair {
                    Some(at)
                } else {
                    None
                }
            }
        },
    }
}

/// Adds the pair of a place, if it is there.
fn put_slot(table: &mut Table, slot: Slot) -> Result<(), Memory>
    requires { slot.alive ≡ true → ¬ Contains table.old slot.link }
    ensures { OnOk result (table.new ≡ table.old ++ live (slot ∷ [])) }
{
    if slot.alive {
        table.put(slot.link)?;
    }
    Ok(())
}

/// Removes the pairs on the chain of an item, and says how long it was.
fn drop_chain(slots: &mut Vec<Slot>, way: Way, heads: &Heads, item: usize) -> usize
    requires { IsChained way slots.old.items heads.now }
    ensures gone { (t : ℕ) → IsAlive slots.new.items t → near_of way (slot_at slots.new.items t) ≢ item }
    ensures rest { filter (λ p. not (names item p)) (live slots.new.items) ≡ filter (λ p. not (names item p)) (live slots.old.items) }
    ensures keeps { KeepsSlots slots.old.items slots.new.items }
{
    let mut length = 0usize;
    let mut cursor = heads.get(item);
    while cursor > 0 {
        let slot = &mut slots[cursor - 1];
        slot.alive = false;
        cursor = older(way, *slot);
        length = length.saturating_add(1);
    }
    length
}
