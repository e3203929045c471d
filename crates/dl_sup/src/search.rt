//! The search for a path, from both of its ends in turn.

ghost use Rattle.std.specs.Prelude.{◌≡◌, ◌≢◌, ℕ, ◌<◌, ◌++◌, ◌∷◌, OnOk, IfOk, MatchOption, Contains, length, reverse};
ghost use Rattle.dl_sup.specs.Slots.{live, IsChained};
ghost use Rattle.dl_sup.specs.Searching.{items_of, item_at, trail, Falls, IsApart, IsFront, IsWalk};

use crate::front::{Front, begin, step};
use crate::heads::Heads;
use crate::slot::{Slot, Way};
use crate::track::Track;
use crate::visits::Visits;
use dl_base::Memory;
use std::alloc::Global;

/// What a turn of one end came to.
#[derive(Clone, Copy)]
enum Turn {
    /// All that this end leads to was met before.
    Ended,
    /// An item that both ends met: its place at this end, and at the other.
    Met { here: usize, there: usize },
    Open,
}

/// A path from an item down to another one, where there is one.
pub(crate) fn search(
    alloc: Global,
    slots: &[Slot],
    downs: &Heads,
    ups: &Heads,
    from: usize,
    to: usize,
) -> Result<Option<Track>, Memory>
    requires below { IsChained Way.Down slots.now downs.now }
    requires over { IsChained Way.Up slots.now ups.now }
    requires apart { from ≢ to }
    ensures { IfOk result (λ found. MatchOption found (IsApart (live slots.now) from to) (IsWalk (live slots.now) from to)) }
{
    let mut low = begin(alloc, from, downs)?;
    let mut high = begin(alloc, to, ups)?;
    meet(alloc, slots, downs, ups, &mut low, &mut high)
}

/// Turns both ends until they meet, or until one of them has met all that it leads to.
fn meet(
    alloc: Global,
    slots: &[Slot],
    downs: &Heads,
    ups: &Heads,
    low: &mut Front,
    high: &mut Front,
) -> Result<Option<Track>, Memory>
    requires below { IsChained Way.Down slots.now downs.now }
    requires over { IsChained Way.Up slots.now ups.now }
    requires low { IsFront Way.Down slots.now low.old }
    requires high { IsFront Way.Up slots.now high.old }
    requires low_lacks { ¬ Contains (items_of low.old.visits) (item_at high.old.visits 0) }
    requires high_lacks { ¬ Contains (items_of high.old.visits) (item_at low.old.visits 0) }
    ensures { IfOk result (λ found. MatchOption found (IsApart (live slots.now) (item_at low.old.visits 0) (item_at high.old.visits 0)) (IsWalk (live slots.now) (item_at low.old.visits 0) (item_at high.old.visits 0))) }
{
    loop {
        match advance(low, Way::Down, slots, downs, &high.visits)? {
            Turn::Ended => return Ok(None),
            Turn::Met { here, there } => {
                return Ok(Some(join(alloc, &low.visits, here, &high.visits, there)?));
            }
            Turn::Open => {}
        }
        match advance(high, Way::Up, slots, ups, &low.visits)? {
            Turn::Ended => return Ok(None),
            Turn::Met { here, there } => {
                return Ok(Some(join(alloc, &low.visits, there, &high.visits, here)?));
            }
            Turn::Open => {}
        }
    }
}

ghost use Rattle.dl_sup.specs.Turning.{IsTurn};

/// One step of an end, and whether it met what the other end did.
fn advance(
    front: &mut Front,
    way: Way,
    slots: &[Slot],
    heads: &Heads,
    other: &Visits,
) -> Result<Turn, Memory>
    requires front { IsFront way slots.now front.old }
    requires chained { IsChained way slots.now heads.now }
    ensures { IfOk result (λ turn. IsTurn way slots.now front.old front.new other.now turn) }
{
    if front.next == front.visits.len() {
        return Ok(Turn::Ended);
    }
    let here = front.visits.len();
    match step(front, way, slots, heads)? {
        None => Ok(Turn::Open),
        Some(item) => match other.place(item) {
            None => Ok(Turn::Open),
            Some(there) => Ok(Turn::Met { here, there }),
        },
    }
}

/// The path through an item that both ends met.
fn join(
    alloc: Global,
    low: &Visits,
    low_at: usize,
    high: &Visits,
    high_at: usize,
) -> Result<Track, Memory>
    requires low_within { low_at < length low.now }
    requires high_within { high_at < length high.now }
    requires low_falls { Falls low.now }
    requires high_falls { Falls high.now }
    ensures { IfOk result (λ track. track ≡ reverse (trail low.now low_at) ++ item_at low.now low_at ∷ trail high.now high_at) }
{
    let mut items = Vec::new(alloc);
    trace(&mut items, low, low_at)?;
    items.reverse();
    items.push(low.item(low_at))?;
    trace(&mut items, high, high_at)?;
    Ok(Track { items })
}

/// Adds the items from which a search came to a place, the last one first.
fn trace(items: &mut Vec<usize>, visits: &Visits, place: usize) -> Result<(), Memory>
    requires within { place < length visits.now }
    requires falls { Falls visits.now }
    ensures { OnOk result (items.new.items ≡ items.old.items ++ trail visits.now place) }
{
    let mut at = place;
    while at > 0 {
        at = visits.from(at);
        items.push(visits.item(at))?;
    }
    Ok(())
}
