//! One end of a search along pairs.

ghost use Rattle.std.specs.Prelude.{◌≡◌, ℕ, ◌+◌, ◌<◌, ◌≤◌, [], ◌∷◌, ◌++◌, OnOk, OnErr, IfOk, MatchOption, length};
ghost use Rattle.dl_sup.specs.HeadLists.{head_of};
ghost use Rattle.dl_sup.specs.Slots.{IsChained};
ghost use Rattle.dl_sup.specs.Searching.{item_at, Follows, IsFront, Begins, Turns, work};

use crate::heads::Heads;
use crate::slot::{Slot, Way, far, older};
use crate::visits::Visits;
use dl_base::Memory;
use std::alloc::Global;

/// The items that one end of a search met, and how far their chains were followed.
#[derive(Drop)]
pub(crate) struct Front {
    pub(crate) visits: Visits,
    /// The place of the item whose chain is followed.
    pub(crate) next: usize,
    /// What is left of that chain.
    pub(crate) cursor: usize,
}

/// A search from an item.
pub(crate) fn begin(alloc: Global, item: usize, heads: &Heads) -> Result<Front, Memory>
    ensures { IfOk result (λ front. Begins item heads.now front) }
{
    let visits = Visits::start(alloc, item)?;
    Ok(Front {
        visits,
        next: 0,
        cursor: heads.get(item),
    })
}

/// Follows one pair, or turns to the next item. Gives the item that was met for the first time.
pub(crate) fn step(
    front: &mut Front,
    way: Way,
    slots: &[Slot],
    heads: &Heads,
) -> Result<Option<usize>, Memory>
    requires front { IsFront way slots.now front.old }
    requires chained { IsChained way slots.now heads.now }
    requires left { front.old.next < length front.old.visits }
    ensures front { OnOk result (IsFront way slots.now front.new) }
    ensures less { OnOk result (work slots.now front.new < work slots.now front.old) }
    ensures met { IfOk result (λ met. MatchOption met (front.new.visits ≡ front.old.visits) (λ item. front.new.visits ≡ front.old.visits ++ (item, front.old.next) ∷ [])) }
{
    if front.cursor == 0 {
        turn(front, heads);
        Ok(None)
    } else {
        follow(front, way, slots[front.cursor - 1])
    }
}

/// Turns to the next item.
fn turn(front: &mut Front, heads: &Heads)
    requires { front.old.next < length front.old.visits }
    ensures { Turns heads.now front.old front.new }
{
    let met = front.visits.len();
    front.next += 1;
    front.cursor = if front.next < met {
        heads.get(front.visits.item(front.next))
    } else {
        0
    };
}

/// Follows a pair of the chain.
fn follow(front: &mut Front, way: Way, slot: Slot) -> Result<Option<usize>, Memory>
    ensures { IfOk result (λ met. Follows way slot front.old front.new met) }
{
    front.cursor = older(way, slot);
    let item = far(way, slot);
    if !slot.alive {
        return Ok(None);
    }
    match front.visits.place(item) {
        Some(_) => Ok(None),
        None => {
            front.visits.put(item, front.next)?;
            Ok(Some(item))
        }
    }
}
