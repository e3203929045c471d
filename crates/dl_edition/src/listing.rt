//! The order of an edition's literals, which stands in a slot from when it is first asked for.
//!
//! Many read it at once, each counted while it reads, and it is put there once. Nobody waits: who finds no order, or comes between two
//! steps of another, puts the literals in order alone.

ghost use Rattle.std.specs.Prelude.{◌≡◌, ◌+◌, ◌%◌, ◌<◌, ◌≤◌, IfSome, IsTrue};
ghost use Rattle.counted_slot.specs.Counting.{IsTurn, readers};
ghost use Rattle.dl_conclusions.specs.Orders.{IsOrder};

use counted_slot::{Claim, Counted, FREE, Fits, MOST_READERS, ONE_READER, PRESENT, TAKEN};
use dl_net::Net;

/// The numbers of the literals that a net's theory mentions, in the order of the literals.
pub(crate) struct Listing {
    pub(crate) order: Vec<usize>,
}

impl Drop for Listing {
    fn drop(self) {
        let Listing { order: _ } = self;
    }
}

/// A slot is made for a net, and what stands in it is the order of that net's literals.
impl Fits for Listing {
    type Tag = Net;

    ghost fits = { λ net listing. IsOrder net listing.order.items };
}

/// An empty slot for the order of a net's literals.
pub(crate) fn no_listing(net: &Net) -> Counted<Option<Listing>>
    ensures { result ≡ net.now }
{
    Counted::new(None, net)
}

/// Whether the word of a slot says that an order stands in it and one more can be counted who reads it.
fn is_open(word: u64) -> bool
    ensures room { IsTrue result → word + ONE_READER ≤ u64.MAX }
    ensures turn { IsTrue result → IsTurn word (word + ONE_READER) }
    ensures shared { IsTrue result → (word + ONE_READER) % 4 < 3 }
    ensures more { IsTrue result → readers word < readers (word + ONE_READER) }
{
    word % ONE_READER == PRESENT && word / ONE_READER < MOST_READERS
}

/// The right to read what stands in a slot, which has to be given back. `None` where there is no order yet, or where another's step
/// came between.
pub(crate) fn reading(slot: &Counted<Option<Listing>>) -> Option<Claim<'_, Option<Listing>>>
    ensures right { IfSome result (λ claim. claim.right ≡ 1) }
    ensures tag { IfSome result (λ claim. claim.tag ≡ slot.now) }
{
    let word = slot.load();
    if !is_open(word) {
        return None;
    }
    let (found, claim) = slot.turn(word, word + ONE_READER);
    if found == word {
        Some(claim)
    } else {
        claim.done();
        None
    }
}

/// Leaves an order in an empty slot. One that comes too late is dropped.
pub(crate) fn keep(slot: &Counted<Option<Listing>>, order: Vec<usize>)
    requires { IsOrder slot.now order.items }
{
    let (found, claim) = slot.turn(FREE, TAKEN);
    if found == FREE {
        let _empty = claim.put(Some(Listing { order }), PRESENT);
    } else {
        claim.done();
    }
}
