//! Pairs of rules by the places of their labels.

ghost use Rattle.std.specs.Prelude.{◌≡◌, ◌≤◌, [], All, map, length, slice_get};
ghost use Rattle.std.specs.Option.{option_map};
ghost use Rattle.dl_sup.specs.Links.{IsOrder};
ghost use Rattle.dl_theory.specs.Edits.{IsPairsOutcome};
ghost use Rattle.dl_theory.specs.Lists as lists;
ghost use Rattle.dl_theory.specs.Lists.{TheoryLists, IsWellFormed};
ghost use Rattle.dl_theory.specs.Pairs.{named, IsWithin};
ghost use Rattle.dl_theory.specs.Superiority.{IsLinksOutcome};

use crate::edit::{EditRefusal, PairsStop};
use crate::labelled::labelled_front;
use crate::refused::told;
use crate::rule::Pair;
use crate::theory::LIMIT;
use dl_lit::{Memory, Name, NameSet};
use dl_sup::{Link, extend_order};
use std::alloc::Global;
use std::marker::Model;

/// Pairs of rules by the places of their labels, distinct and without cycles: for whoever keeps the labels of the rules and drops none.
pub struct RulePairs {
    links: Vec<Link>,
}

impl Drop for RulePairs {
    fn drop(self) {
        let RulePairs { links: _ } = self;
    }
}

impl Model for RulePairs {
    ghost use Rattle.std.specs.Prelude.{List};
    ghost use Rattle.dl_sup.specs.declared.link.Link.{Link};
    ghost use Rattle.dl_sup.specs.Links.{IsOrder};

    ghost Value = { List Link };

    ghost view = { λ p. p.links.items };

    ghost invariant = { λ p. IsOrder p.links.items };
}

impl RulePairs {
    /// The empty list.
    pub fn make(alloc: Global) -> RulePairs
        ensures { result ≡ [] }
    {
        RulePairs {
            links: Vec::new(alloc),
        }
    }

    /// The pairs of an order.
    pub(crate) fn of(links: Vec<Link>) -> RulePairs
        requires { IsOrder links.items }
        ensures { result ≡ links.items }
    {
        RulePairs { links }
    }

    /// Adds pairs to those of a theory whose rules have these labels, as adding them one by one, in order, up to the first that is refused.
    pub fn add_labelled(&mut self, labels: &NameSet<Name>, pairs: &[Pair]) -> Result<(), PairsStop>
        requires within { All (IsWithin labels.now.keys) self.old }
        requires few { length self.old ≤ 1000000 }
        ensures added { (T : TheoryLists) → IsWellFormed T → lists.labels T ≡ labels.now.keys → T.pairs ≡ map (named labels.now.keys) self.old
            → IsPairsOutcome T pairs.now (record T { pairs = map (named labels.now.keys) self.new }) result }
        ensures within { All (IsWithin labels.now.keys) self.new }
    {
        let alloc = *self.links.allocator();
        let (links, missing) = labelled_front(alloc, labels, pairs)?;
        let end = links.len();
        let items = labels.as_slice();
        add_within_limit(alloc, items, &mut self.links, links.as_slice())?;
        match missing {
            None => Ok(()),
            Some(refusal) => Err(PairsStop::Refused { at: end, refusal }),
        }
    }

    /// The places of the labels of each pair.
    pub(crate) fn as_slice(&self) -> &[Link]
        ensures value { result.now ≡ self.now }
        ensures order { IsOrder self.now }
    {
        self.links.as_slice()
    }

    /// How many pairs there are.
    pub fn len(&self) -> usize
        ensures { result ≡ length self.now }
    {
        self.links.len()
    }

    /// The places of the upper and the lower rule of the pair at a place; `None` exactly past the end.
    pub fn rules_of(&self, at: usize) -> Option<(usize, usize)>
        ensures { result ≡ option_map (λ l. (l.upper, l.lower)) (slice_get self.now at) }
    {
        match self.links.get(at) {
            None => None,
            Some(link) => Some((link.upper, link.lower)),
        }
    }
}

/// Adds pairs behind an order, up to the first that is refused or finds the list full; the labels are for the answer.
fn add_within_limit(
    alloc: Global,
    items: &[Name],
    links: &mut Vec<Link>,
    more: &[Link],
) -> Result<(), PairsStop>
    requires order { IsOrder links.old.items }
    requires old_within { All (IsWithin items.now) links.old.items }
    requires more_within { All (IsWithin items.now) more.now }
    requires few { length links.old.items ≤ 1000000 }
    ensures order { IsOrder links.new.items }
    ensures within { All (IsWithin items.now) links.new.items }
    ensures few { length links.new.items ≤ 1000000 }
    ensures outcome { IsLinksOutcome items.now links.old.items links.new.items more.now result }
{
    let room = LIMIT - links.len();
    // one more than there is room for, since a pair is only told to find the list full where nothing else is wrong with it
    let tried = more.len().min(room + 1);
    add_all(alloc, items, links, &more[..tried])?;
    if links.len() <= LIMIT {
        return Ok(());
    }
    links.truncate(LIMIT);
    let refusal = EditRefusal::PairsFull;
    Err(PairsStop::Refused { at: room, refusal })
}

/// The same without a limit.
fn add_all(
    alloc: Global,
    items: &[Name],
    links: &mut Vec<Link>,
    more: &[Link],
) -> Result<(), PairsStop>
    requires order { IsOrder links.old.items }
    requires old_within { All (IsWithin items.now) links.old.items }
    requires more_within { All (IsWithin items.now) more.now }
    ensures order { IsOrder links.new.items }
    ensures within { All (IsWithin items.now) links.new.items }
    ensures outcome { IsLinksOutcome items.now links.old.items links.new.items more.now result }
{
    let old = links.len();
    let stop = match extend_order(links, more) {
        Ok(()) => return Ok(()),
        Err(stop) => told(alloc, items, stop),
    };
    match stop {
        PairsStop::Refused { at, refusal } => Err(PairsStop::Refused { at, refusal }),
        PairsStop::Memory => {
            links.truncate(old);
            Err(PairsStop::Memory)
        }
    }
}
