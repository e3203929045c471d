//! A fast check that a whole list of pairs is an order. Nothing is proved of how chains, groups and ranks are made: two passes see that they show what they are to show.

ghost use Rattle.std.specs.Prelude.{◌≡◌, ◌+◌, ◌<◌, ℕ, IsTrue, IfOk, true, get_or, length};
ghost use Rattle.dl_base.specs.Paths.{IsDistinct};
ghost use Rattle.dl_sup.specs.Links.{IsOrder};
ghost use Rattle.dl_sup.specs.Whole.{link_at, IsMet, IsPassed, IsStamped};

use crate::link::Link;
use dl_base::Memory;
use std::alloc::Global;

/// The pairs below each item, as chains from its last pair to its first, and how many pairs are above it. They take four bytes each.
#[derive(Drop)]
struct Chains {
    /// One past the place of the last pair of an upper item, and 0 where it has none.
    heads: Vec<u32>,
    /// The same of each pair, for the pairs of its upper item before it.
    next: Vec<u32>,
    above: Vec<u32>,
}

/// Which pairs were met, and for each lower item the upper item of the pair with which it was met last.
#[derive(Drop)]
struct Marks {
    met: Vec<bool>,
    stamps: Vec<u32>,
}

/// The lower items of the pairs, one behind another, those of each upper item together. They are read in that order, where the pairs
/// themselves lie anywhere in memory.
#[derive(Drop)]
struct Groups {
    /// Where those of each item end.
    ends: Vec<u32>,
    lowers: Vec<u32>,
}

impl Groups {
    /// No items, with room for those of so many upper items and pairs.
    fn make(alloc: Global, width: usize, pairs: usize) -> Result<Groups, Memory> {
        Ok(Groups {
            ends: Vec::with_capacity(alloc, width)?,
            lowers: Vec::with_capacity(alloc, pairs)?,
        })
    }

    /// One more item below the present one.
    fn put(&mut self, lower: usize) -> Result<(), Memory> {
        self.lowers.push(u32::try_from(lower).unwrap_or(0))?;
        Ok(())
    }

    /// The present item has no more below it, and the next one is present.
    fn end(&mut self) -> Result<(), Memory> {
        let end = u32::try_from(self.lowers.len()).unwrap_or(0);
        self.ends.push(end)?;
        Ok(())
    }

    /// Where the items below an item begin, and where they end.
    fn range(&self, item: usize) -> (u32, u32) {
        let ends = self.ends.as_slice();
        let start = match item.checked_sub(1) {
            None => 0,
            Some(before) => read(ends, before),
        };
        (start, read(ends, item))
    }
}

/// Items in an order in which each stands behind all that are above it.
#[derive(Drop)]
struct Ranking {
    groups: Groups,
    above: Vec<u32>,
    /// The places of the entered items, counted from 1.
    ranks: Vec<u32>,
    entered: Vec<u32>,
}

/// Whether a list of pairs was seen to be an order. One with very large items is not looked at.
pub fn is_order(alloc: Global, links: &[Link]) -> Result<bool, Memory>
    ensures { IfOk result (λ order. order ≡ true → IsOrder links.now) }
{
    let width = match width(links) {
        None => return Ok(false),
        Some(width) => width,
    };
    let chains = chain(alloc, links, width as usize)?;
    let mut groups = Groups::make(alloc, width as usize, links.len())?;
    if !are_distinct(alloc, links, &chains, &mut groups, width)? {
        return Ok(false);
    }
    let Chains { above, .. } = chains;
    let ranks = rank(alloc, groups, above, width)?;
    Ok(rise(links, ranks.as_slice()))
}

/// One past the largest item, where lists of that length take memory linear in the count of pairs, and four bytes hold each place.
fn width(links: &[Link]) -> Option<u32> {
    let largest = links
        .iter()
        .map(|link| link.upper.max(link.lower))
        .max()
        .unwrap_or(0);
    if largest >= links.len().saturating_mul(64).saturating_add(1024) {
        return None;
    }
    if u32::try_from(links.len()).is_err() {
        return None;
    }
    u32::try_from(largest).ok()?.checked_add(1)
}

/// A number of a list, and 0 past its end.
fn read(numbers: &[u32], at: usize) -> u32
    ensures { result ≡ get_or numbers.now at 0 }
{
    match numbers.get(at) {
        None => 0,
        Some(number) => *number,
    }
}

fn chain(alloc: Global, links: &[Link], width: usize) -> Result<Chains, Memory> {
    let mut chains = Chains {
        heads: vec![in alloc; 0; width]?,
        next: Vec::with_capacity(alloc, links.len())?,
        above: vec![in alloc; 0; width]?,
    };
    for link in links {
        put(&mut chains, *link)?;
    }
    Ok(chains)
}

/// Puts a pair before the chain of its upper item.
fn put(chains: &mut Chains, link: Link) -> Result<(), Memory> {
    chains.next.push(read(chains.heads.as_slice(), link.upper))?;
    let place = u32::try_from(chains.next.len()).unwrap_or(0);
    if let Some(head) = chains.heads.get_mut(link.upper) {
        *head = place;
    }
    if let Some(above) = chains.above.get_mut(link.lower) {
        *above = above.saturating_add(1);
    }
    Ok(())
}

/// What is left of a chain behind a place: less, whatever the list of places holds.
fn behind(chains: &Chains, at: usize) -> usize
    ensures { result < at + 1 }
{
    (read(chains.next.as_slice(), at) as usize).min(at)
}

/// Whether the chains have each pair, and no lower item twice for an upper one. On the way the lower items are grouped.
fn are_distinct(
    alloc: Global,
    links: &[Link],
    chains: &Chains,
    groups: &mut Groups,
    width: u32,
) -> Result<bool, Memory>
    ensures { IfOk result (λ distinct. distinct ≡ true → IsDistinct links.now) }
{
    let mut marks = Marks {
        met: vec![in alloc; false; links.len()]?,
        // No item has this number.
        stamps: vec![in alloc; width; width as usize]?,
    };
    for item in 0..width {
        if !pass(links, chains, &mut marks, groups, item)? {
            return Ok(false);
        }
        groups.end()?;
    }
    Ok(all_met(marks.met.as_slice()))
}

/// Meets the pairs of an upper item, and says whether all are its pairs, and their lower items differ.
fn pass(
    links: &[Link],
    chains: &Chains,
    marks: &mut Marks,
    groups: &mut Groups,
    item: u32,
) -> Result<bool, Memory>
    requires { IsPassed links.now marks.old.met.items item }
    ensures { IfOk result (λ all. all ≡ true → IsPassed links.now marks.new.met.items (item + 1)) }
{
    let mut cursor = read(chains.heads.as_slice(), item as usize) as usize;
    while cursor > 0 {
        cursor -= 1;
        if !meet(links, marks, cursor, item) {
            return Ok(false);
        }
        groups.put(links[cursor].lower)?;
        cursor = behind(chains, cursor);
    }
    Ok(true)
}

/// Meets a pair, and says whether it is one of an upper item, with a lower item that has not the mark of that item.
fn meet(links: &[Link], marks: &mut Marks, at: usize, item: u32) -> bool
    requires passed { IsPassed links.now marks.old.met.items (item + 1) }
    requires stamped { IsStamped links.now marks.old.met.items marks.old.stamps.items item }
    ensures within { IsTrue result → at < length links.now }
    ensures met { IsTrue result → IsPassed links.now marks.new.met.items (item + 1) × IsStamped links.now marks.new.met.items marks.new.stamps.items item }
{
    if at >= links.len() || at >= marks.met.len() {
        return false;
    }
    let link = links[at];
    if link.upper != item as usize
        || link.lower >= marks.stamps.len()
        || marks.stamps[link.lower] == item
    {
        return false;
    }
    marks.stamps[link.lower] = item;
    marks.met[at] = true;
    true
}

fn all_met(met: &[bool]) -> bool
    ensures { IsTrue result → (t : ℕ) → t < length met.now → IsMet met.now t }
{
    met.iter().all(|met| *met)
}

/// Ranks of the items, along which all pairs rise where they have no cycle.
fn rank(alloc: Global, groups: Groups, above: Vec<u32>, width: u32) -> Result<Vec<u32>, Memory> {
    let mut ranking = Ranking {
        groups,
        above,
        ranks: vec![in alloc; 0; width as usize]?,
        entered: Vec::with_capacity(alloc, width as usize)?,
    };
    begin(&mut ranking, width)?;
    for at in 0..usize::MAX {
        let item = match ranking.entered.get(at) {
            None => break,
            Some(item) => *item as usize,
        };
        settle(&mut ranking, item)?;
    }
    let Ranking { ranks, .. } = ranking;
    Ok(ranks)
}

/// Enters the items that no pair is above.
fn begin(ranking: &mut Ranking, width: u32) -> Result<(), Memory> {
    for item in 0..width {
        if read(ranking.above.as_slice(), item as usize) == 0 {
            enter(ranking, item as usize)?;
        }
    }
    Ok(())
}

/// Gives an item the next rank.
fn enter(ranking: &mut Ranking, item: usize) -> Result<(), Memory> {
    ranking.entered.push(u32::try_from(item).unwrap_or(0))?;
    let place = u32::try_from(ranking.entered.len()).unwrap_or(0);
    if let Some(rank) = ranking.ranks.get_mut(item) {
        *rank = place;
    }
    Ok(())
}

/// Takes away the pairs below an item that was entered.
fn settle(ranking: &mut Ranking, item: usize) -> Result<(), Memory> {
    let (start, end) = ranking.groups.range(item);
    for at in start..end {
        let lower = read(ranking.groups.lowers.as_slice(), at as usize);
        take(ranking, lower as usize)?;
    }
    Ok(())
}

/// Takes away a pair above an item, and enters the item where no other is left.
fn take(ranking: &mut Ranking, item: usize) -> Result<(), Memory> {
    let left = read(ranking.above.as_slice(), item).saturating_sub(1);
    if let Some(above) = ranking.above.get_mut(item) {
        *above = left;
    }
    if left == 0 {
        enter(ranking, item)?;
    }
    Ok(())
}

/// Whether each pair leads from a lower rank to a higher one.
fn rise(links: &[Link], ranks: &[u32]) -> bool
    ensures { IsTrue result → (t : ℕ) → t < length links.now → get_or ranks.now (link_at links.now t).upper 0 < get_or ranks.now (link_at links.now t).lower 0 }
{
    for link in links {
        if read(ranks, link.upper) >= read(ranks, link.lower) {
            return false;
        }
    }
    true
}
