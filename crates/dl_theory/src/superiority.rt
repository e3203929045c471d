//! Pairs of labels without cycles, over an order of numbers.

ghost use Rattle.std.specs.Prelude.{◌≡◌, [], ◌∷◌, ◌++◌, ◌↔◌, ◌<◌, ◌≤◌, ◌||◌, ℕ, List, IsTrue, OnOk, OnErr, IfOk, IfErr, Contains, All, filter, not, map, length, slice_get};
ghost use Rattle.std.specs.Option.{option_copied};
ghost use Rattle.std.specs.Str.{bytes_eq};
ghost use Rattle.dl_base.specs.Paths.{IsDistinct};
ghost use Rattle.dl_theory.specs.Edits.{AreThere};
ghost use Rattle.dl_theory.specs.Lists.{IsAbove};
ghost use Rattle.dl_sup.specs.Links.{IsOrder, names_item};
ghost use Rattle.dl_sup.specs.Adding.{ClosesCycle};
ghost use Rattle.dl_theory.specs.Pairs.{pair_eq, Closes, label_at, named, IsWithin, IsNumbered, IsNumberOf};
ghost use Rattle.dl_theory.specs.Superiority.{IsPairStop, IsLinkStop};

use crate::labelled::{link_of, links_of, pairs_of};
use crate::labels::{copy_labels, place_of};
use crate::lists::Path;
use crate::refused::path_of;
use crate::rule::Pair;
use crate::theory::LIMIT;
use dl_lit::{Memory, Name, NameSet, name_set};
use dl_sup::{Link, LoadStop, Order, SupStop};
use std::alloc::Global;
use std::marker::Model;

/// Why a pair was not added whose labels are there and which is not in the list.
#[derive(Drop)]
pub(crate) enum PairStop {
    Cycle(Path),
    Full,
    Memory,
}

impl From<Memory> for PairStop {
    ghost use Rattle.std.specs.Prelude.{◌≡◌};
    ghost use Rattle.dl_theory.specs.declared.superiority.PairStop.{PairStop};

    ghost from_gives = { λ _ stop. stop ≡ PairStop.Memory };

    fn from(_: Memory) -> PairStop {
        PairStop::Memory
    }
}

/// A list of pairs without cycles.
// Each label that ever stood in a pair has its place among the items, and the order has, for each pair, the places of its labels. So the
// order tells whether a pair is in the list.
pub(crate) struct Superiority {
    pairs: Vec<Pair>,
    items: NameSet<Name>,
    order: Order,
}

impl Drop for Superiority {
    fn drop(self) {
        let Superiority {
            pairs: _,
            items: _,
            order: _,
        } = self;
    }
}

impl Model for Superiority {
    ghost use Rattle.std.specs.Prelude.{List};
    ghost use Rattle.dl_theory.specs.declared.rule.Pair.{Pair};

    ghost Value = { List Pair };

    ghost use Rattle.dl_theory.specs.KeptPairs.{IsKept};

    ghost view = { λ s. s.pairs.items };

    ghost invariant = { IsKept };
}

impl Superiority {
    /// The empty list.
    pub fn make(alloc: Global) -> Superiority
        ensures { result ≡ [] }
    {
        Superiority {
            pairs: Vec::new(alloc),
            items: name_set(alloc),
            order: Order::make(alloc),
        }
    }

    /// Adds a pair at the end, or says why not.
    pub(crate) fn add(&mut self, pair: Pair) -> Result<(), PairStop>
        requires { ¬ Contains self.old pair }
        ensures accepted { OnOk result (¬ Closes self.old pair) }
        ensures room { OnOk result (length self.old < 1000000) }
        ensures added { OnOk result (self.new ≡ self.old ++ pair ∷ []) }
        ensures stopped { IfErr result (IsPairStop self.old pair) }
        ensures kept { OnErr result (self.new ≡ self.old) }
    {
        let alloc = *self.pairs.allocator();
        let link = number_pair(&mut self.items, &pair)?;
        add_numbered(
            alloc,
            &mut self.pairs,
            self.items.as_slice(),
            &mut self.order,
            pair,
            link,
        )
    }

    /// The pairs of an order, by the places of their labels.
    pub(crate) fn of(labels: &NameSet<Name>, links: &[Link]) -> Result<Superiority, Memory>
        requires order { IsOrder links.now }
        requires within { All (IsWithin labels.now.keys) links.now }
        ensures { IfOk result (λ list. list ≡ map (named labels.now.keys) links.now) }
    {
        let alloc = *labels.allocator();
        let pairs = pairs_of(alloc, labels.as_slice(), links)?;
        let items = copy_labels(labels)?;
        let order = order_of(alloc, links)?;
        Ok(Superiority {
            pairs,
            items,
            order,
        })
    }

    /// An equal list.
    pub(crate) fn copy(&self) -> Result<Superiority, Memory>
        ensures { IfOk result (λ copy. copy ≡ self.now) }
    {
        let alloc = *self.pairs.allocator();
        let pairs = copied(alloc, self.pairs.as_slice())?;
        let items = copy_labels(&self.items)?;
        let order = self.order.copy()?;
        Ok(Superiority {
            pairs,
            items,
            order,
        })
    }

    /// Removes a pair; tells whether it was there.
    pub(crate) fn drop_pair(&mut self, pair: &Pair) -> bool
        requires { IsDistinct self.old }
        ensures found { IsTrue result ↔ Contains self.old pair.now }
        ensures dropped { self.new ≡ filter (λ p. not (pair_eq p pair.now)) self.old }
    {
        drop_numbered(&mut self.pairs, &self.items, &mut self.order, pair)
    }

    /// Removes the pairs that name a label.
    pub(crate) fn drop_label(&mut self, label: &Name)
        ensures { self.new ≡ filter (λ p. not (bytes_eq p.upper label.now || bytes_eq p.lower label.now)) self.old }
    {
        if let Some(item) = place_of(&self.items, label) {
            drop_naming(&mut self.pairs, &mut self.order, label, item);
        }
    }

    /// Whether a pair is in the list.
    pub fn has(&self, pair: &Pair) -> bool
        ensures { IsTrue result ↔ Contains self.now pair.now }
    {
        self.is_above(&pair.upper, &pair.lower)
    }

    /// Whether the pair of two labels is in the list.
    pub fn is_above(&self, upper: &Name, lower: &Name) -> bool
        ensures { IsTrue result ↔ IsAbove self.now upper.now lower.now }
    {
        match place_of(&self.items, upper) {
            None => false,
            Some(above) => match place_of(&self.items, lower) {
                None => false,
                Some(below) => self.order.above(above, below),
            },
        }
    }

    /// How many pairs there are.
    pub fn len(&self) -> usize
        ensures { result ≡ length self.now }
    {
        self.pairs.len()
    }

    /// The pair at a place; `None` exactly past the end.
    pub fn get(&self, at: usize) -> Option<&Pair>
        ensures { option_copied result ≡ slice_get self.now at }
    {
        self.pairs.get(at)
    }

    /// The pairs by the places of their labels, all of which are there.
    pub fn links(&self, labels: &NameSet<Name>) -> Result<Vec<Link>, Memory>
        requires { All (AreThere labels.now.keys) self.now }
        ensures within { IfOk result (λ links. All (IsWithin labels.now.keys) links.items) }
        ensures named { IfOk result (λ links. self.now ≡ map (named labels.now.keys) links.items) }
    {
        let alloc = *self.pairs.allocator();
        links_of(alloc, labels, self.pairs.as_slice())
    }

    /// The pairs, in order.
    pub fn as_slice(&self) -> &[Pair]
        ensures { result.now ≡ self.now }
    {
        self.pairs.as_slice()
    }
}

/// The place of a label among the items, which may grow.
fn number(items: &mut NameSet<Name>, label: &Name) -> Result<usize, Memory>
    requires { IsDistinct items.old.keys }
    ensures distinct { IsDistinct items.new.keys }
    ensures grown { (more : List (List ℕ)) × (items.new.keys ≡ items.old.keys ++ more) }
    ensures within { IfOk result (λ n. n < length items.new.keys) }
    ensures names { IfOk result (λ n. label_at items.new.keys n ≡ label.now) }
{
    let (at, _) = items.insert_full(label.copy()?)?;
    Ok(at)
}

/// The places of both labels of a pair.
fn number_pair(items: &mut NameSet<Name>, pair: &Pair) -> Result<Link, Memory>
    requires { IsDistinct items.old.keys }
    ensures distinct { IsDistinct items.new.keys }
    ensures grown { (more : List (List ℕ)) × (items.new.keys ≡ items.old.keys ++ more) }
    ensures number { IfOk result (λ l. IsNumberOf items.new.keys l pair.now) }
{
    let upper = number(items, &pair.upper)?;
    let lower = number(items, &pair.lower)?;
    Ok(Link { upper, lower })
}

/// The order of pairs of numbers that are one.
fn order_of(alloc: Global, links: &[Link]) -> Result<Order, Memory>
    requires { IsOrder links.now }
    ensures { IfOk result (λ order. order ≡ links.now) }
{
    let mut order = Order::make(alloc);
    match order.add_all(links) {
        Ok(()) => Ok(order),
        Err(LoadStop::Memory) => Err(Memory),
        Err(LoadStop::There { .. }) => unreachable!(),
        Err(LoadStop::Cycle { .. }) => unreachable!(),
    }
}

fn copied(alloc: Global, pairs: &[Pair]) -> Result<Vec<Pair>, Memory>
    ensures { IfOk result (λ all. all.items ≡ pairs.now) }
{
    let mut all = Vec::with_capacity(alloc, pairs.len())?;
    for pair in pairs {
        all.push(pair.copy()?)?;
    }
    Ok(all)
}

/// Adds a pair of numbers.
fn add_link(alloc: Global, items: &[Name], order: &mut Order, link: Link) -> Result<(), PairStop>
    requires new { ¬ Contains order.old link }
    requires within { All (IsWithin items.now) order.old }
    requires link_within { IsWithin items.now link }
    ensures accepted { OnOk result (¬ ClosesCycle order.old link) }
    ensures added { OnOk result (order.new ≡ order.old ++ link ∷ []) }
    ensures stopped { IfErr result (IsLinkStop items.now order.old link) }
    ensures kept { OnErr result (order.new ≡ order.old) }
{
    match order.add(link.upper, link.lower) {
        Ok(()) => Ok(()),
        Err(SupStop::There) => unreachable!(),
        Err(SupStop::Cycle(track)) => Err(PairStop::Cycle(path_of(
            alloc,
            items,
            track.as_slice(),
        )?)),
        Err(SupStop::Memory) => Err(PairStop::Memory),
    }
}

fn append_pair(pairs: &mut Vec<Pair>, pair: Pair) -> Result<(), PairStop>
    ensures room { OnOk result (length pairs.old.items < 1000000) }
    ensures ok { OnOk result (pairs.new.items ≡ pairs.old.items ++ pair ∷ []) }
    ensures full { result ≡ Err PairStop.Full → 1000000 ≤ length pairs.old.items }
    ensures no_cycle { (path : List (List ℕ)) → ¬ (result ≡ Err (PairStop.Cycle path)) }
    ensures err { OnErr result (pairs.new.items ≡ pairs.old.items) }
{
    if pairs.len() >= LIMIT {
        return Err(PairStop::Full);
    }
    match pairs.push(pair) {
        Ok(()) => Ok(()),
        Err(_) => Err(PairStop::Memory),
    }
}

/// Adds a pair and its numbers, or neither.
fn add_numbered(
    alloc: Global,
    pairs: &mut Vec<Pair>,
    items: &[Name],
    order: &mut Order,
    pair: Pair,
    link: Link,
) -> Result<(), PairStop>
    requires numbered { IsNumbered items.now order.old pairs.old.items }
    requires number { IsNumberOf items.now link pair }
    requires new { ¬ Contains pairs.old.items pair }
    ensures numbered { IsNumbered items.now order.new pairs.new.items }
    ensures accepted { OnOk result (¬ Closes pairs.old.items pair) }
    ensures room { OnOk result (length pairs.old.items < 1000000) }
    ensures added { OnOk result (pairs.new.items ≡ pairs.old.items ++ pair ∷ []) }
    ensures stopped { IfErr result (IsPairStop pairs.old.items pair) }
    ensures kept { OnErr result (pairs.new.items ≡ pairs.old.items) }
{
    match add_link(alloc, items, order, link) {
        Err(stop) => Err(stop),
        Ok(()) => match append_pair(pairs, pair) {
            Ok(()) => Ok(()),
            Err(stop) => {
                let _ = order.drop_pair(link.upper, link.lower);
                Err(stop)
            }
        },
    }
}

/// Removes a pair and its numbers; tells whether it was there.
fn drop_numbered(
    pairs: &mut Vec<Pair>,
    items: &NameSet<Name>,
    order: &mut Order,
    pair: &Pair,
) -> bool
    requires distinct { IsDistinct pairs.old.items }
    requires numbered { IsNumbered items.now.keys order.old pairs.old.items }
    ensures numbered { IsNumbered items.now.keys order.new pairs.new.items }
    ensures found { IsTrue result ↔ Contains pairs.old.items pair.now }
    ensures dropped { pairs.new.items ≡ filter (λ p. not (pair_eq p pair.now)) pairs.old.items }
{
    match link_of(items, pair) {
        None => false,
        Some(link) => match order.drop_pair(link.upper, link.lower) {
            Err(_) => false,
            Ok(()) => {
                remove_pair(pairs, pair);
                true
            }
        },
    }
}

/// Removes a pair that may be there, and leaves the others in order.
fn remove_pair(pairs: &mut Vec<Pair>, pair: &Pair)
    requires { IsDistinct pairs.old.items }
    ensures { pairs.new.items ≡ filter (λ p. not (pair_eq p pair.now)) pairs.old.items }
{
    if let Some(at) = pairs.iter().position(|p| *p == *pair) {
        pairs.remove(at);
    }
}

fn drop_naming(pairs: &mut Vec<Pair>, order: &mut Order, label: &Name, item: usize)
    ensures pairs { pairs.new.items ≡ filter (λ p. not (bytes_eq p.upper label.now || bytes_eq p.lower label.now)) pairs.old.items }
    ensures links { order.new ≡ filter (λ l. not (names_item item l)) order.old }
{
    pairs.retain(|p| !(p.upper == *label || p.lower == *label));
    order.drop_item(item);
}
