//! A pair more, and a pair less.

ghost use Rattle.std.specs.Prelude.{◌≡◌, ◌++◌, ◌∷◌, [], Some, None, OnOk, OnErr, IfOk, IfErr, All, true, not, filter, option_map, length, map, ◌<◌};
ghost use Rattle.dl_sup.specs.Adding.{IsAddable, IsSupStop};
ghost use Rattle.dl_sup.specs.Links.{IsOrder, same_link};
ghost use Rattle.dl_rows.specs.There.{there};
ghost use Rattle.dl_rules.specs.Lines.{KeepsRules};
ghost use Rattle.dl_graph.specs.Tables.{AreTables};
ghost use Rattle.dl_theory.specs.declared.edit.Edit.TheVariants.{AddPair, DropPair};
ghost use Rattle.dl_theory.specs.declared.edit.EditRefusal.TheVariants.{NoLabel};
ghost use Rattle.dl_theory.specs.Edits.{IsAccepted, IsAnswered, IsMissing, IsStopped};
ghost use Rattle.dl_theory.specs.Lists.{labels};
ghost use Rattle.dl_theory.specs.Pairs.{label_at, named};
ghost use Rattle.dl_net.specs.Kept.{AreKept, AreSettled, HasOrder, HasPairDropRoom, HasPairRoom, KeepsTables, MakesEdit, lists_of, meets, theory_in};
ghost use Rattle.dl_lists.specs.Pairs.{no_pairs};
ghost use Rattle.dl_net.specs.PairEdits.{HasRules, IsLinkOf};

use crate::load::meet;
use crate::tables::Tables;
use dl_base::Memory;
use dl_lists::{PairNumbers, RuleLabels};
use dl_lit::Name;
use dl_sup::{Link, LoadStop, Order, SupStop};
use dl_theory::{EditRefusal, EditStop, LIMIT, Pair, Path};
use std::alloc::Global;

impl Tables {
    /// Takes the memory for a pair, or says why not.
    pub(crate) fn prepare_pair(&mut self, pair: &Pair) -> Result<(), EditStop>
        requires kept { AreKept self.old }
        requires settled { AreSettled self.old }
        ensures answered { IsAnswered (theory_in self.old) (AddPair pair.now) result }
        ensures keeps { KeepsTables [] self.old self.new }
        ensures room { OnOk result (HasPairRoom self.new pair.now) }
        ensures settled { OnErr result (AreSettled self.new) }
    {
        let link = match self.link_of(pair) {
            Ok(link) => link,
            Err(label) => {
                return Err(EditStop::Refused(EditRefusal::NoLabel(label.copy()?)));
            }
        };
        self.add_to_order(link)?;
        if self.pairs.live() >= LIMIT {
            self.forget_link(link);
            return Err(EditStop::Refused(EditRefusal::PairsFull));
        }
        match self.make_room(link) {
            Ok(()) => Ok(()),
            Err(_) => {
                self.forget_link(link);
                Err(EditStop::Memory)
            }
        }
    }

    /// The pair that is prepared goes last.
    pub(crate) fn add_pair(&mut self, pair: &Pair)
        requires kept { AreKept self.old }
        requires accepted { IsAccepted (theory_in self.old) (AddPair pair.now) }
        requires room { HasPairRoom self.old pair.now }
        ensures { MakesEdit self.old (AddPair pair.now) self.new }
    {
        match self.pairs.ready() {
            None => unreachable!(),
            Some(link) => {
                self.pairs.put();
                if meet(&self.index, &self.names, link.upper, link.lower) {
                    self.index.put_link();
                }
            }
        }
    }

    /// Takes the memory so that a pair can go, or says why it cannot.
    pub(crate) fn prepare_pair_drop(&mut self, pair: &Pair) -> Result<(), EditStop>
        requires kept { AreKept self.old }
        requires settled { AreSettled self.old }
        ensures answered { IsAnswered (theory_in self.old) (DropPair pair.now) result }
        ensures keeps { KeepsTables [] self.old self.new }
        ensures room { OnOk result (HasPairDropRoom self.new pair.now) }
        ensures settled { AreSettled self.new }
    {
        let link = match self.link_of(pair) {
            Ok(link) => link,
            Err(_) => return Err(EditStop::Refused(EditRefusal::NoPair)),
        };
        if !self.pairs.prepare_drop(link)? {
            return Err(EditStop::Refused(EditRefusal::NoPair));
        }
        self.index.reserve_unlink(link.upper, link.lower)?;
        Ok(())
    }

    /// The pair goes, and leaves its number empty.
    pub(crate) fn drop_pair(&mut self, pair: &Pair)
        requires kept { AreKept self.old }
        requires accepted { IsAccepted (theory_in self.old) (DropPair pair.now) }
        requires room { HasPairDropRoom self.old pair.now }
        ensures { MakesEdit self.old (DropPair pair.now) self.new }
    {
        match self.pairs.leaving() {
            None => unreachable!(),
            Some(link) => {
                self.pairs.drop_pair(link);
                self.index.take_link(link.upper, link.lower);
                drop_from(&mut self.order, link);
            }
        }
    }

    /// Forgets the pair that is prepared.
    pub(crate) fn forget_pair(&mut self)
        requires { AreKept self.old }
        ensures keeps { KeepsTables [] self.old self.new }
        ensures label { self.new.labels ≡ self.old.labels }
        ensures pair { self.new.pairs.ready ≡ None }
    {
        match self.pairs.ready() {
            None => {}
            Some(link) => self.forget_link(link),
        }
    }

    /// The rules of a pair, or its first label that no rule has.
    fn link_of<'a>(&self, pair: &'a Pair) -> Result<Link, &'a Name>
        requires { AreKept self.now }
        ensures there { IfOk result (λ link. IsLinkOf self.now link pair.now) }
        ensures missing { IfErr result (λ label. IsMissing (labels (theory_in self.now)) pair.now (NoLabel label.now)) }
    {
        match self.find_rule(&pair.upper) {
            None => Err(&pair.upper),
            Some(upper) => match self.find_rule(&pair.lower) {
                None => Err(&pair.lower),
                Some(lower) => Ok(Link { upper, lower }),
            },
        }
    }

    /// A pair of rules goes last in the order, or is refused.
    fn add_to_order(&mut self, link: Link) -> Result<(), EditStop>
        requires kept { AreKept self.old }
        requires settled { AreSettled self.old }
        requires there { HasRules self.old.index.lines link }
        ensures frame { self.new ≡ record self.old { order = self.new.order } }
        ensures added { OnOk result (HasOrder self.new.order self.old.pairs.items (Some link)) }
        ensures accepted { OnOk result (IsAddable (there self.old.pairs.items) link) }
        ensures stopped { IfErr result (IsStopped (theory_in self.old) (AddPair (named self.old.labels.labels link))) }
        ensures kept { OnErr result (HasOrder self.new.order self.old.pairs.items None) }
    {
        let alloc = self.marks.alloc();
        match add_link(alloc, &mut self.order, &self.pairs, link) {
            Ok(()) => Ok(()),
            Err(SupStop::There) => Err(EditStop::Refused(EditRefusal::PairThere)),
            Err(SupStop::Cycle(track)) => {
                let path = path_of(alloc, &self.labels, track.as_slice())?;
                Err(EditStop::Refused(EditRefusal::Cycle(path)))
            }
            Err(SupStop::Memory) => Err(EditStop::Memory),
        }
    }

    /// Takes the memory for a pair of rules in the lists of pairs, and of the rules below and above others.
    fn make_room(&mut self, link: Link) -> Result<(), Memory>
        requires kept { AreTables (lists_of self.old) }
        requires there { HasRules self.old.index.lines link }
        ensures frame { self.new ≡ record self.old { pairs = record no_pairs { items = self.old.pairs.items; ready = self.new.pairs.ready }; index = self.new.index } }
        ensures kept { KeepsRules self.old.index self.new.index }
        ensures ready { OnOk result (self.new.pairs.ready ≡ Some link) }
        ensures below { OnOk result (meets self.new.index link ≡ true → self.new.index.linking ≡ Some (record { upper = link.upper; lower = link.lower })) }
    {
        self.pairs.prepare(link)?;
        if meet(&self.index, &self.names, link.upper, link.lower) {
            self.index.reserve_link(link.upper, link.lower)?;
        }
        Ok(())
    }

    /// A new pair goes out of the order again, and is not prepared.
    fn forget_link(&mut self, link: Link)
        requires { HasOrder self.old.order self.old.pairs.items (Some link) }
        ensures frame { self.new ≡ record self.old { pairs = record no_pairs { items = self.old.pairs.items }; order = self.new.order } }
        ensures order { HasOrder self.new.order self.old.pairs.items None }
    {
        self.pairs.forget();
        drop_from(&mut self.order, link);
    }
}

/// A pair goes last in the order of pairs, which is made where there is none.
fn add_link(
    alloc: Global,
    order: &mut Option<Order>,
    pairs: &PairNumbers,
    link: Link,
) -> Result<(), SupStop>
    requires order { HasOrder order.old pairs.now.items None }
    requires pairs { IsOrder (there pairs.now.items) }
    ensures added { OnOk result (order.new ≡ Some (there pairs.now.items ++ link ∷ [])) }
    ensures accepted { OnOk result (IsAddable (there pairs.now.items) link) }
    ensures stopped { IfErr result (IsSupStop (there pairs.now.items) link) }
    ensures kept { OnErr result (HasOrder order.new pairs.now.items None) }
{
    make_order(alloc, order, pairs)?;
    match order {
        None => unreachable!(),
        Some(order) => order.add(link.upper, link.lower),
    }
}

/// From here on there is an order of the pairs.
fn make_order(alloc: Global, order: &mut Option<Order>, pairs: &PairNumbers) -> Result<(), Memory>
    requires order { HasOrder order.old pairs.now.items None }
    requires pairs { IsOrder (there pairs.now.items) }
    ensures made { OnOk result (order.new ≡ Some (there pairs.now.items)) }
    ensures kept { OnErr result (HasOrder order.new pairs.now.items None) }
{
    if order.is_none() {
        *order = Some(order_of(alloc, pairs)?);
    }
    Ok(())
}

/// A pair goes out of the order of pairs.
fn drop_from(order: &mut Option<Order>, link: Link)
    ensures { order.new ≡ option_map (filter (λ p. not (same_link p link))) order.old }
{
    if let Some(order) = order {
        let _ = order.drop_pair(link.upper, link.lower);
    }
}

/// The order of all pairs.
fn order_of(alloc: Global, pairs: &PairNumbers) -> Result<Order, Memory>
    requires { IsOrder (there pairs.now.items) }
    ensures { IfOk result (λ order. order ≡ there pairs.now.items) }
{
    let links = links_of(alloc, pairs)?;
    let mut order = Order::make(alloc);
    match order.add_all(links.as_slice()) {
        Ok(()) => Ok(order),
        Err(LoadStop::Memory) => Err(Memory),
        Err(LoadStop::There { .. }) => unreachable!(),
        Err(LoadStop::Cycle { .. }) => unreachable!(),
    }
}

/// The pairs that are there, one behind another.
fn links_of(alloc: Global, pairs: &PairNumbers) -> Result<Vec<Link>, Memory>
    ensures { IfOk result (λ links. links.items ≡ there pairs.now.items) }
{
    let mut links = Vec::with_capacity(alloc, pairs.live())?;
    for number in 0..pairs.len() {
        if let Some(link) = pairs.at(number) {
            links.push(link)?;
        }
    }
    Ok(links)
}

/// The labels of a track of rules.
fn path_of(alloc: Global, labels: &RuleLabels, track: &[usize]) -> Result<Path, Memory>
    requires { All (λ n. n < length labels.now.labels) track.now }
    ensures { IfOk result (λ path. path ≡ map (label_at labels.now.labels) track.now) }
{
    let mut path = Path::make(alloc);
    for number in track {
        path.push(labels.label(*number).copy()?)?;
    }
    Ok(path)
}
