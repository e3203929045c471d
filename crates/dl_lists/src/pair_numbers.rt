//! Pairs of rules by number.

ghost use Rattle.std.specs.Prelude.{◌≡◌, ℕ, ◌≤◌, ◌↔◌, [], ◌∷◌, ◌++◌, true, not, IsTrue, List, Option, Some, None, IsSome, is_some, OnOk, OnErr, IfOk, IfSome, IfNone, Contains, length, get_or, set, map, if◌then◌else◌};
ghost use Rattle.dl_sup.specs.Links.{names_item};
ghost use Rattle.dl_rows.specs.There.{there, HasNumber, kept_if};
ghost use Rattle.dl_sup.specs.declared.link.Link.{Link};
ghost use Rattle.dl_lists.specs.Pairs.{no_pairs};
ghost use Rattle.dl_lists.specs.KeptPairs.{pairs_in, ArePlaced, ArePlacedIn, HasPlaceRoom, ArePlacesOpen, CanClearIn};

use crate::pair_places::{PairPlaces, find_in, pair_at};
use crate::pair_slot::PairSlot;
use crate::slots::EMPTY;
use dl_base::Memory;
use dl_pages::Table;
use dl_rows::Lists;
use dl_sup::Link;
use std::alloc::Global;
use std::marker::Model;

/// The numbers of the upper and the lower rule of each pair, in the order in which they came. A pair that goes leaves its number
/// empty. Which pairs may be there together is not known here.
pub struct PairNumbers {
    pairs: Table<PairSlot>,
    /// The numbers of the pairs of each rule, once a pair was to be found.
    places: Option<PairPlaces>,
    room: Room,
    live: usize,
}

impl Drop for PairNumbers {
    fn drop(self) {
        let PairNumbers {
            pairs: _,
            places: _,
            room: _,
            live: _,
        } = self;
    }
}

/// What is prepared: all that it writes is owned, and has room.
#[derive(Clone, Copy, Debug, PartialEq, Eq)]
enum Room {
    Nothing,
    /// A pair comes.
    ForPair(Link),
    /// A pair goes from its number.
    ForDrop { pair: Link, number: usize },
    /// All pairs go that name a rule.
    ForRule(usize),
}

impl Model for PairNumbers {
    ghost use Rattle.dl_lists.specs.Pairs.{PairLists};
    ghost use Rattle.dl_lists.specs.KeptPairs.{pairs_of, IsKeptPairs};

    ghost Value = { PairLists };

    ghost view = { pairs_of };

    ghost invariant = { IsKeptPairs };
}

impl PairNumbers {
    /// No pairs. Takes no memory.
    pub fn make(alloc: Global) -> PairNumbers
        ensures { result ≡ no_pairs }
    {
        PairNumbers {
            pairs: Table::make(alloc),
            places: None,
            room: Room::Nothing,
            live: 0,
        }
    }

    /// These pairs in their order. `Memory` where there is none for them, or where a number has more than 32 bits.
    pub fn of(alloc: Global, pairs: &[Link]) -> Result<PairNumbers, Memory>
        ensures { IfOk result (λ all. all ≡ record no_pairs { items = map Some pairs.now }) }
    {
        let mut all = PairNumbers::make(alloc);
        for pair in pairs {
            all.prepare(*pair)?;
            all.put();
        }
        Ok(all)
    }

    /// Takes the memory for one more pair. `Memory` where there is none for it, or where a number has more than 32 bits. What was prepared
    /// before is forgotten, here and in the calls below.
    pub fn prepare(&mut self, pair: Link) -> Result<(), Memory>
        ensures items { self.new.items ≡ self.old.items }
        ensures ready { OnOk result (self.new.ready ≡ Some pair) }
        ensures err { OnErr result (self.new.ready ≡ None) }
        ensures leaving { self.new.leaving ≡ None }
        ensures clearing { self.new.clearing ≡ None }
    {
        self.room = Room::Nothing;
        if pair.upper >= EMPTY || pair.lower >= EMPTY || self.pairs.len() >= EMPTY {
            return Err(Memory);
        }
        self.pairs.reserve(1)?;
        reserve_places(&mut self.places, pair)?;
        self.room = Room::ForPair(pair);
        Ok(())
    }

    /// The pair that is prepared goes last. Takes no memory.
    pub fn put(&mut self)
        requires { IsSome self.old.ready }
        ensures items { self.new.items ≡ self.old.items ++ self.old.ready ∷ [] }
        ensures ready { self.new.ready ≡ None }
        ensures leaving { self.new.leaving ≡ None }
        ensures clearing { self.new.clearing ≡ None }
    {
        match self.room {
            Room::ForPair(pair) => {
                put_places(&mut self.places, pair, self.pairs.len() as u32);
                self.pairs.push(PairSlot::of(pair));
                self.live += 1;
                self.room = Room::Nothing;
            }
            _ => unreachable!(),
        }
    }

    /// What is prepared is forgotten. Takes no memory.
    pub fn forget(&mut self)
        ensures items { self.new.items ≡ self.old.items }
        ensures ready { self.new.ready ≡ None }
        ensures leaving { self.new.leaving ≡ None }
        ensures clearing { self.new.clearing ≡ None }
    {
        self.room = Room::Nothing;
    }

    /// Takes the memory for a pair to go, and tells whether it is there. The first time this takes memory by the numbers of rules and pairs.
    /// Takes time by how many pairs the upper rule is in.
    pub fn prepare_drop(&mut self, pair: Link) -> Result<bool, Memory>
        ensures items { self.new.items ≡ self.old.items }
        ensures there { IfOk result (λ found. IsTrue found ↔ Contains (there self.old.items) pair) }
        ensures leaving { IfOk result (λ found. self.new.leaving ≡ (if found then Some pair else None)) }
        ensures err { OnErr result (self.new.leaving ≡ None) }
        ensures ready { self.new.ready ≡ None }
        ensures clearing { self.new.clearing ≡ None }
    {
        self.room = Room::Nothing;
        match find_pair(&mut self.places, &self.pairs, pair)? {
            None => Ok(false),
            Some(number) => {
                open_places(&mut self.places, pair)?;
                self.pairs.own(number)?;
                self.room = Room::ForDrop { pair, number };
                Ok(true)
            }
        }
    }

    /// The pair that may go does, and leaves its number empty. Takes no memory.
    pub fn drop_pair(&mut self, pair: Link)
        requires { self.old.leaving ≡ Some pair }
        ensures items { (k : ℕ) × HasNumber self.old.items pair k × (self.new.items ≡ set self.old.items k None) }
        ensures ready { self.new.ready ≡ None }
        ensures leaving { self.new.leaving ≡ None }
        ensures clearing { self.new.clearing ≡ None }
    {
        match self.room {
            Room::ForDrop { pair, number } => {
                remove_places(&mut self.places, pair, number as u32);
                self.pairs.put(number, PairSlot::empty());
                self.live -= 1;
                self.room = Room::Nothing;
            }
            _ => unreachable!(),
        }
    }

    /// Takes the memory for all pairs to go that name a rule. The first time this takes memory by the numbers of rules and pairs. Takes
    /// time by the pairs that go.
    pub fn prepare_drop_rule(&mut self, rule: usize) -> Result<(), Memory>
        ensures items { self.new.items ≡ self.old.items }
        ensures clearing { OnOk result (self.new.clearing ≡ Some rule) }
        ensures err { OnErr result (self.new.clearing ≡ None) }
        ensures ready { self.new.ready ≡ None }
        ensures leaving { self.new.leaving ≡ None }
    {
        self.room = Room::Nothing;
        open_rule(&mut self.places, &mut self.pairs, rule)?;
        self.room = Room::ForRule(rule);
        Ok(())
    }

    /// All pairs go that name the rule whose pairs may go, and leave their numbers empty. Takes no memory. The other pairs are not gone
    /// through.
    pub fn drop_rule(&mut self, rule: usize)
        requires { self.old.clearing ≡ Some rule }
        ensures items { self.new.items ≡ map (kept_if (λ p. not (names_item rule p))) self.old.items }
        ensures ready { self.new.ready ≡ None }
        ensures leaving { self.new.leaving ≡ None }
        ensures clearing { self.new.clearing ≡ None }
    {
        self.room = Room::Nothing;
        match &mut self.places {
            None => unreachable!(),
            Some(places) => {
                let count = places.drop_rule(&mut self.pairs, rule);
                self.live -= count;
            }
        }
    }

    /// From here on a copy shares these pairs, but for what is written later. Where there is no memory, a copy costs more and nothing else
    /// changes. What is prepared is forgotten.
    pub fn freeze(&mut self)
        ensures items { self.new.items ≡ self.old.items }
        ensures ready { self.new.ready ≡ None }
        ensures leaving { self.new.leaving ≡ None }
        ensures clearing { self.new.clearing ≡ None }
    {
        self.room = Room::Nothing;
        let _ = self.pairs.freeze();
        freeze_places(&mut self.places);
    }

    /// The pair that is prepared.
    pub fn ready(&self) -> Option<Link>
        ensures { result ≡ self.now.ready }
    {
        match self.room {
            Room::ForPair(pair) => Some(pair),
            _ => None,
        }
    }

    /// The pair that may go.
    pub fn leaving(&self) -> Option<Link>
        ensures { result ≡ self.now.leaving }
    {
        match self.room {
            Room::ForDrop { pair, .. } => Some(pair),
            _ => None,
        }
    }

    /// How many numbers there are, with those that are empty.
    pub fn len(&self) -> usize
        ensures { result ≡ length self.now.items }
    {
        self.pairs.len()
    }

    /// How many pairs are there.
    pub fn live(&self) -> usize
        ensures { result ≡ length (there self.now.items) }
    {
        self.live
    }

    /// The pair with a number; `None` exactly where it is empty, and past the end.
    #[inline(always)]
    pub fn at(&self, number: usize) -> Option<Link>
        ensures { result ≡ get_or self.now.items number None }
    {
        pair_at(&self.pairs, number)
    }

    /// The same pairs with the same numbers. Those that are frozen are shared. What is prepared is left out.
    pub fn copy(&self) -> Result<PairNumbers, Memory>
        ensures { IfOk result (λ copy. copy ≡ record no_pairs { items = self.now.items }) }
    {
        let pairs = self.pairs.copy()?;
        let places = copied_places(&self.places)?;
        Ok(PairNumbers {
            pairs,
            places,
            room: Room::Nothing,
            live: self.live,
        })
    }
}

/// Room for one more pair of these rules.
fn reserve_places(places: &mut Option<PairPlaces>, pair: Link) -> Result<(), Memory>
    ensures same { is_some places.new ≡ is_some places.old }
    ensures placed { (items : List (Option Link)) → ArePlacedIn items places.old → ArePlacedIn items places.new }
    ensures room { OnOk result (HasPlaceRoom places.new pair) }
{
    if let Some(places) = places {
        places.reserve(pair)?;
    }
    Ok(())
}

/// A number for a pair of these rules.
fn put_places(places: &mut Option<PairPlaces>, pair: Link, number: u32)
    requires { HasPlaceRoom places.old pair }
    ensures same { is_some places.new ≡ is_some places.old }
    ensures placed { (items : List (Option Link)) → length items ≡ number → ArePlacedIn items places.old → ArePlacedIn (items ++ Some pair ∷ []) places.new }
{
    match places {
        None => {}
        Some(places) => places.put(pair, number),
    }
}

/// The number of a pair of these rules goes.
fn remove_places(places: &mut Option<PairPlaces>, pair: Link, number: u32)
    requires { ArePlacesOpen places.old pair }
    ensures same { is_some places.new ≡ is_some places.old }
    ensures placed { (items : List (Option Link)) → ArePlacedIn items places.old → ArePlacedIn (set items number None) places.new }
{
    match places {
        None => {}
        Some(places) => places.remove(pair, number),
    }
}

/// The lists of the rules of a pair may be written from now on, if there are any.
fn open_places(places: &mut Option<PairPlaces>, pair: Link) -> Result<(), Memory>
    ensures placed { (items : List (Option Link)) → ArePlacedIn items places.old → ArePlacedIn items places.new }
    ensures opened { OnOk result (ArePlacesOpen places.new pair) }
{
    match places {
        None => Ok(()),
        Some(places) => match places.open_pair(pair) {
            Ok(()) => Ok(()),
            Err(memory) => Err(memory),
        },
    }
}

/// The number of a pair; `None` exactly where it is not there. From here on there are places.
fn find_pair(
    places: &mut Option<PairPlaces>,
    pairs: &Table<PairSlot>,
    pair: Link,
) -> Result<Option<usize>, Memory>
    requires few { length pairs.now.items ≤ 4294967295 }
    requires placed { ArePlacedIn (pairs_in pairs.now.items) places.old }
    ensures placed { ArePlacedIn (pairs_in pairs.now.items) places.new }
    ensures found { IfOk result (λ place. IfSome place (HasNumber (pairs_in pairs.now.items) pair)) }
    ensures absent { IfOk result (λ place. IfNone place (¬ Contains (there (pairs_in pairs.now.items)) pair)) }
{
    match places {
        Some(places) => Ok(number_of(places, pairs, pair)),
        None => {
            let made = PairPlaces::of(pairs.alloc(), pairs)?;
            let place = number_of(&made, pairs, pair);
            *places = Some(made);
            Ok(place)
        }
    }
}

/// The number of a pair; `None` exactly where it is not there.
fn number_of(places: &PairPlaces, pairs: &Table<PairSlot>, pair: Link) -> Option<usize>
    requires { ArePlaced (pairs_in pairs.now.items) places.now.uppers places.now.lowers }
    ensures found { IfSome result (HasNumber (pairs_in pairs.now.items) pair) }
    ensures absent { IfNone result (¬ Contains (there (pairs_in pairs.now.items)) pair) }
{
    find_in(pairs, places.uppers.row(pair.upper), pair)
}

/// What all pairs leave that name a rule may be written from now on. From here on there are places.
fn open_rule(
    places: &mut Option<PairPlaces>,
    pairs: &mut Table<PairSlot>,
    rule: usize,
) -> Result<(), Memory>
    requires few { length pairs.old.items ≤ 4294967295 }
    requires placed { ArePlacedIn (pairs_in pairs.old.items) places.old }
    ensures items { pairs.new.items ≡ pairs.old.items }
    ensures placed { ArePlacedIn (pairs_in pairs.old.items) places.new }
    ensures clear { OnOk result (CanClearIn pairs.new places.new rule) }
{
    match places {
        Some(places) => match places.open_rule(pairs, rule) {
            Ok(()) => Ok(()),
            Err(memory) => Err(memory),
        },
        None => {
            let mut made = PairPlaces::of(pairs.alloc(), pairs)?;
            made.open_rule(pairs, rule)?;
            *places = Some(made);
            Ok(())
        }
    }
}

/// From here on a copy shares the places, if there are any.
fn freeze_places(places: &mut Option<PairPlaces>)
    ensures { (items : List (Option Link)) → ArePlacedIn items places.old → ArePlacedIn items places.new }
{
    match places {
        None => {}
        Some(places) => places.freeze(),
    }
}

/// The same places, if there are any.
fn copied_places(places: &Option<PairPlaces>) -> Result<Option<PairPlaces>, Memory>
    ensures same { IfOk result (λ copy. is_some copy ≡ is_some places.now) }
    ensures placed { IfOk result (λ copy. (items : List (Option Link)) → ArePlacedIn items places.now → ArePlacedIn items copy) }
{
    match places {
        None => Ok(None),
        Some(places) => Ok(Some(places.copy()?)),
    }
}
