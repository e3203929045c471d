//! Literals by the numbers of their facts.

ghost use Rattle.std.specs.Prelude.{◌≡◌, ℕ, ◌<◌, ◌≤◌, [], ◌∷◌, ◌++◌, true, Option, Some, None, is_some, List, OnOk, OnErr, IfOk, IfSome, All, Contains, length, get_or, set, map};
ghost use Rattle.dl_base.specs.Paths.{IsDistinct};
ghost use Rattle.dl_rows.specs.There.{there, HasNumber, IsOnce};
ghost use Rattle.dl_lists.specs.KeptFacts.{ArePlaced, ArePlacedIn, OwnsPlace};

use crate::slots::{EMPTY, Slots};
use dl_base::Memory;
use dl_pages::Table;
use std::alloc::Global;
use std::marker::Model;

/// The number of the literal of each fact, in the order in which they came. Each literal is there once at most. A fact that goes
/// leaves its number empty.
pub struct FactNumbers {
    facts: Slots,
    /// By number of a literal that of its fact, once a fact was to go.
    places: Option<Slots>,
    width: usize,
    live: usize,
    room: Room,
}

impl Drop for FactNumbers {
    fn drop(self) {
        let FactNumbers {
            facts: _,
            places: _,
            width: _,
            live: _,
            room: _,
        } = self;
    }
}

/// What is prepared: all that it writes is owned, and has room.
#[derive(Clone, Copy, Debug, PartialEq, Eq)]
enum Room {
    Nothing,
    /// The fact of a literal comes.
    ForFact(usize),
    /// The fact of a literal goes from its number.
    ForDrop { literal: usize, number: usize },
}

impl Model for FactNumbers {
    ghost use Rattle.dl_lists.specs.Facts.{FactLists};
    ghost use Rattle.dl_lists.specs.KeptFacts.{facts_of, IsKeptFacts};

    ghost Value = { FactLists };

    ghost view = { facts_of };

    ghost invariant = { IsKeptFacts };
}

impl FactNumbers {
    /// No facts. Takes no memory.
    pub fn make(alloc: Global) -> FactNumbers
        ensures items { result.items ≡ [] }
        ensures ready { result.ready ≡ None }
        ensures leaving { result.leaving ≡ None }
    {
        FactNumbers {
            facts: Slots::make(alloc),
            places: None,
            width: 0,
            live: 0,
            room: Room::Nothing,
        }
    }

    /// These literals as facts in their order, with numbers below a bound. Takes no memory.
    pub fn of(literals: Table<u32>, names: usize) -> FactNumbers
        requires narrow { names ≤ 4294967295 }
        requires within { All (λ q. q < names) literals.items }
        requires once { IsDistinct literals.items }
        ensures items { result.items ≡ map Some literals.items }
        ensures ready { result.ready ≡ None }
        ensures leaving { result.leaving ≡ None }
    {
        let live = literals.len();
        FactNumbers {
            facts: Slots::of(literals),
            places: None,
            width: names,
            live,
            room: Room::Nothing,
        }
    }

    /// Takes the memory for one more fact, whose literal has a number below a bound. `Memory` where there is none for it, or where these
    /// are more numbers than 32 bits tell. What was prepared before is forgotten.
    pub fn prepare(&mut self, literal: usize, names: usize) -> Result<(), Memory>
        requires { literal < names }
        ensures items { self.new.items ≡ self.old.items }
        ensures ready { OnOk result (self.new.ready ≡ Some literal) }
        ensures err { OnErr result (self.new.ready ≡ None) }
        ensures leaving { self.new.leaving ≡ None }
    {
        self.room = Room::Nothing;
        if names > EMPTY || self.facts.len() >= EMPTY {
            return Err(Memory);
        }
        self.facts.reserve()?;
        let width = usize::max(self.width, names);
        widen_places(&mut self.places, width)?;
        self.width = width;
        own_place(&mut self.places, literal)?;
        self.room = Room::ForFact(literal);
        Ok(())
    }

    /// The fact that is prepared goes last. Takes no memory.
    pub fn put(&mut self, literal: usize)
        requires ready { self.old.ready ≡ Some literal }
        requires new { ¬ Contains (there self.old.items) literal }
        ensures items { self.new.items ≡ self.old.items ++ Some literal ∷ [] }
        ensures ready { self.new.ready ≡ None }
        ensures leaving { self.new.leaving ≡ None }
    {
        put_place(&mut self.places, literal, self.facts.len());
        self.facts.push(literal);
        self.live += 1;
        self.room = Room::Nothing;
    }

    /// Takes the memory for a fact to go. The first time this takes memory by the bound of the literals' numbers. What was prepared before
    /// is forgotten.
    pub fn prepare_drop(&mut self, literal: usize) -> Result<(), Memory>
        requires { Contains (there self.old.items) literal }
        ensures items { self.new.items ≡ self.old.items }
        ensures leaving { OnOk result (self.new.leaving ≡ Some literal) }
        ensures err { OnErr result (self.new.leaving ≡ None) }
        ensures ready { self.new.ready ≡ None }
    {
        self.room = Room::Nothing;
        let number = find_place(&mut self.places, &self.facts, self.width, literal)?;
        own_place(&mut self.places, literal)?;
        self.facts.own(number)?;
        self.room = Room::ForDrop { literal, number };
        Ok(())
    }

    /// The fact that may go does, and leaves its number empty. Takes no memory.
    pub fn drop_fact(&mut self, literal: usize)
        requires { self.old.leaving ≡ Some literal }
        ensures items { (k : ℕ) × HasNumber self.old.items literal k × (self.new.items ≡ set self.old.items k None) }
        ensures ready { self.new.ready ≡ None }
        ensures leaving { self.new.leaving ≡ None }
    {
        match self.room {
            Room::ForDrop { literal, number } => {
                drop_place(&mut self.places, literal);
                self.facts.clear(number);
                self.live -= 1;
                self.room = Room::Nothing;
            }
            _ => unreachable!(),
        }
    }

    /// From here on a copy shares these facts, but for what is written later. Where there is no memory, a copy costs more and nothing else
    /// changes. What is prepared is forgotten.
    pub fn freeze(&mut self)
        ensures items { self.new.items ≡ self.old.items }
        ensures ready { self.new.ready ≡ None }
        ensures leaving { self.new.leaving ≡ None }
    {
        self.room = Room::Nothing;
        self.facts.freeze();
        freeze_places(&mut self.places);
    }

    /// How many numbers there are, with those that are empty.
    pub fn len(&self) -> usize
        ensures len { result ≡ length self.now.items }
        ensures once { IsOnce self.now.items }
    {
        self.facts.len()
    }

    /// How many facts are there.
    pub fn live(&self) -> usize
        ensures { result ≡ length (there self.now.items) }
    {
        self.live
    }

    /// The literal of the fact with a number; `None` exactly where it is empty, and past the end.
    #[inline(always)]
    pub fn at(&self, number: usize) -> Option<usize>
        ensures { result ≡ get_or self.now.items number None }
    {
        self.facts.at(number)
    }

    /// The same facts with the same numbers. Those that are frozen are shared. What is prepared is left out.
    pub fn copy(&self) -> Result<FactNumbers, Memory>
        ensures items { IfOk result (λ copy. copy.items ≡ self.now.items) }
        ensures ready { IfOk result (λ copy. copy.ready ≡ None) }
        ensures leaving { IfOk result (λ copy. copy.leaving ≡ None) }
    {
        let facts = self.facts.copy()?;
        let places = copied_places(&self.places)?;
        Ok(FactNumbers {
            facts,
            places,
            width: self.width,
            live: self.live,
            room: Room::Nothing,
        })
    }
}

/// Empty places at the end, until there are so many.
fn widen_places(places: &mut Option<Slots>, width: usize) -> Result<(), Memory>
    requires { IfSome places.old (λ p. length p.items ≤ width) }
    ensures placed { OnOk result ((facts : List (Option ℕ)) (w : ℕ) → ArePlacedIn facts w places.old → ArePlacedIn facts width places.new) }
    ensures kept { OnErr result ((facts : List (Option ℕ)) (w : ℕ) → ArePlacedIn facts w places.old → ArePlacedIn facts w places.new) }
{
    match places {
        None => Ok(()),
        Some(places) => match places.widen(width) {
            Ok(()) => Ok(()),
            Err(memory) => Err(memory),
        },
    }
}

/// The place of a literal may be written from now on.
fn own_place(places: &mut Option<Slots>, literal: usize) -> Result<(), Memory>
    requires { IfSome places.old (λ p. literal < length p.items) }
    ensures placed { (facts : List (Option ℕ)) (w : ℕ) → ArePlacedIn facts w places.old → ArePlacedIn facts w places.new }
    ensures owned { OnOk result (OwnsPlace places.new literal) }
{
    match places {
        None => Ok(()),
        Some(places) => match places.own(literal) {
            Ok(()) => Ok(()),
            Err(memory) => Err(memory),
        },
    }
}

/// The place of a fact that comes last.
fn put_place(places: &mut Option<Slots>, literal: usize, number: usize)
    requires owned { OwnsPlace places.old literal }
    requires few { number < 4294967295 }
    ensures { (facts : List (Option ℕ)) (w : ℕ) → length facts ≡ number → literal < w → (¬ Contains (there facts) literal)
        → ArePlacedIn facts w places.old → ArePlacedIn (facts ++ Some literal ∷ []) w places.new }
{
    match places {
        None => {}
        Some(places) => places.write(literal, number),
    }
}

/// The place of a fact that goes becomes empty.
fn drop_place(places: &mut Option<Slots>, literal: usize)
    requires { OwnsPlace places.old literal }
    ensures { (facts : List (Option ℕ)) (w k : ℕ) → literal < w → IsOnce facts → HasNumber facts literal k
        → ArePlacedIn facts w places.old → ArePlacedIn (set facts k None) w places.new }
{
    match places {
        None => {}
        Some(places) => places.clear(literal),
    }
}

/// From here on a copy shares the places, if there are any.
fn freeze_places(places: &mut Option<Slots>)
    ensures { (facts : List (Option ℕ)) (w : ℕ) → ArePlacedIn facts w places.old → ArePlacedIn facts w places.new }
{
    match places {
        None => {}
        Some(places) => places.freeze(),
    }
}

/// The same places, if there are any.
fn copied_places(places: &Option<Slots>) -> Result<Option<Slots>, Memory>
    ensures same { IfOk result (λ copy. is_some copy ≡ is_some places.now) }
    ensures placed { IfOk result (λ copy. (facts : List (Option ℕ)) (w : ℕ) → ArePlacedIn facts w places.now → ArePlacedIn facts w copy) }
{
    match places {
        None => Ok(None),
        Some(places) => Ok(Some(places.copy()?)),
    }
}

/// The number of a fact that is there. From here on there are places.
fn find_place(
    places: &mut Option<Slots>,
    facts: &Slots,
    width: usize,
    literal: usize,
) -> Result<usize, Memory>
    requires within { (q n : ℕ) → HasNumber facts.now.items q n → q < width }
    requires once { IsOnce facts.now.items }
    requires few { length facts.now.items ≤ 4294967295 }
    requires placed { ArePlacedIn facts.now.items width places.old }
    requires there { Contains (there facts.now.items) literal }
    ensures placed { ArePlacedIn facts.now.items width places.new }
    ensures number { IfOk result (HasNumber facts.now.items literal) }
{
    match places {
        Some(places) => Ok(number_at(places, literal)),
        None => {
            let made = places_of(facts, width)?;
            let number = number_at(&made, literal);
            *places = Some(made);
            Ok(number)
        }
    }
}

/// The number at a place that is not empty.
fn number_at(places: &Slots, literal: usize) -> usize
    requires { is_some (get_or places.now.items literal None) ≡ true }
    ensures { get_or places.now.items literal None ≡ Some result }
{
    match places.at(literal) {
        None => unreachable!(),
        Some(number) => number,
    }
}

/// By number of a literal that of its fact.
fn places_of(facts: &Slots, width: usize) -> Result<Slots, Memory>
    requires within { (q n : ℕ) → HasNumber facts.now.items q n → q < width }
    requires once { IsOnce facts.now.items }
    requires few { length facts.now.items ≤ 4294967295 }
    ensures { IfOk result (λ places. ArePlaced facts.now.items width places.items) }
{
    let mut places = Slots::make(facts.alloc());
    places.widen(width)?;
    for number in 0..facts.len() {
        match facts.at(number) {
            None => {}
            Some(literal) => places.write(literal, number),
        }
    }
    Ok(places)
}
