//! Where the pairs of a rule are.

ghost use Rattle.std.specs.Prelude.{◌≡◌, ℕ, ◌+◌, ◌<◌, ◌≤◌, List, [], ◌∷◌, ◌++◌, Option, Some, None, true, false, not, OnOk, IfOk, IfSome, IfNone, Contains, length, get_or, map, set};
ghost use Rattle.dl_sup.specs.declared.link.Link.{Link};
ghost use Rattle.dl_pages.specs.Paged.{Owns, KeepsOwned};
ghost use Rattle.dl_rows.specs.Tables.{list_at, IsOpen, KeepsLists};
ghost use Rattle.dl_sup.specs.Links.{names_item};
ghost use Rattle.dl_rows.specs.There.{there, HasNumber, kept_if};
ghost use Rattle.dl_lists.specs.KeptPairs.{ArePlaced, HasRowRoom, CanClear, CanClearRow, other_rule, pairs_in};

use crate::pair_slot::PairSlot;
use dl_base::Memory;
use dl_pages::Table;
use dl_rows::{Lists, RowTable};
use dl_sup::Link;
use std::alloc::Global;

/// By number of a rule those of the pairs that it is the upper rule of, and those that it is the lower rule of.
#[derive(Drop)]
pub(crate) struct PairPlaces {
    pub uppers: RowTable,
    pub lowers: RowTable,
}

impl PairPlaces {
    /// Where these pairs are.
    pub fn of(alloc: Global, pairs: &Table<PairSlot>) -> Result<PairPlaces, Memory>
        requires { length pairs.now.items ≤ 4294967295 }
        ensures { IfOk result (λ places. ArePlaced (pairs_in pairs.now.items) places.uppers places.lowers) }
    {
        let mut places = PairPlaces {
            uppers: RowTable::make(alloc),
            lowers: RowTable::make(alloc),
        };
        for number in 0..pairs.len() {
            if let Some(pair) = pairs.at(number).pair() {
                places.reserve(pair)?;
                places.put(pair, number as u32);
            }
        }
        Ok(places)
    }

    /// Room for one more pair of these rules.
    pub fn reserve(&mut self, pair: Link) -> Result<(), Memory>
        ensures uppers { KeepsLists self.old.uppers self.new.uppers }
        ensures lowers { KeepsLists self.old.lowers self.new.lowers }
        ensures upper { OnOk result (HasRowRoom self.new.uppers pair.upper) }
        ensures lower { OnOk result (HasRowRoom self.new.lowers pair.lower) }
    {
        reserve_at(&mut self.uppers, pair.upper)?;
        reserve_at(&mut self.lowers, pair.lower)?;
        Ok(())
    }

    /// A number for a pair of these rules, in room that is there.
    pub fn put(&mut self, pair: Link, number: u32)
        requires upper { HasRowRoom self.old.uppers pair.upper }
        requires lower { HasRowRoom self.old.lowers pair.lower }
        ensures { (items : List (Option Link)) → length items ≡ number → ArePlaced items self.old.uppers self.old.lowers
            → ArePlaced (items ++ Some pair ∷ []) self.new.uppers self.new.lowers }
    {
        self.uppers.push(pair.upper, number);
        self.lowers.push(pair.lower, number);
    }

    /// The lists of the rules of a pair may be written from now on.
    pub fn open_pair(&mut self, pair: Link) -> Result<(), Memory>
        ensures uppers { KeepsLists self.old.uppers self.new.uppers }
        ensures lowers { KeepsLists self.old.lowers self.new.lowers }
        ensures upper { OnOk result (IsOpen self.new.uppers pair.upper) }
        ensures lower { OnOk result (IsOpen self.new.lowers pair.lower) }
    {
        self.uppers.open(pair.upper)?;
        self.lowers.open(pair.lower)?;
        Ok(())
    }

    /// What all pairs leave that name a rule may be written from now on. Takes time by these pairs.
    pub fn open_rule(&mut self, pairs: &mut Table<PairSlot>, rule: usize) -> Result<(), Memory>
        ensures items { pairs.new.items ≡ pairs.old.items }
        ensures placed { (items : List (Option Link)) → ArePlaced items self.old.uppers self.old.lowers
            → ArePlaced items self.new.uppers self.new.lowers }
        ensures clear { OnOk result (CanClear pairs.new self.new.uppers self.new.lowers rule) }
    {
        self.uppers.open(rule)?;
        self.lowers.open(rule)?;
        open_row(pairs, &mut self.lowers, self.uppers.row(rule), rule)?;
        open_row(pairs, &mut self.uppers, self.lowers.row(rule), rule)?;
        Ok(())
    }

    /// The number of a pair of these rules goes. Takes time by how many pairs each of the two is in.
    pub fn remove(&mut self, pair: Link, number: u32)
        requires upper { IsOpen self.old.uppers pair.upper }
        requires lower { IsOpen self.old.lowers pair.lower }
        ensures { (items : List (Option Link)) → ArePlaced items self.old.uppers self.old.lowers
            → ArePlaced (set items number None) self.new.uppers self.new.lowers }
    {
        self.uppers.remove(pair.upper, number);
        self.lowers.remove(pair.lower, number);
    }

    /// All pairs that name a rule go, and their numbers; says how many. Takes time by these pairs, and by how many pairs the other
    /// rule of each is in.
    pub fn drop_rule(&mut self, pairs: &mut Table<PairSlot>, rule: usize) -> usize
        requires placed { ArePlaced (pairs_in pairs.old.items) self.old.uppers self.old.lowers }
        requires few { length pairs.old.items ≤ 4294967295 }
        requires clear { CanClear pairs.old self.old.uppers self.old.lowers rule }
        ensures pairs { pairs_in pairs.new.items ≡ map (kept_if (λ p. not (names_item rule p))) (pairs_in pairs.old.items) }
        ensures places { ArePlaced (pairs_in pairs.new.items) self.new.uppers self.new.lowers }
        ensures count { result + length (there (pairs_in pairs.new.items)) ≡ length (there (pairs_in pairs.old.items)) }
    {
        let below = drop_row(pairs, &mut self.lowers, self.uppers.row(rule), rule);
        let above = drop_row(pairs, &mut self.uppers, self.lowers.row(rule), rule);
        self.uppers.clear(rule);
        self.lowers.clear(rule);
        below + above
    }

    /// From here on a copy shares these lists, but for what is written later. Where there is no memory, it shares less.
    pub fn freeze(&mut self)
        ensures uppers { self.new.uppers.lists ≡ self.old.uppers.lists }
        ensures lowers { self.new.lowers.lists ≡ self.old.lowers.lists }
    {
        let _ = self.uppers.freeze();
        let _ = self.lowers.freeze();
    }

    /// Where the same pairs are. What is frozen is shared.
    pub fn copy(&self) -> Result<PairPlaces, Memory>
        ensures { IfOk result (λ copy. (items : List (Option Link)) → ArePlaced items self.now.uppers self.now.lowers
            → ArePlaced items copy.uppers copy.lowers) }
    {
        let uppers = self.uppers.copy()?;
        let lowers = self.lowers.copy()?;
        Ok(PairPlaces { uppers, lowers })
    }
}

/// The pair with a number; `None` exactly where it is empty, and past the end.
#[inline(always)]
pub(crate) fn pair_at(pairs: &Table<PairSlot>, number: usize) -> Option<Link>
    ensures { result ≡ get_or (pairs_in pairs.now.items) number None }
{
    if number >= pairs.len() {
        return None;
    }
    pairs.at(number).pair()
}

/// The number of a pair among these.
pub(crate) fn find_in(pairs: &Table<PairSlot>, row: &[u32], pair: Link) -> Option<usize>
    ensures there { IfSome result (HasNumber (pairs_in pairs.now.items) pair) }
    ensures absent { IfNone result ((n : ℕ) → Contains row.now n → ¬ HasNumber (pairs_in pairs.now.items) pair n) }
{
    for number in row {
        if pair_at(pairs, *number as usize) == Some(pair) {
            return Some(*number as usize);
        }
    }
    None
}

/// The pairs of a row that name a rule go, and their numbers out of the rows of the other rules; says how many.
fn drop_row(pairs: &mut Table<PairSlot>, others: &mut RowTable, row: &[u32], rule: usize) -> usize
    requires few { length pairs.old.items ≤ 4294967295 }
    requires clear { CanClearRow pairs.old others.old row.now rule }
    ensures owned { KeepsOwned pairs.old pairs.new }
    ensures opened { (s : ℕ) → IsOpen others.old s → IsOpen others.new s }
    ensures shorter { (n s : ℕ) → Contains (list_at others.new s) n → Contains (list_at others.old s) n }
    ensures len { length pairs.new.items ≡ length pairs.old.items }
    ensures same { map (kept_if (λ p. not (names_item rule p))) (pairs_in pairs.new.items) ≡ map (kept_if (λ p. not (names_item rule p))) (pairs_in pairs.old.items) }
    ensures fewer { (l : Link) (n : ℕ) → HasNumber (pairs_in pairs.new.items) l n → HasNumber (pairs_in pairs.old.items) l n }
    ensures gone { (l : Link) (n : ℕ) → Contains row.now n → HasNumber (pairs_in pairs.new.items) l n → names_item rule l ≡ false }
    ensures kept { (l : Link) (n s : ℕ) → HasNumber (pairs_in pairs.new.items) l n → Contains (list_at others.old s) n → Contains (list_at others.new s) n }
    ensures count { result + length (there (pairs_in pairs.new.items)) ≡ length (there (pairs_in pairs.old.items)) }
{
    let mut count = 0;
    for number in row {
        if let Some(pair) = pair_at(pairs, *number as usize) {
            if pair.upper == rule || pair.lower == rule {
                others.remove(other_of(pair, rule), *number);
                pairs.put(*number as usize, PairSlot::empty());
                count += 1;
            }
        }
    }
    count
}

/// The numbers of the pairs of a row that name a rule may be written from now on, and the rows of the other rules.
fn open_row(
    pairs: &mut Table<PairSlot>,
    others: &mut RowTable,
    row: &[u32],
    rule: usize,
) -> Result<(), Memory>
    ensures items { pairs.new.items ≡ pairs.old.items }
    ensures owned { KeepsOwned pairs.old pairs.new }
    ensures kept { KeepsLists others.old others.new }
    ensures same { length others.new.lists ≡ length others.old.lists }
    ensures clear { OnOk result (CanClearRow pairs.new others.new row.now rule) }
{
    for number in row {
        open_number(pairs, others, *number as usize, rule)?;
    }
    Ok(())
}

/// The number of a pair may be written from now on, if the pair names a rule, and the row of the other rule.
fn open_number(
    pairs: &mut Table<PairSlot>,
    others: &mut RowTable,
    number: usize,
    rule: usize,
) -> Result<(), Memory>
    ensures items { pairs.new.items ≡ pairs.old.items }
    ensures owned { KeepsOwned pairs.old pairs.new }
    ensures kept { KeepsLists others.old others.new }
    ensures same { length others.new.lists ≡ length others.old.lists }
    ensures clear { OnOk result ((l : Link) → HasNumber (pairs_in pairs.new.items) l number → names_item rule l ≡ true
        → Owns pairs.new number × IsOpen others.new (other_rule rule l)) }
{
    match pair_at(pairs, number) {
        None => Ok(()),
        Some(pair) => {
            if pair.upper != rule && pair.lower != rule {
                return Ok(());
            }
            others.open(other_of(pair, rule))?;
            pairs.own(number)?;
            Ok(())
        }
    }
}

/// The rule of a pair that is not this one.
fn other_of(pair: Link, rule: usize) -> usize
    ensures { result ≡ other_rule rule pair }
{
    if pair.upper == rule {
        pair.lower
    } else {
        pair.upper
    }
}

/// Room for one more number in a list. The table becomes as long as that takes.
fn reserve_at(rows: &mut RowTable, number: usize) -> Result<(), Memory>
    ensures kept { KeepsLists rows.old rows.new }
    ensures room { OnOk result (HasRowRoom rows.new number) }
{
    while rows.len() <= number {
        rows.grow()?;
    }
    rows.reserve(number)?;
    Ok(())
}
