//! Rules by number, each found by its head, by each literal of its body, and by what it is superior or inferior to.
//!
//! A rule's number does not move. What is added goes last, under the next number, and a rule that goes leaves its number empty, so
//! that the list of rules is that of the numbers that are not empty, in ascending order. No other rule's number, body or list
//! changes. An index most of whose numbers are empty is made anew by the net.

ghost use Rattle.std.specs.Prelude.{◌≡◌, ℕ, ◌+◌, ◌<◌, ◌≤◌, ◌^◌, [], ◌∷◌, ◌++◌, All, Some, None, IsSome, is_some, IfSome, IfOk, OnOk, OnErr, option_map, option_to_list, length, filter, slice_get, get_or, set, map};
ghost use Rattle.dl_theory.specs.Lists.{can_support};
ghost use Rattle.dl_rows.specs.Counting.{each_once};
ghost use Rattle.dl_rows.specs.Rows.{places, row};
ghost use Rattle.dl_rows.specs.Tables.{list_at, drop_item, list_of};
ghost use Rattle.dl_rows.specs.There.{there};
ghost use Rattle.dl_rules.specs.Lines.{KeepsRules, no_index, heads_row, uses_row, kind_row, IsWithin, IsThere, IsThereWithin, line_at};

use crate::enter::{append_both, put_rule, reserve_at, reserve_rule, widen};
use crate::entry::{Between, Entry, Room};
use crate::kinds::{can_support, count, passes};
use crate::leave::{open_links, open_rule, take_links, take_rule};
use crate::lines::Lines;
use crate::link_counts::LinkCounts;
use crate::rule_lists::RuleLists;
use dl_base::Memory;
use dl_rows::{Lists, RowTable};
use dl_theory::Kind;
use std::alloc::Global;
use std::marker::Model;
use std::mem;

/// The rules by number, and for each literal and rule the numbers of the rules that a fill goes to from there. Memory for one rule, or
/// for one rule below another, can be taken before.
pub struct Index {
    lines: Lines,
    /// How many rules are there.
    live: usize,
    heads: RowTable,
    uses: RowTable,
    lowers: RowTable,
    uppers: RowTable,
    room: Room,
}

impl Drop for Index {
    fn drop(self) {
        let Index {
            lines: _,
            live: _,
            heads: _,
            uses: _,
            lowers: _,
            uppers: _,
            room: _,
        } = self;
    }
}

impl Model for Index {
    ghost use Rattle.dl_rules.specs.Lines.{IndexLists};

    ghost Value = { IndexLists };

    ghost use Rattle.dl_rules.specs.KeptIndex.{index_of, IsKeptIndex};

    ghost view = { index_of };

    ghost invariant = { IsKeptIndex };
}

impl Index {
    /// No rules. Takes no memory.
    pub fn make(alloc: Global) -> Index
        ensures { result ≡ no_index }
    {
        Index {
            lines: Lines::make(alloc),
            live: 0,
            heads: RowTable::make(alloc),
            uses: RowTable::make(alloc),
            lowers: RowTable::make(alloc),
            uppers: RowTable::make(alloc),
            room: Room::Nothing,
        }
    }

    /// The index of rules that are all there, whose literals have numbers below a bound, with room for so many below and above each.
    pub fn of(
        alloc: Global,
        lines: Lines,
        names: usize,
        links: &LinkCounts,
    ) -> Result<Index, Memory>
        requires within { All (IsThereWithin names) lines.items }
        requires few { length lines.items < 2 ^ 32 }
        ensures lines { IfOk result (λ index. index.lines ≡ lines.items) }
        ensures lowers { IfOk result (λ index. index.lowers ≡ map (λ _. []) lines.items) }
        ensures uppers { IfOk result (λ index. index.uppers ≡ map (λ _. []) lines.items) }
    {
        let lowers = RowTable::with_room(alloc, links.lowers.as_slice())?;
        let uppers = RowTable::with_room(alloc, links.uppers.as_slice())?;
        let lists = RuleLists::of(alloc, &lines, names)?;
        let RuleLists { heads, uses } = lists;
        let live = lines.len();
        Ok(Index {
            lines,
            live,
            heads,
            uses,
            lowers,
            uppers,
            room: Room::Nothing,
        })
    }

    /// The same rules under the same numbers, with the same lists. What is frozen is shared, and what there is memory for is left out. `Memory` where there is none for the
    /// copy.
    pub fn copy(&self) -> Result<Index, Memory>
        ensures lines { IfOk result (λ copy. copy.lines ≡ self.now.lines) }
        ensures lowers { IfOk result (λ copy. copy.lowers ≡ self.now.lowers) }
        ensures uppers { IfOk result (λ copy. copy.uppers ≡ self.now.uppers) }
    {
        let lines = self.lines.copy()?;
        let heads = self.heads.copy()?;
        let uses = self.uses.copy()?;
        let lowers = self.lowers.copy()?;
        let uppers = self.uppers.copy()?;
        Ok(Index {
            lines,
            live: self.live,
            heads,
            uses,
            lowers,
            uppers,
            room: Room::Nothing,
        })
    }

    /// Lists for this many literals. What there was memory for is forgotten. `Memory` where there is none for the lists keeps the rules.
    pub fn widen(&mut self, names: usize) -> Result<(), Memory>
        ensures kept { KeepsRules self.old self.new }
        ensures wide { OnOk result (names ≤ self.new.width) }
        ensures ready { self.new.ready ≡ None }
        ensures linking { self.new.linking ≡ None }
    {
        self.room = Room::Nothing;
        widen(&mut self.uses, names)?;
        widen(&mut self.heads, names)?;
        Ok(())
    }

    /// Memory for one more rule.
    pub fn reserve(&mut self, entry: Entry) -> Result<(), Memory>
        requires { IsWithin self.old.width entry }
        ensures kept { KeepsRules self.old self.new }
        ensures ready { OnOk result (self.new.ready ≡ Some entry) }
        ensures forgotten { OnErr result (self.new.ready ≡ None) }
        ensures linking { self.new.linking ≡ None }
    {
        self.room = Room::Nothing;
        reserve_rule(&mut self.lines, &mut self.heads, &mut self.uses, &entry)?;
        self.room = Room::ForRule(entry);
        Ok(())
    }

    /// The rule for which there is memory goes last, under the next number.
    pub fn put(&mut self)
        requires { IsSome self.old.ready }
        ensures lines { self.new.lines ≡ self.old.lines ++ self.old.ready ∷ [] }
        ensures lowers { self.new.lowers ≡ self.old.lowers ++ [] ∷ [] }
        ensures uppers { self.new.uppers ≡ self.old.uppers ++ [] ∷ [] }
        ensures width { self.new.width ≡ self.old.width }
        ensures ready { self.new.ready ≡ None }
        ensures linking { self.new.linking ≡ None }
    {
        match mem::replace(&mut self.room, Room::Nothing) {
            Room::Nothing => unreachable!(),
            Room::ForLink(_) => unreachable!(),
            Room::ForTake(_) => unreachable!(),
            Room::ForUnlink(_) => unreachable!(),
            Room::ForRule(entry) => {
                self.live += 1;
                put_rule(&mut self.lines, &mut self.heads, &mut self.uses, entry);
            }
        }
    }

    /// Memory for one rule below another.
    pub fn reserve_link(&mut self, upper: usize, lower: usize) -> Result<(), Memory>
        requires upper { IsThere self.old.lines upper }
        requires lower { IsThere self.old.lines lower }
        ensures kept { KeepsRules self.old self.new }
        ensures linking { OnOk result (self.new.linking ≡ Some (record { upper = upper; lower = lower })) }
        ensures forgotten { OnErr result (self.new.linking ≡ None) }
        ensures ready { self.new.ready ≡ None }
    {
        self.room = Room::Nothing;
        let upper = upper as u32;
        let lower = lower as u32;
        reserve_at(&mut self.lowers, upper)?;
        reserve_at(&mut self.uppers, lower)?;
        self.room = Room::ForLink(Between { upper, lower });
        Ok(())
    }

    /// A rule goes below another, in the room that the index was made with. `Memory` where there is none, and then none stands below
    /// another.
    pub fn append_link(&mut self, upper: usize, lower: usize) -> Result<(), Memory>
        requires upper { IsThere self.old.lines upper }
        requires lower { IsThere self.old.lines lower }
        ensures lines { self.new.lines ≡ self.old.lines }
        ensures lowers { OnOk result (self.new.lowers ≡ set self.old.lowers upper (list_of self.old.lowers upper ++ lower ∷ [])) }
        ensures uppers { OnOk result (self.new.uppers ≡ set self.old.uppers lower (list_of self.old.uppers lower ++ upper ∷ [])) }
    {
        self.room = Room::Nothing;
        match append_both(&mut self.lowers, &mut self.uppers, upper, lower) {
            Ok(()) => Ok(()),
            Err(Memory) => {
                let alloc = self.lines.alloc();
                self.lowers = RowTable::make(alloc);
                self.uppers = RowTable::make(alloc);
                Err(Memory)
            }
        }
    }

    /// Whether one rule can go below another in the room that the index was made with, or need not since their heads do not attack each
    /// other. No clause rests on the answer.
    // without a branch on the heads: half of such branches are guessed wrong, and that is known only when the heads have come
    #[inline(always)]
    pub fn has_room(&self, upper: usize, lower: usize) -> bool
        requires upper { upper < length self.now.lines }
        requires lower { lower < length self.now.lines }
    {
        let room = self.lowers.has_room(upper) & self.uppers.has_room(lower);
        room | !self.lines.meet(upper, lower)
    }

    /// The rule for which there is memory goes below the other.
    pub fn put_link(&mut self)
        requires { IsSome self.old.linking }
        ensures lines { self.new.lines ≡ self.old.lines }
        ensures lowers { IfSome self.old.linking (λ m. self.new.lowers ≡ set self.old.lowers m.upper (list_of self.old.lowers m.upper ++ m.lower ∷ [])) }
        ensures uppers { IfSome self.old.linking (λ m. self.new.uppers ≡ set self.old.uppers m.lower (list_of self.old.uppers m.lower ++ m.upper ∷ [])) }
        ensures width { self.new.width ≡ self.old.width }
        ensures ready { self.new.ready ≡ None }
        ensures linking { self.new.linking ≡ None }
    {
        match mem::replace(&mut self.room, Room::Nothing) {
            Room::Nothing => unreachable!(),
            Room::ForRule(_) => unreachable!(),
            Room::ForTake(_) => unreachable!(),
            Room::ForUnlink(_) => unreachable!(),
            Room::ForLink(link) => {
                self.lowers.push(link.upper as usize, link.lower);
                self.uppers.push(link.lower as usize, link.upper);
            }
        }
    }

    /// Memory so that a rule can go: what is shared of all that leads to it is copied, page by page.
    pub fn reserve_take(&mut self, number: usize) -> Result<(), Memory>
        requires { IsThere self.old.lines number }
        ensures kept { KeepsRules self.old self.new }
        ensures taking { OnOk result (self.new.taking ≡ Some number) }
        ensures ready { self.new.ready ≡ None }
        ensures linking { self.new.linking ≡ None }
    {
        self.room = Room::Nothing;
        open_rule(&mut self.lines, &mut self.heads, &mut self.uses, number)?;
        open_links(&mut self.lowers, &mut self.uppers, number)?;
        self.room = Room::ForTake(number as u32);
        Ok(())
    }

    /// The rule for which there is memory to go does so, and goes out of what stands below and above the others. Takes no memory.
    pub fn take(&mut self, number: usize)
        requires { self.old.taking ≡ Some number }
        ensures lines { self.new.lines ≡ set self.old.lines number None }
        ensures lowers { self.new.lowers ≡ set (map (drop_item number) self.old.lowers) number [] }
        ensures uppers { self.new.uppers ≡ set (map (drop_item number) self.old.uppers) number [] }
        ensures width { self.new.width ≡ self.old.width }
        ensures ready { self.new.ready ≡ None }
        ensures linking { self.new.linking ≡ None }
    {
        self.room = Room::Nothing;
        let rule = number as u32;
        self.live -= 1;
        take_rule(&mut self.lines, &mut self.heads, &mut self.uses, rule);
        take_links(&mut self.lowers, &mut self.uppers, rule);
    }

    /// The number of the rule for which there is memory to go.
    pub fn taking(&self) -> Option<usize>
        ensures { result ≡ self.now.taking }
    {
        match &self.room {
            Room::ForTake(rule) => Some(*rule as usize),
            _ => None,
        }
    }

    /// Memory so that one rule can stop to stand below another.
    pub fn reserve_unlink(&mut self, upper: usize, lower: usize) -> Result<(), Memory>
        requires upper { IsThere self.old.lines upper }
        requires lower { IsThere self.old.lines lower }
        ensures kept { KeepsRules self.old self.new }
        ensures unlinking { OnOk result (self.new.unlinking ≡ Some (record { upper = upper; lower = lower })) }
        ensures ready { self.new.ready ≡ None }
        ensures linking { self.new.linking ≡ None }
    {
        self.room = Room::Nothing;
        self.lowers.open(upper)?;
        self.uppers.open(lower)?;
        self.room = Room::ForUnlink(Between {
            upper: upper as u32,
            lower: lower as u32,
        });
        Ok(())
    }

    /// One rule no longer stands below another, for which there is memory. Takes none.
    pub fn take_link(&mut self, upper: usize, lower: usize)
        requires { self.old.unlinking ≡ Some (record { upper = upper; lower = lower }) }
        ensures lines { self.new.lines ≡ self.old.lines }
        ensures lowers { self.new.lowers ≡ set self.old.lowers upper (drop_item lower (list_of self.old.lowers upper)) }
        ensures uppers { self.new.uppers ≡ set self.old.uppers lower (drop_item upper (list_of self.old.uppers lower)) }
        ensures width { self.new.width ≡ self.old.width }
        ensures ready { self.new.ready ≡ None }
        ensures linking { self.new.linking ≡ None }
    {
        self.room = Room::Nothing;
        self.lowers.remove(upper, lower as u32);
        self.uppers.remove(lower, upper as u32);
    }

    /// From here on a copy shares these rules and the lists that lead to them. Where there is no memory for that, it costs more. What there was
    /// memory for is forgotten, and nothing else changes.
    pub fn freeze(&mut self)
        ensures lines { self.new.lines ≡ self.old.lines }
        ensures lowers { self.new.lowers ≡ self.old.lowers }
        ensures uppers { self.new.uppers ≡ self.old.uppers }
        ensures width { self.new.width ≡ self.old.width }
        ensures ready { self.new.ready ≡ None }
        ensures linking { self.new.linking ≡ None }
    {
        self.room = Room::Nothing;
        self.lines.freeze();
        let _heads = self.heads.freeze();
        let _uses = self.uses.freeze();
        let _lowers = self.lowers.freeze();
        let _uppers = self.uppers.freeze();
    }

    /// How many numbers there are, with those that are empty.
    pub fn len(&self) -> usize
        ensures { result ≡ length self.now.lines }
    {
        self.lines.len()
    }

    /// How many rules are there.
    pub fn live(&self) -> usize
        ensures { result ≡ length (there self.now.lines) }
    {
        self.live
    }

    /// Whether a number has a rule. Past the end none has.
    pub fn is_there(&self, number: usize) -> bool
        ensures { result ≡ is_some (get_or self.now.lines number None) }
    {
        match self.find(number) {
            None => false,
            Some(_) => true,
        }
    }

    /// The kind of a rule; `None` exactly where a number has none.
    #[inline(always)]
    fn find(&self, rule: usize) -> Option<Kind>
        ensures { result ≡ option_map (λ l. l.kind) (get_or self.now.lines rule None) }
    {
        self.lines.find(rule)
    }

    /// The kind of a rule.
    pub fn kind(&self, rule: usize) -> Kind
        requires { IsThere self.now.lines rule }
        ensures { result ≡ (line_at self.now.lines rule).kind }
    {
        self.lines.kind(rule)
    }

    /// The number of its head.
    pub fn head(&self, rule: usize) -> usize
        requires { IsThere self.now.lines rule }
        ensures { result ≡ (line_at self.now.lines rule).head }
    {
        self.lines.head(rule) as usize
    }

    /// An equal rule by itself.
    pub fn entry(&self, rule: usize) -> Result<Entry, Memory>
        requires { IsThere self.now.lines rule }
        ensures { IfOk result (λ entry. entry ≡ line_at self.now.lines rule) }
    {
        self.lines.entry(rule)
    }

    /// The number at a place of its body, which may stand there twice; `None` exactly past the last.
    pub fn body(&self, rule: usize, at: usize) -> Option<usize>
        requires { IsThere self.now.lines rule }
        ensures { result ≡ slice_get (line_at self.now.lines rule).body at }
    {
        match self.lines.body(rule).get(at) {
            None => None,
            Some(number) => Some(*number as usize),
        }
    }

    /// How many numbers its body has, each as often as it stands there.
    pub fn body_len(&self, rule: usize) -> usize
        requires { IsThere self.now.lines rule }
        ensures { result ≡ length (line_at self.now.lines rule).body }
    {
        self.lines.body(rule).len()
    }

    /// How many numbers the body has, each counted once; none where a number has no rule.
    pub fn width(&self, rule: usize) -> usize
        ensures width { result ≡ length (row uses_row self.now.lines rule) }
        ensures few { result < 2 ^ 26 }
    {
        if rule >= self.len() {
            return 0;
        }
        self.each_once(rule).len()
    }

    /// The number at a place of the body, each where it first stands; `None` exactly past the end, and where a number has no rule.
    pub fn once(&self, rule: usize, at: usize) -> Option<usize>
        ensures { result ≡ slice_get (row uses_row self.now.lines rule) at }
    {
        if rule >= self.len() {
            return None;
        }
        match self.each_once(rule).get(at) {
            None => None,
            Some(number) => Some(*number as usize),
        }
    }

    /// Whether the rule is there and can support its head.
    pub fn supports(&self, rule: usize) -> bool
        ensures { result ≡ can_support (line_at self.now.lines rule).kind }
    {
        match self.find(rule) {
            None => false,
            Some(kind) => can_support(kind),
        }
    }

    /// The head of a rule that is there.
    pub fn headed(&self, rule: usize) -> Option<usize>
        ensures { option_to_list result ≡ row heads_row self.now.lines rule }
    {
        match self.find(rule) {
            None => None,
            Some(_) => Some(self.head(rule)),
        }
    }

    /// The head of a rule that is there and strict, or else can support it.
    pub fn concluded(&self, rule: usize, strict: bool) -> Option<usize>
        ensures { option_to_list result ≡ row (kind_row strict) self.now.lines rule }
    {
        match self.find(rule) {
            None => None,
            Some(kind) => {
                if !passes(kind, strict) {
                    return None;
                }
                Some(self.head(rule))
            }
        }
    }

    /// The numbers of its body, each where it first stands; none where a number is empty.
    fn each_once(&self, rule: usize) -> &[u32]
        requires { rule < length self.now.lines }
        ensures numbers { result.now ≡ each_once (line_at self.now.lines rule).body }
        ensures few { length result.now < 2 ^ 26 }
    {
        self.lines.each_once(rule)
    }

    /// The number at a place among those of the rules with this head.
    pub fn heads_at(&self, number: usize, at: usize) -> Option<usize>
        ensures { result ≡ slice_get (places heads_row self.now.lines number) at }
    {
        number_at(&self.heads, number, at)
    }

    /// How many rules have this head.
    pub fn heads_len(&self, number: usize) -> usize
        ensures value { result ≡ length (places heads_row self.now.lines number) }
        ensures few { result ≤ length self.now.lines }
    {
        self.heads.count(number)
    }

    /// How many of the rules with this head are strict, or else can support it.
    pub fn heads_count(&self, number: usize, strict: bool) -> usize
        ensures value { result ≡ length (places (kind_row strict) self.now.lines number) }
        ensures few { result ≤ length self.now.lines }
    {
        count(&self.lines, self.heads.row(number), strict)
    }

    /// The number at a place among those of the rules that have this literal in the body.
    pub fn uses_at(&self, number: usize, at: usize) -> Option<usize>
        ensures { result ≡ slice_get (places uses_row self.now.lines number) at }
    {
        number_at(&self.uses, number, at)
    }

    /// How many rules have this literal in the body.
    pub fn uses_len(&self, number: usize) -> usize
        ensures { result ≡ length (places uses_row self.now.lines number) }
    {
        self.uses.count(number)
    }

    /// The number at a place among those of the rules below one.
    pub fn lower_at(&self, rule: usize, at: usize) -> Option<usize>
        ensures { result ≡ slice_get (list_of self.now.lowers rule) at }
    {
        number_at(&self.lowers, rule, at)
    }

    /// How many rules stand below one.
    pub fn lower_len(&self, rule: usize) -> usize
        ensures { result ≡ length (list_of self.now.lowers rule) }
    {
        self.lowers.count(rule)
    }

    /// How many rules stand above one.
    pub fn upper_len(&self, rule: usize) -> usize
        ensures { result ≡ length (list_of self.now.uppers rule) }
    {
        self.uppers.count(rule)
    }

    /// How many of the rules above one can support their heads.
    pub fn upper_count(&self, rule: usize) -> usize
        ensures { result ≡ length (filter (λ t. can_support (line_at self.now.lines t).kind) (list_of self.now.uppers rule)) }
    {
        count(&self.lines, self.uppers.row(rule), false)
    }
}

/// The number at a place of a list of numbers.
#[inline(always)]
fn number_at(rows: &RowTable, number: usize, at: usize) -> Option<usize>
    ensures { result ≡ slice_get (list_at rows.now number) at }
{
    match rows.get(number, at) {
        None => None,
        Some(rule) => Some(rule as usize),
    }
}
