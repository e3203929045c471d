//! Rules by number.

ghost use Rattle.std.specs.Prelude.{◌≡◌, ◌<◌, ◌^◌, [], ◌∷◌, ◌++◌, OnOk, IfOk, Some, None, option_map, length, get_or, set};
ghost use Rattle.dl_pages.specs.Paged.{Owns};
ghost use Rattle.dl_rows.specs.Counting.{each_once};
ghost use Rattle.dl_rules.specs.Lines.{line_at, IsThere};

use crate::body::BodyNumbers;
use crate::entry::Entry;
use crate::slot::Slot;
use dl_base::Memory;
use dl_names::other;
use dl_pages::Table;
use dl_theory::Kind;
use std::alloc::Global;
use std::marker::Model;
use std::mem::size_of;

/// Rules by number. A number whose rule has gone stays empty. What is read most, kinds and heads, stands apart from the bodies. Rules
/// that are frozen are shared with each copy, page by page, and one that is to go is owned before.
pub struct Lines {
    slots: Table<Slot>,
    heads: Table<u32>,
    bodies: Table<BodyNumbers>,
}

impl Drop for Lines {
    fn drop(self) {
        let Lines {
            slots: _,
            heads: _,
            bodies: _,
        } = self;
    }
}

const _: () = prove!(size_of::<Slot>() == 1);

impl Model for Lines {
    ghost use Rattle.std.specs.Prelude.{Option};
    ghost use Rattle.dl_pages.specs.Paged.{PagedItems};
    ghost use Rattle.dl_rules.specs.Lines.{Line};
    ghost use Rattle.dl_rules.specs.KeptLines.{lines_of, IsKeptLines};

    ghost Value = { PagedItems (Option Line) };

    ghost view = { lines_of };

    ghost invariant = { IsKeptLines };
}

impl Lines {
    /// No rules. Takes no memory.
    pub fn make(alloc: Global) -> Lines
        ensures { result.items ≡ [] }
    {
        Lines {
            slots: Table::make(alloc),
            heads: Table::make(alloc),
            bodies: Table::make(alloc),
        }
    }

    /// Room for one more rule.
    pub fn reserve(&mut self) -> Result<(), Memory>
        ensures items { self.new.items ≡ self.old.items }
        ensures room { OnOk result (0 < self.new.spare) }
    {
        self.slots.reserve(1)?;
        self.heads.reserve(1)?;
        self.bodies.reserve(1)?;
        Ok(())
    }

    /// A rule at the end, in room that is there.
    pub fn push(&mut self, entry: Entry)
        requires { 0 < self.old.spare }
        ensures { self.new.items ≡ self.old.items ++ Some entry ∷ [] }
    {
        self.slots.push(Slot::of(entry.kind));
        self.heads.push(entry.head);
        self.bodies.push(entry.body);
    }

    /// The rule with a number can go from here on: it is shared no longer. `Memory` where there is none for a copy of those beside it.
    pub fn own(&mut self, rule: usize) -> Result<(), Memory>
        requires { rule < length self.old.items }
        ensures items { self.new.items ≡ self.old.items }
        ensures own { OnOk result (Owns self.new rule) }
    {
        self.slots.own(rule)?;
        self.bodies.own(rule)
    }

    /// A rule goes, and leaves its number empty. Takes no memory.
    // its head stays, since nobody asks for it any more
    pub fn clear(&mut self, rule: usize)
        requires { Owns self.old rule }
        ensures { self.new.items ≡ set self.old.items rule None }
    {
        let _kind = self.slots.put(rule, Slot::Gone);
        let _body = self.bodies.put(rule, BodyNumbers::none());
    }

    /// From here on a copy shares these rules. Where there is no memory for that, it costs more, and nothing else changes.
    pub fn freeze(&mut self)
        ensures { self.new.items ≡ self.old.items }
    {
        let _slots = self.slots.freeze();
        let _heads = self.heads.freeze();
        let _bodies = self.bodies.freeze();
    }

    /// The same rules under the same numbers. Those that are frozen are shared. `Memory` where there is none for that.
    pub fn copy(&self) -> Result<Lines, Memory>
        ensures { IfOk result (λ copy. copy.items ≡ self.now.items) }
    {
        let slots = self.slots.copy()?;
        let heads = self.heads.copy()?;
        let bodies = self.bodies.copy()?;
        Ok(Lines {
            slots,
            heads,
            bodies,
        })
    }

    /// How many numbers there are, with those that are empty.
    pub fn len(&self) -> usize
        ensures { result ≡ length self.now.items }
    {
        self.slots.len()
    }

    /// The kind of the rule with a number; `None` exactly where it has gone, and past the end.
    #[inline(always)]
    pub fn find(&self, rule: usize) -> Option<Kind>
        ensures { result ≡ option_map (λ l. l.kind) (get_or self.now.items rule None) }
    {
        if rule >= self.slots.len() {
            return None;
        }
        self.slots.at(rule).kind()
    }

    /// The kind of a rule that is there.
    #[inline(always)]
    pub fn kind(&self, rule: usize) -> Kind
        requires { IsThere self.now.items rule }
        ensures { result ≡ (line_at self.now.items rule).kind }
    {
        match self.find(rule) {
            None => unreachable!(),
            Some(kind) => kind,
        }
    }

    /// The number of its head.
    pub fn head(&self, rule: usize) -> u32
        requires { IsThere self.now.items rule }
        ensures { result ≡ (line_at self.now.items rule).head }
    {
        *self.heads.at(rule)
    }

    /// An equal rule by itself.
    pub fn entry(&self, rule: usize) -> Result<Entry, Memory>
        requires { IsThere self.now.items rule }
        ensures { IfOk result (λ entry. entry ≡ line_at self.now.items rule) }
    {
        let body = self.bodies.at(rule).clone()?;
        Ok(Entry {
            kind: self.kind(rule),
            head: self.head(rule),
            body,
        })
    }

    /// Whether the head of one rule is attacked by that of another.
    #[inline(always)]
    pub fn meet(&self, upper: usize, lower: usize) -> bool
        requires upper { upper < length self.now.items }
        requires lower { lower < length self.now.items }
    {
        *self.heads.at(lower) as usize == other(*self.heads.at(upper) as usize)
    }

    /// The numbers of the body in its order, with repeats. Where the rule has gone there are none.
    pub fn body(&self, rule: usize) -> &[u32]
        requires { rule < length self.now.items }
        ensures { result.now ≡ (line_at self.now.items rule).body }
    {
        self.bodies.at(rule).as_slice()
    }

    /// The numbers of the body, each where it first stands.
    pub fn each_once(&self, rule: usize) -> &[u32]
        requires { rule < length self.now.items }
        ensures numbers { result.now ≡ each_once (line_at self.now.items rule).body }
        ensures few { length result.now < 2 ^ 26 }
    {
        self.bodies.at(rule).each_once()
    }

    /// Where its memory comes from.
    pub(crate) fn alloc(&self) -> Global {
        self.heads.alloc()
    }
}
