//! Where the chain of an item begins.

ghost use Rattle.std.specs.Prelude.{◌≡◌, ◌<◌, ◌≤◌, ℕ, OnOk, OnErr, IfOk, if◌then◌else◌, ◌==◌, length};

use dl_base::Memory;
use std::alloc::Global;
use std::collections::HashMap;
use std::marker::Model;

/// One past the place of the last pair of each item, and 0 where it has none. Items that are small beside the count of writes, as those of real orders, stand in a plain list.
#[derive(Drop)]
pub(crate) struct Heads {
    /// The numbers of the items below its length.
    near: Vec<usize>,
    /// The numbers of the other items. What it has for an item that `near` reaches does not count.
    far: HashMap<usize, usize>,
    /// How often a number was put. The length of `near` is linear in it, whatever the items are.
    puts: usize,
}

impl Model for Heads {
    ghost use Rattle.dl_sup.specs.HeadLists.{HeadLists};

    ghost Value = { HeadLists };

    ghost view = { λ h. record { near = h.near.items; far = h.far.entries } };
}

impl Heads {
    ghost use Rattle.dl_sup.specs.HeadLists.{head_of, no_heads};

    pub(crate) fn make(alloc: Global) -> Heads
        ensures { result ≡ no_heads }
    {
        Heads {
            near: Vec::new(alloc),
            far: HashMap::new(alloc),
            puts: 0,
        }
    }

    pub(crate) fn get(&self, item: usize) -> usize
        ensures { result ≡ head_of self.now item }
    {
        match self.near.get(item) {
            Some(head) => *head,
            None => self.far.get(&item).copied().unwrap_or(0),
        }
    }

    pub(crate) fn put(&mut self, item: usize, head: usize) -> Result<(), Memory>
        ensures put { OnOk result ((q : ℕ) → head_of self.new q ≡ (if item == q then head else head_of self.old q)) }
        ensures kept { OnErr result ((q : ℕ) → head_of self.new q ≡ head_of self.old q) }
    {
        self.puts = self.puts.saturating_add(1);
        if item < self.near.len() {
            self.write(item, head);
            return Ok(());
        }
        // Pairs that name new items in order name at most two each. The rest is for items whose pairs went.
        if item < self.puts.saturating_mul(4).saturating_add(64) {
            self.widen(item + 1)?;
            self.write(item, head);
            return Ok(());
        }
        self.far.insert(item, head)?;
        Ok(())
    }

    /// Writes the number of an item of the plain list.
    fn write(&mut self, item: usize, head: usize)
        requires { item < length self.old.near }
        ensures { (q : ℕ) → head_of self.new q ≡ (if item == q then head else head_of self.old q) }
    {
        self.near[item] = head;
    }

    /// Moves the numbers of the items below a length into the plain list.
    fn widen(&mut self, len: usize) -> Result<(), Memory>
        requires { length self.old.near ≤ len }
        ensures same { (q : ℕ) → head_of self.new q ≡ head_of self.old q }
        ensures wide { OnOk result (length self.new.near ≡ len) }
    {
        // Nearly always the table is empty, and then it is not asked for each item.
        if self.far.is_empty() {
            self.near.resize(len, 0usize)?;
            return Ok(());
        }
        self.take_in(len)
    }

    /// Looks up the number of each item below a length that is not in the plain list, and adds it there.
    fn take_in(&mut self, len: usize) -> Result<(), Memory>
        requires { length self.old.near ≤ len }
        ensures same { (q : ℕ) → head_of self.new q ≡ head_of self.old q }
        ensures wide { OnOk result (length self.new.near ≡ len) }
    {
        for at in self.near.len()..len {
            let head = self.far.get(&at).copied().unwrap_or(0);
            self.near.push(head)?;
        }
        Ok(())
    }
}
