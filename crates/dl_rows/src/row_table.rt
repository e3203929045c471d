//! Lists of numbers by number.

ghost use Rattle.std.specs.Prelude.{◌≡◌, ℕ, ◌+◌, ◌<◌, ◌≤◌, ◌≢◌, ◌==◌, [], ◌∷◌, ◌++◌, OnOk, OnErr, IfOk, map, length, slice_get, set, if◌then◌else◌};
ghost use Rattle.dl_rows.specs.Tables.{no_table, list_at, spare_at, drop_item, KeepsLists, IsOpen};

use crate::lists::Lists;
use crate::open_rows::OpenRows;
use crate::packed_rows::PackedRows;
use dl_base::Memory;
use std::alloc::Global;
use std::marker::Model;
use std::mem;
use std::sync::Arc;

/// A list of numbers at each number. What is frozen is shared with each copy, and a list is copied, with those beside it, before it is written
/// again: to reserve it does that.
pub struct RowTable {
    rows: Rows,
}

impl Drop for RowTable {
    fn drop(self) {
        let RowTable { rows: _ } = self;
    }
}

/// Lists that stand packed in the room that they were made with, until one of them is to have more, or lists that grow. Packed lists are
/// written only as long as nobody shares them.
#[derive(Drop)]
enum Rows {
    Packed(PackedRows),
    Shared(Arc<PackedRows>),
    Open(OpenRows),
}

impl Model for RowTable {
    ghost use Rattle.dl_rows.specs.Tables.{RowLists};

    ghost Value = { RowLists };

    ghost use Rattle.dl_rows.specs.TablesView.{table_of};

    ghost view = { λ t. table_of t.rows };
}

impl RowTable {
    /// No lists. Takes no memory.
    pub fn make(alloc: Global) -> RowTable
        ensures { result ≡ no_table }
    {
        RowTable {
            rows: Rows::Open(OpenRows::make(alloc)),
        }
    }

    /// Empty lists with room for so many numbers each, packed one behind another. `Memory` where there is none for them, or where they have
    /// more room together than numbers of 32 bits tell.
    pub fn with_room(alloc: Global, counts: &[u32]) -> Result<RowTable, Memory>
        ensures { IfOk result (λ table. table.lists ≡ map (λ _. []) counts.now) }
    {
        let rows = PackedRows::with_room(alloc, counts)?;
        Ok(RowTable {
            rows: Rows::Packed(rows),
        })
    }

    /// The same lists once more. Those that are frozen are shared, and the others copied. `Memory` where there is none for that.
    pub fn copy(&self) -> Result<RowTable, Memory>
        ensures { IfOk result (λ copy. copy.lists ≡ self.now.lists) }
    {
        let rows = match &self.rows {
            Rows::Packed(rows) => Rows::Packed(rows.copy()?),
            Rows::Shared(rows) => Rows::Shared(Arc::try_clone(rows)?),
            Rows::Open(rows) => Rows::Open(rows.copy()?),
        };
        Ok(RowTable { rows })
    }

    /// One more list, which is empty. Packed lists are opened for it, once for all. `Memory` leaves the table as it was.
    pub fn grow(&mut self) -> Result<(), Memory>
        ensures kept { KeepsLists self.old self.new }
        ensures grown { OnOk result (length self.new.lists ≡ length self.old.lists + 1) }
        ensures err { OnErr result (self.new ≡ self.old) }
    {
        let mut open = match &mut self.rows {
            Rows::Packed(rows) => OpenRows::of(rows)?,
            Rows::Shared(rows) => OpenRows::of(rows)?,
            Rows::Open(rows) => return rows.grow(),
        };
        open.grow()?;
        self.rows = Rows::Open(open);
        Ok(())
    }

    /// Room for one more number in a list, which is not shared from then on. Packed lists are opened for it, once for all. `Memory` where there
    /// is none for it leaves the lists as they were.
    pub fn reserve(&mut self, number: usize) -> Result<(), Memory>
        requires { number < length self.old.lists }
        ensures kept { KeepsLists self.old self.new }
        ensures same { length self.new.lists ≡ length self.old.lists }
        ensures room { OnOk result (0 < spare_at self.new number) }
    {
        let mut open = match &mut self.rows {
            Rows::Packed(rows) => OpenRows::of(rows)?,
            Rows::Shared(rows) => OpenRows::of(rows)?,
            Rows::Open(rows) => return rows.reserve(number),
        };
        open.reserve(number)?;
        self.rows = Rows::Open(open);
        Ok(())
    }

    /// A number at the end of a list, in room that is there.
    pub fn push(&mut self, number: usize, item: u32)
        requires { 0 < spare_at self.old number }
        ensures lists { self.new.lists ≡ set self.old.lists number (list_at self.old number ++ item ∷ []) }
        ensures room { (n : ℕ) → n ≢ number → spare_at self.new n ≡ spare_at self.old n }
    {
        match &mut self.rows {
            Rows::Open(rows) => rows.push(number, item),
            // packed lists have no room that is known of
            Rows::Packed(_) | Rows::Shared(_) => unreachable!(),
        }
    }

    /// From here on the list at a number, if there is one, can lose numbers. `Memory` where there is none for that leaves the lists as they were.
    pub fn open(&mut self, number: usize) -> Result<(), Memory>
        ensures kept { KeepsLists self.old self.new }
        ensures same { length self.new.lists ≡ length self.old.lists }
        ensures open { OnOk result (IsOpen self.new number) }
    {
        if number >= self.len() {
            return Ok(());
        }
        self.reserve(number)
    }

    /// Takes a number out of a list. Past the end no list has any.
    pub fn remove(&mut self, number: usize, item: u32)
        requires { IsOpen self.old number }
        ensures lists { (n : ℕ) → list_at self.new n ≡ (if n == number then drop_item item (list_at self.old n) else list_at self.old n) }
        ensures same { length self.new.lists ≡ length self.old.lists }
        ensures room { (n : ℕ) → spare_at self.old n ≤ spare_at self.new n }
    {
        if number >= self.len() {
            return;
        }
        match &mut self.rows {
            Rows::Open(rows) => rows.remove(number, item),
            Rows::Packed(_) | Rows::Shared(_) => unreachable!(),
        }
    }

    /// Empties a list.
    pub fn clear(&mut self, number: usize)
        requires { IsOpen self.old number }
        ensures lists { (n : ℕ) → list_at self.new n ≡ (if n == number then [] else list_at self.old n) }
        ensures same { length self.new.lists ≡ length self.old.lists }
        ensures room { (n : ℕ) → n ≢ number → spare_at self.old n ≤ spare_at self.new n }
    {
        if number >= self.len() {
            return;
        }
        match &mut self.rows {
            Rows::Open(rows) => rows.clear(number),
            Rows::Packed(_) | Rows::Shared(_) => unreachable!(),
        }
    }

    /// All lists can be shared from here on, and none is written before it is reserved or opened again. `Memory` where there is none for
    /// that: then fewer are shared.
    pub fn freeze(&mut self) -> Result<(), Memory>
        ensures { self.new.lists ≡ self.old.lists }
    {
        match &mut self.rows {
            Rows::Packed(rows) => {
                let alloc = rows.alloc();
                let rows = mem::replace(rows, PackedRows::none(alloc));
                match Arc::new(alloc, rows) {
                    Ok(shared) => {
                        self.rows = Rows::Shared(shared);
                        Ok(())
                    }
                    Err(failed) => {
                        self.rows = Rows::Packed(failed.value);
                        Err(Memory)
                    }
                }
            }
            Rows::Shared(_) => Ok(()),
            Rows::Open(rows) => rows.freeze(),
        }
    }
}

impl Lists for RowTable {
    ghost lists = { λ t. t.lists };

    #[inline(always)]
    fn len(&self) -> usize {
        match &self.rows {
            Rows::Packed(rows) => rows.len(),
            Rows::Shared(rows) => rows.len(),
            Rows::Open(rows) => rows.len(),
        }
    }

    #[inline(always)]
    fn row(&self, number: usize) -> &[u32] {
        match &self.rows {
            Rows::Packed(rows) => rows.row(number),
            Rows::Shared(rows) => rows.row(number),
            Rows::Open(rows) => rows.row(number),
        }
    }

    #[inline(always)]
    fn count(&self, number: usize) -> usize {
        match &self.rows {
            Rows::Packed(rows) => rows.count(number),
            Rows::Shared(rows) => rows.count(number),
            Rows::Open(rows) => rows.count(number),
        }
    }

    #[inline(always)]
    fn get(&self, number: usize, at: usize) -> Option<u32> {
        match &self.rows {
            Rows::Packed(rows) => rows.get(number, at),
            Rows::Shared(rows) => rows.get(number, at),
            Rows::Open(rows) => rows.get(number, at),
        }
    }

    #[inline(always)]
    fn append(&mut self, number: usize, item: u32) -> Result<(), Memory> {
        match &mut self.rows {
            Rows::Packed(rows) => rows.append(number, item),
            Rows::Shared(_) => Err(Memory),
            Rows::Open(rows) => rows.append(number, item),
        }
    }

    #[inline(always)]
    fn has_room(&self, number: usize) -> bool {
        match &self.rows {
            Rows::Packed(rows) => rows.has_room(number),
            Rows::Shared(_) => false,
            Rows::Open(rows) => rows.has_room(number),
        }
    }
}
