//! Lists of numbers by number, each with room of its own.

ghost use Rattle.std.specs.Prelude.{◌≡◌, ℕ, ◌+◌, ◌<◌, ◌≤◌, ◌≢◌, ◌==◌, [], ◌∷◌, ◌++◌, OnOk, OnErr, IfOk, length, slice_get, set, if◌then◌else◌};
ghost use Rattle.dl_rows.specs.Tables.{no_table, list_at, spare_at, drop_item, KeepsLists, IsOpen};

use crate::lists::Lists;
use crate::packed_rows::PackedRows;
use crate::row::Row;
use dl_base::Memory;
use dl_pages::Table;
use std::alloc::Global;
use std::marker::Model;

/// A list of numbers at each number, which grows on its own. A list is written only where it is not shared.
#[derive(Drop)]
pub struct OpenRows {
    rows: Table<Row>,
}

impl Model for OpenRows {
    ghost use Rattle.dl_rows.specs.Tables.{RowLists};

    ghost Value = { RowLists };

    ghost use Rattle.dl_rows.specs.OpenView.{open_of};

    ghost view = { open_of };
}

impl OpenRows {
    pub fn make(alloc: Global) -> OpenRows
        ensures { result ≡ no_table }
    {
        OpenRows {
            rows: Table::make(alloc),
        }
    }

    /// The lists that stood packed.
    pub fn of(packed: &PackedRows) -> Result<OpenRows, Memory>
        ensures { IfOk result (λ rows. rows.lists ≡ packed.now) }
    {
        let alloc = packed.alloc();
        let mut rows = Table::with_room(alloc, packed.len())?;
        for number in 0..packed.len() {
            rows.push(Row::of(alloc, packed.row(number))?);
        }
        Ok(OpenRows { rows })
    }

    /// The same lists. Those that are frozen are shared.
    pub fn copy(&self) -> Result<OpenRows, Memory>
        ensures { IfOk result (λ copy. copy.lists ≡ self.now.lists) }
    {
        let rows = self.rows.copy()?;
        Ok(OpenRows { rows })
    }

    /// All lists can be shared from here on, and none is written before it is reserved again.
    pub fn freeze(&mut self) -> Result<(), Memory>
        ensures { self.new.lists ≡ self.old.lists }
    {
        self.rows.freeze()
    }

    /// One more list, which is empty.
    pub fn grow(&mut self) -> Result<(), Memory>
        ensures kept { KeepsLists self.old self.new }
        ensures grown { OnOk result (length self.new.lists ≡ length self.old.lists + 1) }
        ensures err { OnErr result (self.new ≡ self.old) }
    {
        self.rows.reserve(1)?;
        self.rows.push(Row::make());
        Ok(())
    }

    /// Room for one more number in a list, which is not shared from then on.
    pub fn reserve(&mut self, number: usize) -> Result<(), Memory>
        requires { number < length self.old.lists }
        ensures kept { KeepsLists self.old self.new }
        ensures same { length self.new.lists ≡ length self.old.lists }
        ensures room { OnOk result (0 < spare_at self.new number) }
    {
        let alloc = self.rows.alloc();
        self.rows.own(number)?;
        let mut row = self.rows.put(number, Row::make());
        let reserved = row.reserve(alloc);
        let _none = self.rows.put(number, row);
        reserved
    }

    /// A number at the end of a list, in room that is there.
    pub fn push(&mut self, number: usize, item: u32)
        requires { 0 < spare_at self.old number }
        ensures lists { self.new.lists ≡ set self.old.lists number (list_at self.old number ++ item ∷ []) }
        ensures room { (n : ℕ) → n ≢ number → spare_at self.new n ≡ spare_at self.old n }
    {
        let mut row = self.rows.put(number, Row::make());
        row.push_reserved(item);
        let _none = self.rows.put(number, row);
    }

    /// Takes a number out of a list that has room for one more.
    pub fn remove(&mut self, number: usize, item: u32)
        requires { 0 < spare_at self.old number }
        ensures lists { self.new.lists ≡ set self.old.lists number (drop_item item (list_at self.old number)) }
        ensures room { (n : ℕ) → spare_at self.old n ≤ spare_at self.new n }
    {
        let mut row = self.rows.put(number, Row::make());
        row.remove(item);
        let _none = self.rows.put(number, row);
    }

    /// Empties a list that has room for one more number.
    pub fn clear(&mut self, number: usize)
        requires { 0 < spare_at self.old number }
        ensures lists { self.new.lists ≡ set self.old.lists number [] }
        ensures room { (n : ℕ) → n ≢ number → spare_at self.new n ≡ spare_at self.old n }
    {
        let _gone = self.rows.put(number, Row::make());
    }
}

impl Lists for OpenRows {
    ghost lists = { λ t. t.lists };

    #[inline(always)]
    fn len(&self) -> usize {
        self.rows.len()
    }

    #[inline(always)]
    fn row(&self, number: usize) -> &[u32] {
        if number >= self.rows.len() {
            return &[];
        }
        self.rows.at(number).as_slice()
    }

    #[inline(always)]
    fn append(&mut self, number: usize, item: u32) -> Result<(), Memory> {
        self.reserve(number)?;
        self.push(number, item);
        Ok(())
    }

    fn has_room(&self, _number: usize) -> bool {
        true
    }
}
