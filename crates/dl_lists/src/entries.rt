//! Which of some labels each number has.

ghost use Rattle.std.specs.Prelude.{◌≡◌, ℕ, ◌+◌, ◌<◌, ◌≤◌, [], ◌∷◌, ◌++◌, true, OnOk, IfOk, IfSome, IfNone, length, get_or};
ghost use Rattle.std.specs.List.{range_with_len};
ghost use Rattle.dl_lists.specs.Last.{IsLast};
ghost use Rattle.dl_lists.specs.Entries.{no_entries, CanRepeat};

use crate::slots::EMPTY;
use dl_base::Memory;
use dl_pages::Table;
use std::alloc::Global;
use std::marker::Model;

/// The entry of each number, and the last number with each entry. As long as no entry came twice each number is its own entry, and
/// nothing is kept but how many there are.
#[derive(Drop)]
pub(crate) struct Entries {
    form: Form,
}

#[derive(Drop)]
enum Form {
    /// Each number is its own entry, and there are so many.
    Same(usize),
    /// Some entries came twice, or room was taken for one to do so.
    Apart(Columns),
}

/// By entry its last number, and by number its entry.
#[derive(Drop)]
struct Columns {
    lasts: Table<u32>,
    entries: Table<u32>,
}

impl Model for Entries {
    ghost use Rattle.dl_lists.specs.Entries.{EntryLists};
    ghost use Rattle.dl_lists.specs.KeptEntries.{entries_of, IsKeptEntries};

    ghost Value = { EntryLists };

    ghost view = { λ e. entries_of e.form };

    ghost invariant = { λ e. IsKeptEntries e.form };
}

impl Entries {
    /// No numbers. Takes no memory.
    pub fn make() -> Entries
        ensures { result ≡ no_entries }
    {
        Entries {
            form: Form::Same(0),
        }
    }

    /// So many numbers, each its own entry. Takes no memory.
    pub fn of(len: usize) -> Entries
        requires { len ≤ 4294967295 }
        ensures entries { result.entries ≡ range_with_len 0 len }
        ensures count { result.count ≡ len }
    {
        Entries {
            form: Form::Same(len),
        }
    }

    /// Room for one more number, whose entry is new or, where entries can come twice, any.
    pub fn reserve(&mut self) -> Result<(), Memory>
        ensures entries { self.new.entries ≡ self.old.entries }
        ensures count { self.new.count ≡ self.old.count }
        ensures apart { self.new.apart ≡ self.old.apart }
        ensures again { (e : ℕ) → CanRepeat self.old e → CanRepeat self.new e }
        ensures room { OnOk result (0 < self.new.spare) }
    {
        if self.len() >= EMPTY {
            return Err(Memory);
        }
        match &mut self.form {
            Form::Same(_) => {}
            Form::Apart(columns) => {
                columns.lasts.reserve(1)?;
                columns.entries.reserve(1)?;
            }
        }
        Ok(())
    }

    /// From here on entries can come twice. Takes memory by how many numbers there are, once.
    pub fn part(&mut self, alloc: Global) -> Result<(), Memory>
        ensures entries { self.new.entries ≡ self.old.entries }
        ensures count { self.new.count ≡ self.old.count }
        ensures apart { OnOk result (self.new.apart ≡ true) }
    {
        if let Form::Same(len) = self.form {
            let lasts = each_itself(alloc, len)?;
            let entries = each_itself(alloc, len)?;
            self.form = Form::Apart(Columns { lasts, entries });
        }
        Ok(())
    }

    /// Takes the memory for an entry to come once more. Entries can come twice.
    pub fn prepare_again(&mut self, entry: usize) -> Result<(), Memory>
        requires apart { self.old.apart ≡ true }
        requires entry { entry < self.old.count }
        ensures entries { self.new.entries ≡ self.old.entries }
        ensures count { self.new.count ≡ self.old.count }
        ensures apart { self.new.apart ≡ true }
        ensures again { OnOk result (CanRepeat self.new entry) }
    {
        match &mut self.form {
            Form::Same(_) => unreachable!(),
            Form::Apart(columns) => columns.lasts.own(entry),
        }
    }

    /// One more number, with one more entry.
    #[inline(always)]
    pub fn push_new(&mut self)
        requires { 0 < self.old.spare }
        ensures entries { self.new.entries ≡ self.old.entries ++ self.old.count ∷ [] }
        ensures count { self.new.count ≡ self.old.count + 1 }
    {
        match &mut self.form {
            Form::Same(len) => *len += 1,
            Form::Apart(columns) => {
                let entry = columns.lasts.len();
                columns.lasts.push(columns.entries.len() as u32);
                columns.entries.push(entry as u32);
            }
        }
    }

    /// One more number, with an entry that is there, and for which there is memory to come once more.
    pub fn push_again(&mut self, entry: usize)
        requires room { 0 < self.old.spare }
        requires entry { entry < self.old.count }
        requires again { CanRepeat self.old entry }
        ensures entries { self.new.entries ≡ self.old.entries ++ entry ∷ [] }
        ensures count { self.new.count ≡ self.old.count }
    {
        match &mut self.form {
            Form::Same(_) => unreachable!(),
            Form::Apart(columns) => {
                columns.lasts.put(entry, columns.entries.len() as u32);
                columns.entries.push(entry as u32);
            }
        }
    }

    /// How many numbers there are.
    pub fn len(&self) -> usize
        ensures { result ≡ length self.now.entries }
    {
        match &self.form {
            Form::Same(len) => *len,
            Form::Apart(columns) => columns.entries.len(),
        }
    }

    /// How many entries there are.
    pub fn count(&self) -> usize
        ensures { result ≡ self.now.count }
    {
        match &self.form {
            Form::Same(len) => *len,
            Form::Apart(columns) => columns.lasts.len(),
        }
    }

    /// The entry of a number.
    pub fn entry(&self, number: usize) -> usize
        requires { number < length self.now.entries }
        ensures { result ≡ get_or self.now.entries number 0 }
    {
        match &self.form {
            Form::Same(_) => number,
            Form::Apart(columns) => *columns.entries.at(number) as usize,
        }
    }

    /// The last number with an entry; `None` exactly past the last entry.
    #[inline(always)]
    pub fn last(&self, entry: usize) -> Option<usize>
        ensures there { IfSome result (IsLast self.now.entries entry) }
        ensures absent { IfNone result (self.now.count ≤ entry) }
    {
        if entry >= self.count() {
            return None;
        }
        match &self.form {
            Form::Same(_) => Some(entry),
            Form::Apart(columns) => Some(*columns.lasts.at(entry) as usize),
        }
    }

    /// From here on a copy shares what is kept of these numbers, but for what is written later. Where there is no memory, it shares less.
    pub fn freeze(&mut self)
        ensures entries { self.new.entries ≡ self.old.entries }
        ensures count { self.new.count ≡ self.old.count }
    {
        match &mut self.form {
            Form::Same(_) => {}
            Form::Apart(columns) => {
                let _ = columns.lasts.freeze();
                let _ = columns.entries.freeze();
            }
        }
    }

    /// The same entries. What is frozen is shared.
    pub fn copy(&self) -> Result<Entries, Memory>
        ensures entries { IfOk result (λ copy. copy.entries ≡ self.now.entries) }
        ensures count { IfOk result (λ copy. copy.count ≡ self.now.count) }
    {
        let form = match &self.form {
            Form::Same(len) => Form::Same(*len),
            Form::Apart(columns) => Form::Apart(Columns {
                lasts: columns.lasts.copy()?,
                entries: columns.entries.copy()?,
            }),
        };
        Ok(Entries { form })
    }
}

/// The numbers below a bound, each at its own place.
fn each_itself(alloc: Global, len: usize) -> Result<Table<u32>, Memory>
    requires { len ≤ 4294967295 }
    ensures { IfOk result (λ table. table.items ≡ range_with_len 0 len) }
{
    let mut table = Table::with_room(alloc, len)?;
    for number in 0..len {
        table.push(number as u32);
    }
    Ok(table)
}
