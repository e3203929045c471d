//! A list of numbers. Most lists are short: up to three numbers stand in the list itself.

ghost use Rattle.std.specs.Prelude.{◌≡◌, ◌≤◌, ◌<◌, ◌+◌, [], ◌∷◌, ◌++◌, IfOk, OnOk, length, get_or};
ghost use Rattle.std.specs.Vec.{vec_len, vec_capacity};
ghost use Rattle.dl_rows.specs.Tables.{drop_item};
ghost use Rattle.dl_rows.specs.Row.{no_row};
ghost use Rattle.dl_rows.specs.KeptRow.{row_of, IsKeptRow};

use dl_base::Memory;
use std::alloc::{AllocError, Global};
use std::marker::Model;

/// As many numbers as stand in the list itself.
const SHORT: usize = 3;

/// Room for the first numbers that stand elsewhere.
const LONGER: usize = 8;

/// A list of numbers in sixteen bytes, with what it has elsewhere.
pub struct Row {
    numbers: Numbers,
}

impl Drop for Row {
    fn drop(self) {
        let Row { numbers: _ } = self;
    }
}

/// A few numbers in place, or a list elsewhere.
#[derive(Drop)]
enum Numbers {
    Few(u8, [u32; SHORT]),
    Many(Box<Vec<u32>>),
}

impl Model for Row {
    ghost use Rattle.std.specs.Prelude.{ℕ};
    ghost use Rattle.dl_rows.specs.Listed.{Listed};
    ghost use Rattle.dl_rows.specs.KeptRow.{row_of, IsKeptRow};

    ghost Value = { Listed ℕ };

    ghost view = { λ r. row_of r.numbers };

    ghost invariant = { λ r. IsKeptRow r.numbers };
}

impl Row {
    /// No numbers.
    pub fn make() -> Row
        ensures { result ≡ no_row }
    {
        Row {
            numbers: Numbers::Few(0, [0; SHORT]),
        }
    }

    /// A list of these numbers. `Memory` where there is none for it.
    pub fn of(alloc: Global, numbers: &[u32]) -> Result<Row, Memory>
        ensures { IfOk result (λ row. row.items ≡ numbers.now) }
    {
        let numbers = if numbers.len() <= SHORT {
            few(numbers)
        } else {
            let list = Vec::from_slice(alloc, numbers)?;
            Numbers::Many(Box::new(alloc, list)?)
        };
        Ok(Row { numbers })
    }

    /// Room for one more number. `Memory` leaves the list as it was.
    #[inline(always)]
    pub fn reserve(&mut self, alloc: Global) -> Result<(), Memory>
        ensures items { self.new.items ≡ self.old.items }
        ensures more { self.old.spare ≤ self.new.spare }
        ensures room { OnOk result (0 < self.new.spare) }
    {
        if let Numbers::Few(len, numbers) = &self.numbers {
            if (*len as usize) < SHORT {
                return Ok(());
            }
            let list = moved(alloc, numbers)?;
            self.numbers = Numbers::Many(list);
        }
        match &mut self.numbers {
            Numbers::Few(_, _) => Ok(()),
            Numbers::Many(list) => {
                list.reserve(1)?;
                Ok(())
            }
        }
    }

    /// A number at the end, in room that is there.
    #[inline(always)]
    pub fn push_reserved(&mut self, item: u32)
        requires { 0 < self.old.spare }
        ensures items { self.new.items ≡ self.old.items ++ item ∷ [] }
        ensures spare { self.new.spare + 1 ≡ self.old.spare }
    {
        // in place: what is moved out and back is waited for
        let at = match &mut self.numbers {
            Numbers::Few(len, _) => {
                let at = *len as usize;
                *len += 1;
                at
            }
            Numbers::Many(list) => {
                list.push_reserved(item);
                return;
            }
        };
        match &mut self.numbers {
            Numbers::Few(_, numbers) => numbers[at] = item,
            Numbers::Many(_) => unreachable!(),
        }
    }

    /// A number at the end. `Memory` where there is none for it.
    #[inline(always)]
    pub fn push(&mut self, alloc: Global, item: u32) -> Result<(), Memory>
        ensures { OnOk result (self.new.items ≡ self.old.items ++ item ∷ []) }
    {
        self.reserve(alloc)?;
        self.push_reserved(item);
        Ok(())
    }

    /// Takes a number out, wherever it stands.
    pub fn remove(&mut self, item: u32)
        ensures items { self.new.items ≡ drop_item item self.old.items }
        ensures spare { self.old.spare ≤ self.new.spare }
    {
        match &mut self.numbers {
            Numbers::Few(_, _) => {}
            Numbers::Many(list) => {
                list.retain(|x| *x != item);
                return;
            }
        }
        *self = without(self.as_slice(), item);
    }

    /// Takes all numbers out.
    pub fn clear(&mut self)
        ensures { self.new.items ≡ [] }
    {
        *self = Row::make();
    }

    /// How many numbers there are.
    pub fn len(&self) -> usize
        ensures { result ≡ length self.now.items }
    {
        self.as_slice().len()
    }

    /// The numbers, in order.
    pub fn as_slice(&self) -> &[u32]
        ensures { result.now ≡ self.now.items }
    {
        match &self.numbers {
            Numbers::Few(len, numbers) => &numbers[..*len as usize],
            Numbers::Many(list) => list.as_slice(),
        }
    }
}

/// An equal list, with as much room.
impl Clone for Row {
    ghost is_clone = { λ row copy. copy ≡ row };

    fn clone(&self) -> Result<Row, AllocError> {
        let numbers = match &self.numbers {
            Numbers::Few(len, numbers) => Numbers::Few(*len, *numbers),
            Numbers::Many(list) => Numbers::Many(as_roomy(list)?),
        };
        Ok(Row { numbers })
    }
}

/// The same numbers, with as much room.
fn as_roomy(list: &Vec<u32>) -> Result<Box<Vec<u32>>, AllocError>
    ensures items { IfOk result (λ copy. copy.value.items ≡ list.now.items) }
    ensures len { IfOk result (λ copy. vec_len copy.value ≡ vec_len list.now) }
    ensures room { IfOk result (λ copy. vec_capacity copy.value ≡ vec_capacity list.now) }
{
    let alloc = *list.allocator();
    let mut copy = Vec::with_capacity(alloc, list.capacity())?;
    for number in list {
        copy.push_reserved(*number);
    }
    let copy = Box::new(alloc, copy)?;
    Ok(copy)
}

/// A few numbers in place.
fn few(numbers: &[u32]) -> Numbers
    requires { length numbers.now ≤ 3 }
    ensures items { (row_of result).items ≡ numbers.now }
    ensures kept { IsKeptRow result }
{
    let len = numbers.len() as u8;
    Numbers::Few(
        len,
        [place(numbers, 0), place(numbers, 1), place(numbers, 2)],
    )
}

/// The number at a place, or 0.
#[inline(always)]
fn place(numbers: &[u32], at: usize) -> u32
    ensures { result ≡ get_or numbers.now at 0 }
{
    match numbers.get(at) {
        None => 0,
        Some(number) => *number,
    }
}

/// The numbers in a list elsewhere, with room for more.
fn moved(alloc: Global, numbers: &[u32]) -> Result<Box<Vec<u32>>, Memory>
    requires { length numbers.now ≤ 3 }
    ensures items { IfOk result (λ list. list.value.items ≡ numbers.now) }
    ensures room { IfOk result (λ list. vec_len list.value < vec_capacity list.value) }
{
    let mut list = Vec::with_capacity(alloc, LONGER)?;
    list.extend_from_slice(numbers)?;
    let list = Box::new(alloc, list)?;
    Ok(list)
}

/// A few numbers without one of them.
fn without(numbers: &[u32], item: u32) -> Row
    requires { length numbers.now ≤ 3 }
    ensures items { result.items ≡ drop_item item numbers.now }
    ensures spare { 3 ≤ result.spare + length numbers.now }
{
    let mut left = Row::make();
    for number in numbers {
        if *number != item {
            left.push_reserved(*number);
        }
    }
    left
}
