//! Lists of numbers, packed one behind another.

ghost use Rattle.std.specs.Prelude.{◌≡◌, ℕ, ◌+◌, ◌<◌, ◌≤◌, ◌==◌, [], ◌∷◌, ◌++◌, OnOk, OnErr, IfOk, map, length, set, slice_get};
ghost use Rattle.dl_rows.specs.Tables.{list_of};
ghost use Rattle.dl_rows.specs.Packed.{room_end};

use crate::lists::Lists;
use dl_base::Memory;
use std::alloc::Global;
use std::marker::Model;

/// Where a list stands.
#[derive(Clone, Copy)]
struct Span {
    start: u32,
    len: u32,
}

/// Lists of numbers, packed one behind another. A list may have room up to where the next one begins.
#[derive(Drop)]
pub struct PackedRows {
    spans: Vec<Span>,
    items: Vec<u32>,
}

impl Model for PackedRows {
    ghost use Rattle.std.specs.Prelude.{ℕ, List};

    ghost Value = { List (List ℕ) };

    ghost use Rattle.dl_rows.specs.PackedView.{packed_of, IsKeptPacked};

    ghost view = { packed_of };

    ghost invariant = { IsKeptPacked };
}

impl PackedRows {
    /// No lists. Takes no memory.
    pub fn none(alloc: Global) -> PackedRows
        ensures { result ≡ [] }
    {
        PackedRows {
            spans: Vec::new(alloc),
            items: Vec::new(alloc),
        }
    }

    /// Empty lists with room for so many numbers each. `Memory` where there is none for them, or where they have more room together than
    /// numbers of 32 bits tell.
    pub fn with_room(alloc: Global, counts: &[u32]) -> Result<PackedRows, Memory>
        ensures { IfOk result (λ rows. rows ≡ map (λ _. []) counts.now) }
    {
        let mut spans = Vec::with_capacity(alloc, counts.len())?;
        let mut room = 0u32;
        for count in counts {
            spans.push(Span {
                start: room,
                len: 0,
            })?;
            room = match room.checked_add(*count) {
                None => return Err(Memory),
                Some(more) => more,
            };
        }
        let mut items = Vec::with_capacity(alloc, room as usize)?;
        items.resize(room as usize, 0u32)?;
        Ok(PackedRows { spans, items })
    }

    /// The same lists, packed in the same room.
    pub fn copy(&self) -> Result<PackedRows, Memory>
        ensures { IfOk result (λ copy. copy ≡ self.now) }
    {
        let mut spans = Vec::new(self.alloc());
        spans.extend_from_slice(&self.spans)?;
        let mut items = Vec::new(self.alloc());
        items.extend_from_slice(&self.items)?;
        Ok(PackedRows { spans, items })
    }

    /// Where its memory comes from.
    pub fn alloc(&self) -> Global {
        *self.items.allocator()
    }
}

impl Lists for PackedRows {
    ghost lists = { λ t. t };

    #[inline(always)]
    fn len(&self) -> usize {
        self.spans.len()
    }

    #[inline(always)]
    fn row(&self, number: usize) -> &[u32] {
        match self.spans.get(number) {
            None => &[],
            Some(span) => {
                let start = span.start as usize;
                &self.items[start..start + span.len as usize]
            }
        }
    }

    // how long a list is stands in its span, so that nothing is cut out of all numbers to count it
    #[inline(always)]
    fn count(&self, number: usize) -> usize {
        match self.spans.get(number) {
            None => 0,
            Some(span) => span.len as usize,
        }
    }

    #[inline(always)]
    fn get(&self, number: usize, at: usize) -> Option<u32> {
        match self.spans.get(number) {
            Some(span) if at < span.len as usize => Some(self.items[span.start as usize + at]),
            _ => None,
        }
    }

    #[inline(always)]
    fn append(&mut self, number: usize, item: u32) -> Result<(), Memory> {
        let span = self.spans[number];
        let end = span.start as usize + span.len as usize;
        if end >= room_end(self.spans.as_slice(), number, self.items.len()) {
            return Err(Memory);
        }
        self.items[end] = item;
        self.spans[number] = Span {
            start: span.start,
            len: span.len + 1,
        };
        Ok(())
    }

    #[inline(always)]
    fn has_room(&self, number: usize) -> bool {
        match self.spans.get(number) {
            None => false,
            Some(span) => {
                let room = room_end(self.spans.as_slice(), number, self.items.len());
                (span.start as usize + span.len as usize) < room
            }
        }
    }
}

/// Where the room of a list ends: where the next one begins, or at the end of all.
#[inline(always)]
fn room_end(spans: &[Span], number: usize, all: usize) -> usize
    requires { number < length spans.now }
    ensures { result ≡ room_end spans.now number all }
{
    match spans.get(number + 1) {
        None => all,
        Some(next) => next.start as usize,
    }
}
