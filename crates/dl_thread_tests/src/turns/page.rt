//! A small board: a page with notes, each of the seat that wrote it.
ghost use Rattle.std.specs.Prelude.{◌≡◌, ◌+◌, ◌<◌, [], ◌∷◌, ◌++◌, All, MatchResult};

use dl_turn::{Chronicle, Memory, Numbered};
use std::alloc::Global;

#[derive(Clone, Copy)]
pub struct Note {
    pub seat: u64,
    pub value: u64,
}

impl Numbered for Note {
    type Start = u64;

    ghost number = { λ note. note.seat };

    ghost no_start = { 0 };
}

#[derive(Drop)]
pub struct Page {
    pub title: u64,
    pub notes: Vec<Note>,
    pub count: u64,
    ghost below: { All (λ note. note.seat < count) notes.items },
}

impl Chronicle for Page {
    type Line = Note;

    ghost start = { λ page. page.title };

    ghost history = { λ page. page.notes.items };

    ghost enrolled = { λ page. page.count };

    fn enrolled(&self) -> u64 {
        self.count
    }
}

impl Page {
    pub fn new(alloc: Global, title: u64) -> Page
        ensures { (result.title ≡ title) × (result.notes.items ≡ []) × (result.count ≡ 0) }
    {
        Page {
            title,
            notes: Vec::new(alloc),
            count: 0,
        }
    }

    // Writes the first note of the next number.
    pub fn write_first(&mut self, value: u64) -> Result<(), Memory>
        ensures title { self.new.title ≡ self.old.title }
        ensures wrote { MatchResult result (λ _. (self.new.count ≡ self.old.count + 1) × (self.new.notes.items ≡ self.old.notes.items ++ record { seat = self.old.count; value = value } ∷ []))
            (λ _. (self.new.count ≡ self.old.count) × (self.new.notes.items ≡ self.old.notes.items)) }
    {
        let Some(count) = self.count.checked_add(1) else {
            return Err(Memory);
        };
        self.notes.reserve(1)?;
        let seat = self.count;
        self.count = count;
        self.notes.push_reserved(Note { seat, value });
        Ok(())
    }

    // Writes a note of a number that is given out.
    pub fn write(&mut self, seat: u64, value: u64) -> Result<(), Memory>
        requires { seat < self.old.count }
        ensures stays { (self.new.title ≡ self.old.title) × (self.new.count ≡ self.old.count) }
        ensures wrote { MatchResult result (λ _. self.new.notes.items ≡ self.old.notes.items ++ record { seat = seat; value = value } ∷ [])
            (λ _. self.new.notes.items ≡ self.old.notes.items) }
    {
        self.notes.reserve(1)?;
        self.notes.push_reserved(Note { seat, value });
        Ok(())
    }

    // How many notes of the seat stand here, if their values are 0, 1, 2 and so on, in this order.
    pub fn in_order(&self, seat: u64) -> Option<u64> {
        let mut next = 0u64;
        for note in &self.notes {
            if note.seat == seat {
                if note.value != next {
                    return None;
                }
                next = next.wrapping_add(1);
            }
        }
        Some(next)
    }
}
