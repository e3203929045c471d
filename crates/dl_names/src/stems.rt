//! Atoms that end in a number, by that number.
//!
//! In large theories most atoms do, as `p17` or `case_2506`. Such an atom is found here in a list of numbers, without the waits for a group
//! and an entry of a table. Only a cache: what is not known here stands in the table, and where there is no memory nothing is noted. So the
//! clauses say that what is known is right, and not that anything is known.

ghost use Rattle.std.specs.Prelude.{◌≡◌, ℕ, suc, ◌+◌, ◌-◌, ◌^◌, ◌<◌, ◌≤◌, ◌⊎◌, IsTrue, IfSome, List, [], Some, drop, length, slice_get, take};
ghost use Rattle.dl_names.specs.Stems.{AreDigits, decimal, IsNoted, Knows};

use std::alloc::Global;

/// So many stems are kept at most.
const STEMS: usize = 64;

/// So many digits at the end of a name are a number at most.
const MOST_DIGITS: usize = 7;

/// A stem's list has at most so many places for each name that has come with the stem, beside a few. So sparse numbers take little room.
const SPARSE: usize = 8;

/// Where a name's number begins, and the number.
#[derive(Clone, Copy)]
struct Split {
    prefix: usize,
    digits: usize,
    value: usize,
}

/// Names that are alike but for the number at their end, which has the same count of digits in all: `p1` and `p01` are two names.
#[derive(Drop)]
struct Stem {
    prefix: Vec<u8>,
    /// 0 where no name has come.
    digits: usize,
    /// How many names have come.
    count: usize,
    /// By the number at the end of a name, what it stands for, and one more; 0 where nothing is known.
    numbers: Vec<u32>,
}

/// What some names stand for, where they end in a number.
#[derive(Drop)]
pub(crate) struct Stems {
    stems: Vec<Stem>,
}

/// Cuts a name before its last digits. The first byte of a name is none.
#[inline(always)]
fn cut(name: &[u8]) -> Split
    ensures whole { result.prefix + result.digits ≡ length name.now }
    ensures few { result.digits ≤ 7 }
    ensures digits { AreDigits (drop result.prefix name.now) }
    ensures value { result.value ≡ decimal (drop result.prefix name.now) }
{
    let mut prefix = name.len();
    let mut digits = 0;
    let mut value = 0;
    let mut power = 1;
    while prefix > 1 && digits < MOST_DIGITS {
        let digit = name[prefix - 1].wrapping_sub(b'0');
        if digit > 9 {
            break;
        }
        value += digit as usize * power;
        power *= 10;
        prefix -= 1;
        digits += 1;
    }
    Split {
        prefix,
        digits,
        value,
    }
}

/// Where the stem of a name is kept.
#[inline(always)]
fn stem_at(name: &[u8], digits: usize) -> usize
    requires some { 0 < length name.now }
    requires few { digits ≤ 7 }
{
    (name[0] as usize * 8 + digits) % STEMS
}

impl Stem {
    fn make(alloc: Global) -> Stem
        ensures { result.numbers.items ≡ [] }
    {
        Stem {
            prefix: Vec::new(alloc),
            digits: 0,
            count: 0,
            numbers: Vec::new(alloc),
        }
    }

    /// Whether names that are split so are of this stem.
    #[inline(always)]
    fn is_of(&self, name: &[u8], split: Split) -> bool
        requires { split.prefix ≤ length name.now }
        ensures digits { IsTrue result → self.now.digits ≡ split.digits }
        ensures prefix { IsTrue result → self.now.prefix.items ≡ take split.prefix name.now }
    {
        self.digits == split.digits && self.prefix.as_slice() == &name[..split.prefix]
    }

    /// What a number stands for.
    #[inline(always)]
    fn get(&self, value: usize) -> Option<u32>
        ensures { IfSome result (λ n. slice_get self.now.numbers.items value ≡ Some (suc n)) }
    {
        match self.numbers.get(value) {
            None => None,
            Some(number) => {
                if *number == 0 {
                    None
                } else {
                    Some(*number - 1)
                }
            }
        }
    }

    /// Notes what a name stands for, which is split so, where it is of this stem or the first that comes.
    #[inline(always)]
    fn note(&mut self, name: &[u8], split: Split, number: u32)
        requires whole { split.prefix + split.digits ≡ length name.now }
        requires digits { AreDigits (drop split.prefix name.now) }
        requires value { split.value ≡ decimal (drop split.prefix name.now) }
        requires low { number < 2 ^ 32 - 1 }
        ensures { (a : List ℕ) (n : ℕ) → IsNoted self.new a n → ((a ≡ name.now) × (n ≡ number)) ⊎ IsNoted self.old a n }
    {
        if self.digits == 0 {
            self.begin(&name[..split.prefix], split.digits);
        }
        if self.is_of(name, split) {
            self.put(split.value, number);
        }
    }

    /// Names with these bytes before so many digits are of this stem from here on, where there is memory for the bytes.
    #[inline(never)]
    fn begin(&mut self, prefix: &[u8], digits: usize)
        ensures { self.new.numbers.items ≡ [] }
    {
        self.numbers.clear();
        if self.prefix.extend_from_slice(prefix).is_ok() {
            self.digits = digits;
        }
    }

    /// What a number stands for from here on, where there is room or memory for it.
    #[inline(always)]
    fn put(&mut self, value: usize, number: u32)
        requires { number < 2 ^ 32 - 1 }
        ensures prefix { self.new.prefix.items ≡ self.old.prefix.items }
        ensures digits { self.new.digits ≡ self.old.digits }
        ensures numbers { (v n : ℕ) → slice_get self.new.numbers.items v ≡ Some (suc n) → ((v ≡ value) × (n ≡ number)) ⊎ (slice_get self.old.numbers.items v ≡ Some (suc n)) }
    {
        self.count = self.count.wrapping_add(1);
        if value >= self.numbers.len() {
            widen(&mut self.numbers, value, self.count);
        }
        if value < self.numbers.len() {
            self.numbers[value] = number + 1;
        }
    }
}

/// Room for a number, unless few names have come.
#[inline(never)]
fn widen(numbers: &mut Vec<u32>, value: usize, count: usize)
    ensures { (v n : ℕ) → slice_get numbers.new.items v ≡ Some (suc n) → slice_get numbers.old.items v ≡ Some (suc n) }
{
    let most = count.saturating_add(256).saturating_mul(SPARSE);
    if value < most {
        let len = usize::min(most, usize::max(value + 1, numbers.len() * 2));
        let _ = numbers.resize(len, 0);
    }
}

impl Stems {
    /// Stems that know nothing.
    pub fn make(alloc: Global) -> Stems
        ensures { (a : List ℕ) (n : ℕ) → ¬ Knows result a n }
    {
        Stems {
            stems: Vec::new(alloc),
        }
    }

    /// What a name stands for, where that is known.
    #[inline(always)]
    pub fn get(&self, name: &[u8]) -> Option<u32>
        ensures { IfSome result (λ n. Knows self.now name.now n) }
    {
        let split = cut(name);
        if split.digits == 0 {
            return None;
        }
        match self.stems.get(stem_at(name, split.digits)) {
            None => None,
            Some(stem) => {
                if stem.is_of(name, split) {
                    stem.get(split.value)
                } else {
                    None
                }
            }
        }
    }

    /// What a name stands for from here on, where it ends in a number and there is room.
    #[inline(always)]
    pub fn put(&mut self, alloc: Global, name: &[u8], number: u32)
        requires { number < 2 ^ 32 - 1 }
        ensures { (a : List ℕ) (n : ℕ) → Knows self.new a n → ((a ≡ name.now) × (n ≡ number)) ⊎ Knows self.old a n }
    {
        let split = cut(name);
        if split.digits == 0 {
            return;
        }
        if self.stems.is_empty() {
            self.open(alloc);
        }
        let at = stem_at(name, split.digits);
        if at < self.stems.len() {
            self.stems[at].note(name, split, number);
        }
    }

    /// Stems without names, where there is memory for them.
    #[inline(never)]
    fn open(&mut self, alloc: Global)
        ensures { (a : List ℕ) (n : ℕ) → Knows self.new a n → Knows self.old a n }
    {
        while self.stems.len() < STEMS {
            match self.stems.push(Stem::make(alloc)) {
                Ok(()) => (),
                Err(_) => return,
            }
        }
    }
}
