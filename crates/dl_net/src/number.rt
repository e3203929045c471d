//! Literals get numbers, each beside its complement.

ghost use Rattle.std.specs.Prelude.{◌≡◌, ◌<◌, ◌≤◌, ◌^◌, ◌∷◌, ◌++◌, [], List, OnOk, IfOk, All, Contains, length, map};
ghost use Rattle.dl_base.specs.Paths.{IsDistinct};
ghost use Rattle.dl_lit.specs.declared.literal.Literal.{Literal};
ghost use Rattle.dl_names.specs.Paired.{IsPaired, IsNear, Grows, number_in};
ghost use Rattle.dl_graph.specs.Named.{HasLiterals, line_in, HasFacts};
ghost use Rattle.dl_rows.specs.Counting.{each_once};
ghost use Rattle.dl_rules.specs.Lines.{once_or};

use dl_base::Memory;
use dl_lit::Literal;
use dl_names::PairedNames;
use dl_pages::Table;
use dl_rows::{Region, Row};
use dl_rules::{BodyNumbers, Entry};
use dl_theory::{Kind, Rule};
use std::alloc::Global;

/// Bodies are shorter, so that what a node of a fill waits for is counted in few bits.
const BODY_LIMIT: usize = 0x400_0000;

/// The number of a literal, which gets one beside its complement if it has none. One that is likely to be new is put in before it is sought.
#[inline(always)]
fn number_literal(
    names: &mut PairedNames,
    literal: &Literal,
    likely_new: bool,
) -> Result<u32, Memory>
    requires { IsPaired names.old.literals }
    ensures paired { IsPaired names.new.literals }
    ensures distinct { IsDistinct names.new.literals }
    ensures grown { Grows (IsNear (literal.now ∷ [])) names.old.literals names.new.literals }
    ensures there { OnOk result (Contains names.new.literals literal.now) }
    ensures number { IfOk result (λ n. n ≡ number_in names.new.literals literal.now) }
    ensures same { Contains names.old.literals literal.now → names.new ≡ names.old }
{
    let number = names.number(literal, likely_new)?;
    Ok(number as u32)
}

/// The numbers of literals, which get some beside their complements where they have none.
#[inline(always)]
fn number_literals(
    alloc: Global,
    names: &mut PairedNames,
    literals: &[Literal],
) -> Result<Row, Memory>
    requires paired { IsPaired names.old.literals }
    requires distinct { IsDistinct names.old.literals }
    ensures paired { IsPaired names.new.literals }
    ensures distinct { IsDistinct names.new.literals }
    ensures grown { Grows (IsNear literals.now) names.old.literals names.new.literals }
    ensures there { OnOk result (All (Contains names.new.literals) literals.now) }
    ensures numbers { IfOk result (λ v. v.items ≡ map (number_in names.new.literals) literals.now) }
    ensures same { All (Contains names.old.literals) literals.now → names.new ≡ names.old }
{
    let mut numbers = Row::make();
    for literal in literals {
        numbers.push(alloc, number_literal(names, literal, false)?)?;
    }
    Ok(numbers)
}

/// A rule by the numbers of its literals, which get some beside their complements where they have none.
// inlined always, with what it calls: the rule's numbers are then made where they are kept
#[inline(always)]
pub(crate) fn number_rule(
    alloc: Global,
    names: &mut PairedNames,
    seen: &mut Region,
    rule: &Rule,
) -> Result<Entry, Memory>
    requires { IsPaired names.old.literals }
    ensures paired { IsPaired names.new.literals }
    ensures distinct { IsDistinct names.new.literals }
    ensures grown { Grows (IsNear (rule.now.head ∷ rule.now.body)) names.old.literals names.new.literals }
    ensures there { OnOk result (HasLiterals names.new.literals rule.now) }
    ensures line { IfOk result (λ e. e ≡ line_in names.new.literals rule.now) }
    ensures same { HasLiterals names.old.literals rule.now → names.new ≡ names.old }
{
    let head = number_literal(names, &rule.head, false)?;
    let body = number_literals(alloc, names, rule.body.as_slice())?;
    entry_of(alloc, names.len(), seen, rule.kind, head, body)
}

/// A rule of these numbers, where there are so many.
#[inline(always)]
fn entry_of(
    alloc: Global,
    names: usize,
    seen: &mut Region,
    kind: Kind,
    head: u32,
    numbers: Row,
) -> Result<Entry, Memory>
    requires { All (λ n. n < names) numbers.items }
    ensures { IfOk result (λ e. e ≡ record { kind = kind; head = head; body = numbers.items }) }
{
    if numbers.len() >= BODY_LIMIT {
        return Err(Memory);
    }
    let once = once_of(alloc, names, seen, numbers.as_slice())?;
    let body = BodyNumbers::make(alloc, numbers, once)?;
    Ok(Entry { kind, head, body })
}

/// The numbers, each where it first stands; `None` where none stands twice. There are so many numbers in all.
#[inline(always)]
fn once_of(
    alloc: Global,
    names: usize,
    seen: &mut Region,
    numbers: &[u32],
) -> Result<Option<Row>, Memory>
    requires { All (λ n. n < names) numbers.now }
    ensures { IfOk result (λ once. once_or once numbers.now ≡ each_once numbers.now) }
{
    // most bodies are short and without repeats, and need no memory
    if numbers.len() <= 8 && once_len(numbers) == numbers.len() {
        return Ok(None);
    }
    once_among(alloc, names, seen, numbers)
}

/// The same for any numbers. What was met stands in a region that one body leaves to the next, so that no body needs a set of its own.
fn once_among(
    alloc: Global,
    names: usize,
    seen: &mut Region,
    numbers: &[u32],
) -> Result<Option<Row>, Memory>
    requires { All (λ n. n < names) numbers.now }
    ensures { IfOk result (λ once. once_or once numbers.now ≡ each_once numbers.now) }
{
    make_room(alloc, names, seen)?;
    gather(seen, numbers);
    if seen.len() == numbers.len() {
        return Ok(None);
    }
    let once = Row::of(alloc, seen.members())?;
    Ok(Some(once))
}

/// Room for so many numbers. Where there is none, it is made for twice as many: names grow from rule to rule.
fn make_room(alloc: Global, names: usize, seen: &mut Region) -> Result<(), Memory>
    ensures { OnOk result (names ≤ seen.new.bound) }
{
    if seen.bound() < names {
        *seen = Region::make(alloc, names.saturating_mul(2))?;
    }
    Ok(())
}

/// The numbers, each where it first stands, as the members of a region.
fn gather(seen: &mut Region, numbers: &[u32])
    requires { All (λ n. n < seen.old.bound) numbers.now }
    ensures { seen.new.members ≡ each_once numbers.now }
{
    seen.clear();
    for number in numbers {
        seen.put(*number as usize);
    }
}

/// How many numbers there are, each counted once. Each is sought among those before it, so the list is to be short.
fn once_len(numbers: &[u32]) -> usize
    ensures { result ≡ length (each_once numbers.now) }
{
    let mut count = 0;
    for at in 0..numbers.len() {
        if !numbers[..at].contains(&numbers[at]) {
            count += 1;
        }
    }
    count
}

/// The number of a fact, which gets one beside its complement if it has none, and a mark that is not set.
pub(crate) fn number_fact(
    names: &mut PairedNames,
    marks: &mut Table<bool>,
    fact: &Literal,
) -> Result<u32, Memory>
    requires { IsPaired names.old.literals }
    ensures paired { IsPaired names.new.literals }
    ensures distinct { IsDistinct names.new.literals }
    ensures grown { Grows (IsNear (fact.now ∷ [])) names.old.literals names.new.literals }
    ensures there { OnOk result (Contains names.new.literals fact.now) }
    ensures number { IfOk result (λ n. n ≡ number_in names.new.literals fact.now) }
    ensures same { OnOk result (Contains names.old.literals fact.now → names.new ≡ names.old) }
    ensures kept { (qs : List Literal) → HasFacts names.new.literals qs marks.old.items → HasFacts names.new.literals qs marks.new.items }
    ensures room { OnOk result (length names.new.literals ≤ length marks.new.items) }
{
    // most facts have no number yet
    let number = number_literal(names, fact, true)?;
    if marks.len() < names.len() {
        marks.widen(names.len(), false)?;
    }
    Ok(number)
}
