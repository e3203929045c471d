//! The marks of a part, copied from those of the whole.

ghost use Rattle.std.specs.Prelude.{◌≡◌, ℕ, Bool, ◌<◌, length, All, Contains, IfNone, IfOk, IfSome, OnOk, IsTrue, not};
ghost use Rattle.dl_lit.specs.declared.literal.Tag.{Tag};
ghost use Rattle.dl_theory.specs.Marks.{AreRight};
ghost use Rattle.dl_marks.specs.Marks.{places, marked, is_owned};
ghost use Rattle.dl_graph.specs.Numbers.{literal_at};
ghost use Rattle.dl_fill.specs.Before.{tag_of};
ghost use Rattle.dl_fill.specs.Filled.{stands};
ghost use Rattle.dl_derive.specs.Part.{AreExactAt, Copies, HasAllBehind, IsOf, IsPart};

use crate::found::Found;
use dl_base::Memory;
use dl_graph::Graph;
use dl_lit::{Family, Literal, Tag};
use dl_marks::{Marks, Steps};
use std::alloc::Global;
use std::marker::Brand;
use std::sync::ledger::{Blank, Ledger};

/// Copies one mark.
fn copy_tag<L: Ledger>(
    marks: &Marks,
    from: usize,
    tag: Tag,
    copy: &mut Marks,
    to: usize,
    steps: &mut Steps<L>,
)
    requires from { from < places marks.now }
    requires owned { IsTrue (is_owned copy.old to) }
    ensures here { marked copy.new tag to ≡ marked marks.now tag from }
    ensures copies { Copies marks.now from to copy.old copy.new }
{
    if marks.get(tag, from) {
        copy.set(tag, to, steps);
    } else {
        copy.clear(tag, to, steps);
    }
}

/// Copies both marks of a family.
fn copy_family<L: Ledger>(
    marks: &Marks,
    from: usize,
    family: Family,
    copy: &mut Marks,
    to: usize,
    steps: &mut Steps<L>,
)
    requires from { from < places marks.now }
    requires owned { IsTrue (is_owned copy.old to) }
    ensures here { (plus : Bool) → marked copy.new (tag_of plus family) to ≡ marked marks.now (tag_of plus family) from }
    ensures copies { Copies marks.now from to copy.old copy.new }
{
    let plus = Tag { plus: true, family };
    let minus = Tag {
        plus: false,
        family,
    };
    copy_tag(marks, from, plus, copy, to, steps);
    copy_tag(marks, from, minus, copy, to, steps);
}

/// Copies all marks of a number.
fn copy_row<L: Ledger>(
    marks: &Marks,
    from: usize,
    copy: &mut Marks,
    to: usize,
    steps: &mut Steps<L>,
)
    requires from { from < places marks.now }
    requires owned { IsTrue (is_owned copy.old to) }
    ensures here { (t : Tag) → marked copy.new t to ≡ marked marks.now t from }
    ensures copies { Copies marks.now from to copy.old copy.new }
{
    copy_family(marks, from, Family::Definite, copy, to, steps);
    copy_family(marks, from, Family::Blocking, copy, to, steps);
    copy_family(marks, from, Family::Propagating, copy, to, steps);
    copy_family(marks, from, Family::Support, copy, to, steps);
}

/// The number of a literal, if it is among the numbers.
fn source(net: &Graph<'_>, found: &Found, literal: &Literal) -> Option<usize>
    requires { All (λ n. n < length net.now.names) found.now.members }
    ensures within { IfSome result (λ n. n < length net.now.names) }
    ensures there { IfSome result (λ n. Contains found.now.members n) }
    ensures same { IfSome result (λ n. literal_at net.now n ≡ literal.now) }
    ensures absent { IfNone result (¬ IsOf net.now found.now.members literal.now) }
{
    let _names = net.names();
    match net.find(literal) {
        Some(number) => {
            if found.holds(number) {
                return Some(number);
            }
            None
        }
        None => None,
    }
}

/// Copies the marks of a literal of the part. Where it is none of those that matter, the marks of a new number are right. `Memory` where
/// there is none for the literal that is sought.
fn copy_number<L: Ledger>(
    net: &Graph<'_>,
    marks: &Marks,
    found: &Found,
    small: &Graph<'_>,
    number: usize,
    copy: &mut Marks,
    steps: &mut Steps<L>,
) -> Result<(), Memory>
    requires right { AreRight net.now.theory net.now.names (places marks.now) (stands marks.now) }
    requires found { All (λ n. n < length net.now.names) found.now.members }
    requires closed { HasAllBehind net.now.theory (IsOf net.now found.now.members) }
    requires part { IsPart (IsOf net.now found.now.members) net.now.theory small.now.theory }
    requires number { number < length small.now.names }
    requires owned { IsTrue (is_owned copy.old number) }
    requires fresh { (t : Tag) → marked copy.old t number ≡ not t.plus }
    ensures exact { OnOk result (AreExactAt small.now copy.new number) }
    ensures others { (t : Tag) (n : ℕ) → ¬ (n ≡ number) → marked copy.new t n ≡ marked copy.old t n }
    ensures places { places copy.new ≡ places copy.old }
    ensures owned { (n : ℕ) → is_owned copy.new n ≡ is_owned copy.old n }
{
    let literal = small.literal(number).copy()?;
    match source(net, found, &literal) {
        Some(from) => {
            copy_row(marks, from, copy, number, steps);
            Ok(())
        }
        None => Ok(()),
    }
}

/// The marks of the part, with steps of a blank ledger.
fn copied<L: Ledger>(
    alloc: Global,
    net: &Graph<'_>,
    marks: &Marks,
    found: &Found,
    small: &Graph<'_>,
    blank: Blank,
) -> Result<Marks, Memory>
    requires name { blank.name ≡ L.name }
    requires parts { blank.parts ≡ L.parts }
    requires some { 0 < blank.parts }
    requires right { AreRight net.now.theory net.now.names (places marks.now) (stands marks.now) }
    requires found { All (λ n. n < length net.now.names) found.now.members }
    requires closed { HasAllBehind net.now.theory (IsOf net.now found.now.members) }
    requires part { IsPart (IsOf net.now found.now.members) net.now.theory small.now.theory }
    ensures { IfOk result (λ copy. AreRight small.now.theory small.now.names (places copy) (stands copy)) }
{
    let names = small.names();
    let mut steps = Steps::<L>::make(blank);
    let mut copy = Marks::make(alloc);
    copy.grown(names, &mut steps)?;
    for number in 0..names {
        copy_number(net, marks, found, small, number, &mut copy, &mut steps)?;
    }
    Ok(copy)
}

/// The marks of the part of a net's theory that matters for literals with the numbers. `Memory` where there is none for them.
pub(crate) fn copied_marks(
    alloc: Global,
    net: &Graph<'_>,
    marks: &Marks,
    found: &Found,
    small: &Graph<'_>,
) -> Result<Marks, Memory>
    requires right { AreRight net.now.theory net.now.names (places marks.now) (stands marks.now) }
    requires found { All (λ n. n < length net.now.names) found.now.members }
    requires closed { HasAllBehind net.now.theory (IsOf net.now found.now.members) }
    requires part { IsPart (IsOf net.now found.now.members) net.now.theory small.now.theory }
    ensures { IfOk result (λ copy. AreRight small.now.theory small.now.names (places copy) (stands copy)) }
{
    copied::<Brand>(alloc, net, marks, found, small, Blank::new(1))
}
