//! What a fill begins with: a region whose marks may be written, and of which none stands.

ghost use Rattle.std.specs.Prelude.{◌≡◌, ◌+◌, ◌*◌, ◌<◌, ℕ, Bool, All, Contains, IfOk, IsTrue, OnOk, false, length};
ghost use Rattle.dl_lit.specs.declared.literal.Tag.{Tag};
ghost use Rattle.dl_lit.specs.declared.literal.Family.{Family};
ghost use Rattle.dl_marks.specs.Marks.{places, marked, is_owned};
ghost use Rattle.dl_graph.specs.Region.{IsRegion};
ghost use Rattle.dl_fill.specs.Before.{tag_of};
ghost use Rattle.dl_fill.specs.Filled.{IsReady};
ghost use Rattle.dl_update.specs.Whole.{IsWhole};

use dl_base::Memory;
use dl_graph::{Graph, Region};
use dl_lit::{Family, Tag};
use dl_marks::{Marks, Steps};
use std::alloc::Global;
use std::sync::ledger::Ledger;

/// Clears both tags of a family at a number.
fn clear_family<L: Ledger>(marks: &mut Marks, family: Family, number: usize, steps: &mut Steps<L>)
    requires { IsTrue (is_owned marks.old number) }
    ensures cleared { (plus : Bool) → marked marks.new (tag_of plus family) number ≡ false }
    ensures kept { (t : Tag) (n : ℕ) → marked marks.old t n ≡ false → marked marks.new t n ≡ false }
    ensures others { (t : Tag) (n : ℕ) → ¬ (n ≡ number) → marked marks.new t n ≡ marked marks.old t n }
    ensures places { places marks.new ≡ places marks.old }
    ensures owned { (n : ℕ) → is_owned marks.new n ≡ is_owned marks.old n }
    ensures steps { steps.new ≡ steps.old + 2 }
{
    let plus = Tag { plus: true, family };
    let minus = Tag {
        plus: false,
        family,
    };
    marks.clear(plus, number, steps);
    marks.clear(minus, number, steps);
}

/// Clears all tags at a number.
fn clear_number<L: Ledger>(marks: &mut Marks, number: usize, steps: &mut Steps<L>)
    requires { IsTrue (is_owned marks.old number) }
    ensures cleared { (t : Tag) → marked marks.new t number ≡ false }
    ensures others { (t : Tag) (n : ℕ) → ¬ (n ≡ number) → marked marks.new t n ≡ marked marks.old t n }
    ensures places { places marks.new ≡ places marks.old }
    ensures owned { (n : ℕ) → is_owned marks.new n ≡ is_owned marks.old n }
    ensures steps { steps.new ≡ steps.old + 8 }
{
    clear_family(marks, Family::Definite, number, steps);
    clear_family(marks, Family::Blocking, number, steps);
    clear_family(marks, Family::Propagating, number, steps);
    clear_family(marks, Family::Support, number, steps);
}

/// Clears all tags at the members of a region, in eight steps for each.
pub fn clear_members<L: Ledger>(marks: &mut Marks, region: &Region, steps: &mut Steps<L>)
    requires { All (λ n. IsTrue (is_owned marks.old n)) region.now.members }
    ensures cleared { (t : Tag) → All (λ n. marked marks.new t n ≡ false) region.now.members }
    ensures others { (t : Tag) (n : ℕ) → (¬ Contains region.now.members n) → marked marks.new t n ≡ marked marks.old t n }
    ensures places { places marks.new ≡ places marks.old }
    ensures owned { (n : ℕ) → is_owned marks.new n ≡ is_owned marks.old n }
    ensures steps { steps.new ≡ steps.old + 8 * length region.now.members }
{
    for place in 0..region.len() {
        if let Some(number) = region.at(place) {
            clear_number(marks, number, steps);
        }
    }
}

/// From here on the marks of the members of a region may be written. `Memory` leaves the marks as they were.
pub fn own_members(marks: &mut Marks, region: &Region) -> Result<(), Memory>
    requires { All (λ n. n < places marks.old) region.now.members }
    ensures places { places marks.new ≡ places marks.old }
    ensures same { (t : Tag) (n : ℕ) → marked marks.new t n ≡ marked marks.old t n }
    ensures owned { OnOk result (All (λ n. IsTrue (is_owned marks.new n)) region.now.members) }
    ensures region { IsRegion region.now }
{
    for place in 0..region.len() {
        if let Some(number) = region.at(place) {
            marks.own(number)?;
        }
    }
    Ok(())
}

/// A place for each name, at which no tag stands. `Memory` where there is none for them.
pub fn no_marks<L: Ledger>(
    alloc: Global,
    net: &Graph<'_>,
    region: &Region,
    steps: &mut Steps<L>,
) -> Result<Marks, Memory>
    requires { IsWhole net.now region.now }
    ensures { IfOk result (λ marks. IsReady net.now (λ _. Unit {0}) marks region.now) }
{
    // no member is past the names
    let _members = region.len();
    let mut marks = Marks::make(alloc);
    marks.grown(net.names(), steps)?;
    clear_members(&mut marks, region, steps);
    Ok(marks)
}

/// The region of all names. `Memory` where there is none for it.
pub fn everywhere(alloc: Global, names: usize) -> Result<Region, Memory>
    ensures bound { IfOk result (λ region. region.bound ≡ names) }
    ensures all { IfOk result (λ region. (n : ℕ) → n < names → Contains region.members n) }
{
    let mut region = Region::make(alloc, names)?;
    for number in 0..names {
        region.put(number);
    }
    Ok(region)
}
