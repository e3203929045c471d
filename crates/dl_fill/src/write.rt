//! Marks of nodes that have fired.

ghost use Rattle.std.specs.Prelude.{◌≡◌, ◌⊎◌, ℕ, ◌<◌, ◌≤◌, ◌+◌, ◌*◌, true, false, Bool, IsTrue, All, length};
ghost use Rattle.dl_lit.specs.declared.literal.Tag.{Tag};
ghost use Rattle.dl_lit.specs.declared.literal.Family.{Family};
ghost use Rattle.dl_graph.specs.Counting.{times};
ghost use Rattle.dl_marks.specs.Marks.{places, marked, is_owned};
ghost use Rattle.dl_fill.specs.Before.{tag_of};
ghost use Rattle.dl_fill.specs.Families.{IsFilledBy, family_steps, most_steps};
ghost use Rattle.dl_fill.specs.Filled.{IsWritten, IsFamilyWritten, AreWritten, HasFired};

use crate::counters::Counters;
use crate::family::FamilyGates;
use dl_graph::Region;
use dl_lit::{Family, Tag};
use dl_marks::{Marks, Steps};
use std::sync::ledger::Ledger;

/// Sets the mark if the node has fired.
fn write_one<L: Ledger>(
    counters: &Counters,
    node: usize,
    tag: Tag,
    marks: &mut Marks,
    number: usize,
    steps: &mut Steps<L>,
)
    requires node { node < length counters.now.need }
    requires owned { IsTrue (is_owned marks.old number) }
    ensures set { 0 < times node counters.now.queue → marked marks.new tag number ≡ true }
    ensures kept { (t : Tag) (n : ℕ) → (marked marks.new t n ≡ marked marks.old t n) ⊎ ((t ≡ tag) × (n ≡ number) × (0 < times node counters.now.queue) × (marked marks.new t n ≡ true)) }
    ensures places { places marks.new ≡ places marks.old }
    ensures owned { (n : ℕ) → is_owned marks.new n ≡ is_owned marks.old n }
    ensures steps { steps.new ≤ steps.old + 1 }
{
    if counters.has(node) {
        marks.set(tag, number, steps);
    }
}

/// Sets the marks of a tag in the region whose nodes have fired.
fn write<L: Ledger>(
    counters: &Counters,
    width: usize,
    kind: usize,
    tag: Tag,
    marks: &mut Marks,
    region: &Region,
    steps: &mut Steps<L>,
)
    requires nodes { All (λ q. q * width + kind < length counters.now.need) region.now.members }
    requires owned { All (λ q. IsTrue (is_owned marks.old q)) region.now.members }
    ensures written { IsWritten width kind counters.now tag region.now.members marks.old marks.new }
    ensures steps { steps.new ≤ steps.old + length region.now.members }
{
    let _size = counters.size();
    for place in 0..region.len() {
        if let Some(q) = region.at(place) {
            write_one(counters, q * width + kind, tag, marks, q, steps);
        }
    }
}

/// Sets the marks of a family in the region whose nodes have fired.
fn write_family<G: FamilyGates, L: Ledger>(
    gates: &G,
    counters: &Counters,
    family: Family,
    marks: &mut Marks,
    region: &Region,
    steps: &mut Steps<L>,
)
    requires nodes { (plus : Bool) → All (λ q. q * G.table.width + G.table.kind family plus < length counters.now.need) region.now.members }
    requires owned { All (λ q. IsTrue (is_owned marks.old q)) region.now.members }
    requires absent { (plus : Bool) → All (λ q. marked marks.old (tag_of plus family) q ≡ false) region.now.members }
    ensures written { IsFamilyWritten (HasFired G.table.width (G.table.kind family) counters.now) family region.now.members marks.old marks.new }
    ensures steps { steps.new ≤ steps.old + 2 * length region.now.members }
{
    let plus = Tag { plus: true, family };
    let for_plus = gates.node_kind(family, true);
    write(
        counters,
        gates.width(),
        for_plus,
        plus,
        marks,
        region,
        steps,
    );
    let minus = Tag {
        plus: false,
        family,
    };
    let for_minus = gates.node_kind(family, false);
    write(
        counters,
        gates.width(),
        for_minus,
        minus,
        marks,
        region,
        steps,
    );
}

/// Sets the marks of a family in the region whose nodes have fired, where it is one that is filled.
// Inlined always, as the tests of families: so nothing is left where the family is not filled.
#[inline(always)]
fn write_filled<G: FamilyGates, L: Ledger>(
    gates: &G,
    counters: &Counters,
    family: Family,
    marks: &mut Marks,
    region: &Region,
    steps: &mut Steps<L>,
)
    requires nodes { IsFilledBy G.table family → (plus : Bool) → All (λ q. q * G.table.width + G.table.kind family plus < length counters.now.need) region.now.members }
    requires owned { All (λ q. IsTrue (is_owned marks.old q)) region.now.members }
    requires absent { IsFilledBy G.table family → (plus : Bool) → All (λ q. marked marks.old (tag_of plus family) q ≡ false) region.now.members }
    ensures written { IsFilledBy G.table family → IsFamilyWritten (HasFired G.table.width (G.table.kind family) counters.now) family region.now.members marks.old marks.new }
    ensures kept { G.table.fills family ≡ false → marks.new ≡ marks.old }
    ensures steps { steps.new ≤ steps.old + family_steps G.table.fills (length region.now.members) family }
{
    if gates.fills(family) {
        write_family(gates, counters, family, marks, region, steps);
    }
}

/// Sets the marks in the region whose nodes have fired, of each family that is filled.
pub(crate) fn write_families<G: FamilyGates, L: Ledger>(
    gates: &G,
    counters: &Counters,
    marks: &mut Marks,
    region: &Region,
    steps: &mut Steps<L>,
)
    requires nodes { (f : Family) → IsFilledBy G.table f → (plus : Bool) → All (λ q. q * G.table.width + G.table.kind f plus < length counters.now.need) region.now.members }
    requires owned { All (λ q. IsTrue (is_owned marks.old q)) region.now.members }
    requires absent { (f : Family) → IsFilledBy G.table f → (plus : Bool) → All (λ q. marked marks.old (tag_of plus f) q ≡ false) region.now.members }
    ensures written { AreWritten (λ f. HasFired G.table.width (G.table.kind f) counters.now) (IsFilledBy G.table) region.now.members marks.old marks.new }
    ensures steps { steps.new ≤ steps.old + most_steps G.table.fills (length region.now.members) }
{
    write_filled(gates, counters, Family::Definite, marks, region, steps);
    write_filled(gates, counters, Family::Blocking, marks, region, steps);
    write_filled(gates, counters, Family::Propagating, marks, region, steps);
    write_filled(gates, counters, Family::Support, marks, region, steps);
}
