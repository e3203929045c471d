//! The gap of a literal.

ghost use Rattle.std.specs.Prelude.{◌≡◌, ◌<◌, ◌≤◌, ◌++◌, length, IfOk, OnOk, Contains};
ghost use Rattle.dl_lit.specs.Order.{tagged_cmp};
ghost use Rattle.dl_theory.specs.Listings.{IsListOf};
ghost use Rattle.dl_marks.specs.Marks.{places, marked};
ghost use Rattle.dl_derive.specs.Gap.{open_tag, open_family, open_number, open_members};

use dl_base::Memory;
use dl_graph::{Graph, Region};
use dl_lit::{Family, Tag, Tagged};
use dl_marks::Marks;
use dl_theory::TaggedList;
use std::alloc::Global;

/// Adds the tagged literal, if its mark does not stand.
fn push_open(
    net: &Graph<'_>,
    marks: &Marks,
    family: Family,
    plus: bool,
    number: usize,
    list: &mut Vec<Tagged>,
) -> Result<(), Memory>
    requires number { number < length net.now.names }
    requires room { length net.now.names ≤ places marks.now }
    ensures { OnOk result (list.new.items ≡ list.old.items ++ open_tag net.now (marked marks.now) family plus number) }
{
    if marks.get(Tag { plus, family }, number) {
        return Ok(());
    }
    let literal = net.literal(number).copy()?;
    list.push(Tagged {
        plus,
        family,
        literal,
    })?;
    Ok(())
}

/// Adds what does not follow of one literal and family, plus before minus.
fn push_family(
    net: &Graph<'_>,
    marks: &Marks,
    family: Family,
    number: usize,
    list: &mut Vec<Tagged>,
) -> Result<(), Memory>
    requires number { number < length net.now.names }
    requires room { length net.now.names ≤ places marks.now }
    ensures { OnOk result (list.new.items ≡ list.old.items ++ open_family net.now (marked marks.now) number family) }
{
    push_open(net, marks, family, true, number, list)?;
    push_open(net, marks, family, false, number, list)?;
    Ok(())
}

/// Adds what does not follow of one literal, in the families that matter for one.
fn push_number(
    net: &Graph<'_>,
    marks: &Marks,
    family: Family,
    number: usize,
    list: &mut Vec<Tagged>,
) -> Result<(), Memory>
    requires number { number < length net.now.names }
    requires room { length net.now.names ≤ places marks.now }
    ensures { OnOk result (list.new.items ≡ list.old.items ++ open_number net.now (marked marks.now) family number) }
{
    push_family(net, marks, Family::Definite, number, list)?;
    match family {
        Family::Definite => {}
        Family::Blocking => push_family(net, marks, Family::Blocking, number, list)?,
        Family::Propagating => {
            push_family(net, marks, Family::Propagating, number, list)?;
            push_family(net, marks, Family::Support, number, list)?;
        }
        Family::Support => {
            push_family(net, marks, Family::Propagating, number, list)?;
            push_family(net, marks, Family::Support, number, list)?;
        }
    }
    Ok(())
}

/// What does not follow, of what matters, in the order of the members.
fn open_list(
    alloc: Global,
    net: &Graph<'_>,
    marks: &Marks,
    family: Family,
    region: &Region,
) -> Result<Vec<Tagged>, Memory>
    requires bound { region.now.bound ≡ length net.now.names }
    requires room { length net.now.names ≤ places marks.now }
    ensures { IfOk result (λ list. list.items ≡ open_members net.now (marked marks.now) family region.now.members) }
{
    let mut list = Vec::new(alloc);
    for place in 0..region.len() {
        if let Some(number) = region.at(place) {
            push_number(net, marks, family, number, &mut list)?;
        }
    }
    Ok(list)
}

/// What does not follow, of what matters, by literal, family and sign. `Memory` where there is none for the list.
pub(crate) fn gap(
    alloc: Global,
    net: &Graph<'_>,
    marks: &Marks,
    family: Family,
    region: &Region,
) -> Result<TaggedList, Memory>
    requires bound { region.now.bound ≡ length net.now.names }
    requires room { length net.now.names ≤ places marks.now }
    ensures { IfOk result (IsListOf tagged_cmp (Contains (open_members net.now (marked marks.now) family region.now.members))) }
{
    let mut list = open_list(alloc, net, marks, family, region)?;
    list.sort()?;
    list.dedup();
    Ok(TaggedList::from_items(list))
}
