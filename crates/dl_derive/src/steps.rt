//! Nodes read as tagged literals.

ghost use Rattle.std.specs.Prelude.{◌≡◌, ◌<◌, ◌++◌, ◌/◌, length, IfOk, OnOk, IsTrue};
ghost use Rattle.dl_fill.specs.Before as before;
ghost use Rattle.dl_fill.specs.Steps.{tag_at, with_tag, step_of, steps_of};
ghost use Rattle.dl_graph.specs.Numbers.{literal_at};
ghost use Rattle.dl_definite.specs.Definite.{definite_tags};

use dl_base::Memory;
use dl_definite::{DefiniteGates, WIDTH};
use dl_fill::{FamilyGates, is_inside};
use dl_graph::{Graph, Region};
use dl_lit::{Tag, Tagged};
use dl_theory::TaggedList;
use std::alloc::Global;

/// The tag that nodes of a kind stand for.
fn tag_of_kind(tags: &[Option<Tag>], kind: usize) -> Option<Tag>
    ensures { result ≡ tag_at tags.now kind }
{
    match tags.get(kind) {
        Some(tag) => *tag,
        None => None,
    }
}

/// Whether the place is that of a literal in the region.
pub(crate) fn is_here(net: &Graph<'_>, region: &Region, place: usize) -> bool
    requires { region.now.bound ≡ length net.now.names }
    ensures here { result ≡ before.is_inside region.now.members place }
    ensures named { IsTrue result → place < length net.now.names }
{
    let _len = region.len();
    if place < net.names() {
        is_inside(region, place)
    } else {
        false
    }
}

/// Adds a literal with a tag.
fn push_tag(
    list: &mut TaggedList,
    net: &Graph<'_>,
    tag: Option<Tag>,
    number: usize,
) -> Result<(), Memory>
    requires { number < length net.now.names }
    ensures { OnOk result (list.new ≡ list.old ++ with_tag tag (literal_at net.now number)) }
{
    if let Some(tag) = tag {
        let literal = net.literal(number).copy()?;
        list.push(Tagged {
            plus: tag.plus,
            family: tag.family,
            literal,
        })?;
    }
    Ok(())
}

/// Adds what a node is read as.
fn push_step(
    list: &mut TaggedList,
    net: &Graph<'_>,
    region: &Region,
    width: usize,
    tags: &[Option<Tag>],
    node: usize,
) -> Result<(), Memory>
    requires width { 0 < width }
    requires bound { region.now.bound ≡ length net.now.names }
    ensures { OnOk result (list.new ≡ list.old ++ step_of net.now width tags.now (before.is_inside region.now.members) node) }
{
    let place = node / width;
    if is_here(net, region, place) {
        let tag = tag_of_kind(tags, node % width);
        push_tag(list, net, tag, place)?;
    }
    Ok(())
}

/// Adds what nodes are read as.
fn push_steps(
    list: &mut TaggedList,
    net: &Graph<'_>,
    region: &Region,
    width: usize,
    tags: &[Option<Tag>],
    nodes: &[usize],
) -> Result<(), Memory>
    requires width { 0 < width }
    requires bound { region.now.bound ≡ length net.now.names }
    ensures { OnOk result (list.new ≡ list.old ++ steps_of net.now width tags.now (before.is_inside region.now.members) nodes.now) }
{
    for node in nodes {
        push_step(list, net, region, width, tags, *node)?;
    }
    Ok(())
}

/// What nodes of the definite family are read as, and behind it what those of a family are read as. `Memory` where there is none for the
/// list.
pub(crate) fn behind_sure(
    alloc: Global,
    net: &Graph<'_>,
    region: &Region,
    sure: &[usize],
    width: usize,
    tags: &[Option<Tag>],
    nodes: &[usize],
) -> Result<TaggedList, Memory>
    requires width { 0 < width }
    requires bound { region.now.bound ≡ length net.now.names }
    ensures { IfOk result (λ list. list ≡ steps_of net.now 4 definite_tags (before.is_inside region.now.members) sure.now ++ steps_of net.now width tags.now (before.is_inside region.now.members) nodes.now) }
{
    let mut list = TaggedList::make(alloc);
    let definite = DefiniteGates.tags();
    push_steps(&mut list, net, region, WIDTH, definite, sure)?;
    push_steps(&mut list, net, region, width, tags, nodes)?;
    Ok(list)
}
