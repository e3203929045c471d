//! The nodes of the definite family that the gates of other nodes read.

ghost use Rattle.std.specs.Prelude.{◌≡◌, ℕ, ◌<◌, ◌≤◌, ◌+◌, ◌*◌, ◌/◌, ◌%◌, length, true, IfOk};
ghost use Rattle.dl_marks.specs.Marks.{places, marked};
ghost use Rattle.dl_graph.specs.Counting.{times};
ghost use Rattle.dl_fill.specs.Before as before;
ghost use Rattle.dl_fill.specs.Reads.{basis_at};
ghost use Rattle.dl_derive.specs.Wanted.{IsWanted, IsMore, WithAttackers, WithPrevailing, WithFailing, With};

use crate::steps::is_here;
use dl_base::Memory;
use dl_definite::WIDTH;
use dl_fill::{Basis, attack_holds};
use dl_graph::{Graph, Region};
use dl_lit::{Family, Tag};
use dl_marks::Marks;
use std::alloc::Global;

fn want(wanted: &mut Vec<bool>, node: usize)
    requires { node < length wanted.old.items }
    ensures more { IsMore wanted.old.items wanted.new.items }
    ensures node { IsWanted wanted.new.items node }
{
    wanted[node] = true;
}

/// The nodes of a kind of all that attack a literal.
fn want_attackers(net: &Graph<'_>, number: usize, kind: usize, wanted: &mut Vec<bool>)
    requires number { number < length net.now.names }
    requires kind { kind < 4 }
    requires size { length net.now.names * 4 ≤ length wanted.old.items }
    ensures more { IsMore wanted.old.items wanted.new.items }
    ensures all { WithAttackers net.now (λ t n. true) (IsWanted wanted.new.items) kind number }
{
    let _names = net.names();
    let _size = wanted.len();
    let mut at = 0;
    while let Some(attacker) = net.attacker(number, at) {
        want(wanted, attacker * WIDTH + kind);
        at += 1;
    }
}

/// What the gate of a concluded literal reads: that it is definite, or that no attack on it is.
fn want_plus(net: &Graph<'_>, marks: &Marks, number: usize, wanted: &mut Vec<bool>)
    requires number { number < length net.now.names }
    requires room { length net.now.names ≤ places marks.now }
    requires size { length net.now.names * 4 ≤ length wanted.old.items }
    ensures more { IsMore wanted.old.items wanted.new.items }
    ensures wants { WithPrevailing net.now (marked marks.now) (IsWanted wanted.new.items) number }
{
    let _size = wanted.len();
    let tag = Tag {
        plus: true,
        family: Family::Definite,
    };
    if marks.get(tag, number) {
        want(wanted, number * WIDTH);
        return;
    }
    want_attackers(net, number, 1, wanted);
}

/// What the gate of a refuted literal reads: that it is not definite, and that an attack on it is.
fn want_minus(net: &Graph<'_>, marks: &Marks, number: usize, wanted: &mut Vec<bool>)
    requires number { number < length net.now.names }
    requires room { length net.now.names ≤ places marks.now }
    requires size { length net.now.names * 4 ≤ length wanted.old.items }
    ensures more { IsMore wanted.old.items wanted.new.items }
    ensures wants { WithFailing net.now (marked marks.now) (IsWanted wanted.new.items) number }
{
    let _size = wanted.len();
    want(wanted, number * WIDTH + 1);
    if !attack_holds(net, marks, number) {
        return;
    }
    want_attackers(net, number, 0, wanted);
}

/// What a gate reads at a literal.
fn want_basis(net: &Graph<'_>, marks: &Marks, basis: Basis, number: usize, wanted: &mut Vec<bool>)
    requires number { number < length net.now.names }
    requires room { length net.now.names ≤ places marks.now }
    requires size { length net.now.names * 4 ≤ length wanted.old.items }
    ensures more { IsMore wanted.old.items wanted.new.items }
    ensures wants { With net.now (marked marks.now) (IsWanted wanted.new.items) basis number }
{
    let _size = wanted.len();
    match basis {
        Basis::Prevailing => want_plus(net, marks, number, wanted),
        Basis::Failing => want_minus(net, marks, number, wanted),
        Basis::Sure => want(wanted, number * WIDTH),
        Basis::Unsure => want(wanted, number * WIDTH + 1),
        Basis::Nothing => {}
    }
}

/// What the gates of a kind read.
fn basis_of_kind(bases: &[Basis], kind: usize) -> Basis
    ensures { result ≡ basis_at bases.now kind }
{
    match bases.get(kind) {
        Some(basis) => *basis,
        None => Basis::Nothing,
    }
}

/// What the gate of a node reads.
fn want_read(
    net: &Graph<'_>,
    marks: &Marks,
    region: &Region,
    width: usize,
    bases: &[Basis],
    node: usize,
    wanted: &mut Vec<bool>,
)
    requires width { 0 < width }
    requires bound { region.now.bound ≡ length net.now.names }
    requires room { length net.now.names ≤ places marks.now }
    requires size { length net.now.names * 4 ≤ length wanted.old.items }
    ensures more { IsMore wanted.old.items wanted.new.items }
    ensures wants { before.is_inside region.now.members (node / width) ≡ true → With net.now (marked marks.now) (IsWanted wanted.new.items) (basis_at bases.now (node % width)) (node / width) }
{
    let place = node / width;
    if is_here(net, region, place) {
        let basis = basis_of_kind(bases, node % width);
        want_basis(net, marks, basis, place, wanted);
    }
}

/// What the gates of nodes read.
pub(crate) fn read_by(
    alloc: Global,
    net: &Graph<'_>,
    marks: &Marks,
    region: &Region,
    width: usize,
    bases: &[Basis],
    nodes: &[usize],
    size: usize,
) -> Result<Vec<bool>, Memory>
    requires width { 0 < width }
    requires bound { region.now.bound ≡ length net.now.names }
    requires room { length net.now.names ≤ places marks.now }
    requires size { length net.now.names * 4 ≤ size }
    ensures len { IfOk result (λ wanted. length wanted.items ≡ size) }
    ensures wants { IfOk result (λ wanted. (y : ℕ) → 0 < times y nodes.now → before.is_inside region.now.members (y / width) ≡ true → With net.now (marked marks.now) (IsWanted wanted.items) (basis_at bases.now (y % width)) (y / width)) }
{
    let mut wanted = vec![in alloc; false; size]?;
    for node in nodes {
        want_read(net, marks, region, width, bases, *node, &mut wanted);
    }
    Ok(wanted)
}
