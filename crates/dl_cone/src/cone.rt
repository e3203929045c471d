//! The walk of a cone.

ghost use Rattle.std.specs.Prelude.{◌≡◌, ◌<◌, [], length};
ghost use Rattle.dl_theory.specs.Cones.{IsSeed, RaisesTo};
ghost use Rattle.dl_theory.specs.Edits.{IsAccepted};
ghost use Rattle.dl_theory.specs.Lists.{IsWellFormed};
ghost use Rattle.dl_graph.specs.Numbers.{IsNumbered, literal_at};
ghost use Rattle.dl_derive.specs.Back.{Gains};
ghost use Rattle.dl_cone.specs.Walked.{IsConeOf, IsNumberOf};

use crate::seeds::{put_head, put_labelled, put_literal, put_pair};
use dl_graph::{Graph, Link, Region};
use dl_theory::Edit;

/// Puts the heads of the rules that use a literal, and what attacks these heads.
fn put_raised(net: &Graph<'_>, number: usize, region: &mut Region)
    requires numbered { IsNumbered net.now }
    requires number { number < length net.now.names }
    requires bound { region.old.bound ≡ length net.now.names }
    ensures { Gains (IsNumberOf net.now (RaisesTo net.now.theory (literal_at net.now number))) region.old region.new }
{
    for at in 0..net.next_len(Link::Uses, number) {
        let rule = net.next(Link::Uses, number, at);
        put_head(net, rule, region);
    }
}

/// Puts the literals where an edit begins to change what follows. The body of a rule that is added needs no step: its head is one of them.
fn put_seeds(net: &Graph<'_>, edit: &Edit, region: &mut Region)
    requires formed { IsWellFormed net.now.theory }
    requires numbered { IsNumbered net.now }
    requires bound { region.old.bound ≡ length net.now.names }
    requires accepted { IsAccepted net.now.theory edit.now }
    ensures { Gains (IsNumberOf net.now (IsSeed net.now.theory edit.now)) region.old region.new }
{
    match edit {
        Edit::AddRule(rule) => put_literal(net, &rule.head, region),
        Edit::DropRule(label) => put_labelled(net, label, region),
        Edit::AddFact(fact) => put_literal(net, fact, region),
        Edit::DropFact(fact) => put_literal(net, fact, region),
        Edit::AddPair(pair) => put_pair(net, pair, region),
        Edit::DropPair(pair) => put_pair(net, pair, region),
    }
}

/// Puts the cone of an edit into a region, over the net before the edit. Takes no memory, and a step for each use of a literal of the cone.
pub fn walk(net: &Graph<'_>, edit: &Edit, region: &mut Region)
    requires empty { region.old.members ≡ [] }
    requires bound { region.old.bound ≡ length net.now.names }
    requires accepted { IsAccepted net.now.theory edit.now }
    ensures { IsConeOf net.now edit.now region.new }
{
    let names = net.names();
    put_seeds(net, edit, region);
    // the members that are put come behind those that are there: the region is its own list of what is left to follow
    for at in 0..names {
        match region.at(at) {
            Some(number) => put_raised(net, number, region),
            None => return,
        }
    }
    // there are no more members than names
    let _len = region.len();
}
