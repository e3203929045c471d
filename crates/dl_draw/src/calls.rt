//! The calls of a number.

ghost use Rattle.std.specs.Prelude.{◌≡◌, ◌*◌, ◌<◌, ◌≤◌, ◌++◌, true, IfOk, OnOk, All};
ghost use Rattle.dl_draw.specs.Generator.{draw_dropped_rule, draw_added_rule, literal_at, draw, draw_edit, draw_calls, generated_calls, AddsNoPair};
ghost use Rattle.dl_draw.specs.Drawing.{Gives};

use crate::atoms::Atoms;
use crate::draws::Draws;
use crate::lists::Lists;
use crate::names::{added_label, rule_label};
use dl_calls::Call;
use dl_lit::{Literal, Memory};
use dl_theory::Edit;
use std::alloc::Global;

/// Behind so many edits there is a publication.
const BETWEEN: u64 = 64;

/// The calls that are generated from a number, with so many atoms: one seat makes them from the theory of the same number on. None of
/// them adds a pair.
pub fn make_calls(alloc: Global, seed: u64, size: u64) -> Result<Vec<Call>, Memory>
    requires { size ≤ 4096 }
    ensures calls { IfOk result (λ calls. calls.items ≡ generated_calls seed size) }
    ensures no_pairs { All AddsNoPair (generated_calls seed size) }
{
    let atoms = Atoms { size, alloc };
    let mut draws = Draws::make(seed);
    // what is drawn for the theory moves the state on
    let lists = Lists::draw(atoms, &mut draws)?;
    drop(lists);
    let mut calls = Vec::new(alloc);
    calls.push(Call::Enrol)?;
    for number in 0..size {
        push_calls(&mut calls, atoms, &mut draws, number)?;
    }
    calls.push(Call::Publish)?;
    Ok(calls)
}

/// Draws the edit with a number. Where it ends 64 edits, a publication stands behind it.
#[tactic(auto, unfolding(crate::specs::Generator::draw_calls))]
fn push_calls(
    list: &mut Vec<Call>,
    atoms: Atoms,
    draws: &mut Draws,
    number: u64,
) -> Result<(), Memory>
    requires within { number < atoms.size }
    requires few { atoms.size ≤ 4096 }
    ensures calls { OnOk result (list.new.items ≡ list.old.items ++ (draw_calls atoms.size number draws.old.state).value) }
    ensures state { OnOk result (draws.new.state ≡ (draw_calls atoms.size number draws.old.state).state) }
{
    let edit = draw_edit(atoms, draws, number)?;
    list.push(Call::Edit(edit))?;
    if (number + 1) % BETWEEN == 0 {
        list.push(Call::Publish)?;
    }
    Ok(())
}

/// Draws the edit with a number.
#[tactic(auto, unfolding(crate::specs::Generator::draw_edit))]
fn draw_edit(atoms: Atoms, draws: &mut Draws, number: u64) -> Result<Edit, Memory>
    requires within { number < atoms.size }
    requires few { atoms.size ≤ 4096 }
    ensures { Gives (draw_edit atoms.size number draws.old.state) result draws.new.state }
{
    match draws.draw(4) {
        0 => draw_dropped_rule(atoms, draws),
        1 => draw_added_rule(atoms, draws, number),
        2 => Ok(Edit::AddFact(draw_fact(atoms, draws)?)),
        _ => Ok(Edit::DropFact(draw_fact(atoms, draws)?)),
    }
}

fn draw_dropped_rule(atoms: Atoms, draws: &mut Draws) -> Result<Edit, Memory>
    requires some { 0 < atoms.size }
    requires few { atoms.size ≤ 4096 }
    ensures { Gives (draw_dropped_rule atoms.size draws.old.state) result draws.new.state }
{
    let number = draws.draw(3 * atoms.size);
    Ok(Edit::DropRule(rule_label(atoms.alloc, number)?))
}

fn draw_added_rule(atoms: Atoms, draws: &mut Draws, number: u64) -> Result<Edit, Memory>
    requires { 0 < atoms.size }
    ensures { Gives (draw_added_rule atoms.size number draws.old.state) result draws.new.state }
{
    let label = added_label(atoms.alloc, number)?;
    let atom = draws.draw(atoms.size);
    Ok(Edit::AddRule(atoms.draw_rule(draws, label, atom)?))
}

/// Draws an atom.
fn draw_fact(atoms: Atoms, draws: &mut Draws) -> Result<Literal, Memory>
    requires { 0 < atoms.size }
    ensures fact { IfOk result (λ it. it ≡ literal_at (draw atoms.size draws.old.state).value true) }
    ensures state { draws.new.state ≡ (draw atoms.size draws.old.state).state }
{
    let number = draws.draw(atoms.size);
    atoms.literal(number, true)
}
