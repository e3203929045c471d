//! The atoms, and what is drawn for one of them.

ghost use Rattle.std.specs.Prelude.{◌≡◌, ◌+◌, ◌<◌, ◌≤◌, IfOk};
ghost use Rattle.dl_draw.specs.Generator.{block_begin, block_width, literal_at, kind_of, draw_literal, draw_body, draw_rule};
ghost use Rattle.dl_draw.specs.Drawing.{Gives};

use crate::draws::Draws;
use crate::names::atom_name;
use dl_lit::{Literal, Memory, Name};
use dl_theory::{Body, Kind, Rule};
use std::alloc::Global;

/// A block has so many atoms, and the last one maybe fewer.
const BLOCK: u64 = 16;

/// So many atoms, by their numbers.
#[derive(Clone, Copy)]
pub(crate) struct Atoms {
    pub size: u64,
    pub alloc: Global,
}

impl Atoms {
    /// The atom with a number, or its complement.
    pub fn literal(self, number: u64, positive: bool) -> Result<Literal, Memory>
        ensures { IfOk result (λ it. it ≡ literal_at number positive) }
    {
        let atom = atom_name(self.alloc, number)?;
        Ok(Literal {
            mode: None,
            atom,
            positive,
        })
    }

    /// How many atoms the block of an atom has.
    fn block_width(self, atom: u64) -> u64
        requires { atom < self.size }
        ensures value { result ≡ block_width self.size atom }
        ensures some { 0 < result }
        ensures fits { block_begin atom + result ≤ self.size }
    {
        (self.size - block_begin(atom)).min(BLOCK)
    }

    /// Draws a literal of the block of an atom.
    #[tactic(auto, unfolding(crate::specs::Generator::draw_literal))]
    fn draw_literal(self, draws: &mut Draws, atom: u64) -> Result<Literal, Memory>
        requires { atom < self.size }
        ensures { Gives (draw_literal self.size atom draws.old.state) result draws.new.state }
    {
        let number = block_begin(atom) + draws.draw(self.block_width(atom));
        let positive = draws.draw(2) != 0;
        self.literal(number, positive)
    }

    /// Draws up to two of them.
    #[tactic(auto, unfolding(crate::specs::Generator::draw_body))]
    fn draw_body(self, draws: &mut Draws, atom: u64) -> Result<Body, Memory>
        requires { atom < self.size }
        ensures { Gives (draw_body self.size atom draws.old.state) result draws.new.state }
    {
        let mut body = Body::make(self.alloc);
        let count = draws.draw(3);
        for _at in 0..count {
            let literal = self.draw_literal(draws, atom)?;
            body.push(literal)?;
        }
        Ok(body)
    }

    /// Draws a rule for an atom.
    #[tactic(auto, unfolding(crate::specs::Generator::draw_rule))]
    pub fn draw_rule(self, draws: &mut Draws, label: Name, atom: u64) -> Result<Rule, Memory>
        requires { atom < self.size }
        ensures { Gives (draw_rule self.size label atom draws.old.state) result draws.new.state }
    {
        let kind = kind_of(draws.draw(8));
        let positive = draws.draw(2) != 0;
        let body = self.draw_body(draws, atom)?;
        let head = self.literal(atom, positive)?;
        Ok(Rule {
            label,
            kind,
            body,
            head,
        })
    }
}

fn block_begin(atom: u64) -> u64
    ensures { result ≡ block_begin atom }
{
    atom / BLOCK * BLOCK
}

fn kind_of(number: u64) -> Kind
    ensures { result ≡ kind_of number }
{
    match number {
        0 => Kind::Strict,
        1 => Kind::Defeater,
        _ => Kind::Defeasible,
    }
}
