//! The theory of a number.

ghost use Rattle.std.specs.Prelude.{◌≡◌, ◌≤◌, IfOk};
ghost use Rattle.dl_theory.specs.Lists.{IsWellFormed};
ghost use Rattle.dl_draw.specs.Generator.{generated_theory};

use crate::atoms::Atoms;
use crate::draws::Draws;
use crate::lists::Lists;
use dl_lit::Memory;
use dl_theory::Theory;
use std::alloc::Global;

/// The theory that is generated from a number, with so many atoms. It is well formed, so no edit of it is refused.
pub fn make_theory(alloc: Global, seed: u64, size: u64) -> Result<Theory, Memory>
    requires { size ≤ 4096 }
    ensures theory { IfOk result (λ theory. theory ≡ generated_theory seed size) }
    ensures well_formed { IsWellFormed (generated_theory seed size) }
{
    let mut draws = Draws::make(seed);
    let lists = Lists::draw(Atoms { size, alloc }, &mut draws)?;
    lists.load(alloc)
}
