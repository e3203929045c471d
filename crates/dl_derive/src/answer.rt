//! The answer on a literal, at the cost of what matters for it.

ghost use Rattle.std.specs.Prelude.{◌≡◌, ◌<◌, length, All, IfOk};
ghost use Rattle.dl_theory.specs.Verdicts.{Fits};
ghost use Rattle.dl_theory.specs.Marks.{AreRight};
ghost use Rattle.dl_marks.specs.Marks.{places};
ghost use Rattle.dl_graph.specs.Numbers.{literal_at};
ghost use Rattle.dl_fill.specs.Filled.{stands};
ghost use Rattle.dl_derive.specs.Part.{HasAllBehind, IsOf, IsPart};

use crate::back::back;
use crate::copied::copied_marks;
use crate::found::Found;
use crate::part::part;
use crate::unnumbered::unnumbered_answer;
use crate::whole::certify_whole;
use dl_base::Memory;
use dl_graph::Graph;
use dl_lit::{Family, Literal};
use dl_marks::Marks;
use dl_net::Net;
use dl_theory::Answer;
use std::alloc::Global;

/// A literal that is copied with its rules costs about as much as so many that are counted in place.
const DEARER: usize = 4;

/// The answer on a literal of the part that matters for some numbers, from a graph of that part.
fn certify_part(
    alloc: Global,
    net: &Graph<'_>,
    marks: &Marks,
    found: &Found,
    small: &Graph<'_>,
    family: Family,
    literal: &Literal,
) -> Result<Answer, Memory>
    requires right { AreRight net.now.theory net.now.names (places marks.now) (stands marks.now) }
    requires found { All (λ n. n < length net.now.names) found.now.members }
    requires closed { HasAllBehind net.now.theory (IsOf net.now found.now.members) }
    requires part { IsPart (IsOf net.now found.now.members) net.now.theory small.now.theory }
    requires literal { IsOf net.now found.now.members literal.now }
    ensures { IfOk result (Fits net.now.theory family literal.now) }
{
    let copy = copied_marks(alloc, net, marks, found, small)?;
    let answer = certify_whole(alloc, small, &copy, family, literal)?;
    Ok(answer)
}

/// A net of the part of the theory that matters for the numbers. `Memory` where there is none for it.
fn part_net(alloc: Global, net: &Graph<'_>, found: &Found) -> Result<Net, Memory>
    requires found { All (λ n. n < length net.now.names) found.now.members }
    requires closed { HasAllBehind net.now.theory (IsOf net.now found.now.members) }
    ensures { IfOk result (λ small. IsPart (IsOf net.now found.now.members) net.now.theory small.theory) }
{
    let theory = part(alloc, net, found)?;
    let small = Net::of(alloc, &theory);
    drop(theory);
    small
}

/// The answer on a literal with one of the numbers, which have all that lies behind them.
fn certify_found(
    alloc: Global,
    net: &Graph<'_>,
    marks: &Marks,
    found: &Found,
    family: Family,
    literal: &Literal,
) -> Result<Answer, Memory>
    requires right { AreRight net.now.theory net.now.names (places marks.now) (stands marks.now) }
    requires found { All (λ n. n < length net.now.names) found.now.members }
    requires closed { HasAllBehind net.now.theory (IsOf net.now found.now.members) }
    requires literal { IsOf net.now found.now.members literal.now }
    ensures { IfOk result (Fits net.now.theory family literal.now) }
{
    let small = part_net(alloc, net, found)?;
    let answer = certify_part(alloc, net, marks, found, &small.graph(), family, literal);
    drop(small);
    answer
}

/// The answer on a literal that has a number. Where a good part of the net matters for it, the net itself serves.
fn certify_number(
    alloc: Global,
    net: &Graph<'_>,
    marks: &Marks,
    family: Family,
    number: usize,
    literal: &Literal,
) -> Result<Answer, Memory>
    requires right { AreRight net.now.theory net.now.names (places marks.now) (stands marks.now) }
    requires number { number < length net.now.names }
    requires literal { literal_at net.now number ≡ literal.now }
    ensures { IfOk result (Fits net.now.theory family literal.now) }
{
    let found = back(alloc, net, number)?;
    let answer = if found.len() < net.names() / DEARER {
        certify_found(alloc, net, marks, &found, family, literal)
    } else {
        certify_whole(alloc, net, marks, family, literal)
    };
    drop(found);
    answer
}

/// The answer on a literal in a family, with its certificate, where marks are right. `Memory` where there is none for it.
pub fn certify(
    alloc: Global,
    net: &Graph<'_>,
    marks: &Marks,
    family: Family,
    literal: &Literal,
) -> Result<Answer, Memory>
    requires { AreRight net.now.theory net.now.names (places marks.now) (stands marks.now) }
    ensures { IfOk result (Fits net.now.theory family literal.now) }
{
    let _names = net.names();
    match net.find(literal) {
        Some(number) => {
            let answer = certify_number(alloc, net, marks, family, number, literal)?;
            Ok(answer)
        }
        None => unnumbered_answer(alloc, net, family, literal),
    }
}
