//! The answer on a literal, at the cost of the whole net.

ghost use Rattle.std.specs.Prelude.{◌≡◌, ◌≤◌, ◌<◌, length, IfOk, Contains};
ghost use Rattle.dl_lit.specs.declared.literal.Family.{Family};
ghost use Rattle.dl_lit.specs.Literal.{tagged};
ghost use Rattle.dl_theory.specs.Derivations.{Follows};
ghost use Rattle.dl_theory.specs.Verdicts.{needs, DerivesAt, Fits};
ghost use Rattle.dl_marks.specs.Marks.{places};
ghost use Rattle.dl_graph.specs.Numbers.{literal_at};
ghost use Rattle.dl_theory.specs.Marks.{AreRight};
ghost use Rattle.dl_fill.specs.Filled.{IsRight, stands};
ghost use Rattle.dl_derive.specs.Asked.{IsAsked};

use crate::back::region_behind;
use crate::gap::gap;
use crate::leading::led;
use crate::unnumbered::unnumbered_answer;
use dl_base::Memory;
use dl_block::BlockGates;
use dl_definite::DefiniteGates;
use dl_graph::{Graph, Region};
use dl_lit::{Family, Literal, Tag};
use dl_marks::Marks;
use dl_prop::PropGates;
use dl_theory::{Answer, Certificate, TaggedList, Verdict};
use std::alloc::Global;

/// A derivation that ends with the literal, the family and the sign, of what matters.
fn steps_to(
    alloc: Global,
    net: &Graph<'_>,
    marks: &Marks,
    region: &Region,
    plus: bool,
    family: Family,
    number: usize,
) -> Result<TaggedList, Memory>
    requires asked { IsAsked net.now marks.now region.now family number }
    requires follows { Follows net.now.theory (tagged plus family (literal_at net.now number)) }
    ensures { IfOk result (DerivesAt net.now.theory family (literal_at net.now number) (tagged plus family (literal_at net.now number))) }
{
    match family {
        Family::Definite => led(
            alloc,
            &DefiniteGates,
            net,
            marks,
            region,
            plus,
            family,
            number,
        ),
        Family::Blocking => led(alloc, &BlockGates, net, marks, region, plus, family, number),
        Family::Propagating => led(alloc, &PropGates, net, marks, region, plus, family, number),
        Family::Support => led(alloc, &PropGates, net, marks, region, plus, family, number),
    }
}

/// The answer on a literal that has a number.
fn answer_at(
    alloc: Global,
    net: &Graph<'_>,
    marks: &Marks,
    family: Family,
    number: usize,
) -> Result<Answer, Memory>
    requires number { number < length net.now.names }
    requires room { length net.now.names ≤ places marks.now }
    requires right { (f : Family) → Contains (needs family) f → IsRight net.now marks.now f }
    ensures { IfOk result (Fits net.now.theory family (literal_at net.now number)) }
{
    let _names = net.names();
    let region = region_behind(alloc, net, number)?;
    let plus = Tag { plus: true, family };
    if marks.get(plus, number) {
        let steps = steps_to(alloc, net, marks, &region, true, family, number)?;
        return Ok(Answer {
            verdict: Verdict::Proved,
            certificate: Certificate::Derivation(steps),
        });
    }
    let minus = Tag {
        plus: false,
        family,
    };
    if marks.get(minus, number) {
        let steps = steps_to(alloc, net, marks, &region, false, family, number)?;
        return Ok(Answer {
            verdict: Verdict::Refuted,
            certificate: Certificate::Derivation(steps),
        });
    }
    let members = gap(alloc, net, marks, family, &region)?;
    Ok(Answer {
        verdict: Verdict::Neither,
        certificate: Certificate::Gap(members),
    })
}

/// The answer on a literal in a family, with its certificate, where marks are right: by counters for the whole net. `Memory`
/// where there is none for it.
pub(crate) fn certify_whole(
    alloc: Global,
    net: &Graph<'_>,
    marks: &Marks,
    family: Family,
    literal: &Literal,
) -> Result<Answer, Memory>
    requires { AreRight net.now.theory net.now.names (places marks.now) (stands marks.now) }
    ensures { IfOk result (Fits net.now.theory family literal.now) }
{
    let _names = net.names();
    match net.find(literal) {
        Some(number) => {
            let answer = answer_at(alloc, net, marks, family, number)?;
            Ok(answer)
        }
        None => unnumbered_answer(alloc, net, family, literal),
    }
}
