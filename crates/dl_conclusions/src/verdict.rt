//! Verdicts by right marks.

ghost use Rattle.std.specs.Prelude.{◌≡◌, ◌<◌, ◌≤◌, length};
ghost use Rattle.dl_marks.specs.Marks.{places};
ghost use Rattle.dl_fill.specs.Filled.{IsRight};
ghost use Rattle.dl_theory.specs.Verdicts.{IsVerdict};
ghost use Rattle.dl_conclusions.specs.Conclusions.{verdict_at};

use dl_graph::Graph;
use dl_lit::{Family, Literal, Tag};
use dl_marks::Marks;
use dl_theory::Verdict;

/// What marks say of the literal with a number.
pub(crate) fn marked_verdict(marks: &Marks, family: Family, number: usize) -> Verdict
    requires { number < places marks.now }
    ensures { result ≡ verdict_at marks.now family number }
{
    let proved = Tag { plus: true, family };
    let refuted = Tag {
        plus: false,
        family,
    };
    if marks.get(proved, number) {
        Verdict::Proved
    } else if marks.get(refuted, number) {
        Verdict::Refuted
    } else {
        Verdict::Neither
    }
}

/// What right marks say of a literal. One without a number is not mentioned, and so refuted.
pub fn verdict_of(net: &Graph<'_>, marks: &Marks, family: Family, literal: &Literal) -> Verdict
    requires room { length net.now.names ≤ places marks.now }
    requires right { IsRight net.now marks.now family }
    ensures { IsVerdict net.now.theory family literal.now result }
{
    match net.find(literal) {
        Some(number) => marked_verdict(marks, family, number),
        None => {
            let _count = net.names();
            Verdict::Refuted
        }
    }
}
