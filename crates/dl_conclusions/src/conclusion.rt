//! The conclusions of a theory.

ghost use Rattle.std.specs.Prelude.{◌≡◌, ◌<◌, ◌≤◌, All, IfOk, length, map, slice_get};
ghost use Rattle.std.specs.Option.{option_copied};
ghost use Rattle.dl_marks.specs.Marks.{places};
ghost use Rattle.dl_fill.specs.Filled.{IsRight};
ghost use Rattle.dl_conclusions.specs.Conclusions.{AreConclusions, conclusion_at};
ghost use Rattle.dl_conclusions.specs.Orders.{IsOrder};

use crate::verdict::marked_verdict;
use dl_base::Memory;
use dl_graph::Graph;
use dl_lit::{Family, Literal};
use dl_marks::Marks;
use dl_theory::Verdict;
use std::alloc::Global;
use std::marker::Model;

/// A literal and what the theory says of it.
#[derive(Drop)]
pub struct Conclusion {
    pub literal: Literal,
    pub verdict: Verdict,
}

/// Conclusions in order.
pub struct Conclusions {
    items: Vec<Conclusion>,
}

impl Drop for Conclusions {
    fn drop(self) {
        let Conclusions { items: _ } = self;
    }
}

impl Model for Conclusions {
    ghost use Rattle.std.specs.Prelude.{List};
    ghost use Rattle.dl_conclusions.specs.declared.conclusion.Conclusion.{Conclusion};

    ghost Value = { List Conclusion };

    ghost view = { λ l. l.items.items };
}

impl Conclusions {
    pub fn len(&self) -> usize
        ensures { result ≡ length self.now }
    {
        self.items.len()
    }

    /// The conclusion at a place; `None` exactly past the end.
    pub fn get(&self, at: usize) -> Option<&Conclusion>
        ensures { option_copied result ≡ slice_get self.now at }
    {
        self.items.get(at)
    }

    pub fn as_slice(&self) -> &[Conclusion]
        ensures { result.now ≡ self.now }
    {
        self.items.as_slice()
    }
}

/// The literals with these numbers, each with what marks say of it.
fn with_verdicts(
    alloc: Global,
    net: &Graph<'_>,
    marks: &Marks,
    family: Family,
    numbers: &[usize],
) -> Result<Vec<Conclusion>, Memory>
    requires numbers { All (λ n. n < length net.now.names) numbers.now }
    requires room { length net.now.names ≤ places marks.now }
    ensures { IfOk result (λ list. list.items ≡ map (conclusion_at net.now marks.now family) numbers.now) }
{
    let mut list = Vec::with_capacity(alloc, numbers.len())?;
    for number in numbers {
        let verdict = marked_verdict(marks, family, *number);
        let literal = net.literal(*number).copy()?;
        list.push(Conclusion { literal, verdict })?;
    }
    Ok(list)
}

/// The conclusions in a family, where the order of the literals is known. `Memory` where there is none for the list.
pub fn ordered_conclusions(
    alloc: Global,
    net: &Graph<'_>,
    marks: &Marks,
    family: Family,
    order: &[usize],
) -> Result<Conclusions, Memory>
    requires order { IsOrder net.now order.now }
    requires room { length net.now.names ≤ places marks.now }
    requires right { IsRight net.now marks.now family }
    ensures { IfOk result (AreConclusions net.now.theory family) }
{
    let items = with_verdicts(alloc, net, marks, family, order)?;
    Ok(Conclusions { items })
}
