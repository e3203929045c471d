//! The conclusions of a theory, without a list of them.

ghost use Rattle.std.specs.Prelude.{◌≡◌, ◌<◌, ◌≤◌, IfOk, length, slice_index_or};
ghost use Rattle.dl_lit.specs.Borrowed.{literal_of};
ghost use Rattle.dl_marks.specs.Marks.{places};
ghost use Rattle.dl_fill.specs.Filled.{IsRight};
ghost use Rattle.dl_conclusions.specs.Conclusions.{AreConclusions, no_conclusion};

use crate::order::order_of;
use crate::verdict::marked_verdict;
use dl_base::Memory;
use dl_lit::{Family, LiteralRef};
use dl_marks::Marks;
use dl_net::Net;
use dl_theory::Verdict;
use std::alloc::Global;
use std::marker::Model;

/// A theory that is concluded in a family: its conclusions stand in order, and each is read off marks when it is asked for.
pub struct Concluded {
    net: Net,
    marks: Marks,
    family: Family,
    /// The numbers of the literals that the theory mentions, in the order of the literals.
    order: Vec<usize>,
}

impl Drop for Concluded {
    fn drop(self) {
        let Concluded {
            net: _,
            marks: _,
            family: _,
            order: _,
        } = self;
    }
}

impl Model for Concluded {
    ghost use Rattle.std.specs.Prelude.{List};
    ghost use Rattle.dl_conclusions.specs.declared.conclusion.Conclusion.{Conclusion};
    ghost use Rattle.dl_conclusions.specs.KeptConcluded.{conclusions_by, IsKeptConcluded};

    ghost Value = { List Conclusion };

    ghost view = { conclusions_by };

    ghost invariant = { IsKeptConcluded };
}

impl Concluded {
    /// The conclusions of a net's theory in a family in which the marks are right. `Memory` where there is none for the order of the
    /// literals.
    pub fn make(alloc: Global, net: Net, marks: Marks, family: Family) -> Result<Concluded, Memory>
        requires room { length net.names ≤ places marks }
        requires right { IsRight net marks family }
        ensures { IfOk result (AreConclusions net.theory family) }
    {
        let order = order_of(alloc, &net.graph())?;
        Ok(Concluded {
            net,
            marks,
            family,
            order,
        })
    }

    /// How many conclusions there are.
    pub fn len(&self) -> usize
        ensures { result ≡ length self.now }
    {
        self.order.len()
    }

    /// The literal of the conclusion at a place, and its verdict.
    pub fn at(&self, at: usize) -> (LiteralRef<'_>, Verdict)
        requires { at < length self.now }
        ensures { record { literal = literal_of result.0; verdict = result.1 } ≡ slice_index_or self.now at no_conclusion }
    {
        let number = self.order[at];
        let verdict = marked_verdict(&self.marks, self.family, number);
        (self.net.graph().literal(number), verdict)
    }
}
