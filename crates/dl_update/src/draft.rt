//! A theory with the marks of what follows, which can be shared, and under edits.

ghost use Rattle.std.specs.Prelude.{◌≡◌, IfOk, OnOk, IsTrue, false};
ghost use Rattle.dl_theory.specs.Edits.{IsEdited};
ghost use Rattle.dl_theory.specs.Lists.{IsWellFormed};
ghost use Rattle.dl_theory.specs.Laws.{IsCoherent, IsConsistent, IsInclusive, IsLeastClosed};
ghost use Rattle.dl_marks.specs.Marks.{IsFrozen};
ghost use Rattle.dl_net.specs.Edited.{edit_literals};
ghost use Rattle.dl_graph.specs.Named.{IsNear, Grows};
ghost use Rattle.dl_update.specs.declared.families.Families.TheVariants as families_of;
ghost use Rattle.dl_update.specs.Bound.{IsWithinCone};
ghost use Rattle.dl_update.specs.RightIn.{AreRightIn};

use crate::families::Families;
use crate::places::grow;
use crate::saturate::{fill_all, marks_in};
use crate::unmarked::{clear_members, own_members};
use crate::works::Works;
use dl_base::Memory;
use dl_cone::walk;
use dl_graph::{Graph, Region};
use dl_marks::{Marks, Steps};
use dl_net::Net;
use dl_theory::{Edit, EditStop};
use std::alloc::Global;
use std::marker::Model;
use std::sync::ledger::Ledger;

/// A theory by numbers and its marks: in each family that is kept, a mark stands exactly where its tagged literal follows.
pub struct Draft {
    alloc: Global,
    net: Net,
    families: Families,
    marks: Marks,
    /// Room for the fills after an edit. The first edit makes it: what is only loaded and read has none.
    works: Works,
    /// The cone of the last edit. It is kept for its room, so that an edit clears and fills no more than its own cone.
    cone: Region,
    /// Whether the net and the marks can be shared.
    frozen: bool,
}

impl Drop for Draft {
    fn drop(self) {
        let Draft {
            alloc: _,
            net: _,
            families: _,
            marks: _,
            works: _,
            cone: _,
            frozen: _,
        } = self;
    }
}

impl Model for Draft {
    ghost use Rattle.dl_update.specs.Drafts.{DraftLists};

    ghost Value = { DraftLists };

    ghost use Rattle.dl_update.specs.KeptDraft.{draft_of, IsKeptDraft};

    ghost view = { draft_of };

    ghost invariant = { IsKeptDraft };
}

impl Draft {
    /// The draft of a net's theory, in these families. `Memory` where there is none for its marks.
    ///
    /// No tagged literal of the theory follows together with its opposite, and what follows is the least set that is closed
    /// under the conditions of proof. In blocking and in propagating, literals that attack each other are both proved only where both
    /// are definite, and each family includes the one before it.
    pub fn saturate<L: Ledger>(
        alloc: Global,
        net: Net,
        families: Families,
        steps: &mut Steps<L>,
    ) -> Result<Draft, Memory>
        ensures theory { IfOk result (λ draft. draft.theory ≡ net.theory) }
        ensures families { IfOk result (λ draft. draft.families ≡ families) }
        ensures frozen { IfOk result (λ draft. draft.frozen ≡ false) }
        ensures coherent { OnOk result (IsCoherent net.theory) }
        ensures least { OnOk result (IsLeastClosed net.theory) }
        ensures consistent { OnOk result (IsConsistent net.theory) }
        ensures inclusive { OnOk result (IsInclusive net.theory) }
    {
        let _names = net.graph().names();
        let marks = marks_in(alloc, &net.graph(), families, steps)?;
        Ok(Draft {
            alloc,
            net,
            families,
            marks,
            works: Works::make(alloc),
            cone: Region::none(alloc),
            frozen: false,
        })
    }

    /// From here on the draft can be shared, up to the next edit. `Memory` where there is none for that.
    pub fn freeze(&mut self) -> Result<(), Memory>
        ensures theory { self.new.theory ≡ self.old.theory }
        ensures names { self.new.names ≡ self.old.names }
        ensures families { self.new.families ≡ self.old.families }
        ensures frozen { OnOk result (IsTrue self.new.frozen) }
    {
        self.frozen = false;
        self.net.freeze()?;
        self.marks.freeze()?;
        self.frozen = true;
        Ok(())
    }

    /// The net of the theory and its marks once more, which do not change with the draft. `Memory` where there is none for
    /// them.
    pub fn share(&self) -> Result<(Net, Marks), Memory>
        requires { IsTrue self.now.frozen }
        ensures theory { IfOk result (λ shared. shared.0.theory ≡ self.now.theory) }
        ensures names { IfOk result (λ shared. shared.0.names ≡ self.now.names) }
        ensures frozen { IfOk result (λ shared. IsTrue shared.0.frozen) }
        ensures right { IfOk result (λ shared. AreRightIn self.now.families self.now.theory self.now.names shared.1) }
        ensures unowned { IfOk result (λ shared. IsFrozen shared.1) }
    {
        let net = self.net.share()?;
        let marks = self.marks.share()?;
        Ok((net, marks))
    }

    /// What is read of the theory by numbers.
    pub fn graph(&self) -> Graph<'_>
        ensures theory { result.theory ≡ self.now.theory }
        ensures names { result.names ≡ self.now.names }
    {
        self.net.graph()
    }

    /// The families whose marks are kept.
    pub fn families(&self) -> Families
        ensures { result ≡ self.now.families }
    {
        self.families
    }

    /// The marks of what follows from the theory in the families that are kept, with a place for each name.
    pub fn marks(&self) -> &Marks
        ensures { AreRightIn self.now.families self.now.theory self.now.names result.now }
    {
        &self.marks
    }

    /// Makes an edit of a draft that keeps all families, or says why it is refused. After a refusal, and after `Memory`, the draft stands for the same theory;
    /// it may have numbered the literals of the edit and their complements. No mark of a literal that has a number changes
    /// before all memory is there.
    ///
    /// It costs the cone of the edit: sixteen steps for each literal whose conclusions the edit can change, and eight for each that it is
    /// the first to name. No other mark is cleared or set.
    pub fn touch<L: Ledger>(&mut self, edit: &Edit, steps: &mut Steps<L>) -> Result<(), EditStop>
        requires { self.old.families ≡ families_of.All }
        ensures edited { IsEdited self.old.theory edit.now self.new.theory result }
        ensures names { Grows (IsNear (edit_literals edit.now)) self.old.names self.new.names }
        ensures families { self.new.families ≡ self.old.families }
        ensures frozen { self.new.frozen ≡ false }
        ensures steps { IsWithinCone self.old.theory self.old.names edit.now steps.old steps.new }
        ensures coherent { IsCoherent self.new.theory }
        ensures consistent { IsConsistent self.new.theory }
        ensures inclusive { IsInclusive self.new.theory }
    {
        let _names = self.net.graph().names();
        self.change(edit, steps)
    }

    /// Makes an edit, or says why it is refused.
    fn change<L: Ledger>(&mut self, edit: &Edit, steps: &mut Steps<L>) -> Result<(), EditStop>
        requires { self.old.families ≡ families_of.All }
        ensures edited { IsEdited self.old.theory edit.now self.new.theory result }
        ensures names { Grows (IsNear (edit_literals edit.now)) self.old.names self.new.names }
        ensures families { self.new.families ≡ self.old.families }
        ensures frozen { self.new.frozen ≡ false }
        ensures steps { IsWithinCone self.old.theory self.old.names edit.now steps.old steps.new }
    {
        self.frozen = false;
        let count = grow(self.alloc, &self.net.graph(), edit, &mut self.marks, steps)?;
        self.works.reserve_edit(&self.net.graph(), count)?;
        let prepared = self.net.prepare(edit);
        let names = self.net.graph().names();
        let ready = prepared?;
        self.cone.clear();
        self.cone.widen(names)?;
        // a literal of the cone has a rule that is there before the edit, or is named by the edit
        walk(&self.net.graph(), edit, &mut self.cone);
        own_members(&mut self.marks, &self.cone)?;
        self.net.commit(ready);
        clear_members(&mut self.marks, &self.cone, steps);
        fill_all(
            &self.net.graph(),
            &self.cone,
            &mut self.works,
            &mut self.marks,
            steps,
        );
        Ok(())
    }
}
