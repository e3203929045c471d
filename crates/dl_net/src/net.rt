//! A theory by numbers, under edits.

ghost use Rattle.std.specs.Prelude.{◌≡◌, ◌≤◌, IfOk, OnOk, OnErr, IsTrue, None, Some, false, length};
ghost use Rattle.dl_theory.specs.Edits.{IsAnswered, after_edit};
ghost use Rattle.dl_names.specs.Paired.{IsNear, Grows};
ghost use Rattle.dl_net.specs.Edited.{edit_literals, HasEditLiterals};
ghost use Rattle.dl_net.specs.Kept.{AreKept, AreSettled, HasEditRoom, KeepsNumbers, KeepsTables, MakesEdit, net_in, rules_after, theory_in};
ghost use Rattle.dl_net.specs.KeptNet.{IsOwn, tables_in};

use crate::held::Held;
use crate::numbered::NumberedTheory;
use crate::ready::Ready;
use crate::tables::Tables;
use dl_base::Memory;
use dl_graph::Graph;
use dl_theory::{Edit, EditStop, Theory};
use std::alloc::Global;
use std::marker::Model;
use std::sync::Arc;

/// A theory whose literals, facts, rules and pairs have numbers, with its indexes.
///
/// Making an edit moves no number: what is added goes last, and what goes leaves its number empty. Preparing one may move many: where more
/// numbers are empty than there are facts, rules, pairs and literals, facts, rules and pairs first get numbers anew. Literals keep theirs.
pub struct Net {
    held: Held,
    /// The edit that is prepared.
    pending: Option<Ready>,
    /// Whether the net can be shared.
    frozen: bool,
}

impl Drop for Net {
    fn drop(self) {
        let Net {
            held: _,
            pending: _,
            frozen: _,
        } = self;
    }
}

impl Model for Net {
    ghost use Rattle.dl_graph.specs.Numbers.{NetLists};

    ghost Value = { NetLists };

    ghost use Rattle.dl_net.specs.KeptNet.{net_of, IsKeptNet};

    ghost view = { net_of };

    ghost invariant = { IsKeptNet };
}

impl Net {
    ghost use Rattle.dl_graph.specs.Numbers.{no_net};

    /// The empty theory.
    pub fn make(alloc: Global) -> Net
        ensures { result ≡ no_net }
    {
        Net::with(Tables::make(alloc))
    }

    /// The net of a theory. `Memory` where there is none for it.
    pub fn of(alloc: Global, theory: &Theory) -> Result<Net, Memory>
        ensures theory { IfOk result (λ net. net.theory ≡ theory.now) }
        ensures pending { IfOk result (λ net. net.pending ≡ None) }
        ensures frozen { IfOk result (λ net. net.frozen ≡ false) }
    {
        let tables = Tables::of(alloc, theory)?;
        Ok(Net::with(tables))
    }

    /// The net of a theory that was loaded by numbers. `Memory` where there is none for the lists of its rules.
    pub fn load(theory: NumberedTheory) -> Result<Net, Memory>
        ensures { IfOk result (λ net. net ≡ theory) }
    {
        let tables = Tables::load(theory)?;
        Ok(Net::with(tables))
    }

    /// A net of these tables.
    fn with(tables: Tables) -> Net
        requires kept { AreKept tables }
        requires settled { AreSettled tables }
        ensures { result ≡ net_in tables }
    {
        Net {
            held: Held::Own(tables),
            pending: None,
            frozen: false,
        }
    }

    /// What is read of the net.
    #[inline(always)]
    pub fn graph(&self) -> Graph<'_>
        ensures { result ≡ record self.now { pending = None; frozen = false } }
    {
        self.held.tables().graph()
    }

    /// Takes all the memory that an edit needs. `Refused` with the first cause where the edit is refused, `Memory` where there
    /// is none for it. The net stands for the same theory in each case, and what was prepared before is forgotten; literals of
    /// the edit, and their complements, may have got numbers.
    pub fn prepare(&mut self, edit: &Edit) -> Result<Ready, EditStop>
        ensures ready { IfOk result (λ ready. ready.edit ≡ edit.now) }
        ensures answered { IsAnswered self.old.theory edit.now result }
        ensures theory { self.new.theory ≡ self.old.theory }
        ensures rules { KeepsNumbers self.old.rules self.new.rules }
        ensures few { length self.new.rules ≤ length self.old.rules }
        ensures names { Grows (IsNear (edit_literals edit.now)) self.old.names self.new.names }
        ensures named { OnOk result (HasEditLiterals self.new.names edit.now) }
        ensures pending { OnOk result (self.new.pending ≡ Some edit.now) }
        ensures forgotten { OnErr result (self.new.pending ≡ None) }
        ensures frozen { self.new.frozen ≡ false }
    {
        self.forget();
        let ready = Ready { edit: edit.copy()? };
        let pending = Ready { edit: edit.copy()? };
        self.held.prepare(edit)?;
        self.pending = Some(pending);
        Ok(ready)
    }

    /// Makes the edit that is prepared, in place. Takes no memory.
    pub fn commit(&mut self, ready: Ready)
        requires { self.old.pending ≡ Some ready.edit }
        ensures theory { self.new.theory ≡ after_edit self.old.theory ready.edit }
        ensures rules { self.new.rules ≡ rules_after self.old.rules ready.edit }
        ensures names { self.new.names ≡ self.old.names }
        ensures pending { self.new.pending ≡ None }
        ensures frozen { self.new.frozen ≡ false }
    {
        match &mut self.held {
            Held::Shared { .. } => unreachable!(),
            Held::Own(tables) => tables.make_edit(&ready.edit),
        }
        self.pending = None;
    }

    /// From here on the net can be shared, up to the next edit. `Memory` where there is none for that. What was prepared is forgotten.
    pub fn freeze(&mut self) -> Result<(), Memory>
        ensures theory { self.new.theory ≡ self.old.theory }
        ensures rules { self.new.rules ≡ self.old.rules }
        ensures names { self.new.names ≡ self.old.names }
        ensures pending { self.new.pending ≡ None }
        ensures frozen { OnOk result (IsTrue self.new.frozen) }
    {
        self.forget();
        self.held.share()?;
        self.frozen = true;
        Ok(())
    }

    /// The same theory with the same numbers once more, frozen, at the cost of a count. The order of the pairs, which only edits need, stays
    /// with this one. `Memory` where it is shared too often.
    pub fn share(&self) -> Result<Net, Memory>
        requires { IsTrue self.now.frozen }
        ensures { IfOk result (λ net. net ≡ self.now) }
    {
        match &self.held {
            Held::Own(_) => unreachable!(),
            Held::Shared { tables, order: _ } => Ok(Net {
                held: Held::Shared {
                    tables: tables.clone()?,
                    order: None,
                },
                pending: None,
                frozen: true,
            }),
        }
    }

    /// Forgets what was prepared. The net can no longer be shared.
    fn forget(&mut self)
        ensures { self.new ≡ record self.old { pending = None; frozen = false } }
    {
        if let Held::Own(tables) = &mut self.held {
            tables.forget();
        }
        self.pending = None;
        self.frozen = false;
    }
}
