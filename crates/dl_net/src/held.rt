//! Tables that one net changes, or that several share.

use crate::tables::Tables;
use dl_base::Memory;
use dl_sup::Order;
use dl_theory::{Edit, EditStop};
use std::mem;
use std::sync::Arc;

/// Tables of a net's own, or tables that do not change while several hold them.
#[derive(Drop)]
pub(crate) enum Held {
    Own(Tables),
    Shared {
        /// Those of all who hold them, without an order.
        tables: Arc<Tables>,
        /// The order of their pairs, which whoever shared them keeps for the next edit.
        order: Option<Order>,
    },
}

impl Held {
    ghost use Rattle.std.specs.Prelude.{◌≡◌, OnOk, OnErr};
    ghost use Rattle.dl_theory.specs.Edits.{IsAnswered};
    ghost use Rattle.dl_net.specs.Edited.{edit_literals};
    ghost use Rattle.dl_net.specs.Kept.{AreKept, AreSettled, HasEditRoom, KeepsTheory, net_in, theory_in};
    ghost use Rattle.dl_net.specs.KeptNet.{tables_in, IsBeside, IsOwn, IsShared};

    #[inline(always)]
    pub fn tables(&self) -> &Tables
        ensures { result.now ≡ tables_in self.now }
    {
        match self {
            Held::Own(tables) => tables,
            Held::Shared { tables, order: _ } => tables,
        }
    }

    /// From here on the tables can be shared, and a copy of them shares names and labels. The order of the pairs stays beside them: an edition
    /// has no use for it, the next edit may. `Memory` where there is none for the count of those who share them.
    pub fn share(&mut self) -> Result<(), Memory>
        requires kept { AreKept (tables_in self.old) }
        requires settled { AreSettled (tables_in self.old) }
        requires beside { IsBeside self.old }
        ensures kept { AreKept (tables_in self.new) }
        ensures settled { AreSettled (tables_in self.new) }
        ensures beside { IsBeside self.new }
        ensures net { net_in (tables_in self.new) ≡ net_in (tables_in self.old) }
        ensures shared { OnOk result (IsShared self.new) }
    {
        let alloc = self.tables().marks.alloc();
        match mem::replace(self, Held::Own(Tables::make(alloc))) {
            Held::Shared { tables, order } => {
                *self = Held::Shared { tables, order };
                Ok(())
            }
            Held::Own(mut tables) => {
                tables.freeze();
                let order = tables.order.take();
                match Arc::new(alloc, tables) {
                    Ok(tables) => {
                        *self = Held::Shared { tables, order };
                        Ok(())
                    }
                    Err(failed) => {
                        let mut tables = failed.value;
                        tables.order = order;
                        *self = Held::Own(tables);
                        Err(Memory)
                    }
                }
            }
        }
    }

    /// From here on the tables are the net's own: those that are shared are copied, and get the order of the pairs that stood beside them.
    /// `Memory` where there is none for the copy.
    pub fn own(&mut self) -> Result<(), Memory>
        requires kept { AreKept (tables_in self.old) }
        requires settled { AreSettled (tables_in self.old) }
        requires beside { IsBeside self.old }
        ensures kept { AreKept (tables_in self.new) }
        ensures settled { AreSettled (tables_in self.new) }
        ensures beside { IsBeside self.new }
        ensures net { net_in (tables_in self.new) ≡ net_in (tables_in self.old) }
        ensures own { OnOk result (IsOwn self.new) }
    {
        let copy = match self {
            Held::Own(_) => return Ok(()),
            Held::Shared { tables, order } => {
                let mut copy = tables.copy()?;
                copy.order = order.take();
                copy
            }
        };
        *self = Held::Own(copy);
        Ok(())
    }

    /// Takes the memory that an edit needs, in tables of the net's own, or says why not. Literals of the edit, and their complements, may get
    /// numbers; where most numbers are empty, facts, rules and pairs get numbers anew.
    pub fn prepare(&mut self, edit: &Edit) -> Result<(), EditStop>
        requires kept { AreKept (tables_in self.old) }
        requires settled { AreSettled (tables_in self.old) }
        requires beside { IsBeside self.old }
        ensures answered { IsAnswered (theory_in (tables_in self.old)) edit.now result }
        ensures keeps { KeepsTheory (edit_literals edit.now) (tables_in self.old) (tables_in self.new) }
        ensures room { OnOk result (HasEditRoom (tables_in self.new) edit.now) }
        ensures own { OnOk result (IsOwn self.new) }
        ensures settled { OnErr result (AreSettled (tables_in self.new)) }
        ensures beside { IsBeside self.new }
    {
        self.own()?;
        match self {
            Held::Shared { .. } => unreachable!(),
            Held::Own(tables) => {
                tables.renew();
                tables.prepare(edit)
            }
        }
    }
}
