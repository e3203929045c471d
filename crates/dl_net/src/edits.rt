//! Edits of tables. An edit is prepared with all the memory that it takes, and then made in place without any.

ghost use Rattle.std.specs.Prelude.{OnOk, OnErr, []};
ghost use Rattle.dl_theory.specs.Edits.{IsAccepted, IsAnswered};
ghost use Rattle.dl_net.specs.Edited.{edit_literals};
ghost use Rattle.dl_net.specs.Kept.{AreKept, AreSettled, HasEditRoom, KeepsTables, MakesEdit, theory_in};

use crate::tables::Tables;
use dl_theory::{Edit, EditStop};

impl Tables {
    /// Takes the memory that an edit needs, or says why not. Literals of the edit, and their complements, may get numbers.
    pub(crate) fn prepare(&mut self, edit: &Edit) -> Result<(), EditStop>
        requires kept { AreKept self.old }
        requires settled { AreSettled self.old }
        ensures answered { IsAnswered (theory_in self.old) edit.now result }
        ensures keeps { KeepsTables (edit_literals edit.now) self.old self.new }
        ensures room { OnOk result (HasEditRoom self.new edit.now) }
        ensures settled { OnErr result (AreSettled self.new) }
    {
        match edit {
            Edit::AddRule(rule) => self.prepare_rule(rule),
            Edit::DropRule(label) => self.prepare_rule_drop(label),
            Edit::AddFact(fact) => self.prepare_fact(fact),
            Edit::DropFact(fact) => self.prepare_fact_drop(fact),
            Edit::AddPair(pair) => self.prepare_pair(pair),
            Edit::DropPair(pair) => self.prepare_pair_drop(pair),
        }
    }

    /// Makes the edit that is prepared. Takes no memory.
    pub(crate) fn make_edit(&mut self, edit: &Edit)
        requires kept { AreKept self.old }
        requires accepted { IsAccepted (theory_in self.old) edit.now }
        requires room { HasEditRoom self.old edit.now }
        ensures { MakesEdit self.old edit.now self.new }
    {
        match edit {
            Edit::AddRule(rule) => self.add_rule(rule),
            Edit::DropRule(label) => self.drop_rule(label),
            Edit::AddFact(fact) => self.add_fact(fact),
            Edit::DropFact(fact) => self.drop_fact(fact),
            Edit::AddPair(pair) => self.add_pair(pair),
            Edit::DropPair(pair) => self.drop_pair(pair),
        }
    }

    /// Forgets what is prepared.
    pub(crate) fn forget(&mut self)
        requires { AreKept self.old }
        ensures keeps { KeepsTables [] self.old self.new }
        ensures settled { AreSettled self.new }
    {
        self.labels.forget();
        self.forget_pair();
    }
}
