//! A fact more, and a fact less.

ghost use Rattle.std.specs.Prelude.{◌≡◌, ◌↔◌, OnOk, OnErr, IfSome, is_some, true, [], ◌∷◌, Contains};
ghost use Rattle.dl_theory.specs.declared.edit.Edit.TheVariants.{AddFact, DropFact};
ghost use Rattle.dl_theory.specs.Edits.{IsAccepted, IsAnswered};
ghost use Rattle.dl_names.specs.Paired.{number_in};
ghost use Rattle.dl_net.specs.Kept.{AreKept, AreSettled, HasFactDropRoom, HasFactRoom, KeepsTables, MakesEdit, theory_in};

use crate::number::number_fact;
use crate::tables::Tables;
use dl_lit::Literal;
use dl_theory::{EditRefusal, EditStop, LIMIT};

impl Tables {
    /// The number of a literal that is a fact; `None` exactly where it is none. Takes one look-up.
    fn find_fact(&self, fact: &Literal) -> Option<usize>
        requires { AreKept self.now }
        ensures fact { (is_some result ≡ true) ↔ Contains (theory_in self.now).facts fact.now }
        ensures number { IfSome result (λ n. n ≡ number_in self.now.names.literals fact.now) }
    {
        match self.names.find(fact) {
            None => None,
            Some(number) => {
                if number >= self.marks.len() {
                    return None;
                }
                let marked = *self.marks.at(number);
                if marked { Some(number) } else { None }
            }
        }
    }

    /// Takes the memory for a fact, whose literal gets a number beside its complement, or says why not.
    pub(crate) fn prepare_fact(&mut self, fact: &Literal) -> Result<(), EditStop>
        requires kept { AreKept self.old }
        requires settled { AreSettled self.old }
        ensures answered { IsAnswered (theory_in self.old) (AddFact fact.now) result }
        ensures keeps { KeepsTables (fact.now ∷ []) self.old self.new }
        ensures room { OnOk result (HasFactRoom self.new fact.now) }
        ensures settled { OnErr result (AreSettled self.new) }
    {
        if self.find_fact(fact).is_some() {
            return Err(EditStop::Refused(EditRefusal::FactThere));
        }
        if self.facts.live() >= LIMIT {
            return Err(EditStop::Refused(EditRefusal::FactsFull));
        }
        let number = number_fact(&mut self.names, &mut self.marks, fact)? as usize;
        self.marks.own(number)?;
        self.facts.prepare(number, self.names.len())?;
        Ok(())
    }

    /// The literal becomes the last fact.
    pub(crate) fn add_fact(&mut self, fact: &Literal)
        requires kept { AreKept self.old }
        requires accepted { IsAccepted (theory_in self.old) (AddFact fact.now) }
        requires room { HasFactRoom self.old fact.now }
        ensures { MakesEdit self.old (AddFact fact.now) self.new }
    {
        match self.names.find(fact) {
            None => unreachable!(),
            Some(number) => {
                self.facts.put(number);
                let _off = self.marks.put(number, true);
            }
        }
    }

    /// Takes the memory so that a fact can go, or says why it cannot.
    pub(crate) fn prepare_fact_drop(&mut self, fact: &Literal) -> Result<(), EditStop>
        requires kept { AreKept self.old }
        requires settled { AreSettled self.old }
        ensures answered { IsAnswered (theory_in self.old) (DropFact fact.now) result }
        ensures keeps { KeepsTables [] self.old self.new }
        ensures room { OnOk result (HasFactDropRoom self.new fact.now) }
        ensures settled { AreSettled self.new }
    {
        match self.find_fact(fact) {
            None => Err(EditStop::Refused(EditRefusal::NoFact)),
            Some(number) => {
                self.marks.own(number)?;
                self.facts.prepare_drop(number)?;
                Ok(())
            }
        }
    }

    /// The fact goes, and leaves its number empty.
    pub(crate) fn drop_fact(&mut self, fact: &Literal)
        requires kept { AreKept self.old }
        requires accepted { IsAccepted (theory_in self.old) (DropFact fact.now) }
        requires room { HasFactDropRoom self.old fact.now }
        ensures { MakesEdit self.old (DropFact fact.now) self.new }
    {
        match self.names.find(fact) {
            None => unreachable!(),
            Some(number) => {
                self.facts.drop_fact(number);
                let _on = self.marks.put(number, false);
            }
        }
    }
}
