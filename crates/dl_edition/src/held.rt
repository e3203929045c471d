//! A holder of an edition.

ghost use Rattle.std.specs.Prelude.{◌≡◌, IfOk, IsTrue};
ghost use Rattle.dl_io.specs.Outside.{HasCause};
ghost use Rattle.dl_io.specs.Streams.{WritesAll};
ghost use Rattle.dl_print.specs.Text.{theory_text};
ghost use Rattle.dl_marks.specs.Marks.{places, IsFrozen};
ghost use Rattle.dl_fill.specs.Filled.{stands};
ghost use Rattle.dl_theory.specs.Marks.{AreRight};
ghost use Rattle.dl_theory.specs.Verdicts.{IsVerdict, Fits};
ghost use Rattle.dl_conclusions.specs.Conclusions.{AreConclusions};
ghost use Rattle.dl_edition.specs.Editions.{line_count};

use crate::edition::Edition;
use dl_base::Memory;
use dl_conclusions::Conclusions;
use dl_io::{Failed, Sink};
use dl_lit::{Family, Literal};
use dl_marks::Marks;
use dl_net::Net;
use dl_theory::{Answer, Verdict};
use std::alloc::Global;
use std::marker::Model;
use std::sync::Arc;

/// One of those who share an edition. It stands for the edition's theory for good.
pub struct Held {
    number: u64,
    edition: Arc<Edition>,
}

impl Drop for Held {
    fn drop(self) {
        let Held {
            number: _,
            edition: _,
        } = self;
    }
}

impl Model for Held {
    ghost use Rattle.std.specs.Arc.{arc_value};
    ghost use Rattle.dl_edition.specs.Editions.{EditionLists};

    ghost Value = { EditionLists };

    ghost view = { λ h. record { number = h.number; theory = arc_value h.edition } };
}

impl Held {
    /// The first holder of an edition, of a frozen net and marks that are right for it. `Memory` where there is none for
    /// what is shared.
    pub fn make(alloc: Global, number: u64, net: Net, marks: Marks) -> Result<Held, Memory>
        requires frozen { IsTrue net.frozen }
        requires right { AreRight net.theory net.names (places marks) (stands marks) }
        requires unowned { IsFrozen marks }
        ensures number { IfOk result (λ held. held.number ≡ number) }
        ensures theory { IfOk result (λ held. held.theory ≡ net.theory) }
    {
        let edition = Arc::new(alloc, Edition::make(alloc, net, marks))?;
        Ok(Held { number, edition })
    }

    /// One more holder of the same edition, which costs a count. `Memory` where the count is full.
    pub fn copy(&self) -> Result<Held, Memory>
        ensures { IfOk result (λ copy. copy ≡ self.now) }
    {
        let edition = self.edition.clone()?;
        Ok(Held {
            number: self.number,
            edition,
        })
    }

    /// The number that the edition was published under.
    pub fn number(&self) -> u64
        ensures { result ≡ self.now.number }
    {
        self.number
    }

    /// What the theory says of a literal. It takes no memory and waits for nobody.
    pub fn verdict(&self, family: Family, literal: &Literal) -> Verdict
        ensures { IsVerdict self.now.theory family literal.now result }
    {
        self.edition.verdict(family, literal)
    }

    /// What the theory says of a literal, with a certificate. `Memory` where there is none for the certificate.
    pub fn ask(&self, family: Family, literal: &Literal) -> Result<Answer, Memory>
        ensures { IfOk result (Fits self.now.theory family literal.now) }
    {
        self.edition.ask(family, literal)
    }

    /// How many facts, rules and pairs there are, and so lines of the text.
    pub fn lines(&self) -> usize
        ensures { result ≡ line_count self.now.theory }
    {
        self.edition.lines()
    }

    /// Appends the theory's text, or a front of it where the sink fails.
    pub fn write_text<S: Sink>(&self, sink: &mut S) -> Result<(), Failed>
        ensures bytes { WritesAll (S.written sink.old) (S.written sink.new) result (theory_text self.now.theory) }
        ensures cause { HasCause (S.faults sink.old) (S.faults sink.new) result }
        ensures name { S.name sink.new ≡ S.name sink.old }
    {
        self.edition.write_text(sink)
    }

    /// Each literal that the theory mentions, in order, with its verdict. Who asks first puts the literals in order, for all who
    /// hold the edition. `Memory` where there is none for the order or the list.
    pub fn conclusions(&self, family: Family) -> Result<Conclusions, Memory>
        ensures { IfOk result (AreConclusions self.now.theory family) }
    {
        self.edition.conclusions(family)
    }
}
