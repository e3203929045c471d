//! A theory that stays as it is, by numbers.

ghost use Rattle.std.specs.Prelude.{◌≡◌, IfOk, IsTrue};
ghost use Rattle.dl_io.specs.Outside.{HasCause};
ghost use Rattle.dl_io.specs.Streams.{WritesAll};
ghost use Rattle.dl_print.specs.Text.{theory_text};
ghost use Rattle.dl_marks.specs.Marks.{places, IsFrozen};
ghost use Rattle.dl_fill.specs.Filled.{stands};
ghost use Rattle.dl_theory.specs.Marks.{AreRight};
ghost use Rattle.dl_theory.specs.Verdicts.{IsVerdict, Fits};
ghost use Rattle.dl_conclusions.specs.Conclusions.{AreConclusions};
ghost use Rattle.dl_edition.specs.Editions.{line_count};

use crate::listing::{Listing, keep, no_listing, reading};
use crate::text::write_net;
use counted_slot::Counted;
use dl_base::Memory;
use dl_conclusions::{Conclusions, order_of, ordered_conclusions, verdict_of};
use dl_derive::certify;
use dl_io::{Failed, Sink};
use dl_lit::{Family, Literal};
use dl_marks::Marks;
use dl_net::Net;
use dl_theory::{Answer, Verdict};
use std::alloc::Global;
use std::marker::Model;

/// A frozen net and marks that are right for it.
pub(crate) struct Edition {
    alloc: Global,
    net: Net,
    marks: Marks,
    /// The order of the literals. The first list of conclusions makes it for the later ones, so that a publication sorts nothing.
    listing: Counted<Option<Listing>>,
}

impl Drop for Edition {
    fn drop(self) {
        let Edition {
            alloc: _,
            net: _,
            marks: _,
            listing: _,
        } = self;
    }
}

impl Model for Edition {
    ghost use Rattle.dl_theory.specs.Lists.{TheoryLists};

    ghost Value = { TheoryLists };

    ghost use Rattle.dl_edition.specs.KeptEdition.{theory_of, IsKeptEdition};

    ghost view = { theory_of };

    ghost invariant = { IsKeptEdition };
}

impl Edition {
    pub(crate) fn make(alloc: Global, net: Net, marks: Marks) -> Edition
        requires frozen { IsTrue net.frozen }
        requires right { AreRight net.theory net.names (places marks) (stands marks) }
        requires unowned { IsFrozen marks }
        ensures { result ≡ net.theory }
    {
        let listing = no_listing(&net);
        Edition {
            alloc,
            net,
            marks,
            listing,
        }
    }

    pub(crate) fn verdict(&self, family: Family, literal: &Literal) -> Verdict
        ensures { IsVerdict self.now family literal.now result }
    {
        verdict_of(&self.net.graph(), &self.marks, family, literal)
    }

    pub(crate) fn ask(&self, family: Family, literal: &Literal) -> Result<Answer, Memory>
        ensures { IfOk result (Fits self.now family literal.now) }
    {
        certify(self.alloc, &self.net.graph(), &self.marks, family, literal)
    }

    pub(crate) fn lines(&self) -> usize
        ensures { result ≡ line_count self.now }
    {
        let net = self.net.graph();
        // A theory that has numbers is well-formed, so the sum is small.
        let _names = net.names();
        net.facts_len() + net.rules_len() + net.pairs_len()
    }

    pub(crate) fn write_text<S: Sink>(&self, sink: &mut S) -> Result<(), Failed>
        ensures bytes { WritesAll (S.written sink.old) (S.written sink.new) result (theory_text self.now) }
        ensures cause { HasCause (S.faults sink.old) (S.faults sink.new) result }
        ensures name { S.name sink.new ≡ S.name sink.old }
    {
        write_net(sink, &self.net.graph())
    }

    pub(crate) fn conclusions(&self, family: Family) -> Result<Conclusions, Memory>
        ensures { IfOk result (AreConclusions self.now family) }
    {
        match reading(&self.listing) {
            None => self.sorted(family),
            Some(claim) => {
                // Nothing leaves here before the claim is given back.
                let answer = match claim.get() {
                    Some(listing) => ordered_conclusions(
                        self.alloc,
                        &self.net.graph(),
                        &self.marks,
                        family,
                        listing.order.as_slice(),
                    ),
                    None => self.sorted(family),
                };
                claim.leave();
                answer
            }
        }
    }

    /// The conclusions in an order that is made for them, and then kept for later ones.
    fn sorted(&self, family: Family) -> Result<Conclusions, Memory>
        ensures { IfOk result (AreConclusions self.now family) }
    {
        let net = self.net.graph();
        let order = order_of(self.alloc, &net)?;
        let answer = ordered_conclusions(self.alloc, &net, &self.marks, family, order.as_slice());
        keep(&self.listing, order);
        answer
    }
}
