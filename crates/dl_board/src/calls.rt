//! The calls of enrolled seats on a board.

ghost use Rattle.std.specs.Prelude.{◌≡◌, ◌<◌, IfOk, OnErr, length};
ghost use Rattle.dl_calls.specs.Histories.{IsLegal, state_after};
ghost use Rattle.dl_board.specs.Boards.{IsAsBefore};
ghost use Rattle.dl_board.specs.Turns.{IsTurn, IsEdit, IsHeldAnswer};
ghost use Rattle.dl_theory.specs.declared.edit.Edit.{Edit};
ghost use Rattle.dl_update.specs.Bound.{IsWithinCone};

use crate::board::Board;
use crate::turned::Turned;
use dl_base::Memory;
use dl_calls::{Call, Entry, Reply};
use dl_edition::Held;
use dl_marks::Steps;
use dl_theory::{Edit, EditStop};
use std::sync::ledger::Ledger;

impl<L: Ledger> Board<L> {
    /// Makes the call of an enrolled seat, and adds it to the history with its reply. A refused edit and a hold of an edition
    /// that is not published are answers like any other. `Memory` where there is none for the answer or its entry; start,
    /// history and seats are as before then. Only an edit makes steps: sixteen at most for each literal of its cone, and eight for each
    /// that it is the first to name.
    pub fn turn<M: Ledger>(
        &mut self,
        seat: u64,
        call: Call,
        steps: &mut Steps<M>,
    ) -> Result<Turned, Memory>
        requires call { ¬ (call ≡ Call.Enrol) }
        requires seat { seat < self.old.enrolled }
        ensures answered { IfOk result (IsTurn self.old self.new seat call) }
        ensures legal { IsLegal self.new.start self.new.history }
        ensures kept { OnErr result (IsAsBefore self.old self.new) }
        ensures steps { (¬ IsEdit call) → steps.new ≡ steps.old }
        ensures bound { (e : Edit) → call ≡ Call.Edit e → IsWithinCone (state_after self.old.start self.old.history).draft self.old.names e steps.old steps.new }
    {
        match call {
            Call::Enrol => unreachable!(),
            Call::Edit(edit) => self.edit(seat, edit, steps),
            Call::Publish => self.publish(seat),
            Call::Hold(number) => self.hold(seat, number),
        }
    }

    fn edit<M: Ledger>(
        &mut self,
        seat: u64,
        edit: Edit,
        steps: &mut Steps<M>,
    ) -> Result<Turned, Memory>
        requires seat { seat < self.old.enrolled }
        ensures answered { IfOk result (IsTurn self.old self.new seat (Call.Edit edit)) }
        ensures legal { IsLegal self.new.start self.new.history }
        ensures kept { OnErr result (IsAsBefore self.old self.new) }
        ensures bound { IsWithinCone (state_after self.old.start self.old.history).draft self.old.names edit steps.old steps.new }
    {
        self.entries.reserve(1)?;
        match self.draft.touch(&edit, steps) {
            Ok(()) => {
                self.entries.push_reserved(Entry {
                    seat,
                    call: Call::Edit(edit),
                    reply: Reply::Edited,
                });
                Ok(Turned::Edited)
            }
            Err(EditStop::Refused(refusal)) => {
                let told = refusal.copy()?;
                self.entries.push_reserved(Entry {
                    seat,
                    call: Call::Edit(edit),
                    reply: Reply::EditRefused(refusal),
                });
                Ok(Turned::EditRefused(told))
            }
            Err(EditStop::Memory) => Err(Memory),
        }
    }

    /// Freezes the draft and shares it.
    fn publish(&mut self, seat: u64) -> Result<Turned, Memory>
        requires seat { seat < self.old.enrolled }
        ensures answered { IfOk result (IsTurn self.old self.new seat Call.Publish) }
        ensures legal { IsLegal self.new.start self.new.history }
        ensures kept { OnErr result (IsAsBefore self.old self.new) }
    {
        let number = self.editions.len() as u64;
        let held = self.frozen(number)?;
        self.editions.reserve(1)?;
        self.entries.push(Entry {
            seat,
            call: Call::Publish,
            reply: Reply::Edition(number),
        })?;
        self.editions.push_reserved(held);
        Ok(Turned::Edition(number))
    }

    /// The draft as an edition.
    fn frozen(&mut self, number: u64) -> Result<Held, Memory>
        ensures board { self.new ≡ self.old }
        ensures number { IfOk result (λ held. held.number ≡ number) }
        ensures theory { IfOk result (λ held. held.theory ≡ (state_after self.old.start self.old.history).draft) }
    {
        self.draft.freeze()?;
        let (net, marks) = self.draft.share()?;
        Held::make(*self.entries.allocator(), number, net, marks)
    }

    fn hold(&mut self, seat: u64, number: u64) -> Result<Turned, Memory>
        requires seat { seat < self.old.enrolled }
        ensures answered { IfOk result (IsTurn self.old self.new seat (Call.Hold number)) }
        ensures legal { IsLegal self.new.start self.new.history }
        ensures kept { OnErr result (IsAsBefore self.old self.new) }
    {
        let turned = self.sought(number)?;
        let reply = turned.reply()?;
        self.entries.push(Entry {
            seat,
            call: Call::Hold(number),
            reply,
        })?;
        Ok(turned)
    }

    /// The edition with this number, or how many there are.
    fn sought(&self, number: u64) -> Result<Turned, Memory>
        ensures { IfOk result (IsHeldAnswer (state_after self.now.start self.now.history) number) }
    {
        let published = self.published();
        if number < published {
            Ok(Turned::Holding(self.held(number)?))
        } else {
            Ok(Turned::Unpublished {
                asked: number,
                published,
            })
        }
    }
}
