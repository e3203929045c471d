//! The desk as an office.

ghost use Rattle.std.specs.Prelude.{◌≡◌, ◌<◌, IfOk, OnErr};
ghost use Rattle.dl_calls.specs.Histories.{IsLegal, state_after};
ghost use Rattle.dl_board.specs.Boards.{IsAsBefore};
ghost use Rattle.dl_board.specs.Turns.{IsTurn, HandsOut, reply_of};
ghost use Rattle.dl_edition.specs.Offices.{MayCall, IsCall};
ghost use Rattle.dl_desk.specs.Turning.{turned_reply, Suits};

use crate::desk::Desk;
use dl_base::Memory;
use dl_board::{Board, Turned};
use dl_calls::Call;
use dl_edition::{HoldAnswer, Office};
use dl_marks::Steps;
use dl_theory::{Edit, EditStop};
use dl_turn::Seat;
use std::marker::Brand;
use std::sync::Wait;
use std::sync::ledger::{Blank, Ledger};

/// A turn of an enrolled seat. What is counted belongs to a new ledger.
fn counted_turn<M: Ledger, L: Ledger>(
    board: &mut Board<L>,
    seat: u64,
    call: Call,
    blank: Blank,
) -> Result<Turned, Memory>
    requires name { blank.name ≡ M.name }
    requires parts { blank.parts ≡ M.parts }
    requires some { 0 < blank.parts }
    requires call { ¬ (call ≡ Call.Enrol) }
    requires seat { seat < board.old.enrolled }
    ensures answered { IfOk result (IsTurn board.old board.new seat call) }
    ensures legal { IsLegal board.new.start board.new.history }
    ensures kept { OnErr result (IsAsBefore board.old board.new) }
{
    let mut steps = Steps::<M>::make(blank);
    board.turn(seat, call, &mut steps)
}

impl<L: Ledger> Desk<L> {
    /// Takes the board, makes the call on it, and gives it back.
    fn called<R: Wait>(
        &self,
        rt: &R,
        seat: &mut Seat<Board<L>>,
        call: Call,
    ) -> Result<Turned, Memory>
        requires belongs { seat.old.place ≡ self.now }
        requires may { MayCall seat.old }
        requires call { ¬ (call ≡ Call.Enrol) }
        ensures called { IsCall seat.old seat.new call (turned_reply result) }
        ensures suits { IfOk result (λ turned. Suits call (reply_of turned)) }
        ensures hands_out { IfOk result (HandsOut (state_after seat.new.start seat.new.seen)) }
    {
        let mut board = self.turnstile.take(rt, seat);
        let Some(number) = seat.number() else {
            unreachable!()
        };
        let turned = counted_turn::<Brand, L>(&mut board, number, call, Blank::new(1));
        self.turnstile.give(rt, seat, board);
        turned
    }
}

impl<L: Ledger> Office for Desk<L> {
    ghost use Rattle.std.specs.Prelude.{◌≡◌};

    type Board = Board<L>;

    ghost belongs = { λ desk seat. seat.place ≡ desk };

    fn edit<R: Wait>(&self, rt: &R, seat: &mut Seat<Board<L>>, edit: Edit) -> Result<(), EditStop> {
        match self.called(rt, seat, Call::Edit(edit)) {
            Ok(Turned::Edited) => Ok(()),
            Ok(Turned::EditRefused(refusal)) => Err(EditStop::Refused(refusal)),
            Ok(_) => unreachable!(),
            Err(Memory) => Err(EditStop::Memory),
        }
    }

    fn publish<R: Wait>(&self, rt: &R, seat: &mut Seat<Board<L>>) -> Result<u64, Memory> {
        match self.called(rt, seat, Call::Publish)? {
            Turned::Edition(number) => Ok(number),
            _ => unreachable!(),
        }
    }

    fn hold<R: Wait>(
        &self,
        rt: &R,
        seat: &mut Seat<Board<L>>,
        number: u64,
    ) -> Result<HoldAnswer, Memory> {
        match self.called(rt, seat, Call::Hold(number))? {
            Turned::Holding(held) => Ok(HoldAnswer::Holding(held)),
            Turned::Unpublished { asked, published } => {
                Ok(HoldAnswer::Unpublished { asked, published })
            }
            _ => unreachable!(),
        }
    }
}
