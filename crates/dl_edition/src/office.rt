//! What a caller with a seat can ask for.

ghost use Rattle.dl_edition.specs.Offices.{SeatLists, MayCall, IsCall, HandsOut, edit_reply, publish_reply, hold_reply};
ghost use Rattle.dl_calls.specs.declared.call.Call.TheVariants as calls;

use crate::hold_answer::HoldAnswer;
use dl_base::Memory;
use dl_calls::Entry;
use dl_theory::{Edit, EditStop};
use dl_turn::{Chronicle, Seat};
use std::sync::Wait;

/// One reasoner for many callers, each with a seat. Whatever a call answers, the seat keeps its place, start, number and
/// joined seats, the board was given back, and what the seat has seen is legal and begins with what it had seen. An answered
/// call ends it with the entry of that call and answer, which is one more of the seat's own. Want of memory adds none.
pub trait Office {
    type Board: Chronicle<Line = Entry>;

    /// The seat belongs to the office.
    ghost belongs: { Self → SeatLists → Type 0 };

    /// Edits the draft. `Refused` exactly where the reasoner refuses the edit; the draft is as before then. `Memory` is want
    /// of memory.
    fn edit<R: Wait>(
        &self,
        rt: &R,
        seat: &mut Seat<Self::Board>,
        edit: Edit,
    ) -> Result<(), EditStop>
        requires belongs { belongs self.now seat.old }
        requires may { MayCall seat.old }
        ensures belongs { belongs self.now seat.new }
        ensures called { IsCall seat.old seat.new (calls.Edit edit) (edit_reply result) };

    /// Publishes the draft, and answers the number of the edition. `Memory` is want of memory.
    fn publish<R: Wait>(&self, rt: &R, seat: &mut Seat<Self::Board>) -> Result<u64, Memory>
        requires belongs { belongs self.now seat.old }
        requires may { MayCall seat.old }
        ensures belongs { belongs self.now seat.new }
        ensures called { IsCall seat.old seat.new calls.Publish (publish_reply result) };

    /// Hands out the edition with this number, or tells how many there are. What is handed out stands for the theory of that
    /// edition. `Memory` is want of memory.
    fn hold<R: Wait>(
        &self,
        rt: &R,
        seat: &mut Seat<Self::Board>,
        number: u64,
    ) -> Result<HoldAnswer, Memory>
        requires belongs { belongs self.now seat.old }
        requires may { MayCall seat.old }
        ensures belongs { belongs self.now seat.new }
        ensures called { IsCall seat.old seat.new (calls.Hold number) (hold_reply result) }
        ensures hands_out { HandsOut seat.new number result };
}
