//! The calls that a session makes from its seat.

ghost use Rattle.std.specs.Prelude.{IfOk};
ghost use Rattle.dl_calls.specs.declared.call.Call.TheVariants as calls;
ghost use Rattle.dl_edition.specs.Offices.{MayCall};
ghost use Rattle.dl_session.specs.Answering.{made_reply, hold_reply, Makes, HoldsNone, HoldsBy};

use crate::table::HeldTable;
use dl_base::Memory;
use dl_calls::Reply;
use dl_edition::{HoldAnswer, Office};
use dl_theory::{Edit, EditStop};
use dl_turn::Seat;
use std::sync::Wait;

/// Edits the draft.
pub(crate) fn edit<R: Wait, O: Office>(
    rt: &R,
    office: &O,
    seat: &mut Seat<O::Board>,
    edit: Edit,
) -> Result<Reply, Memory>
    requires belongs { O.belongs office.now seat.old }
    requires may { MayCall seat.old }
    ensures belongs { O.belongs office.now seat.new }
    ensures made { Makes seat.old seat.new (calls.Edit edit) (made_reply result) }
    ensures holds { IfOk result HoldsNone }
{
    match office.edit(rt, seat, edit) {
        Ok(()) => Ok(Reply::Edited),
        Err(EditStop::Refused(refusal)) => Ok(Reply::EditRefused(refusal)),
        Err(EditStop::Memory) => Err(Memory),
    }
}

/// Publishes the draft.
pub(crate) fn publish<R: Wait, O: Office>(
    rt: &R,
    office: &O,
    seat: &mut Seat<O::Board>,
) -> Result<Reply, Memory>
    requires belongs { O.belongs office.now seat.old }
    requires may { MayCall seat.old }
    ensures belongs { O.belongs office.now seat.new }
    ensures made { Makes seat.old seat.new calls.Publish (made_reply result) }
    ensures holds { IfOk result HoldsNone }
{
    match office.publish(rt, seat) {
        Ok(number) => Ok(Reply::Edition(number)),
        Err(Memory) => Err(Memory),
    }
}

/// What came of a hold.
#[derive(Clone, Copy)]
pub(crate) enum Outcome {
    /// The edition is in the table.
    Kept,
    /// There is no such edition.
    Unpublished { asked: u64, published: u64 },
    /// There was no memory.
    Memory,
}

/// Holds an edition, and keeps it in the table. Room for it is taken first, so that each edition that the office hands out is kept.
pub(crate) fn hold<R: Wait, O: Office>(
    rt: &R,
    office: &O,
    seat: &mut Seat<O::Board>,
    table: &mut HeldTable,
    number: u64,
) -> Outcome
    requires belongs { O.belongs office.now seat.old }
    requires may { MayCall seat.old }
    ensures belongs { O.belongs office.now seat.new }
    ensures made { Makes seat.old seat.new (calls.Hold number) (hold_reply number result) }
    ensures holds { HoldsBy seat.new number table.old.editions table.new.editions result }
{
    if table.reserve().is_err() {
        return Outcome::Memory;
    }
    match office.hold(rt, seat, number) {
        Ok(HoldAnswer::Holding(held)) => {
            table.keep(held);
            Outcome::Kept
        }
        Ok(HoldAnswer::Unpublished { asked, published }) => Outcome::Unpublished {
            asked,
            published,
        },
        Err(Memory) => Outcome::Memory,
    }
}
