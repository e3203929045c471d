//! Which reply a request has. No byte of it is written here.

ghost use Rattle.std.specs.Prelude.{◌≡◌, List, IsSome};
ghost use Rattle.dl_calls.specs.declared.entry.Entry.{Entry};
ghost use Rattle.dl_edition.specs.Offices.{MayCall};
ghost use Rattle.dl_session.specs.Answering.{text_of, made_reply, hold_reply, made_text, TellsOf, TellsFound, Answers};
ghost use Rattle.dl_session.specs.Replies.{Queries, Requests};
ghost use Rattle.dl_session.specs.Table.{theory_in, Keeps};

use crate::calls::{Outcome, edit, hold, publish};
use crate::query::{Query, tell};
use crate::ready::Ready;
use crate::table::HeldTable;
use dl_base::Memory;
use dl_calls::Reply;
use dl_edition::{Held, Office};
use dl_request::Request;
use dl_turn::Seat;
use std::sync::Wait;

/// The reply to a call.
fn made(reply: Result<Reply, Memory>) -> Ready
    ensures { text_of result ≡ made_text (made_reply reply) }
{
    match reply {
        Ok(reply) => Ready::Reply(reply),
        Err(Memory) => Ready::Memory,
    }
}

/// The reply to the hold of an edition.
fn held(number: u64, hold: Outcome) -> Ready
    ensures { text_of result ≡ made_text (hold_reply number hold) }
{
    match hold {
        Outcome::Kept => Ready::Reply(Reply::Holding(number)),
        Outcome::Unpublished { asked, published } => {
            Ready::Reply(Reply::Unpublished { asked, published })
        }
        Outcome::Memory => Ready::Memory,
    }
}

/// What an edition answers, or that there was no memory for it.
fn told(held: &Held, query: &Query) -> Ready
    ensures { TellsOf held.now.theory query.now (text_of result) }
{
    match tell(held, query) {
        Ok(ready) => ready,
        Err(Memory) => Ready::Memory,
    }
}

/// What an edition in the table answers.
fn told_from(table: &HeldTable, number: u64, query: &Query) -> Ready
    requires { IsSome (theory_in table.now.editions number) }
    ensures { TellsFound (theory_in table.now.editions number) query.now (text_of result) }
{
    match table.find(number) {
        Some(held) => told(held, query),
        None => unreachable!(),
    }
}

/// The reply to a question about an edition, which is first held where it is not held yet.
fn ask<R: Wait, O: Office>(
    rt: &R,
    office: &O,
    seat: &mut Seat<O::Board>,
    table: &mut HeldTable,
    number: u64,
    query: &Query,
) -> Ready
    requires belongs { O.belongs office.now seat.old }
    requires may { MayCall seat.old }
    ensures belongs { O.belongs office.now seat.new }
    ensures answers { (before : List Entry) → Keeps seat.old before table.old.editions
        → Answers (λ S used bytes. Queries S before number query.now used bytes) seat.old seat.new before table.new.editions (text_of result) }
{
    if let Some(held) = table.find(number) {
        return told(held, query);
    }
    match hold(rt, office, seat, table, number) {
        Outcome::Kept => told_from(table, number, query),
        Outcome::Unpublished { asked, published } => {
            Ready::Reply(Reply::Unpublished { asked, published })
        }
        Outcome::Memory => Ready::Memory,
    }
}

/// The reply to a request.
pub(crate) fn answer<R: Wait, O: Office>(
    rt: &R,
    office: &O,
    seat: &mut Seat<O::Board>,
    table: &mut HeldTable,
    request: Request,
) -> Ready
    requires belongs { O.belongs office.now seat.old }
    requires may { MayCall seat.old }
    ensures belongs { O.belongs office.now seat.new }
    ensures answers { (before : List Entry) → Keeps seat.old before table.old.editions
        → Answers (λ S used bytes. Requests S before request used bytes) seat.old seat.new before table.new.editions (text_of result) }
{
    match request {
        Request::Edit(change) => made(edit(rt, office, seat, change)),
        Request::Publish => made(publish(rt, office, seat)),
        Request::Hold(number) => held(number, hold(rt, office, seat, table, number)),
        Request::Ask {
            edition,
            family,
            literal,
        } => ask(
            rt,
            office,
            seat,
            table,
            edition,
            &Query::Ask(family, literal),
        ),
        Request::Text { edition } => ask(rt, office, seat, table, edition, &Query::Text),
        Request::Conclusions { edition, family } => {
            ask(
                rt,
                office,
                seat,
                table,
                edition,
                &Query::Conclusions(family),
            )
        }
    }
}
