//! A board behind a turnstile.

ghost use Rattle.std.specs.Prelude.{◌≡◌, ◌⊎◌, ◌<◌, ◌+◌, ◌-◌, ◌^◌, [], ◌++◌, Some, None, All, IfOk, IfSome, OnErr, OnOk, MatchResult};
ghost use Rattle.dl_calls.specs.declared.call.Call.TheVariants.{Enrol};
ghost use Rattle.dl_calls.specs.Histories.{IsLegal};
ghost use Rattle.dl_turn.specs.History.{StartsWith, own_lines, HasLines, AllBelow};
ghost use Rattle.dl_turn.specs.Views.{new_seat, with_board, numbers_of};
ghost use Rattle.dl_edition.specs.Offices.{Stays, Tells, enrol_reply};

use dl_base::Memory;
use dl_board::Board;
use dl_turn::{Seat, Turnstile};
use std::alloc::Global;
use std::marker::Model;
use std::sync::Wait;
use std::sync::ledger::{Ledger, Share};

/// A board that many threads call, each with a seat. Contracts see which turnstile it is: a seat belongs to the desk whose
/// `make` or `split` gave it, and each call asks for a seat of its own desk.
#[derive(Drop)]
pub struct Desk<L: Ledger> {
    pub(crate) turnstile: Turnstile<Board<L>>,
}

impl<L: Ledger> Model for Desk<L> {
    ghost use Rattle.atomic_table.specs.Seated.{TableId, table_id_coded};

    ghost Value = { TableId };

    ghost coded = { table_id_coded };

    ghost view = { λ d. d.turnstile };
}

impl<L: Ledger> Desk<L> {
    /// A desk for a board with an empty history, and its first seat, which has no number. It may wait, to put the board into
    /// its place. `Memory`, with the board as it was, is want of memory for the place.
    pub fn make<R: Wait>(
        rt: &R,
        alloc: Global,
        board: Board<L>,
    ) -> Result<(Desk<L>, Seat<Board<L>>), (Board<L>, Memory)>
        requires { board.history ≡ [] }
        ensures { MatchResult result (λ r. r.1 ≡ new_seat r.0 board.start []) (λ e. e.0 ≡ board) }
    {
        // where there is no entry, nobody is enrolled
        let _seats = board.enrolled();
        let (turnstile, seat) = Turnstile::make(rt, alloc, board)?;
        Ok((Desk { turnstile }, seat))
    }

    /// Gives the seat the next number, which is the amount of the whole share of the board's ledger, and raises that amount.
    /// It may wait. `Memory` is want of memory for the entry; the seat has no number and the share is as before then.
    pub fn enrol<R: Wait>(
        &self,
        rt: &R,
        seat: &mut Seat<Board<L>>,
        share: &mut Share<L>,
    ) -> Result<u64, Memory>
        requires belongs { seat.old.place ≡ self.now }
        requires unnumbered { seat.old.number ≡ None }
        requires within { seat.old.out ≡ None }
        requires whole { share.old.parts ≡ L.parts }
        requires some { 0 < share.old.parts }
        requires room { share.old.amount < 2 ^ 64 - 1 }
        ensures stays { Stays seat.old seat.new }
        ensures tells { Tells seat.old seat.new Enrol (enrol_reply result) }
        ensures number { IfOk result (λ number. (number ≡ share.old.amount) × (seat.new.number ≡ Some number)) }
        ensures amount { OnOk result (share.new.amount ≡ share.old.amount + 1) }
        ensures parts { share.new.parts ≡ share.old.parts }
        ensures same_amount { OnErr result (share.new.amount ≡ share.old.amount) }
    {
        let mut board = self.turnstile.take(rt, seat);
        let number = board.enrol(share);
        self.turnstile.give(rt, seat, board);
        number
    }

    /// A new seat, which has seen as much as this one and has no number. `Memory` is want of memory, and this seat is as
    /// before whatever the answer.
    pub fn split(&self, seat: &mut Seat<Board<L>>) -> Result<Seat<Board<L>>, Memory>
        requires belongs { seat.old.place ≡ self.now }
        requires within { seat.old.out ≡ None }
        ensures same { seat.new ≡ seat.old }
        ensures new { IfOk result (λ r. r ≡ new_seat self.now seat.old.start seat.old.seen) }
    {
        self.turnstile.split(seat)
    }

    /// Joins another seat into this one, which has then seen the longer of the two beginnings: the other one begins it. The
    /// other seat's number with its entries, and what was joined into it, are now among what was joined into this one.
    pub fn join(&self, seat: &mut Seat<Board<L>>, other: Seat<Board<L>>)
        requires belongs { (seat.old.place ≡ self.now) × (other.place ≡ self.now) }
        requires within { (seat.old.out ≡ None) × (other.out ≡ None) }
        ensures stays { let seen = seat.new.seen in
            seat.new ≡ record seat.old { seen = seen; olds = seat.old.olds ++ numbers_of other } }
        ensures one { (seat.new.seen ≡ seat.old.seen) ⊎ (seat.new.seen ≡ other.seen) }
        ensures both { StartsWith seat.new.seen seat.old.seen × StartsWith seat.new.seen other.seen }
    {
        self.turnstile.join(seat, other);
    }

    /// Waits until the board is in its place, and takes it for good. Its history is legal and begins with all that the seat has
    /// seen. It has of the seat's number, and of each number that was joined into the seat, just the entries that the seat
    /// knows. The seat comes back with the board, and is out.
    pub fn finish<R: Wait>(self, rt: &R, seat: Seat<Board<L>>) -> (Board<L>, Seat<Board<L>>)
        requires belongs { seat.place ≡ self }
        requires within { seat.out ≡ None }
        ensures seat { result.1 ≡ with_board seat result.0.history result.0.enrolled }
        ensures start { result.0.start ≡ seat.start }
        ensures legal { IsLegal result.0.start result.0.history }
        ensures seen { StartsWith result.0.history seat.seen }
        ensures mine { seat.mine ≡ own_lines (λ e. e.seat) seat.number result.0.history }
        ensures number { IfSome seat.number (λ k. k < result.0.enrolled) }
        ensures olds { All (HasLines (λ e. e.seat) result.0.history result.0.enrolled) seat.olds }
        ensures lines { AllBelow (λ e. e.seat) result.0.enrolled result.0.history }
    {
        let (board, seat) = self.turnstile.finish(rt, seat);
        // says that its history is legal
        let _entries = board.entries();
        (board, seat)
    }
}
