//! The turnstile: the one place of the board, and the calls that take it and give it back.
ghost use Rattle.std.specs.Prelude.{◌≡◌, ◌⊎◌, ℕ, ◌+◌, ◌<◌, List, [], ◌∷◌, ◌++◌, Some, None, MatchResult, IfOk, IfSome, All};
ghost use Rattle.crossbeam_queue.specs.Passes.{view, IsPassOf, IsSamePass, ruled_capacity};
ghost use Rattle.dl_turn.specs.History.{StartsWith, own_lines, HasLines, AllBelow};
ghost use Rattle.dl_turn.specs.Rules.{Fits};
ghost use Rattle.dl_turn.specs.Steps.{newcomer, taken, given};
ghost use Rattle.dl_turn.specs.Views.{new_seat, with_board, numbers_of, MayGive};
ghost use Rattle.dl_turn.specs.declared.view.Stage.TheVariants.{Fresh, Seated};

use crate::chronicle::Chronicle;
use crate::rule::{Compares, Gives, Joins, Known, OneHistory, Opens, Splits, Takes};
use crate::seat::Seat;
use crossbeam_queue::{Pass, RuledArrayQueue};
use crossbeam_utils::Backoff;
use dl_base::Memory;
use std::alloc::Global;
use std::marker::Model;
use std::sync::Wait;

type Place<B> = RuledArrayQueue<B, Known<B>, OneHistory>;

/// One place for a board, which threads take and give back in turn. Contracts see which turnstile it is:
/// a seat belongs to the turnstile whose `make` or `split` gave it, for good, and each call asks for a
/// seat of its own turnstile.
pub struct Turnstile<B: Chronicle> {
    place: Place<B>,
}

impl<B: Chronicle> Drop for Turnstile<B> {
    fn drop(self) {
        let Turnstile { place: _ } = self;
    }
}

impl<B: Chronicle> Model for Turnstile<B> {
    ghost use Rattle.std.specs.Prelude.{◌≡◌};
    ghost use Rattle.atomic_table.specs.Seated.{TableId, table_id_coded};
    ghost use Rattle.crossbeam_queue.specs.Passes.{ruled_capacity};

    ghost Value = { TableId };

    ghost coded = { table_id_coded };

    ghost view = { λ t. t.place.table.shared.table_id };

    ghost invariant = { λ t. ruled_capacity t.place ≡ 1 };
}

// Puts the board into its place for the first time.
fn open<B: Chronicle, R: Wait>(rt: &R, place: &Place<B>, pass: &mut Pass<B, Known<B>>, board: B)
    requires pass { IsPassOf place.now pass.old × ((view pass.old).stage ≡ Fresh) }
    requires place { ruled_capacity place.now ≡ 1 }
    requires empty { B.history board ≡ [] }
    requires nobody { B.enrolled board ≡ 0 }
    ensures pass { IsSamePass pass.old pass.new }
    ensures view { view pass.new ≡ newcomer (B.start board) [] }
{
    let Ok(()) = place.push_as::<Opens, R>(rt, pass, board) else {
        unreachable!()
    };
}

// Waits until the board is in its place, and takes it. Between two tries it lets other threads run.
fn wait_for<B: Chronicle, R: Wait>(rt: &R, place: &Place<B>, pass: &mut Pass<B, Known<B>>) -> B
    requires { IsPassOf place.now pass.old × ((view pass.old).stage ≡ Seated) }
    ensures pass { IsSamePass pass.old pass.new }
    ensures view { view pass.new ≡ taken (B.history result) (B.enrolled result) (view pass.old) }
    ensures fits { Fits B.Line.number (B.start result) (B.history result) (B.enrolled result) (view pass.old) }
    ensures lines { AllBelow B.Line.number (B.enrolled result) (B.history result) }
{
    let backoff = Backoff::new();
    for _ in rt.forever() {
        if let Some(board) = place.try_pop_as::<Takes>(pass) {
            return board;
        }
        backoff.snooze();
    }
    unreachable!()
}

// Puts the board back into its place, which is empty.
fn put_back<B: Chronicle, R: Wait>(rt: &R, place: &Place<B>, pass: &mut Pass<B, Known<B>>, board: B)
    requires pass { IsPassOf place.now pass.old × ((view pass.old).stage ≡ Seated) }
    requires place { ruled_capacity place.now ≡ 1 }
    requires start { B.start board ≡ (view pass.old).start }
    requires may { let v = view pass.old in
        MayGive B.Line.number v.out v.number (B.history board) (B.enrolled board) }
    ensures pass { IsSamePass pass.old pass.new }
    ensures view { view pass.new ≡ given (B.history board) (B.enrolled board) (view pass.old) }
{
    let Ok(()) = place.push_as::<Gives, R>(rt, pass, board) else {
        unreachable!()
    };
}

impl<B: Chronicle> Turnstile<B> {
    /// A turnstile for a board with an empty history, and its first seat, which has no number. It may wait,
    /// to put the board into its place. `Memory`, with the board as it was, is want of memory for the place.
    pub fn make<R: Wait>(
        rt: &R,
        alloc: Global,
        board: B,
    ) -> Result<(Turnstile<B>, Seat<B>), (B, Memory)>
        requires empty { B.history board ≡ [] }
        requires nobody { B.enrolled board ≡ 0 }
        ensures { MatchResult result (λ r. r.1 ≡ new_seat r.0 (B.start board) []) (λ e. e.0 ≡ board) }
    {
        let (place, mut pass) = match Place::<B>::ruled(alloc, 1) {
            Ok(made) => made,
            Err(_) => return Err((board, Memory)),
        };
        open(rt, &place, &mut pass, board);
        let seat = Seat {
            pass,
            number: None,
            enrolled: 0,
        };
        Ok((Turnstile { place }, seat))
    }

    /// Waits until the board is in its place, and takes it. Its history begins with all that the seat has
    /// seen, and has of the seat's number, and of each number that was joined into the seat, just the lines
    /// that the seat knows. The seat is then out.
    pub fn take<R: Wait>(&self, rt: &R, seat: &mut Seat<B>) -> B
        requires place { seat.old.place ≡ self.now }
        requires within { seat.old.out ≡ None }
        ensures seat { seat.new ≡ with_board seat.old (B.history result) (B.enrolled result) }
        ensures start { B.start result ≡ seat.old.start }
        ensures seen { StartsWith (B.history result) seat.old.seen }
        ensures mine { seat.old.mine ≡ own_lines B.Line.number seat.old.number (B.history result) }
        ensures number { IfSome seat.old.number (λ k. k < B.enrolled result) }
        ensures olds { All (HasLines B.Line.number (B.history result) (B.enrolled result)) seat.old.olds }
        ensures lines { AllBelow B.Line.number (B.enrolled result) (B.history result) }
    {
        let board = wait_for(rt, &self.place, &mut seat.pass);
        seat.enrolled = board.enrolled();
        board
    }

    /// Gives the board back: as it was taken; or with one more line, of the seat's number; or, from a seat
    /// with no number, with one more line of the next number, which is then the seat's. The seat has seen
    /// the board's history, its own lines have grown by the one line if there is one, and it is no longer
    /// out. It may wait.
    pub fn give<R: Wait>(&self, rt: &R, seat: &mut Seat<B>, board: B)
        requires place { seat.old.place ≡ self.now }
        requires start { B.start board ≡ seat.old.start }
        requires may { MayGive B.Line.number seat.old.out seat.old.number (B.history board) (B.enrolled board) }

        // Place, start and olds stay, the seat has seen the board's history, and it is not out.
        ensures stays { let n = seat.new.number in let m = seat.new.mine in
            seat.new ≡ record seat.old { number = n; seen = B.history board; mine = m; out = None } }
        ensures as_taken { seat.old.out ≡ Some (B.history board, B.enrolled board)
            → (seat.new.number ≡ seat.old.number) × (seat.new.mine ≡ seat.old.mine) }
        ensures own_line { (before : List B.Line) (l : B.Line) → seat.old.out ≡ Some (before, B.enrolled board)
            → B.history board ≡ before ++ l ∷ []
            → (seat.new.number ≡ seat.old.number) × (seat.new.mine ≡ seat.old.mine ++ l ∷ []) }
        ensures first_line { (before : List B.Line) (l : B.Line) → seat.old.out ≡ Some (before, B.Line.number l)
            → B.history board ≡ before ++ l ∷ [] → B.enrolled board ≡ B.Line.number l + 1
            → (seat.new.number ≡ Some (B.Line.number l)) × (seat.new.mine ≡ seat.old.mine ++ l ∷ []) }
    {
        let enrolled = board.enrolled();
        put_back(rt, &self.place, &mut seat.pass, board);
        if seat.enrolled != enrolled {
            seat.number = Some(seat.enrolled);
        }
    }

    /// A new seat, which has seen as much as this one and has no number. `Memory` is want of memory, and this
    /// seat is as before whatever the answer.
    pub fn split(&self, seat: &mut Seat<B>) -> Result<Seat<B>, Memory>
        requires place { seat.old.place ≡ self.now }
        requires within { seat.old.out ≡ None }
        ensures same { seat.new ≡ seat.old }
        ensures new { IfOk result (λ r. r ≡ new_seat self.now seat.old.start seat.old.seen) }
    {
        let pass = self.place.another::<Splits>(&mut seat.pass);
        Ok(Seat {
            pass,
            number: None,
            enrolled: 0,
        })
    }

    /// Joins another seat into this one, which has then seen the longer of the two beginnings: the other one
    /// begins it. The other seat's number with its lines, and what was joined into it, are now among what
    /// was joined into this one.
    pub fn join(&self, seat: &mut Seat<B>, other: Seat<B>)
        requires place { (seat.old.place ≡ self.now) × (other.place ≡ self.now) }
        requires within { (seat.old.out ≡ None) × (other.out ≡ None) }
        ensures stays { let seen = seat.new.seen in
            seat.new ≡ record seat.old { seen = seen; olds = seat.old.olds ++ numbers_of other } }
        ensures one { (seat.new.seen ≡ seat.old.seen) ⊎ (seat.new.seen ≡ other.seen) }
        ensures both { StartsWith seat.new.seen seat.old.seen × StartsWith seat.new.seen other.seen }
    {
        let Seat {
            pass,
            number: _,
            enrolled: _,
        } = other;
        self.place.absorb::<Joins>(&mut seat.pass, pass);
        self.place.learn_as::<Compares>(&mut seat.pass);
    }

    /// Waits until the board is in its place, and takes it for good, as `take` does. The seat comes back with
    /// it, and is out.
    pub fn finish<R: Wait>(self, rt: &R, mut seat: Seat<B>) -> (B, Seat<B>)
        requires place { seat.place ≡ self }
        requires within { seat.out ≡ None }
        ensures seat { result.1 ≡ with_board seat (B.history result.0) (B.enrolled result.0) }
        ensures start { B.start result.0 ≡ seat.start }
        ensures seen { StartsWith (B.history result.0) seat.seen }
        ensures mine { seat.mine ≡ own_lines B.Line.number seat.number (B.history result.0) }
        ensures number { IfSome seat.number (λ k. k < B.enrolled result.0) }
        ensures olds { All (HasLines B.Line.number (B.history result.0) (B.enrolled result.0)) seat.olds }
        ensures lines { AllBelow B.Line.number (B.enrolled result.0) (B.history result.0) }
    {
        let board = self.take(rt, &mut seat);
        (board, seat)
    }
}
