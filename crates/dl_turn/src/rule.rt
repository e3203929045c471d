//! The rule of the turnstile's place, and what each kind of step tells the seat that makes it. For proofs
//! alone.
//!
//! There are six kinds: the opening push, a take that gets the board, a take that finds none, a give, a
//! split and a join.
ghost use Rattle.std.specs.Prelude.{◌≡◌, []};

use crate::chronicle::{Chronicle, Numbered};
use crate::view::PassView;
use crossbeam_queue::protocol::{Join, Lesson, Outcome, Protocol, Split};

/// What the pass of a seat at a board of this type knows.
pub type Known<B> = PassView<<B as Chronicle>::Line, <<B as Chronicle>::Line as Numbered>::Start>;

/// The rule: there is one history, and what each seat knows fits it.
pub struct OneHistory;

impl<B: Chronicle> Protocol<B, Known<B>> for OneHistory {
    ghost use Rattle.dl_turn.specs.Rules.{Holds};
    ghost use Rattle.dl_turn.specs.Steps.{fresh};

    ghost holds = { Holds B.start B.history B.enrolled B.Line.number B.Line.no_start };

    ghost first = { fresh B.Line.no_start };
}

/// The board is put into its place for the first time.
pub struct Opens;

impl<B: Chronicle> Outcome<B, Known<B>> for Opens {
    ghost use Rattle.std.specs.Prelude.{◌≡◌, []};
    ghost use Rattle.dl_turn.specs.Steps.{newcomer};

    ghost then = { λ v b w. w ≡ newcomer (B.start b) [] };
}

impl<B: Chronicle> Lesson<B, Known<B>> for Opens {
    ghost fact = { λ v items. items ≡ [] };
}

/// A seat gets the board, which fits what the seat knows.
pub struct Takes;

impl<B: Chronicle> Outcome<B, Known<B>> for Takes {
    ghost use Rattle.std.specs.Prelude.{◌≡◌};
    ghost use Rattle.dl_turn.specs.Steps.{taken};
    ghost use Rattle.dl_turn.specs.History.{AllBelow};
    ghost use Rattle.dl_turn.specs.Rules.{Fits};

    ghost then = { λ v b w. (w ≡ taken (B.history b) (B.enrolled b) v)
        × Fits B.Line.number (B.start b) (B.history b) (B.enrolled b) v
        × AllBelow B.Line.number (B.enrolled b) (B.history b) };
}

/// A seat gives the board back. While the board is out the place is empty, so it is not refused.
pub struct Gives;

impl<B: Chronicle> Outcome<B, Known<B>> for Gives {
    ghost use Rattle.std.specs.Prelude.{◌≡◌};
    ghost use Rattle.dl_turn.specs.Steps.{given};

    ghost then = { λ v b w. w ≡ given (B.history b) (B.enrolled b) v };
}

impl<B: Chronicle> Lesson<B, Known<B>> for Gives {
    ghost fact = { λ v items. items ≡ [] };
}

/// A new seat is made beside another.
pub struct Splits;

impl<L, S> Split<PassView<L, S>> for Splits {
    ghost use Rattle.dl_turn.specs.Steps.{beside};

    ghost left = { λ v. v };

    ghost right = { beside };
}

/// A seat is joined into another.
pub struct Joins;

impl<L: Numbered> Join<PassView<L, <L as Numbered>::Start>> for Joins {
    ghost use Rattle.dl_turn.specs.Steps.{joined, emptied};

    ghost both = { joined };

    ghost spent = { emptied L.no_start };
}

/// What a seat has seen and what a seat that was joined into it had seen are beginnings of one history.
pub struct Compares;

impl<B: Chronicle> Lesson<B, Known<B>> for Compares {
    ghost use Rattle.std.specs.Prelude.{List};
    ghost use Rattle.dl_turn.specs.History.{StartsWith};

    ghost fact = { λ v items. (h : List B.Line) × StartsWith h v.seen × StartsWith h v.also_seen };
}
