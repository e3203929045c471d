//! What one caller knows of the turnstile.
ghost use Rattle.std.specs.Prelude.{◌≡◌};

use crate::chronicle::Chronicle;
use crate::rule::Known;
use crossbeam_queue::Pass;
use std::marker::Model;

/// A seat at a turnstile. Contracts see which turnstile it belongs to, the start of the history, the
/// seat's number, the beginning of the history that it has seen, its own lines, the numbers and lines of
/// the seats that were joined into it, and what it took while the board is out with it. At run time it
/// keeps its number, its pass and one count, and no list.
#[derive(Drop)]
pub struct Seat<B: Chronicle> {
    pub(crate) pass: Pass<B, Known<B>>,
    pub(crate) number: Option<u64>,
    // what the board told at the last take
    pub(crate) enrolled: u64,
}

impl<B: Chronicle> Model for Seat<B> {
    ghost use Rattle.crossbeam_queue.specs.Passes.{view as known};
    ghost use Rattle.dl_turn.specs.Seats.{IsSeated, shown};
    ghost use Rattle.dl_turn.specs.Views.{SeatView};

    ghost Value = { SeatView B.Line B.Line.Start };

    ghost view = { λ s. shown s.pass.table_id (known s.pass) };

    ghost invariant = { λ s. IsSeated s.pass s.number s.enrolled };
}

impl<B: Chronicle> Seat<B> {
    /// The number of the lines that the seat makes. None exactly where it has no number: no line was given
    /// from it yet.
    pub fn number(&self) -> Option<u64>
        ensures { result ≡ self.now.number }
    {
        self.number
    }
}
