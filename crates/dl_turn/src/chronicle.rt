//! What a board and the lines of its history tell the turnstile.
ghost use Rattle.std.specs.Prelude.{◌≡◌, ℕ, List};

/// A line of a history. It tells the number of the seat that made it.
pub trait Numbered {
    /// What a history of such lines begins from: plain data, for proofs alone.
    type Start;

    /// The number of the seat that made the line.
    ghost number: { Self → ℕ };

    /// Some start, of no meaning. It stands where a seat's view knows of none.
    ghost no_start: { Self.Start };
}

/// A board with a history: what it began from, its lines in order, and how many seats have a number.
pub trait Chronicle: Drop {
    /// What the history is made of.
    type Line: Numbered;

    /// What the history begins from.
    ghost start: { Self → Self.Line.Start };

    /// The lines, in order.
    ghost history: { Self → List Self.Line };

    /// How many seats have a number.
    ghost enrolled: { Self → ℕ };

    ghost use Rattle.dl_turn.specs.History.{AllBelow};

    /// How many seats have a number: each number below it is one's, and each line is of one of these numbers.
    fn enrolled(&self) -> u64
        ensures count { result ≡ enrolled self.now }
        ensures lines { AllBelow Self.Line.number (enrolled self.now) (history self.now) };
}
