//! The front of a line.

use crate::spelled::Spelled;
use crate::token::Token;

/// What stands before the first name of a line that is kept, and so what follows. It borrows the line.
#[derive(Drop)]
pub enum Opening<'a> {
    /// The lower name of a pair follows.
    Pair {
        upper: Spelled<'a>,
    },
    /// The literal of a fact follows. Where it has no mode, it gets this one.
    Fact {
        mode: Option<Spelled<'a>>,
    },
    /// The rest of a rule follows, from this token on. Its body may begin with an atom that was read already.
    Rule {
        label: Option<Spelled<'a>>,
        mode: Option<Spelled<'a>>,
        atom: Option<Spelled<'a>>,
        token: Token<'a>,
    },
}
