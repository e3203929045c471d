//! What a board answers to a call.

ghost use Rattle.std.specs.Prelude.{◌≡◌, IfOk};
ghost use Rattle.dl_board.specs.Turns.{reply_of};

use dl_base::Memory;
use dl_calls::Reply;
use dl_edition::Held;
use dl_theory::EditRefusal;

/// What a board answers to a call of an enrolled seat.
#[derive(Drop)]
pub enum Turned {
    /// The edit was made.
    Edited,
    /// The draft stays as it was.
    EditRefused(EditRefusal),
    /// The draft was published under this number.
    Edition(u64),
    /// The edition that was asked for.
    Holding(Held),
    /// There is no such edition: one was asked for, and so many were published.
    Unpublished { asked: u64, published: u64 },
}

impl Turned {
    /// The reply that the history has. `Memory` where there is none for a copy of a refusal.
    pub fn reply(&self) -> Result<Reply, Memory>
        ensures { IfOk result (λ reply. reply ≡ reply_of self.now) }
    {
        match self {
            Turned::Edited => Ok(Reply::Edited),
            Turned::EditRefused(refusal) => Ok(Reply::EditRefused(refusal.copy()?)),
            Turned::Edition(number) => Ok(Reply::Edition(*number)),
            Turned::Holding(held) => Ok(Reply::Holding(held.number())),
            Turned::Unpublished { asked, published } => Ok(Reply::Unpublished {
                asked: *asked,
                published: *published,
            }),
        }
    }
}
