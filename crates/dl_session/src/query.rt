//! What a session asks of an edition that it holds.

ghost use Rattle.std.specs.Prelude.{IfOk};
ghost use Rattle.dl_session.specs.Answering.{text_of};
ghost use Rattle.dl_session.specs.Replies.{IsText};

use crate::ready::Ready;
use dl_base::Memory;
use dl_edition::Held;
use dl_lit::{Family, Literal};

/// A question about a theory.
#[derive(Drop)]
pub(crate) enum Query {
    /// The verdict on a literal, with its certificate.
    Ask(Family, Literal),
    /// The canonical text.
    Text,
    /// The conclusions in a family.
    Conclusions(Family),
}

/// What an edition answers. `Memory` where there is none for the reply.
pub(crate) fn tell(held: &Held, query: &Query) -> Result<Ready, Memory>
    ensures { IfOk result (λ ready. IsText held.now.theory query.now (text_of ready)) }
{
    match query {
        Query::Ask(family, literal) => {
            let answer = held.ask(*family, literal)?;
            Ok(Ready::Answer(answer))
        }
        Query::Text => {
            let held = held.copy()?;
            Ok(Ready::Text(held))
        }
        Query::Conclusions(family) => {
            let conclusions = held.conclusions(*family)?;
            Ok(Ready::Conclusions(*family, conclusions))
        }
    }
}
