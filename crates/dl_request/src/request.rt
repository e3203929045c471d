//! What a line of a session may ask for.

use dl_lit::{Family, Literal};
use dl_theory::Edit;

/// A call, or a question about an edition. An edition is named by its number.
#[derive(Drop)]
pub enum Request {
    /// Make this edit.
    Edit(Edit),
    /// Publish the theory as it is now.
    Publish,
    /// Hold this edition.
    Hold(u64),
    /// The verdict on a literal, with its certificate.
    Ask {
        edition: u64,
        family: Family,
        literal: Literal,
    },
    /// The canonical text.
    Text {
        edition: u64,
    },
    /// The conclusions in a family.
    Conclusions {
        edition: u64,
        family: Family,
    },
}

/// What a line asks for.
#[derive(Drop)]
pub enum Asked {
    /// Nothing: the line is blank, or only a comment. It is skipped.
    Nothing,
    /// The end of the session.
    Quit,
    /// A request.
    Request(Request),
    /// It is refused: a `(` stands before any `#`.
    Variables,
    /// It is refused: it has another form.
    Form,
}
