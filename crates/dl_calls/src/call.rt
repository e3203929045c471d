//! What a seat can call for.

use dl_theory::Edit;

#[derive(Drop)]
pub enum Call {
    /// Asks for the number of a new seat.
    Enrol,
    /// Changes the draft.
    Edit(Edit),
    /// Makes the draft the next edition, which then stays as it is.
    Publish,
    /// Asks for the edition with this number.
    Hold(u64),
}
