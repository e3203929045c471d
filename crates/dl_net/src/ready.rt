//! What stands for an edit that is prepared.

use dl_theory::Edit;

/// An edit for which all memory has been taken.
pub struct Ready {
    pub(crate) edit: Edit,
}

impl Drop for Ready {
    fn drop(self) {
        let Ready { edit: _ } = self;
    }
}
