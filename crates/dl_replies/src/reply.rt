//! What the program says.

ghost use Rattle.std.specs.Prelude.{◌≡◌};
ghost use Rattle.dl_replies.specs.Replies.{reply_status};

use crate::checked::Checked;
use dl_conclusions::Concluded;
use dl_files::{Refusal, Status};
use dl_lit::Family;
use dl_summary::Summary;
use dl_theory::Theory;

/// What the program says.
pub enum Reply {
    /// The words have no form.
    Usage,
    /// A file gives no theory.
    Refused(Refusal),
    /// The conclusions of a theory in a family.
    Conclusions(Family, Concluded),
    /// The canonical text of a theory.
    Text(Theory),
    /// What is said of a certificate.
    Checked(Checked),
    /// What the calls of a number come to.
    Generated(Summary),
}

impl Drop for Reply {
    fn drop(self) {
        match self {
            Reply::Usage => {}
            Reply::Refused(_refusal) => {}
            Reply::Conclusions(_, _concluded) => {}
            Reply::Text(_theory) => {}
            Reply::Checked(_) => {}
            Reply::Generated(_summary) => {}
        }
    }
}

/// How the program ends where it said this.
pub fn status_of(reply: &Reply) -> Status
    ensures { result ≡ reply_status reply.now }
{
    match reply {
        Reply::Usage => Status::Usage,
        Reply::Refused(_) => Status::Refused,
        Reply::Conclusions(_, _) => Status::Done,
        Reply::Text(_) => Status::Done,
        Reply::Checked(Checked::Accepted) => Status::Done,
        Reply::Checked(Checked::Rejected { .. }) => Status::Rejected,
        Reply::Generated(_) => Status::Done,
    }
}
