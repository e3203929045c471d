//! How the program ends.

use std::process::ExitCode;

/// The exit statuses 0 to 6, in this order.
#[derive(Clone, Copy, Debug, PartialEq, Eq)]
pub enum Status {
    /// The words were answered.
    Done,
    /// A file is too large, or does not load as a theory.
    Refused,
    /// The words have no form that the program knows.
    Usage,
    /// There was no memory.
    Memory,
    /// The outside failed.
    Fault,
    /// A certificate was not accepted.
    Rejected,
    /// A session read all that it may.
    Spent,
}

impl Status {
    ghost use Rattle.std.specs.Prelude.{◌≡◌};
    ghost use Rattle.dl_files.specs.Statuses.{status_code};

    /// The exit status.
    pub fn code(self) -> u8
        ensures { result ≡ status_code self }
    {
        self as u8
    }
}

/// A process ends with the exit status.
impl From<Status> for ExitCode {
    ghost use Rattle.std.specs.Prelude.{◌≡◌};
    ghost use Rattle.std.specs.Process.{exit_status};
    ghost use Rattle.dl_files.specs.Statuses.{status_code};

    ghost from_gives = { λ status code. exit_status code ≡ status_code status };

    fn from(status: Status) -> ExitCode {
        ExitCode::from(status.code())
    }
}
