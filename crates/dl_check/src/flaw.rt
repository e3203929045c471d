//! Why a certificate is not accepted.

use dl_lit::Memory;

/// Why a list is no certificate: it has no member, or a first bad one, counted from 0.
#[derive(Clone, Copy, Debug, PartialEq, Eq)]
pub enum Flaw {
    /// The list has no member.
    Empty,
    /// The member repeats an earlier one.
    Repeat { at: usize },
    /// A member of a derivation that does not meet its condition over those before it,
    /// or a member of a gap that meets its condition where exactly the members count as not derived.
    Step { at: usize },
}

/// Why a list was not accepted.
#[derive(Clone, Copy, Debug, PartialEq, Eq)]
pub enum CheckStop {
    Rejected(Flaw),
    Memory,
}

/// Why no certificate was read.
#[derive(Clone, Copy, Debug, PartialEq, Eq)]
pub enum CertStop {
    /// The first line outside the form, counted from 1.
    BadLine { line: u64 },
    Memory,
}

impl From<Memory> for CheckStop {
    ghost use Rattle.std.specs.Prelude.{◌≡◌};
    ghost use Rattle.dl_check.specs.declared.flaw.CheckStop.{CheckStop};

    ghost from_gives = { λ _ stop. stop ≡ CheckStop.Memory };

    fn from(_: Memory) -> CheckStop {
        CheckStop::Memory
    }
}

impl From<Memory> for CertStop {
    ghost use Rattle.std.specs.Prelude.{◌≡◌};
    ghost use Rattle.dl_check.specs.declared.flaw.CertStop.{CertStop};

    ghost from_gives = { λ _ stop. stop ≡ CertStop.Memory };

    fn from(_: Memory) -> CertStop {
        CertStop::Memory
    }
}
