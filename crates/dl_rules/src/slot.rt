//! What stands at a number.

ghost use Rattle.std.specs.Prelude.{◌≡◌, Some};
ghost use Rattle.dl_rules.specs.KeptLines.{kind_in};

use dl_theory::Kind;

/// A rule of a kind, or nothing where the rule has gone. It has one byte, where an option of a kind has two.
#[derive(Clone, Copy, Debug, PartialEq, Eq)]
pub(crate) enum Slot {
    Strict,
    Defeasible,
    Defeater,
    Gone,
}

impl Slot {
    /// The slot of a rule of this kind.
    #[inline(always)]
    pub fn of(kind: Kind) -> Slot
        ensures { kind_in result ≡ Some kind }
    {
        match kind {
            Kind::Strict => Slot::Strict,
            Kind::Defeasible => Slot::Defeasible,
            Kind::Defeater => Slot::Defeater,
        }
    }

    /// The kind of the rule; `None` exactly where it has gone.
    #[inline(always)]
    pub fn kind(self) -> Option<Kind>
        ensures { result ≡ kind_in self }
    {
        match self {
            Slot::Strict => Some(Kind::Strict),
            Slot::Defeasible => Some(Kind::Defeasible),
            Slot::Defeater => Some(Kind::Defeater),
            Slot::Gone => None,
        }
    }
}
