//! What was accepted.

ghost use Rattle.std.specs.Prelude.{◌≡◌};

use dl_lit::{Family, Literal};
use dl_theory::Verdict;

/// A verdict on a literal in a family that a checker accepted with its certificate. Only `Checker::accept` makes one, and
/// none is copied, so each stands for one certificate that was checked as a whole.
pub struct Accepted {
    pub(crate) family: Family,
    pub(crate) literal: Literal,
    pub(crate) verdict: Verdict,
}

impl Drop for Accepted {
    fn drop(self) {
        let Accepted {
            family: _,
            literal: _,
            verdict: _,
        } = self;
    }
}

impl Accepted {
    pub fn family(&self) -> Family
        ensures { result ≡ self.now.family }
    {
        self.family
    }

    pub fn literal(&self) -> &Literal
        ensures { result.now ≡ self.now.literal }
    {
        &self.literal
    }

    pub fn verdict(&self) -> Verdict
        ensures { result ≡ self.now.verdict }
    {
        self.verdict
    }
}
