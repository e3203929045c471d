//! How many answers have which verdict.

use dl_check::Accepted;
use dl_theory::Verdict;

/// So many literals are proved, refuted, and neither.
#[derive(Clone, Copy, Debug, PartialEq, Eq)]
pub struct Counts {
    pub proved: u64,
    pub refuted: u64,
    pub neither: u64,
}

/// What a theory says in each family, counted, and the accepted answers that were counted: first those in definite, then in blocking, in
/// propagating and in support, each in the order of the literals.
pub struct Survey {
    pub definite: Counts,
    pub blocking: Counts,
    pub propagating: Counts,
    pub support: Counts,
    pub checked: Vec<Accepted>,
}

impl Drop for Survey {
    fn drop(self) {
        let Survey {
            definite: _,
            blocking: _,
            propagating: _,
            support: _,
            checked: _,
        } = self;
    }
}

impl Counts {
    ghost use Rattle.std.specs.Prelude.{◌≡◌, map};
    ghost use Rattle.dl_summary.specs.Survey.{counts_of};
    ghost use Rattle.dl_summary.specs.Answers.{verdict_of};

    /// The counts of the verdicts that were accepted.
    pub fn of(answers: &[Accepted]) -> Counts
        ensures { result ≡ counts_of (map verdict_of answers.now) }
    {
        let mut counts = Counts {
            proved: 0,
            refuted: 0,
            neither: 0,
        };
        for answer in answers {
            match answer.verdict() {
                Verdict::Proved => counts.proved += 1,
                Verdict::Refuted => counts.refuted += 1,
                Verdict::Neither => counts.neither += 1,
            }
        }
        counts
    }
}
