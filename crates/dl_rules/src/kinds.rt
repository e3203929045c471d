//! How many rules of a list can conclude so much.

ghost use Rattle.std.specs.Prelude.{◌≡◌, ◌≤◌, All, length, filter};
ghost use Rattle.dl_theory.specs.Lists.{can_support};
ghost use Rattle.dl_rules.specs.Lines.{passes, line_at, IsThere};

use crate::lines::Lines;
use dl_theory::Kind;

/// Whether a rule of this kind supports its head.
pub(crate) fn can_support(kind: Kind) -> bool
    ensures { result ≡ can_support kind }
{
    match kind {
        Kind::Strict => true,
        Kind::Defeasible => true,
        Kind::Defeater => false,
    }
}

/// Whether a rule of this kind is strict, or else whether it supports its head.
pub(crate) fn passes(kind: Kind, strict: bool) -> bool
    ensures { result ≡ passes strict kind }
{
    if strict {
        kind.is_strict()
    } else {
        can_support(kind)
    }
}

/// How many of the rules are strict, or else can support their heads.
pub(crate) fn count(lines: &Lines, rules: &[u32], strict: bool) -> usize
    requires { All (IsThere lines.now.items) rules.now }
    ensures value { result ≡ length (filter (λ s. passes strict (line_at lines.now.items s).kind) rules.now) }
    ensures few { result ≤ length rules.now }
{
    let mut count = 0;
    for rule in rules {
        if passes(lines.kind(*rule as usize), strict) {
            count += 1;
        }
    }
    count
}
