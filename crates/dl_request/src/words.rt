//! The words of a line behind its first.

ghost use Rattle.std.specs.Prelude.{◌≡◌, ◌↔◌, ℕ, List, IsTrue, MatchOption};
ghost use Rattle.dl_lit.specs.declared.literal.Family.{Family};
ghost use Rattle.dl_request.specs.Reading.{IsLetter, AreNumberAndLetter};
ghost use Rattle.dl_request.specs.Requests.{HasNoToken, IsEdition};

use crate::keyword::is_word;
use dl_lit::Family;
use dl_read::{cut_word, read_number};

/// Whether a line is only blanks and a comment.
pub fn has_no_token(line: &[u8]) -> bool
    ensures { IsTrue result ↔ HasNoToken line.now }
{
    let (word, _) = cut_word(line);
    word.is_empty()
}

/// The family that a letter names.
fn family_of(word: &[u8]) -> Option<Family>
    ensures { MatchOption result ((f : Family) → IsLetter word.now f → ⊥) (IsLetter word.now) }
{
    if is_word(word, b"D") {
        Some(Family::Definite)
    } else if is_word(word, b"d") {
        Some(Family::Blocking)
    } else if is_word(word, b"a") {
        Some(Family::Propagating)
    } else if is_word(word, b"s") {
        Some(Family::Support)
    } else {
        None
    }
}

/// The number that a line is.
pub fn only_number(line: &[u8]) -> Option<u64>
    ensures { MatchOption result ((n : ℕ) → IsEdition line.now n → ⊥) (IsEdition line.now) }
{
    let (word, rest) = cut_word(line);
    let number = read_number(word)?;
    if has_no_token(rest) {
        Some(number)
    } else {
        None
    }
}

/// The number and the family that a line begins with, and what follows them.
pub fn cut_number_and_family(line: &[u8]) -> Option<(u64, Family, &[u8])>
    ensures { MatchOption result ((n : ℕ) (f : Family) (rest : List ℕ) → AreNumberAndLetter line.now n f rest → ⊥)
        (λ cut. AreNumberAndLetter line.now cut.0 cut.1 cut.2.now) }
{
    let (first, behind) = cut_word(line);
    let number = read_number(first)?;
    let (second, rest) = cut_word(behind);
    let family = family_of(second)?;
    Some((number, family, rest))
}
