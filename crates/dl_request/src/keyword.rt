//! The first word of a line.

ghost use Rattle.std.specs.Prelude.{◌≡◌, ◌↔◌, IsTrue, MatchOption};
ghost use Rattle.dl_request.specs.Reading.{spelled, IsEditWord};
ghost use Rattle.dl_request.specs.declared.keyword.Keyword.{Keyword};

/// A first word that says what the line asks for, where that is no edit.
#[derive(Clone, Copy, Debug, PartialEq, Eq)]
pub enum Keyword {
    Quit,
    Publish,
    Hold,
    Ask,
    Text,
    Conclusions,
}

/// Whether a word is this one.
pub fn is_word(word: &[u8], other: &[u8]) -> bool
    ensures { IsTrue result ↔ (word.now ≡ other.now) }
{
    word == other
}

/// Whether a line that begins with this word may make an edit.
pub fn is_edit_word(word: &[u8]) -> bool
    ensures { IsTrue result ↔ IsEditWord word.now }
{
    is_word(word, b"add") || is_word(word, b"drop")
}

/// The keyword that a word is.
pub fn keyword_of(word: &[u8]) -> Option<Keyword>
    ensures { MatchOption result ((k : Keyword) → word.now ≡ spelled k → ⊥) (λ k. word.now ≡ spelled k) }
{
    if is_word(word, b"quit") {
        Some(Keyword::Quit)
    } else if is_word(word, b"publish") {
        Some(Keyword::Publish)
    } else if is_word(word, b"hold") {
        Some(Keyword::Hold)
    } else if is_word(word, b"ask") {
        Some(Keyword::Ask)
    } else if is_word(word, b"text") {
        Some(Keyword::Text)
    } else if is_word(word, b"conclusions") {
        Some(Keyword::Conclusions)
    } else {
        None
    }
}
