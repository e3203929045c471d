//! The words of a request.

ghost use Rattle.std.specs.Prelude.{◌≡◌};
ghost use Rattle.std.specs.List.{prefix_len};
ghost use Rattle.dl_read.specs.Grammar.{is_blank, begins_with};
ghost use Rattle.dl_read.specs.Words.{in_word, word_of, past_word};

use crate::pieces::front;
use crate::scanner::{is_blank, past, past_blanks};

fn in_word(byte: u8) -> bool
    ensures { result ≡ in_word byte }
{
    !is_blank(byte) && byte != b'#'
}

fn word_length(bytes: &[u8]) -> usize
    ensures { result ≡ prefix_len in_word bytes.now }
{
    bytes.iter().take_while(|b| in_word(**b)).count()
}

/// The first word of a line, up to a blank or a comment, and what follows it.
#[tactic(auto, using(crate::proofs::WordLemmas::word_within))]
pub fn cut_word(line: &[u8]) -> (&[u8], &[u8])
    ensures word { result.0.now ≡ word_of line.now }
    ensures rest { result.1.now ≡ past_word line.now }
{
    let bytes = past_blanks(line);
    let len = word_length(bytes);
    (front(bytes, len), past(bytes, len))
}

/// Whether a line begins with a blank.
pub fn begins_blank(line: &[u8]) -> bool
    ensures { result ≡ begins_with is_blank line.now }
{
    match line.split_first() {
        None => false,
        Some((first, _)) => is_blank(*first),
    }
}
