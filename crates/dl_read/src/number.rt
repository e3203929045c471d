//! Reading a number.

ghost use Rattle.std.specs.Prelude.{◌≡◌};
ghost use Rattle.dl_read.specs.Numbers.{begins_otherwise, ReadsNumber};

use std::str::from_utf8;

/// Whether the word has a first byte that begins no number: a sign, or a `0` that others follow.
fn begins_otherwise(word: &[u8]) -> bool
    ensures { result ≡ begins_otherwise word.now }
{
    match word.split_first() {
        None => false,
        Some((first, _)) => *first == b'+' || (*first == b'0' && word.len() > 1),
    }
}

/// The number that a word is in decimal. It is `None` exactly where the word is no number of at most 19 digits, or has a sign or
/// a leading zero.
pub fn read_number(word: &[u8]) -> Option<u64>
    ensures { ReadsNumber word.now result }
{
    let long = word.len() > 19;
    if long || begins_otherwise(word) {
        return None;
    }
    match from_utf8(word) {
        Ok(digits) => digits.parse().ok(),
        Err(_) => None,
    }
}
