//! Reading tagged literals.

ghost use Rattle.std.specs.Prelude.{◌≡◌, MatchOption};
ghost use Rattle.std.specs.List.{list_any};
ghost use Rattle.dl_lit.specs.declared.literal.Tagged.{Tagged};
ghost use Rattle.dl_read.specs.Grammar.{Reads};
ghost use Rattle.dl_read.specs.Tagged.{begins_comment, plus_of, family_of, tag_of, HasTag, IsTagged, IsBareTagged};

use crate::read::{outside, read_literal};
use crate::statement::LineStop;
use crate::words::begins_blank;
use dl_lit::{Family, Tag, Tagged};
use std::alloc::Global;

fn plus_of(byte: u8) -> Option<bool>
    ensures { result ≡ plus_of byte }
{
    match byte {
        b'+' => Some(true),
        b'-' => Some(false),
        _ => None,
    }
}

fn family_of(byte: u8) -> Option<Family>
    ensures { result ≡ family_of byte }
{
    match byte {
        b'D' => Some(Family::Definite),
        b'd' => Some(Family::Blocking),
        b'a' => Some(Family::Propagating),
        b's' => Some(Family::Support),
        _ => None,
    }
}

fn tag_of(sign: u8, letter: u8) -> Option<Tag>
    ensures { result ≡ tag_of sign letter }
{
    let plus = plus_of(sign)?;
    let family = family_of(letter)?;
    Some(Tag { plus, family })
}

/// The tag at the front of a line, and what follows it.
fn cut_tag(line: &[u8]) -> Option<(Tag, &[u8])>
    ensures { MatchOption result ((x : Tagged) → IsTagged line.now x → ⊥) (λ cut. HasTag line.now cut.0 cut.1.now) }
{
    let (sign, behind) = line.split_first()?;
    let (letter, rest) = behind.split_first()?;
    let tag = tag_of(*sign, *letter)?;
    if begins_blank(rest) {
        Some((tag, rest))
    } else {
        None
    }
}

/// The tagged literal that a line is.
/// Variables comes exactly where a `(` stands before any `#`, and Bad exactly where none does and the line is no tagged literal.
pub fn read_tagged(alloc: Global, line: &[u8]) -> Result<Tagged, LineStop>
    ensures { Reads IsTagged line.now result }
{
    match cut_tag(line) {
        None => Err(outside(line)),
        Some((tag, rest)) => match read_literal(alloc, rest) {
            Ok(literal) => Ok(Tagged {
                plus: tag.plus,
                family: tag.family,
                literal,
            }),
            Err(stop) => Err(stop),
        },
    }
}

fn begins_comment(byte: u8) -> bool
    ensures { result ≡ begins_comment byte }
{
    byte == b'#'
}

fn has_comment(line: &[u8]) -> bool
    ensures { result ≡ list_any begins_comment line.now }
{
    line.iter().any(|b| begins_comment(*b))
}

/// The tagged literal that a line without a comment is, as a certificate has it. A line with a `#` is Bad.
pub fn read_bare_tagged(alloc: Global, line: &[u8]) -> Result<Tagged, LineStop>
    ensures { Reads IsBareTagged line.now result }
{
    match read_tagged(alloc, line) {
        Ok(tagged) => {
            if has_comment(line) {
                Err(LineStop::Bad)
            } else {
                Ok(tagged)
            }
        }
        Err(stop) => Err(stop),
    }
}
