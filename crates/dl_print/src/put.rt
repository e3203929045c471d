//! Conclusions, put into memory that has room for them.

ghost use Rattle.std.specs.Prelude.{◌≡◌, ◌+◌, ◌<◌, ◌≤◌, ◌++◌, IfSome, IfNone, length};
ghost use Rattle.std.specs.Vec.{vec_len, vec_capacity};
ghost use Rattle.std.specs.Option.{option_copied};
ghost use Rattle.dl_lit.specs.Borrowed.{literal_of};
ghost use Rattle.dl_print.specs.Text.{mode_text, sign_text, literal_text};
ghost use Rattle.dl_print.specs.Conclusion.{conclusion_text};
ghost use Rattle.dl_print.specs.Room.{HasRoom, Puts, mode_room, conclusion_room};

use crate::conclusion::verdict_byte;
use crate::requests::family_letter;
use dl_lit::{Family, LiteralRef, Name};
use dl_theory::Verdict;

/// The bytes of a conclusion beside its atom and its mode, at most: the verdict, the brackets and the sign.
const BESIDE: usize = 6;

// inlined always, here and below: a conclusion is then a few stores
#[inline(always)]
fn put(text: &mut Vec<u8>, bytes: &[u8])
    requires { HasRoom text.old bytes.now }
    ensures { Puts text.old text.new bytes.now }
{
    // byte by byte, because most names are shorter than what a call costs
    for byte in bytes {
        text.push_reserved(*byte);
    }
}

#[inline(always)]
fn put_mode(text: &mut Vec<u8>, mode: Option<&Name>)
    requires { HasRoom text.old (mode_text (option_copied mode)) }
    ensures { Puts text.old text.new (mode_text (option_copied mode.entry)) }
{
    if let Some(mode) = mode {
        text.push_reserved(b'[');
        put(text, mode.bytes());
        text.push_reserved(b']');
    }
}

#[inline(always)]
fn put_sign(text: &mut Vec<u8>, positive: bool)
    requires { HasRoom text.old (sign_text positive) }
    ensures { Puts text.old text.new (sign_text positive) }
{
    if !positive {
        text.push_reserved(b'-');
    }
}

#[inline(always)]
fn put_literal(text: &mut Vec<u8>, literal: LiteralRef<'_>)
    requires { HasRoom text.old (literal_text (literal_of literal)) }
    ensures { Puts text.old text.new (literal_text (literal_of literal.entry)) }
{
    put_mode(text, literal.mode);
    put_sign(text, literal.positive);
    put(text, literal.atom.bytes());
}

/// Puts a verdict in a family on a literal, without an LF, behind a text that has room for it.
#[inline(always)]
pub fn put_conclusion(text: &mut Vec<u8>, verdict: Verdict, family: Family, literal: LiteralRef<'_>)
    requires { HasRoom text.old (conclusion_text verdict family (literal_of literal)) }
    ensures { Puts text.old text.new (conclusion_text verdict family (literal_of literal.entry)) }
{
    put(text, &[verdict_byte(verdict), family_letter(family), b' ']);
    put_literal(text, literal);
}

fn mode_len(mode: Option<&Name>) -> usize
    ensures { result ≡ mode_room (option_copied mode.entry) }
{
    match mode {
        None => 0,
        Some(mode) => mode.bytes().len(),
    }
}

/// What room is left behind the most that a conclusion on a literal takes; `None` exactly where there is not so much.
#[inline(always)]
pub fn room_behind(literal: LiteralRef<'_>, room: usize) -> Option<usize>
    ensures left { IfSome result (λ left. left + conclusion_room (literal_of literal.entry) ≡ room) }
    ensures full { IfNone result (room < conclusion_room (literal_of literal.entry)) }
    ensures enough { (verdict : Verdict) → (family : Family) → length (conclusion_text verdict family (literal_of literal.entry)) ≤ conclusion_room (literal_of literal.entry) }
{
    let left = room.checked_sub(BESIDE)?;
    let left = left.checked_sub(mode_len(literal.mode))?;
    left.checked_sub(literal.atom.bytes().len())
}
