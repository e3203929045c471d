//! Names of a letter and a number.

ghost use Rattle.std.specs.Prelude.{◌≡◌, ◌∷◌, IsTrue, IfOk, decimal};
ghost use Rattle.dl_lit.specs.Name.{begins_name};
ghost use Rattle.dl_draw.specs.Generator.{atom_name, rule_label, added_label};

use dl_lit::{Memory, Name};
use itoa::Buffer;
use std::alloc::Global;

fn numbered(alloc: Global, letter: u8, number: u64) -> Result<Name, Memory>
    requires { IsTrue (begins_name letter) }
    ensures { IfOk result (λ name. name ≡ letter ∷ decimal number) }
{
    let mut buffer = Buffer::new();
    let mut text = Vec::from_slice(alloc, &[letter])?;
    text.extend_from_slice(buffer.format(number).as_bytes())?;
    Name::from_spelled(alloc, text.as_slice())
}

/// `p` and a number.
pub(crate) fn atom_name(alloc: Global, number: u64) -> Result<Name, Memory>
    ensures { IfOk result (λ name. name ≡ atom_name number) }
{
    numbered(alloc, b'p', number)
}

/// `r` and a number.
pub(crate) fn rule_label(alloc: Global, number: u64) -> Result<Name, Memory>
    ensures { IfOk result (λ name. name ≡ rule_label number) }
{
    numbered(alloc, b'r', number)
}

/// `n` and a number.
pub(crate) fn added_label(alloc: Global, number: u64) -> Result<Name, Memory>
    ensures { IfOk result (λ name. name ≡ added_label number) }
{
    numbered(alloc, b'n', number)
}
