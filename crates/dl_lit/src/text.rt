//! The bytes of a name. Most names are short: their bytes stand in the name itself, and long ones are shared.

ghost use Rattle.std.specs.Prelude.{◌≡◌, ◌≤◌, IfOk, length};

use dl_base::Memory;
use std::alloc::Global;
use std::sync::ArcSlice;

/// As many bytes as stand in the name itself.
const SHORT: usize = 12;

/// A few bytes in place. The length has 16 bits for the sake of moves: beside a length of 8 bits the bytes of a text would begin at an
/// odd place, and a move of seven bytes takes two steps that overlap, each of which waits for the one before.
#[derive(Clone, Copy)]
pub(crate) struct Short {
    len: u16,
    bytes: [u8; SHORT],
    ghost within: { len ≤ 12 },
}

/// Bytes in place, or shared ones.
#[derive(Drop)]
pub(crate) enum Text {
    Short(Short),
    Long(ArcSlice<u8>),
}

impl Short {
    ghost use Rattle.dl_lit.specs.Text.{short_bytes};

    #[inline(always)]
    fn make(bytes: &[u8]) -> Short
        requires { length bytes.now ≤ 12 }
        ensures { short_bytes result ≡ bytes.now }
    {
        let mut room = [0; SHORT];
        room[..bytes.len()].copy_from_slice(bytes);
        Short {
            len: bytes.len() as u16,
            bytes: room,
        }
    }

    // always inlined, here and in names and literals: a copy or a look at a name is then a few instructions, and nothing goes through memory
    #[inline(always)]
    fn as_slice(&self) -> &[u8]
        ensures { result.now ≡ short_bytes self.now }
    {
        &self.bytes[..self.len as usize]
    }
}

impl Text {
    ghost use Rattle.dl_lit.specs.Text.{text_bytes};

    pub(crate) fn make(alloc: Global, bytes: &[u8]) -> Result<Text, Memory>
        ensures { IfOk result (λ text. text_bytes text ≡ bytes.now) }
    {
        if bytes.len() <= SHORT {
            return Ok(Text::Short(Short::make(bytes)));
        }
        Ok(Text::Long(ArcSlice::from_slice(alloc, bytes)?))
    }

    #[inline(always)]
    pub(crate) fn copy(&self) -> Result<Text, Memory>
        ensures { IfOk result (λ copy. text_bytes copy ≡ text_bytes self.now) }
    {
        match self {
            // field by field: as one piece, the length and the first letters would be six bytes, which no register takes, and each move
            // would go through memory
            Text::Short(short) => Ok(Text::Short(Short {
                len: short.len,
                bytes: short.bytes,
            })),
            Text::Long(long) => Ok(Text::Long(long.clone()?)),
        }
    }

    #[inline(always)]
    pub(crate) fn as_slice(&self) -> &[u8]
        ensures { result.now ≡ text_bytes self.now }
    {
        match self {
            Text::Short(short) => short.as_slice(),
            Text::Long(long) => long.as_slice(),
        }
    }
}
