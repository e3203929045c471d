//! The eight marks of a number, as the bits of one byte.

ghost use Rattle.std.specs.Prelude.{◌≡◌, ◌<◌, if◌then◌else◌};
ghost use Rattle.dl_marks.specs.Marks.{mark, same_tag, new_row};
ghost use Rattle.dl_marks.specs.Bytes.{place, row_of};

use dl_lit::{Family, Tag};

/// The marks of a new number: the four minus tags.
pub(crate) const NEW: u8 = 0b1111_0000;

/// The place of a tag's bit. The plus tags have the lower half.
fn place(tag: Tag) -> u32
    ensures place { result ≡ place tag }
    ensures small { result < 8 }
{
    let family = match tag.family {
        Family::Definite => 0,
        Family::Blocking => 1,
        Family::Propagating => 2,
        Family::Support => 3,
    };
    if tag.plus { family } else { family + 4 }
}

pub(crate) fn has(byte: u8, tag: Tag) -> bool
    ensures { result ≡ mark (row_of byte) tag }
{
    (byte >> place(tag)) & 1 == 1
}

/// The byte with one mark set or cleared.
pub(crate) fn with(byte: u8, tag: Tag, value: bool) -> u8
    ensures { (t : Tag) → mark (row_of result) t ≡ (if same_tag t tag then value else mark (row_of byte) t) }
{
    let bit = 1u8 << place(tag);
    if value { byte | bit } else { byte & !bit }
}
