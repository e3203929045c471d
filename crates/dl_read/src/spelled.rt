//! Names as they stand in a line.

ghost use Rattle.std.specs.Prelude.{◌≡◌, IsTrue, IfOk};
ghost use Rattle.dl_lit.specs.Name.{is_name};

use dl_lit::{Memory, Name};
use std::alloc::Global;
use std::marker::Model;

/// Bytes of a line that are spelled as a name. The name itself is made where it is kept.
#[derive(Drop)]
pub struct Spelled<'a> {
    bytes: &'a [u8],
}

impl<'a> Model for Spelled<'a> {
    ghost use Rattle.std.specs.Prelude.{IsTrue, List, ℕ};
    ghost use Rattle.dl_lit.specs.Name.{is_name};

    ghost Value = { List ℕ };

    ghost view = { λ s. s.bytes.now };

    ghost invariant = { λ s. IsTrue (is_name s.bytes.now) };
}

impl<'a> Spelled<'a> {
    /// Bytes that are known to be a name.
    pub(crate) fn of(bytes: &'a [u8]) -> Spelled<'a>
        requires { IsTrue (is_name bytes.now) }
        ensures { result ≡ bytes.now }
    {
        Spelled { bytes }
    }

    /// The same bytes once more.
    pub(crate) fn again(&self) -> Spelled<'a>
        ensures { result ≡ self.now }
    {
        Spelled { bytes: self.bytes }
    }

    // so that the name is made where it is kept
    #[inline(always)]
    pub fn name(self, alloc: Global) -> Result<Name, Memory>
        ensures { IfOk result (λ name. name ≡ self.entry) }
    {
        Name::from_spelled(alloc, self.bytes)
    }
}

/// The name of a mode or a label, where there is one.
pub(crate) fn name_if(alloc: Global, spelled: Option<Spelled>) -> Result<Option<Name>, Memory>
    ensures { IfOk result (λ name. name ≡ spelled.entry) }
{
    match spelled {
        Some(spelled) => Ok(Some(spelled.name(alloc)?)),
        None => Ok(None),
    }
}
