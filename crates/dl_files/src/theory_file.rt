//! A theory from a file.

ghost use Rattle.std.specs.Prelude.{◌≡◌, ◌≤◌, ◌∷◌, ◌++◌, [], List, ℕ, false, length, OnOk, string_bytes, IsTrue, IsSome, IfOk, Some};
ghost use Rattle.dl_theory.specs.Lists.{no_lists};
ghost use Rattle.dl_files.specs.Theories.{limit, IsLoaded, HoldsLoaded};
ghost use Rattle.dl_files.specs.Reading.{ReadsOnly, CountsBy};
ghost use Rattle.dl_files.specs.Whole.{IsWhole, HasFault};

use crate::refusal::Refusal;
use crate::whole::{Stop, read_whole};
use dl_io::{House, OpenStop};
use dl_lit::Memory;
use dl_read::read_into;
use dl_theory::Loading;
use std::alloc::Global;

const LIMIT: usize = 67_108_864;

/// What a file gives: its theory, or why there is none. Its drop is derived, so that callers may take it apart.
#[derive(Drop)]
pub enum Loaded<T> {
    Theory(T),
    Refused(Refusal),
}

// The theory that these bytes say, loaded into what is empty.
fn load_bytes<T: Loading>(alloc: Global, empty: T, bytes: &[u8]) -> Result<Loaded<T>, Memory>
    requires { T.lists empty ≡ no_lists }
    ensures { length bytes.now ≤ limit → IfOk result (IsLoaded T.lists bytes.now) }
{
    match read_into(alloc, empty, bytes) {
        Ok(theory) => Ok(Loaded::Theory(theory)),
        Err(stop) => {
            let refusal = Refusal::from_stop(stop)?;
            Ok(Loaded::Refused(refusal))
        }
    }
}

// What a file that was read gives. `None` are more bytes than the limit.
fn load_whole<T: Loading>(
    alloc: Global,
    empty: T,
    whole: &Option<Vec<u8>>,
) -> Result<Loaded<T>, Memory>
    requires { T.lists empty ≡ no_lists }
    ensures { (bytes : List ℕ) → IsWhole limit (Some bytes) whole.now → IfOk result (IsLoaded T.lists bytes) }
{
    match whole {
        None => Ok(Loaded::Refused(Refusal::Size)),
        Some(bytes) => load_bytes(alloc, empty, bytes),
    }
}

/// The bytes of a file, or `None` where they are more than the limit. The file is settled again. `Fault` where opening or reading it
/// fails, and `Memory` where there is none.
pub fn read<H: House>(alloc: Global, house: &mut H, name: &String) -> Result<Option<Vec<u8>>, Stop>
    requires { (H.state house.old).open_in (string_bytes name.now) ≡ false }
    ensures house { ReadsOnly (H.state house.old) (H.state house.new) (string_bytes name.now ∷ []) }
    ensures cause { HasFault (H.state house.old).faults (H.state house.new).faults result }
    ensures whole { IfOk result (λ whole. IsWhole limit ((H.state house.old).holds (string_bytes name.now)) whole) }
    ensures told { IsTrue H.tells → IfOk result (λ whole. IsSome ((H.state house.old).holds (string_bytes name.now))) }
    ensures asked { OnOk result ((H.state house.new).asked_in ≡ (H.state house.old).asked_in ++ string_bytes name.now ∷ []) }
    ensures counts { CountsBy (H.state house.old) (H.state house.new) (string_bytes name.now) result }
{
    let mut source = match house.input(name) {
        Ok(source) => source,
        Err(OpenStop::Memory) => return Err(Stop::Memory),
        Err(OpenStop::Failed) => return Err(Stop::Fault),
    };
    let whole = read_whole(alloc, &mut source, LIMIT);
    house.settle_in(name, source);
    whole
}

/// The theory in a file, loaded into what is empty, or why there is none. The file is settled again. It ends with the errors of `read`.
pub fn load<H: House, T: Loading>(
    alloc: Global,
    house: &mut H,
    name: &String,
    empty: T,
) -> Result<Loaded<T>, Stop>
    requires shut { (H.state house.old).open_in (string_bytes name.now) ≡ false }
    requires empty { T.lists empty ≡ no_lists }
    ensures house { ReadsOnly (H.state house.old) (H.state house.new) (string_bytes name.now ∷ []) }
    ensures cause { HasFault (H.state house.old).faults (H.state house.new).faults result }
    ensures loaded { IsTrue H.tells → IfOk result (HoldsLoaded T.lists ((H.state house.old).holds (string_bytes name.now))) }
    ensures asked { OnOk result ((H.state house.new).asked_in ≡ (H.state house.old).asked_in ++ string_bytes name.now ∷ []) }
    ensures counts { CountsBy (H.state house.old) (H.state house.new) (string_bytes name.now) result }
{
    let whole = read(alloc, house, name)?;
    let loaded = load_whole(alloc, empty, &whole)?;
    Ok(loaded)
}
