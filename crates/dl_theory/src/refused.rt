//! Why pairs of numbers are refused, in labels.

ghost use Rattle.std.specs.Prelude.{◌≡◌, ◌<◌, All, IfOk, map, length};
ghost use Rattle.dl_theory.specs.Pairs.{label_at};
ghost use Rattle.dl_theory.specs.Superiority.{StopsWithin, IsToldAs};

use crate::edit::{EditRefusal, PairsStop};
use crate::lists::Path;
use dl_lit::{Memory, Name};
use dl_sup::LoadStop;
use std::alloc::Global;

/// Why no more pairs of numbers were added, in labels. There may be no memory for the path of a cycle.
pub(crate) fn told(alloc: Global, items: &[Name], stop: LoadStop) -> PairsStop
    requires { StopsWithin items.now stop }
    ensures { IsToldAs items.now stop result }
{
    match stop {
        LoadStop::There { at } => {
            let refusal = EditRefusal::PairThere;
            PairsStop::Refused { at, refusal }
        }
        LoadStop::Cycle { at, track } => match path_of(alloc, items, track.as_slice()) {
            Err(_) => PairsStop::Memory,
            Ok(path) => {
                let refusal = EditRefusal::Cycle(path);
                PairsStop::Refused { at, refusal }
            }
        },
        LoadStop::Memory => PairsStop::Memory,
    }
}

/// The labels of a track of numbers.
pub(crate) fn path_of(alloc: Global, items: &[Name], track: &[usize]) -> Result<Path, Memory>
    requires { All (λ n. n < length items.now) track.now }
    ensures { IfOk result (λ path. path ≡ map (label_at items.now) track.now) }
{
    let mut path = Path::make(alloc);
    for n in track {
        path.push(items[*n].copy()?)?;
    }
    Ok(path)
}
