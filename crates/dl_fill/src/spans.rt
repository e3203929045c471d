//! Where the wires of a kind stand.

ghost use Rattle.std.specs.Prelude.{◌≡◌, ◌⊎◌, ℕ, ◌+◌, ◌<◌, ◌≤◌, ◌^◌, List, [], length, Some, slice_get};
ghost use Rattle.std.specs.List.{flat_map};
ghost use Rattle.dl_fill.specs.declared.wire.Wire.{Wire};
ghost use Rattle.dl_fill.specs.Spans.{side, IsSpans, AreWithin};

use crate::wire::Wire;

/// For how many kinds spans are told.
const KINDS: usize = 32;

/// For each kind, between which two places of a list of wires those of the kind stand.
#[derive(Clone, Copy)]
pub struct Spans {
    starts: [usize; KINDS],
    ends: [usize; KINDS],
}

/// The kind to which a wire leads, or from which.
fn kind_of(wire: &Wire, to: bool) -> usize
    ensures { result ≡ side to wire.now }
{
    if to { wire.to } else { wire.from }
}

impl Spans {
    /// Where the wires stand that lead to a kind.
    pub fn to(wires: &[Wire]) -> Spans
        ensures { IsSpans (λ w. w.to) wires.now (length wires.now) result }
    {
        Spans::by(wires, true)
    }

    /// Where the wires stand that lead from a kind.
    pub fn from(wires: &[Wire]) -> Spans
        ensures { IsSpans (λ w. w.from) wires.now (length wires.now) result }
    {
        Spans::by(wires, false)
    }

    /// Where the wires stand that lead to a kind, or from it.
    fn by(wires: &[Wire], to: bool) -> Spans
        ensures { IsSpans (side to) wires.now (length wires.now) result }
    {
        let mut spans = Spans {
            starts: [0; KINDS],
            ends: [0; KINDS],
        };
        for at in 0..wires.len() {
            spans.widen(kind_of(&wires[at], to), at);
        }
        spans
    }

    /// The wire at a place past all earlier ones is of that kind.
    fn widen(&mut self, kind: usize, at: usize)
        requires { at + 1 < 2 ^ 64 }
        ensures { (of : Wire → ℕ) (wires : List Wire) → IsSpans of wires at self.old → ((w : Wire) → slice_get wires at ≡ Some w → of w ≡ kind) → IsSpans of wires (at + 1) self.new }
    {
        if kind < KINDS {
            if self.ends[kind] == 0 {
                self.starts[kind] = at;
            }
            self.ends[kind] = at + 1;
        }
    }

    /// A part of the wires in which all those of the kind stand.
    // Inlined always, as what reads it: so no node costs a call.
    #[inline(always)]
    pub fn part<'a>(&self, wires: &'a [Wire], kind: usize) -> &'a [Wire]
        requires { AreWithin (length wires.now) self.now }
        ensures few { length result.now ≤ length wires.now }
        ensures same { (of : Wire → ℕ) → IsSpans of wires.now (length wires.now) self.now → (f : Wire → List ℕ) → ((w : Wire) → (of w ≡ kind) ⊎ (f w ≡ [])) → flat_map f result.now ≡ flat_map f wires.now }
    {
        if kind >= KINDS {
            return wires;
        }
        &wires[self.starts[kind]..self.ends[kind]]
    }
}
