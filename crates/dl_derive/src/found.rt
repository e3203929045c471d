//! Numbers that were found, in memory for these alone.

ghost use Rattle.std.specs.Prelude.{◌≡◌, ◌<◌, [], ◌∷◌, ◌++◌, ◌↔◌, IsTrue, OnOk, OnErr, Contains, length, slice_get};

use dl_base::Memory;
use indexmap::IndexSet;
use std::alloc::Global;
use std::marker::Model;

/// A set of numbers below a bound, in the order in which they came. It takes no room for numbers that are not members.
#[derive(Drop)]
pub(crate) struct Found {
    bound: usize,
    members: IndexSet<usize>,
}

impl Model for Found {
    ghost use Rattle.dl_graph.specs.Region.{Numbers, IsRegion};

    ghost Value = { Numbers };

    ghost view = { λ f. record { bound = f.bound; members = f.members.keys } };

    ghost invariant = { λ f. IsRegion (record { bound = f.bound; members = f.members.keys }) };
}

impl Found {
    ghost use Rattle.dl_graph.specs.Region.{IsRegion};

    /// No members.
    pub fn make(alloc: Global, bound: usize) -> Found
        ensures bound { result.bound ≡ bound }
        ensures members { result.members ≡ [] }
    {
        Found {
            bound,
            members: IndexSet::new(alloc),
        }
    }

    /// Adds a number at the end, unless it is a member.
    pub fn put(&mut self, number: usize) -> Result<(), Memory>
        requires { number < self.old.bound }
        ensures bound { self.new.bound ≡ self.old.bound }
        ensures there { Contains self.old.members number → self.new.members ≡ self.old.members }
        ensures new { OnOk result ((¬ Contains self.old.members number) → self.new.members ≡ self.old.members ++ number ∷ []) }
    {
        if has_number(&self.members, number) {
            return Ok(());
        }
        append(&mut self.members, number)
    }

    /// Below what all members are.
    pub fn bound(&self) -> usize
        ensures { result ≡ self.now.bound }
    {
        self.bound
    }

    /// Whether a number is a member.
    pub fn holds(&self, number: usize) -> bool
        ensures { IsTrue result ↔ Contains self.now.members number }
    {
        has_number(&self.members, number)
    }

    /// How many members there are.
    pub fn len(&self) -> usize
        ensures len { result ≡ length self.now.members }
        ensures region { IsRegion self.now }
    {
        self.members.len()
    }

    /// The member at a place; `None` exactly past the last.
    pub fn at(&self, place: usize) -> Option<usize>
        ensures member { result ≡ slice_get self.now.members place }
        ensures region { IsRegion self.now }
    {
        self.members.get_index(place).copied()
    }
}

fn has_number(numbers: &IndexSet<usize>, number: usize) -> bool
    ensures { IsTrue result ↔ Contains numbers.now.keys number }
{
    numbers.contains(&number)
}

fn append(numbers: &mut IndexSet<usize>, number: usize) -> Result<(), Memory>
    requires { ¬ Contains numbers.old.keys number }
    ensures ok { OnOk result (numbers.new.keys ≡ numbers.old.keys ++ number ∷ []) }
    ensures err { OnErr result (numbers.new.keys ≡ numbers.old.keys) }
{
    numbers.insert(number)?;
    Ok(())
}
