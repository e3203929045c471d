//! Values in groups, each group found by its key.

ghost use Rattle.std.specs.Prelude.{◌≡◌, [], ◌∷◌, ◌++◌, OnOk, IfOk, false, if◌then◌else◌};
ghost use Rattle.dl_check.specs.Groups.{group};

use dl_lit::Memory;
use indexmap::IndexMap;
use std::alloc::Global;
use std::hash::Hash;

/// Values in groups. The values of a group keep the order in which they came.
#[derive(Drop)]
pub struct Groups<K: Eq + Hash, V> {
    pub groups: IndexMap<K, Vec<V>>,
}

impl<K: Eq + Hash + Drop, V: Drop> Groups<K, V> {
    pub fn make(alloc: Global) -> Groups<K, V>
        ensures { (k : K) → group K.eq result.groups.entries k ≡ [] }
    {
        Groups {
            groups: IndexMap::new(alloc),
        }
    }

    /// Puts a value last in the group of a key.
    pub fn push(&mut self, key: K, value: V) -> Result<(), Memory>
        ensures { OnOk result ((k : K) → group K.eq self.new.groups.entries k
            ≡ (if K.eq key k then group K.eq self.old.groups.entries key ++ value ∷ [] else group K.eq self.old.groups.entries k)) }
    {
        let mut values = take(&mut self.groups, &key)?;
        values.push(value)?;
        self.groups.insert(key, values)?;
        Ok(())
    }

    /// The values of a key.
    pub fn get(&self, key: &K) -> &[V]
        ensures { result.now ≡ group K.eq self.now.groups.entries key.now }
    {
        match self.groups.get(key) {
            Some(values) => values.as_slice(),
            None => &[],
        }
    }
}

/// Takes the values of a key out. Most keys have one value, so a new key gets room for one.
fn take<K: Eq + Hash + Drop, V: Drop>(
    groups: &mut IndexMap<K, Vec<V>>,
    key: &K,
) -> Result<Vec<V>, Memory>
    ensures values { IfOk result (λ values. values.items ≡ group K.eq groups.old.entries key.now) }
    ensures others { (k : K) → K.eq key.now k ≡ false → group K.eq groups.new.entries k ≡ group K.eq groups.old.entries k }
{
    let alloc = *groups.allocator();
    match groups.swap_remove(key) {
        Some(values) => Ok(values),
        None => Ok(Vec::with_capacity(alloc, 1)?),
    }
}
