//! The distinct labels of rules, most of which can be shared.

ghost use Rattle.std.specs.Prelude.{◌≡◌, ◌+◌, ◌<◌, ◌≤◌, ◌↔◌, [], ◌∷◌, ◌++◌, true, false, take, OnOk, OnErr, IfOk, IfSome, IfNone, Contains, length, if◌then◌else◌};
ghost use Rattle.std.specs.Arc.{arc_value};
ghost use Rattle.dl_base.specs.Paths.{IsDistinct};
ghost use Rattle.dl_lists.specs.Names.{name_at, no_names};
ghost use Rattle.dl_lists.specs.KeptNames.{shared_in};

use dl_base::Memory;
use dl_lit::{Name, NameSet, name_set};
use dl_theory::{holds_label, insert_label};
use std::alloc::Global;
use std::marker::Model;
use std::mem;
use std::sync::Arc;

/// Distinct labels in the order of their entries. Those that were there at a freeze are shared with each copy, so that a copy takes
/// time and memory only by those that came later.
pub(crate) struct LabelNames {
    /// Labels that do not change any more.
    shared: Option<Arc<NameSet<Name>>>,
    /// Those that came later, each behind the shared ones.
    later: NameSet<Name>,
}

impl Drop for LabelNames {
    fn drop(self) {
        let LabelNames {
            shared: _,
            later: _,
        } = self;
    }
}

impl Model for LabelNames {
    ghost use Rattle.dl_lists.specs.Names.{NameLists};
    ghost use Rattle.dl_lists.specs.KeptNames.{names_of, IsKeptNames};

    ghost Value = { NameLists };

    ghost view = { names_of };

    ghost invariant = { IsKeptNames };
}

impl LabelNames {
    /// No labels. Takes no memory.
    pub fn make(alloc: Global) -> LabelNames
        ensures { result ≡ no_names }
    {
        LabelNames {
            shared: None,
            later: name_set(alloc),
        }
    }

    /// These labels, none of which is shared. Takes no memory.
    pub fn of(names: NameSet<Name>) -> LabelNames
        ensures { result ≡ record { keys = names.keys; later = length names.keys } }
    {
        // a set says by its length that no name stands there twice
        let _distinct = names.len();
        LabelNames {
            shared: None,
            later: names,
        }
    }

    /// Adds a label at the end where it is new, and tells whether it is. `Memory` leaves the labels as they were.
    #[inline(always)]
    pub fn insert(&mut self, label: Name) -> Result<bool, Memory>
        ensures new { IfOk result (λ new. (new ≡ false) ↔ Contains self.old.keys label) }
        ensures keys { IfOk result (λ new. self.new.keys ≡ self.old.keys ++ (if new then label ∷ [] else [])) }
        ensures later { IfOk result (λ new. self.new.later ≡ self.old.later + (if new then 1 else 0)) }
        ensures err { OnErr result (self.new ≡ self.old) }
    {
        if is_shared(&self.shared, &label) {
            return Ok(false);
        }
        let new = insert_label(&mut self.later, label)?;
        Ok(new)
    }

    /// Labels at the end go, until there are so many. Shared ones stay.
    pub fn truncate(&mut self, count: usize)
        requires { length self.old.keys ≤ count + self.old.later }
        ensures { self.new.keys ≡ take count self.old.keys }
    {
        let before = shared_len(&self.shared);
        self.later.truncate(count - before);
    }

    /// Labels become shared. Those that came after an earlier freeze are joined with the shared ones only where the square of their number
    /// is above that of the shared ones: this takes time by all labels, and is then rare. Where there is no memory, all stay as they were.
    pub fn freeze(&mut self)
        ensures { self.new.keys ≡ self.old.keys }
    {
        let alloc = *self.later.allocator();
        match &self.shared {
            None => {
                let names = mem::replace(&mut self.later, name_set(alloc));
                *self = all_shared(alloc, names);
            }
            Some(shared) => {
                let later = self.later.len();
                if later.saturating_mul(later) > shared.len() {
                    if let Ok(all) = joined(alloc, shared, &self.later) {
                        *self = LabelNames {
                            shared: Some(all),
                            later: name_set(alloc),
                        };
                    }
                }
            }
        }
    }

    /// The label of an entry.
    #[inline(always)]
    pub fn name(&self, entry: usize) -> &Name
        requires { entry < length self.now.keys }
        ensures { result.now ≡ name_at self.now.keys entry }
    {
        match &self.shared {
            None => name_in(&self.later, entry),
            Some(shared) => {
                let before = shared.len();
                if entry < before {
                    name_in(shared, entry)
                } else {
                    name_in(&self.later, entry - before)
                }
            }
        }
    }

    /// The entry of a label.
    #[inline(always)]
    pub fn find(&self, label: &Name) -> Option<usize>
        ensures within { IfSome result (λ e. e < length self.now.keys) }
        ensures there { IfSome result (λ e. name_at self.now.keys e ≡ label.now) }
        ensures absent { IfNone result (¬ Contains self.now.keys label.now) }
        ensures distinct { IsDistinct self.now.keys }
    {
        match &self.shared {
            None => place_of(&self.later, label),
            Some(shared) => place_in_both(shared, &self.later, label),
        }
    }

    /// The same labels, of which the same are shared.
    pub fn copy(&self) -> Result<LabelNames, Memory>
        ensures { IfOk result (λ copy. copy ≡ self.now) }
    {
        let shared = match &self.shared {
            None => None,
            Some(shared) => Some(Arc::try_clone(shared)?),
        };
        let mut later = name_set(*self.later.allocator());
        add_all(&mut later, &self.later)?;
        Ok(LabelNames { shared, later })
    }
}

/// How many labels are shared.
#[inline(always)]
fn shared_len(shared: &Option<Arc<NameSet<Name>>>) -> usize
    ensures { result ≡ length (shared_in shared.now) }
{
    match shared {
        None => 0,
        Some(names) => names.len(),
    }
}

/// Whether a label is shared.
#[inline(always)]
fn is_shared(shared: &Option<Arc<NameSet<Name>>>, label: &Name) -> bool
    ensures there { result ≡ true → Contains (shared_in shared.now) label.now }
    ensures absent { result ≡ false → ¬ Contains (shared_in shared.now) label.now }
{
    match shared {
        None => false,
        Some(names) => holds_label(names, label),
    }
}

/// The place of a label among names.
#[inline(always)]
fn place_of(names: &NameSet<Name>, label: &Name) -> Option<usize>
    ensures within { IfSome result (λ e. e < length names.now.keys) }
    ensures there { IfSome result (λ e. name_at names.now.keys e ≡ label.now) }
    ensures absent { IfNone result (¬ Contains names.now.keys label.now) }
{
    names.get_index_of(label)
}

/// The place of a label among shared names and those behind them.
fn place_in_both(shared: &NameSet<Name>, later: &NameSet<Name>, label: &Name) -> Option<usize>
    ensures within { IfSome result (λ e. e < length (shared.now.keys ++ later.now.keys)) }
    ensures there { IfSome result (λ e. name_at (shared.now.keys ++ later.now.keys) e ≡ label.now) }
    ensures absent { IfNone result (¬ Contains (shared.now.keys ++ later.now.keys) label.now) }
{
    if let Some(place) = place_of(shared, label) {
        return Some(place);
    }
    // both numbers of names fit half of the machine's, so the sum fits
    let (before, _few) = (shared.len(), later.len());
    match place_of(later, label) {
        None => None,
        Some(place) => Some(before + place),
    }
}

/// The name at a place.
#[inline(always)]
fn name_in(names: &NameSet<Name>, place: usize) -> &Name
    requires { place < length names.now.keys }
    ensures { result.now ≡ name_at names.now.keys place }
{
    match names.get_index(place) {
        None => unreachable!(),
        Some(name) => name,
    }
}

/// These labels, all shared; where there is no memory for that, none is.
fn all_shared(alloc: Global, names: NameSet<Name>) -> LabelNames
    requires { IsDistinct names.keys }
    ensures { result.keys ≡ names.keys }
{
    match Arc::new(alloc, names) {
        Ok(shared) => LabelNames {
            shared: Some(shared),
            later: name_set(alloc),
        },
        Err(failed) => LabelNames {
            shared: None,
            later: failed.value,
        },
    }
}

/// All of some names, which are new, go behind others in their order.
fn add_all(names: &mut NameSet<Name>, more: &NameSet<Name>) -> Result<(), Memory>
    requires { IsDistinct (names.old.keys ++ more.now.keys) }
    ensures { OnOk result (names.new.keys ≡ names.old.keys ++ more.now.keys) }
{
    for name in more.as_slice() {
        insert_label(names, name.copy()?)?;
    }
    Ok(())
}

/// Copies of the shared names and of those behind them, as one set that can be shared.
fn joined(
    alloc: Global,
    shared: &NameSet<Name>,
    later: &NameSet<Name>,
) -> Result<Arc<NameSet<Name>>, Memory>
    requires { IsDistinct (shared.now.keys ++ later.now.keys) }
    ensures { IfOk result (λ all. (arc_value all).keys ≡ shared.now.keys ++ later.now.keys) }
{
    let mut names = name_set(alloc);
    names.reserve(shared.len() + later.len())?;
    add_all(&mut names, shared)?;
    add_all(&mut names, later)?;
    Ok(Arc::new(alloc, names)?)
}
