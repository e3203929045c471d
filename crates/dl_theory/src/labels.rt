//! Sets of labels in order.

ghost use Rattle.std.specs.Prelude.{◌≡◌, [], ◌∷◌, ◌++◌, ◌↔◌, ◌<◌, IsTrue, IfOk, OnOk, OnErr, IfSome, None, Contains, false, length, slice_index_or, if◌then◌else◌};

use dl_lit::{Memory, Name, NameSet, name_set};

/// Whether a label is in a set.
#[inline(always)]
pub fn holds_label(labels: &NameSet<Name>, label: &Name) -> bool
    ensures { IsTrue result ↔ Contains labels.now.keys label.now }
{
    labels.contains(label)
}

/// Adds a label at the end where it is new, and tells whether it is. `Memory` leaves the set as it was.
#[inline(always)]
pub fn insert_label(labels: &mut NameSet<Name>, label: Name) -> Result<bool, Memory>
    ensures new { IfOk result (λ new. (new ≡ false) ↔ Contains labels.old.keys label) }
    ensures keys { IfOk result (λ new. labels.new.keys ≡ labels.old.keys ++ (if new then label ∷ [] else [])) }
    ensures err { OnErr result (labels.new.keys ≡ labels.old.keys) }
{
    let new = labels.insert(label)?;
    Ok(new)
}

/// The place of a label.
#[inline(always)]
pub(crate) fn place_of(labels: &NameSet<Name>, label: &Name) -> Option<usize>
    ensures within { IfSome result (λ at. at < length labels.now.keys) }
    ensures there { IfSome result (λ at. slice_index_or labels.now.keys at [] ≡ label.now) }
    ensures absent { result ≡ None → ¬ Contains labels.now.keys label.now }
{
    labels.get_index_of(label)
}

/// An equal set.
pub(crate) fn copy_labels(labels: &NameSet<Name>) -> Result<NameSet<Name>, Memory>
    ensures { IfOk result (λ copy. copy.keys ≡ labels.now.keys) }
{
    let mut copy = name_set(*labels.allocator());
    for label in labels.as_slice() {
        insert_label(&mut copy, label.copy()?)?;
    }
    Ok(copy)
}
