//! One more rule, in room that is there.

ghost use Rattle.std.specs.Prelude.{◌≡◌, ℕ, ◌+◌, ◌<◌, ◌≤◌, ◌^◌, max, [], ◌∷◌, ◌++◌, All, Some, length, OnOk, if◌then◌else◌, set};
ghost use Rattle.dl_base.specs.Paths.{IsDistinct};
ghost use Rattle.dl_rows.specs.Tables.{list_at, spare_at, KeepsLists};
ghost use Rattle.dl_rows.specs.Counting.{is_in};

use crate::entry::Entry;
use crate::lines::Lines;
use dl_base::Memory;
use dl_rows::{Lists, RowTable};

/// The number goes last into the lists of a body's literals, of which none stands twice.
pub(crate) fn put_uses(uses: &mut RowTable, body: &[u32], rule: u32)
    requires room { All (λ b. 0 < spare_at uses.old b) body.now }
    requires within { All (λ b. b < length uses.old.lists) body.now }
    requires once { IsDistinct body.now }
    ensures lists { (n : ℕ) → list_at uses.new n ≡ list_at uses.old n ++ (if is_in body.now n then rule ∷ [] else []) }
    ensures wide { length uses.new.lists ≡ length uses.old.lists }
{
    for number in body {
        uses.push(*number as usize, rule);
    }
}

/// Room for one more number in the lists of a body's literals.
pub(crate) fn reserve_uses(uses: &mut RowTable, body: &[u32]) -> Result<(), Memory>
    requires { All (λ b. b < length uses.old.lists) body.now }
    ensures kept { KeepsLists uses.old uses.new }
    ensures same { length uses.new.lists ≡ length uses.old.lists }
    ensures room { OnOk result (All (λ b. 0 < spare_at uses.new b) body.now) }
{
    for number in body {
        uses.reserve(*number as usize)?;
    }
    Ok(())
}

/// Makes the table reach this many lists.
pub(crate) fn widen(rows: &mut RowTable, names: usize) -> Result<(), Memory>
    ensures kept { KeepsLists rows.old rows.new }
    ensures wide { OnOk result (names ≤ length rows.new.lists) }
    ensures most { length rows.new.lists ≤ max names (length rows.old.lists) }
{
    while rows.len() < names {
        rows.grow()?;
    }
    Ok(())
}

/// Room for one more number in a list. The table becomes as long as that takes.
#[inline(always)]
pub(crate) fn reserve_at(rows: &mut RowTable, number: u32) -> Result<(), Memory>
    ensures kept { KeepsLists rows.old rows.new }
    ensures wide { OnOk result (number < length rows.new.lists) }
    ensures room { OnOk result (0 < spare_at rows.new number) }
{
    let number = number as usize;
    widen(rows, number + 1)?;
    rows.reserve(number)?;
    Ok(())
}

/// Room for one more rule, and no other change.
pub(crate) fn reserve_rule(
    lines: &mut Lines,
    heads: &mut RowTable,
    uses: &mut RowTable,
    entry: &Entry,
) -> Result<(), Memory>
    requires head { entry.now.head < length heads.old.lists }
    requires body { All (λ b. b < length uses.old.lists) entry.now.body }
    ensures lines { lines.new.items ≡ lines.old.items }
    ensures heads { KeepsLists heads.old heads.new }
    ensures uses { KeepsLists uses.old uses.new }
    ensures heads_same { length heads.new.lists ≡ length heads.old.lists }
    ensures uses_same { length uses.new.lists ≡ length uses.old.lists }
    ensures lines_room { OnOk result (0 < lines.new.spare) }
    ensures few { OnOk result (length lines.new.items < 2 ^ 32) }
    ensures heads_room { OnOk result (0 < spare_at heads.new entry.now.head) }
    ensures uses_room { OnOk result (All (λ b. 0 < spare_at uses.new b) entry.now.body) }
{
    if lines.len() > u32::MAX as usize {
        return Err(Memory);
    }
    lines.reserve()?;
    heads.reserve(entry.head as usize)?;
    reserve_uses(uses, entry.body.as_slice())?;
    Ok(())
}

/// The rule goes last, and into the list of its head and into those of its body's literals.
pub(crate) fn put_rule(lines: &mut Lines, heads: &mut RowTable, uses: &mut RowTable, entry: Entry)
    requires lines_room { 0 < lines.old.spare }
    requires few { length lines.old.items < 2 ^ 32 }
    requires heads_room { 0 < spare_at heads.old entry.head }
    requires uses_room { All (λ b. 0 < spare_at uses.old b) entry.body }
    requires within { All (λ b. b < length uses.old.lists) entry.body }
    ensures lines { lines.new.items ≡ lines.old.items ++ Some entry ∷ [] }
    ensures heads { heads.new.lists ≡ set heads.old.lists entry.head (list_at heads.old entry.head ++ length lines.old.items ∷ []) }
    ensures uses { (n : ℕ) → list_at uses.new n ≡ list_at uses.old n ++ (if is_in entry.body n then length lines.old.items ∷ [] else []) }
    ensures uses_same { length uses.new.lists ≡ length uses.old.lists }
{
    let rule = lines.len() as u32;
    heads.push(entry.head as usize, rule);
    put_uses(uses, entry.body.each_once(), rule);
    lines.push(entry);
}

/// A number at the end of a list of each table, at the other. `Memory` where there is no room or no list for it.
pub(crate) fn append_both(
    lowers: &mut RowTable,
    uppers: &mut RowTable,
    upper: usize,
    lower: usize,
) -> Result<(), Memory>
    ensures lowers_wide { OnOk result (upper < length lowers.old.lists) }
    ensures uppers_wide { OnOk result (lower < length uppers.old.lists) }
    ensures lowers { OnOk result (lowers.new.lists ≡ set lowers.old.lists upper (list_at lowers.old upper ++ lower ∷ [])) }
    ensures uppers { OnOk result (uppers.new.lists ≡ set uppers.old.lists lower (list_at uppers.old lower ++ upper ∷ [])) }
{
    if upper >= lowers.len() || lower >= uppers.len() {
        return Err(Memory);
    }
    if usize::max(upper, lower) > u32::MAX as usize {
        return Err(Memory);
    }
    lowers.append(upper, lower as u32)?;
    uppers.append(lower, upper as u32)
}
