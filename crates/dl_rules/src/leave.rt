//! One rule less.

ghost use Rattle.std.specs.Prelude.{◌≡◌, ℕ, ◌≤◌, ◌==◌, [], None, All, OnOk, length, set, if◌then◌else◌};
ghost use Rattle.dl_pages.specs.Paged.{Owns};
ghost use Rattle.dl_rows.specs.Tables.{list_at, spare_at, drop_item, IsOpen, KeepsLists};
ghost use Rattle.dl_rows.specs.Counting.{is_in};
ghost use Rattle.dl_rules.specs.Lines.{line_at, IsThere};

use crate::lines::Lines;
use dl_base::Memory;
use dl_rows::{Lists, RowTable};

/// The lists at some numbers can lose numbers from here on.
pub(crate) fn open_each(rows: &mut RowTable, numbers: &[u32]) -> Result<(), Memory>
    ensures kept { KeepsLists rows.old rows.new }
    ensures same { length rows.new.lists ≡ length rows.old.lists }
    ensures open { OnOk result (All (IsOpen rows.new) numbers.now) }
{
    for number in numbers {
        rows.open(*number as usize)?;
    }
    Ok(())
}

/// A number goes out of the lists at some numbers.
pub(crate) fn take_out(rows: &mut RowTable, numbers: &[u32], item: u32)
    requires { All (IsOpen rows.old) numbers.now }
    ensures lists { (n : ℕ) → list_at rows.new n ≡ (if is_in numbers.now n then drop_item item (list_at rows.old n) else list_at rows.old n) }
    ensures same { length rows.new.lists ≡ length rows.old.lists }
    ensures room { (n : ℕ) → spare_at rows.old n ≤ spare_at rows.new n }
{
    for number in numbers {
        rows.remove(*number as usize, item);
    }
}

/// A rule goes, and out of the lists of its head and of its body's literals.
pub(crate) fn take_rule(lines: &mut Lines, heads: &mut RowTable, uses: &mut RowTable, rule: u32)
    requires there { IsThere lines.old.items rule }
    requires owned { Owns lines.old rule }
    requires head { IsOpen heads.old (line_at lines.old.items rule).head }
    requires body { All (IsOpen uses.old) (line_at lines.old.items rule).body }
    ensures lines { lines.new.items ≡ set lines.old.items rule None }
    ensures heads { (n : ℕ) → list_at heads.new n ≡ (if n == (line_at lines.old.items rule).head then drop_item rule (list_at heads.old n) else list_at heads.old n) }
    ensures uses { (n : ℕ) → list_at uses.new n ≡ (if is_in (line_at lines.old.items rule).body n then drop_item rule (list_at uses.old n) else list_at uses.old n) }
    ensures heads_same { length heads.new.lists ≡ length heads.old.lists }
    ensures uses_same { length uses.new.lists ≡ length uses.old.lists }
{
    let number = rule as usize;
    heads.remove(lines.head(number) as usize, rule);
    take_out(uses, lines.body(number), rule);
    lines.clear(number);
}

/// A rule goes out of what stands below and above the others, and nothing stands below or above it.
pub(crate) fn take_links(lowers: &mut RowTable, uppers: &mut RowTable, rule: u32)
    requires lower { IsOpen lowers.old rule }
    requires upper { IsOpen uppers.old rule }
    requires below { All (IsOpen uppers.old) (list_at lowers.old rule) }
    requires above { All (IsOpen lowers.old) (list_at uppers.old rule) }
    ensures lowers { (s : ℕ) → list_at lowers.new s ≡ (if s == rule then [] else if is_in (list_at uppers.old rule) s then drop_item rule (list_at lowers.old s) else list_at lowers.old s) }
    ensures uppers { (s : ℕ) → list_at uppers.new s ≡ (if s == rule then [] else if is_in (list_at lowers.old rule) s then drop_item rule (list_at uppers.old s) else list_at uppers.old s) }
    ensures lower_same { length lowers.new.lists ≡ length lowers.old.lists }
    ensures upper_same { length uppers.new.lists ≡ length uppers.old.lists }
{
    take_out(uppers, lowers.row(rule as usize), rule);
    take_out(lowers, uppers.row(rule as usize), rule);
    lowers.clear(rule as usize);
    uppers.clear(rule as usize);
}

/// From here on a rule can go out of the lists of its head and of its body's literals.
pub(crate) fn open_rule(
    lines: &mut Lines,
    heads: &mut RowTable,
    uses: &mut RowTable,
    rule: usize,
) -> Result<(), Memory>
    requires { IsThere lines.old.items rule }
    ensures lines { lines.new.items ≡ lines.old.items }
    ensures heads { KeepsLists heads.old heads.new }
    ensures uses { KeepsLists uses.old uses.new }
    ensures heads_same { length heads.new.lists ≡ length heads.old.lists }
    ensures uses_same { length uses.new.lists ≡ length uses.old.lists }
    ensures owned { OnOk result (Owns lines.new rule) }
    ensures head { OnOk result (IsOpen heads.new (line_at lines.old.items rule).head) }
    ensures body { OnOk result (All (IsOpen uses.new) (line_at lines.old.items rule).body) }
{
    lines.own(rule)?;
    heads.open(lines.head(rule) as usize)?;
    open_each(uses, lines.body(rule))
}

/// From here on a rule can go out of what stands below and above the others.
pub(crate) fn open_links(
    lowers: &mut RowTable,
    uppers: &mut RowTable,
    rule: usize,
) -> Result<(), Memory>
    ensures lowers { KeepsLists lowers.old lowers.new }
    ensures uppers { KeepsLists uppers.old uppers.new }
    ensures lower { OnOk result (IsOpen lowers.new rule) }
    ensures upper { OnOk result (IsOpen uppers.new rule) }
    ensures below { OnOk result (All (IsOpen uppers.new) (list_at lowers.new rule)) }
    ensures above { OnOk result (All (IsOpen lowers.new) (list_at uppers.new rule)) }
{
    lowers.open(rule)?;
    open_each(lowers, uppers.row(rule))?;
    uppers.open(rule)?;
    open_each(uppers, lowers.row(rule))
}
