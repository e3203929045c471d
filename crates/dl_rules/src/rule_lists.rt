//! The lists that lead to rules which are all there.

ghost use Rattle.std.specs.Prelude.{◌≡◌, ◌<◌, ◌^◌, ℕ, All, IsSome, IfOk, OnOk, [], ◌∷◌, ◌++◌, length, set, if◌then◌else◌};
ghost use Rattle.dl_base.specs.Paths.{IsDistinct};
ghost use Rattle.dl_rows.specs.Tables.{list_at};
ghost use Rattle.dl_rules.specs.Lines.{IsThere, IsThereWithin, line_at};
ghost use Rattle.dl_rows.specs.Counting.{is_in};
ghost use Rattle.dl_rules.specs.Indexes.{HasRules};

use crate::lines::Lines;
use dl_base::Memory;
use dl_rows::{Lists, RowTable};
use std::alloc::Global;

/// So many rules, or pairs of rules, are looked at before they are entered.
pub const BLOCK: usize = 32;

/// The rules with each head, and those with each literal in the body.
#[derive(Drop)]
pub(crate) struct RuleLists {
    pub heads: RowTable,
    pub uses: RowTable,
}

impl RuleLists {
    /// The lists of these rules, whose literals have numbers below a bound. Each takes no more room than it needs.
    pub fn of(alloc: Global, lines: &Lines, names: usize) -> Result<RuleLists, Memory>
        requires within { All (IsThereWithin names) lines.now.items }
        requires few { length lines.now.items < 2 ^ 32 }
        ensures { IfOk result (λ r. HasRules lines.now.items r.heads r.uses) }
    {
        let mut lists = RuleLists::with_room(alloc, lines, count_lists(lines, names))?;
        for rule in 0..lines.len() {
            if rule % BLOCK == 0 && !lists.have_room(lines, rule) {
                return Err(Memory);
            }
            lists.enter(lines, rule)?;
        }
        Ok(lists)
    }

    /// Whether the lists of the next rules have room. Rules that are entered one by one would wait for memory one by one: where a number
    /// goes is known only when its list has come, and what is read behind such a write waits for it. To look at many lists before
    /// anything is written makes them come together.
    fn have_room(&self, lines: &Lines, from: usize) -> bool
        requires { All IsSome lines.now.items }
    {
        let end = usize::min(from.saturating_add(BLOCK), lines.len());
        for rule in from..end {
            if !self.has_room(lines, rule) {
                return false;
            }
        }
        true
    }

    /// Whether each list that a rule goes into has room.
    #[inline(always)]
    fn has_room(&self, lines: &Lines, rule: usize) -> bool
        requires { IsThere lines.now.items rule }
    {
        self.heads.has_room(lines.head(rule) as usize)
            && uses_have_room(&self.uses, lines.each_once(rule))
    }

    /// Empty lists, with room for these rules.
    fn with_room(alloc: Global, lines: &Lines, names: usize) -> Result<RuleLists, Memory>
        requires { All (IsThereWithin names) lines.now.items }
        ensures heads { IfOk result (λ r. (n : ℕ) → list_at r.heads n ≡ []) }
        ensures uses { IfOk result (λ r. (n : ℕ) → list_at r.uses n ≡ []) }
        ensures heads_wide { IfOk result (λ r. length r.heads.lists ≡ names) }
        ensures uses_wide { IfOk result (λ r. length r.uses.lists ≡ names) }
    {
        let heads = count_heads(alloc, lines, names)?;
        let uses = count_uses(alloc, lines, names)?;
        Ok(RuleLists {
            heads: RowTable::with_room(alloc, heads.as_slice())?,
            uses: RowTable::with_room(alloc, uses.as_slice())?,
        })
    }

    /// The rule with a number goes last into all lists that are its own.
    fn enter(&mut self, lines: &Lines, rule: usize) -> Result<(), Memory>
        requires rule { IsThere lines.now.items rule }
        requires few { length lines.now.items < 2 ^ 32 }
        requires head { (line_at lines.now.items rule).head < length self.old.heads.lists }
        requires body { All (λ b. b < length self.old.uses.lists) (line_at lines.now.items rule).body }
        ensures heads { OnOk result (self.new.heads.lists ≡ set self.old.heads.lists (line_at lines.now.items rule).head (list_at self.old.heads (line_at lines.now.items rule).head ++ rule ∷ [])) }
        ensures uses { OnOk result ((n : ℕ) → list_at self.new.uses n ≡ list_at self.old.uses n ++ (if is_in (line_at lines.now.items rule).body n then rule ∷ [] else [])) }
        ensures uses_wide { OnOk result (length self.new.uses.lists ≡ length self.old.uses.lists) }
    {
        let number = rule as u32;
        self.heads.append(lines.head(rule) as usize, number)?;
        append_uses(&mut self.uses, lines.each_once(rule), number)?;
        Ok(())
    }
}

/// How many lists rules take whose literals have numbers below a bound: none where there is no rule.
fn count_lists(lines: &Lines, names: usize) -> usize
    requires { All (IsThereWithin names) lines.now.items }
    ensures { All (IsThereWithin result) lines.now.items }
{
    if lines.len() == 0 { 0 } else { names }
}

/// Whether the lists of a body's literals have room.
#[inline(always)]
fn uses_have_room(uses: &RowTable, body: &[u32]) -> bool {
    for number in body {
        if !uses.has_room(*number as usize) {
            return false;
        }
    }
    true
}

/// The number goes last into the lists of a body's literals, of which none stands twice.
// that no list has the number yet is known: to ask its list would be to wait for memory once more
fn append_uses(uses: &mut RowTable, body: &[u32], rule: u32) -> Result<(), Memory>
    requires within { All (λ b. b < length uses.old.lists) body.now }
    requires once { IsDistinct body.now }
    ensures lists { OnOk result ((n : ℕ) → list_at uses.new n ≡ list_at uses.old n ++ (if is_in body.now n then rule ∷ [] else [])) }
    ensures wide { OnOk result (length uses.new.lists ≡ length uses.old.lists) }
{
    for number in body {
        uses.append(*number as usize, rule)?;
    }
    Ok(())
}

/// How many rules have each number as their head.
fn count_heads(alloc: Global, lines: &Lines, names: usize) -> Result<Vec<u32>, Memory>
    requires { All (IsThereWithin names) lines.now.items }
    ensures { IfOk result (λ counts. length counts.items ≡ names) }
{
    let mut counts = Vec::new(alloc);
    counts.resize(names, 0u32)?;
    for rule in 0..lines.len() {
        count_one(&mut counts, lines.head(rule) as usize);
    }
    Ok(counts)
}

/// How many rules have each number in the body.
fn count_uses(alloc: Global, lines: &Lines, names: usize) -> Result<Vec<u32>, Memory>
    requires { All (IsThereWithin names) lines.now.items }
    ensures { IfOk result (λ counts. length counts.items ≡ names) }
{
    let mut counts = Vec::new(alloc);
    counts.resize(names, 0u32)?;
    for rule in 0..lines.len() {
        count_each(&mut counts, lines.each_once(rule));
    }
    Ok(counts)
}

/// Counts each of these numbers.
fn count_each(counts: &mut Vec<u32>, numbers: &[u32])
    requires { All (λ n. n < length counts.old.items) numbers.now }
    ensures { length counts.new.items ≡ length counts.old.items }
{
    for number in numbers {
        count_one(counts, *number as usize);
    }
}

/// Counts a number once more. A count that is full stays, and then there is no room for so many.
#[inline(always)]
pub(crate) fn count_one(counts: &mut Vec<u32>, number: usize)
    ensures { length counts.new.items ≡ length counts.old.items }
{
    if let Some(count) = counts.get_mut(number) {
        *count = count.saturating_add(1);
    }
}
