//! Rules in order, each found by its label.

ghost use Rattle.std.specs.Prelude.{◌≡◌, [], ◌∷◌, ◌++◌, ◌↔◌, ◌<◌, ℕ, IsTrue, OnErr, IfOk, IfSome, IfNone, MatchOption, Contains, filter, not, map, length, slice_index_or, slice_get};
ghost use Rattle.std.specs.Option.{option_copied};
ghost use Rattle.std.specs.Str.{bytes_eq};
ghost use Rattle.dl_base.specs.Paths.{IsDistinct};

use crate::labels::{holds_label, insert_label, place_of};
use crate::rule::Rule;
use dl_lit::{Memory, Name, NameSet, name_set};
use std::alloc::Global;
use std::marker::Model;

/// A list of rules. A label's place among the labels is its rule's place.
pub(crate) struct Rules {
    items: Vec<Rule>,
    labels: NameSet<Name>,
}

impl Drop for Rules {
    fn drop(self) {
        let Rules {
            items: _,
            labels: _,
        } = self;
    }
}

impl Model for Rules {
    ghost use Rattle.std.specs.Prelude.{◌≡◌, List, map};
    ghost use Rattle.dl_theory.specs.declared.rule.Rule.{Rule};

    ghost Value = { List Rule };

    ghost view = { λ r. r.items.items };

    ghost invariant = { λ r. r.labels.keys ≡ map (λ u. u.label) r.items.items };
}

impl Rules {
    pub fn make(alloc: Global) -> Rules
        ensures { result ≡ [] }
    {
        Rules {
            items: Vec::new(alloc),
            labels: name_set(alloc),
        }
    }

    /// Adds a rule at the end where no rule has its label, and gives it back where one has.
    #[inline(always)]
    pub fn add(&mut self, rule: Rule) -> Result<Option<Rule>, Memory>
        ensures added { IfOk result (λ back. MatchOption back (¬ Contains (map (λ r. r.label) self.old) rule.label) (λ given. (given ≡ rule) × Contains (map (λ r. r.label) self.old) rule.label)) }
        ensures rules { IfOk result (λ back. MatchOption back (self.new ≡ self.old ++ rule ∷ []) (λ _. self.new ≡ self.old)) }
        ensures err { OnErr result (self.new ≡ self.old) }
    {
        let label = rule.label.copy()?;
        add_rule(&mut self.items, &mut self.labels, label, rule)
    }

    /// An equal list.
    pub fn copy(&self) -> Result<Rules, Memory>
        requires { IsDistinct (map (λ r. r.label) self.now) }
        ensures { IfOk result (λ copy. copy ≡ self.now) }
    {
        let mut copy = Rules::make(*self.items.allocator());
        for rule in &self.items {
            match copy.add(rule.copy()?)? {
                None => {}
                Some(_) => unreachable!(),
            }
        }
        Ok(copy)
    }

    /// Removes the rule with a label; tells whether there was one.
    pub fn drop_label(&mut self, label: &Name) -> bool
        requires { IsDistinct (map (λ r. r.label) self.old) }
        ensures found { IsTrue result ↔ Contains (map (λ r. r.label) self.old) label.now }
        ensures dropped { self.new ≡ filter (λ r. not (bytes_eq r.label label.now)) self.old }
    {
        drop_rule(&mut self.items, &mut self.labels, label)
    }

    /// Whether a rule has this label.
    pub fn has(&self, label: &Name) -> bool
        ensures { IsTrue result ↔ Contains (map (λ r. r.label) self.now) label.now }
    {
        holds_label(&self.labels, label)
    }

    /// The place of the rule with a label.
    pub fn place(&self, label: &Name) -> Option<usize>
        ensures within { IfSome result (λ at. at < length self.now) }
        ensures there { IfSome result (λ at. slice_index_or (map (λ r. r.label) self.now) at [] ≡ label.now) }
        ensures absent { IfNone result (¬ Contains (map (λ r. r.label) self.now) label.now) }
    {
        place_of(&self.labels, label)
    }

    /// The labels, in order.
    pub fn labels(&self) -> &NameSet<Name>
        ensures { result.now.keys ≡ map (λ r. r.label) self.now }
    {
        &self.labels
    }

    pub fn len(&self) -> usize
        ensures { result ≡ length self.now }
    {
        self.items.len()
    }

    pub fn get(&self, at: usize) -> Option<&Rule>
        ensures { option_copied result ≡ slice_get self.now at }
    {
        self.items.get(at)
    }

    pub fn as_slice(&self) -> &[Rule]
        ensures { result.now ≡ self.now }
    {
        self.items.as_slice()
    }
}

/// The rule and its label go last where the label is new; else the rule comes back.
#[inline(always)]
fn add_rule(
    rules: &mut Vec<Rule>,
    labels: &mut NameSet<Name>,
    label: Name,
    rule: Rule,
) -> Result<Option<Rule>, Memory>
    ensures added { IfOk result (λ back. MatchOption back (¬ Contains labels.old.keys label) (λ given. (given ≡ rule) × Contains labels.old.keys label)) }
    ensures rules { IfOk result (λ back. MatchOption back (rules.new.items ≡ rules.old.items ++ rule ∷ []) (λ _. rules.new.items ≡ rules.old.items)) }
    ensures labels { IfOk result (λ back. MatchOption back (labels.new.keys ≡ labels.old.keys ++ label ∷ []) (λ _. labels.new.keys ≡ labels.old.keys)) }
    ensures rules_err { OnErr result (rules.new.items ≡ rules.old.items) }
    ensures labels_err { OnErr result (labels.new.keys ≡ labels.old.keys) }
{
    rules.reserve(1)?;
    if insert_label(labels, label)? {
        rules.push_reserved(rule);
        Ok(None)
    } else {
        Ok(Some(rule))
    }
}

fn drop_rule(rules: &mut Vec<Rule>, labels: &mut NameSet<Name>, label: &Name) -> bool
    requires aligned { labels.old.keys ≡ map (λ r. r.label) rules.old.items }
    requires distinct { IsDistinct labels.old.keys }
    ensures found { IsTrue result ↔ Contains labels.old.keys label.now }
    ensures rules { rules.new.items ≡ filter (λ r. not (bytes_eq r.label label.now)) rules.old.items }
    ensures labels { labels.new.keys ≡ map (λ r. r.label) rules.new.items }
{
    match place_of(labels, label) {
        None => false,
        Some(at) => {
            labels.shift_remove_index(at);
            rules.remove(at);
            true
        }
    }
}
