//! A rule more, and a rule less.

ghost use Rattle.std.specs.Prelude.{OnOk, OnErr, [], ◌∷◌};
ghost use Rattle.dl_theory.specs.declared.edit.Edit.TheVariants.{AddRule, DropRule};
ghost use Rattle.dl_theory.specs.Edits.{IsAccepted, IsAnswered};
ghost use Rattle.dl_net.specs.Kept.{AreKept, AreSettled, HasRuleDropRoom, HasRuleRoom, KeepsTables, MakesEdit, theory_in};

use crate::load::room_for_rule;
use crate::tables::Tables;
use dl_lit::Name;
use dl_theory::{EditRefusal, EditStop, LIMIT, Rule};

impl Tables {
    /// Takes the memory for a rule, whose literals get numbers beside their complements, or says why not.
    pub(crate) fn prepare_rule(&mut self, rule: &Rule) -> Result<(), EditStop>
        requires kept { AreKept self.old }
        requires settled { AreSettled self.old }
        ensures answered { IsAnswered (theory_in self.old) (AddRule rule.now) result }
        ensures keeps { KeepsTables (rule.now.head ∷ rule.now.body) self.old self.new }
        ensures room { OnOk result (HasRuleRoom self.new rule.now) }
        ensures settled { OnErr result (AreSettled self.new) }
    {
        if self.find_rule(&rule.label).is_some() {
            return Err(EditStop::Refused(EditRefusal::LabelThere(rule.label.copy()?)));
        }
        if self.index.live() >= LIMIT {
            return Err(EditStop::Refused(EditRefusal::RulesFull));
        }
        let alloc = self.marks.alloc();
        room_for_rule(
            alloc,
            rule,
            &mut self.names,
            &mut self.seen,
            &mut self.index,
        )?;
        self.labels.prepare(&rule.label)?;
        Ok(())
    }

    /// The rule that is prepared goes last.
    pub(crate) fn add_rule(&mut self, rule: &Rule)
        requires kept { AreKept self.old }
        requires accepted { IsAccepted (theory_in self.old) (AddRule rule.now) }
        requires room { HasRuleRoom self.old rule.now }
        ensures { MakesEdit self.old (AddRule rule.now) self.new }
    {
        self.labels.put();
        self.index.put();
    }

    /// Takes the memory so that a rule can go with its pairs, or says why it cannot.
    pub(crate) fn prepare_rule_drop(&mut self, label: &Name) -> Result<(), EditStop>
        requires kept { AreKept self.old }
        requires settled { AreSettled self.old }
        ensures answered { IsAnswered (theory_in self.old) (DropRule label.now) result }
        ensures keeps { KeepsTables [] self.old self.new }
        ensures room { OnOk result (HasRuleDropRoom self.new label.now) }
        ensures settled { AreSettled self.new }
    {
        match self.find_rule(label) {
            None => Err(EditStop::Refused(EditRefusal::NoLabel(label.copy()?))),
            Some(number) => {
                self.index.reserve_take(number)?;
                self.pairs.prepare_drop_rule(number)?;
                Ok(())
            }
        }
    }

    /// The rule with a label goes, and leaves its number empty, and with it the pairs that name it.
    pub(crate) fn drop_rule(&mut self, label: &Name)
        requires kept { AreKept self.old }
        requires accepted { IsAccepted (theory_in self.old) (DropRule label.now) }
        requires room { HasRuleDropRoom self.old label.now }
        ensures { MakesEdit self.old (DropRule label.now) self.new }
    {
        match self.index.taking() {
            None => unreachable!(),
            Some(number) => {
                self.index.take(number);
                self.pairs.drop_rule(number);
                if let Some(order) = &mut self.order {
                    order.drop_item(number);
                }
            }
        }
    }
}
