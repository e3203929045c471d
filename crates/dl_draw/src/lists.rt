//! Facts, rules and pairs on their way into a theory.

ghost use Rattle.std.specs.Prelude.{◌≡◌, ◌+◌, ◌*◌, ◌<◌, ◌≤◌, [], ◌∷◌, ◌++◌, OnOk, IfOk};
ghost use Rattle.dl_theory.specs.Lists.{no_lists, IsWellFormed};
ghost use Rattle.dl_draw.specs.Generator.{rule_label, above, draw_rule, draw_rules, draw_facts, draw_pairs, draw_part, beside, draw_lists};
ghost use Rattle.dl_draw.specs.Drawing.{Gives};

use crate::atoms::Atoms;
use crate::draws::Draws;
use crate::load::{add_facts, add_pairs, add_rules};
use crate::names::rule_label;
use dl_lit::{Literal, Memory};
use dl_theory::{Pair, Rule, Theory};
use std::alloc::Global;
use std::marker::Model;

/// The three lists of a theory that is drawn.
#[derive(Drop)]
pub(crate) struct Lists {
    facts: Vec<Literal>,
    rules: Vec<Rule>,
    pairs: Vec<Pair>,
}

impl Model for Lists {
    ghost use Rattle.dl_theory.specs.Lists.{TheoryLists};
    ghost use Rattle.dl_draw.specs.Kept.{lists_of};

    ghost Value = { TheoryLists };

    ghost view = { lists_of };
}

impl Lists {
    fn make(alloc: Global) -> Lists
        ensures { result ≡ no_lists }
    {
        Lists {
            facts: Vec::new(alloc),
            rules: Vec::new(alloc),
            pairs: Vec::new(alloc),
        }
    }

    /// Draws what there is for all atoms.
    #[tactic(auto, unfolding(crate::specs::Generator::draw_lists))]
    pub fn draw(atoms: Atoms, draws: &mut Draws) -> Result<Lists, Memory>
        requires { atoms.size ≤ 4096 }
        ensures { Gives (draw_lists atoms.size draws.old.state) result draws.new.state }
    {
        let mut lists = Lists::make(atoms.alloc);
        for atom in 0..atoms.size {
            lists.add_part(atoms, draws, atom)?;
        }
        Ok(lists)
    }

    /// Draws what there is for an atom, and puts it behind the rest.
    #[tactic(auto, unfolding(crate::specs::Generator::draw_part))]
    fn add_part(&mut self, atoms: Atoms, draws: &mut Draws, atom: u64) -> Result<(), Memory>
        requires within { atom < atoms.size }
        requires few { atoms.size ≤ 4096 }
        ensures lists { OnOk result (self.new ≡ beside self.old (draw_part atoms.size atom draws.old.state).value) }
        ensures state { OnOk result (draws.new.state ≡ (draw_part atoms.size atom draws.old.state).state) }
    {
        self.add_rules(atoms, draws, atom)?;
        self.add_fact(atoms, draws, atom)?;
        self.add_pairs(atoms.alloc, draws, atom)
    }

    #[tactic(auto, unfolding(crate::specs::Generator::draw_rules))]
    fn add_rules(&mut self, atoms: Atoms, draws: &mut Draws, atom: u64) -> Result<(), Memory>
        requires within { atom < atoms.size }
        requires few { atoms.size ≤ 4096 }
        ensures lists { OnOk result (self.new ≡ record self.old { rules = self.old.rules ++ (draw_rules atoms.size atom draws.old.state).value }) }
        ensures state { OnOk result (draws.new.state ≡ (draw_rules atoms.size atom draws.old.state).state) }
    {
        self.add_rule(atoms, draws, 3 * atom, atom)?;
        self.add_rule(atoms, draws, 3 * atom + 1, atom)?;
        self.add_rule(atoms, draws, 3 * atom + 2, atom)
    }

    /// Draws a rule for an atom. Its label has that number.
    fn add_rule(
        &mut self,
        atoms: Atoms,
        draws: &mut Draws,
        number: u64,
        atom: u64,
    ) -> Result<(), Memory>
        requires { atom < atoms.size }
        ensures lists { OnOk result (self.new ≡ record self.old { rules = self.old.rules ++ (draw_rule atoms.size (rule_label number) atom draws.old.state).value ∷ [] }) }
        ensures state { OnOk result (draws.new.state ≡ (draw_rule atoms.size (rule_label number) atom draws.old.state).state) }
    {
        let label = rule_label(atoms.alloc, number)?;
        let rule = atoms.draw_rule(draws, label, atom)?;
        self.rules.push(rule)?;
        Ok(())
    }

    #[tactic(auto, unfolding(crate::specs::Generator::draw_facts))]
    fn add_fact(&mut self, atoms: Atoms, draws: &mut Draws, atom: u64) -> Result<(), Memory>
        ensures lists { OnOk result (self.new ≡ record self.old { facts = self.old.facts ++ (draw_facts atom draws.old.state).value }) }
        ensures state { OnOk result (draws.new.state ≡ (draw_facts atom draws.old.state).state) }
    {
        if draws.draw(8) == 0 {
            let fact = atoms.literal(atom, true)?;
            self.facts.push(fact)?;
        }
        Ok(())
    }

    #[tactic(auto, unfolding(crate::specs::Generator::draw_pairs))]
    fn add_pairs(&mut self, alloc: Global, draws: &mut Draws, atom: u64) -> Result<(), Memory>
        requires { atom < 4096 }
        ensures lists { OnOk result (self.new ≡ record self.old { pairs = self.old.pairs ++ (draw_pairs atom draws.old.state).value }) }
        ensures state { OnOk result (draws.new.state ≡ (draw_pairs atom draws.old.state).state) }
    {
        if draws.draw(2) == 0 {
            self.add_pair(alloc, 3 * atom, 3 * atom + 1)?;
        } else {
            self.add_pair(alloc, 3 * atom + 1, 3 * atom)?;
        }
        if draws.draw(2) == 0 {
            self.add_pair(alloc, 3 * atom + 2, 3 * atom)?;
        }
        Ok(())
    }

    /// Puts the rule with one number above the rule with another.
    fn add_pair(&mut self, alloc: Global, upper: u64, lower: u64) -> Result<(), Memory>
        ensures { OnOk result (self.new ≡ record self.old { pairs = self.old.pairs ++ above upper lower ∷ [] }) }
    {
        let upper = rule_label(alloc, upper)?;
        let lower = rule_label(alloc, lower)?;
        self.pairs.push(Pair { upper, lower })?;
        Ok(())
    }

    /// The theory of these lists.
    pub fn load(self, alloc: Global) -> Result<Theory, Memory>
        requires { IsWellFormed self }
        ensures { IfOk result (λ theory. theory ≡ self) }
    {
        let Lists {
            facts,
            rules,
            pairs,
        } = self;
        let mut theory = Theory::make(alloc);
        add_facts(&mut theory, facts)?;
        add_rules(&mut theory, rules)?;
        add_pairs(&mut theory, pairs)?;
        Ok(theory)
    }
}
