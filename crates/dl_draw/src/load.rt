//! Lists that are loaded into a theory, of which no edit is refused.

ghost use Rattle.std.specs.Prelude.{◌≡◌, [], OnOk};
ghost use Rattle.dl_theory.specs.Lists.{IsWellFormed};
ghost use Rattle.dl_theory.specs.Edits.{IsAccepted, after_edit};

use dl_lit::{Literal, Memory};
use dl_theory::{Edit, EditStop, Pair, Rule, Theory};

/// Makes an edit that is accepted.
fn make(theory: &mut Theory, edit: Edit) -> Result<(), Memory>
    requires { IsAccepted theory.old edit }
    ensures { OnOk result (theory.new ≡ after_edit theory.old edit) }
{
    match theory.apply_owned(edit) {
        Ok(()) => Ok(()),
        Err(EditStop::Memory) => Err(Memory),
        Err(EditStop::Refused(_)) => unreachable!(),
    }
}

/// Adds all facts.
pub(crate) fn add_facts(theory: &mut Theory, facts: Vec<Literal>) -> Result<(), Memory>
    requires none { theory.old.facts ≡ [] }
    requires well_formed { IsWellFormed (record theory.old { facts = facts.items }) }
    ensures { OnOk result (theory.new ≡ record theory.old { facts = facts.items }) }
{
    for fact in facts {
        make(theory, Edit::AddFact(fact))?;
    }
    Ok(())
}

/// Adds all rules.
pub(crate) fn add_rules(theory: &mut Theory, rules: Vec<Rule>) -> Result<(), Memory>
    requires none { theory.old.rules ≡ [] }
    requires pairs { theory.old.pairs ≡ [] }
    requires well_formed { IsWellFormed (record theory.old { rules = rules.items }) }
    ensures { OnOk result (theory.new ≡ record theory.old { rules = rules.items }) }
{
    for rule in rules {
        make(theory, Edit::AddRule(rule))?;
    }
    Ok(())
}

/// Adds all pairs.
pub(crate) fn add_pairs(theory: &mut Theory, pairs: Vec<Pair>) -> Result<(), Memory>
    requires none { theory.old.pairs ≡ [] }
    requires well_formed { IsWellFormed (record theory.old { pairs = pairs.items }) }
    ensures { OnOk result (theory.new ≡ record theory.old { pairs = pairs.items }) }
{
    for pair in pairs {
        make(theory, Edit::AddPair(pair))?;
    }
    Ok(())
}
