//! The conditions, from a theory's own lists.

ghost use Rattle.std.specs.Prelude.{◌≡◌, ◌||◌, ◌&&◌, ℕ, List, [], ◌∷◌, ◌++◌, IfOk, OnOk, Contains};
ghost use Rattle.dl_base.specs.Paths.{IsDistinct};
ghost use Rattle.dl_lit.specs.Literal.{literal_eq, complement};
ghost use Rattle.std.specs.Str.{bytes_eq};
ghost use Rattle.dl_theory.specs.Lists.{TheoryLists};
ghost use Rattle.dl_theory.specs.Tests as test;
ghost use Rattle.dl_check.specs.Derived.{is_derived};
ghost use Rattle.dl_check.specs.Groups.{IsGrouped};
ghost use Rattle.dl_check.specs.Bands as bands;
ghost use Rattle.dl_theory.specs.declared.rule.Rule.{Rule};
ghost use Rattle.dl_theory.specs.declared.rule.Pair.{Pair};
ghost use Rattle.std.specs.Set.{is_member};
ghost use Rattle.dl_check.specs.Supports.{test_supported, test_unsupported, test_defeasible};

use crate::band::{Band, Kinds, is_in, not_off, on};
use crate::derived::Derived;
use crate::groups::Groups;
use dl_lit::{Family, Literal, Memory, Name, Tagged};
use dl_theory::{Pair, Rule, Theory};
use indexmap::IndexSet;
use std::alloc::Global;

/// What the conditions look up in a theory, each found by its key.
pub struct Checker {
    pub(crate) alloc: Global,
    pub(crate) facts: IndexSet<Literal>,
    /// The rules by their heads, in list order.
    pub(crate) rules: Groups<Literal, Rule>,
    /// For each label the labels that are superior to it.
    pub(crate) above: Groups<Name, Name>,
}

impl Drop for Checker {
    fn drop(self) {
        let Checker {
            alloc: _,
            facts: _,
            rules: _,
            above: _,
        } = self;
    }
}

impl Checker {
    ghost use Rattle.dl_check.specs.Checking.{StandsFor, is_fact, some_in, HasLabels, is_beaten, some_unbeaten, definite, prevails, fails};

    /// A checker that stands for the theory.
    pub fn make(alloc: Global, theory: &Theory) -> Result<Checker, Memory>
        ensures { IfOk result (λ checker. StandsFor checker theory.now) }
    {
        let facts = collect_facts(alloc, theory.facts())?;
        let rules = rules_by_head(alloc, theory.rules())?;
        let above = labels_above(alloc, theory.pairs())?;
        Ok(Checker {
            alloc,
            facts,
            rules,
            above,
        })
    }

    fn is_fact(&self, q: &Literal) -> bool
        ensures { result ≡ is_fact self.now q.now }
    {
        self.facts.contains(q)
    }

    /// Whether some rule for the literal is in a band.
    fn some_in(&self, derived: &Derived, band: Band, q: &Literal) -> bool
        ensures { result ≡ some_in self.now (is_derived derived.now) band q.now }
    {
        self.rules.get(q).iter().any(|r| is_in(derived, band, r))
    }

    /// The labels of the rules for the literal that are in a band.
    fn labels_in(
        &self,
        derived: &Derived,
        band: Band,
        q: &Literal,
    ) -> Result<IndexSet<Name>, Memory>
        ensures { IfOk result (λ labels. HasLabels self.now (is_derived derived.now) band q.now labels.keys) }
    {
        let mut labels = IndexSet::new(self.alloc);
        for rule in self.rules.get(q) {
            put_label(&mut labels, derived, band, rule)?;
        }
        Ok(labels)
    }

    /// Whether one of the labels is superior to that of the rule.
    fn is_beaten(&self, labels: &IndexSet<Name>, rule: &Rule) -> bool
        ensures { result ≡ is_beaten self.now labels.now.keys rule.now }
    {
        self.above
            .get(&rule.label)
            .iter()
            .any(|upper| labels.contains(upper))
    }

    /// Whether some rule for the literal is in a band, and none of the labels is superior to its own.
    fn some_unbeaten(
        &self,
        derived: &Derived,
        band: Band,
        q: &Literal,
        labels: &IndexSet<Name>,
    ) -> bool
        ensures { result ≡ some_unbeaten self.now (is_derived derived.now) band q.now labels.now.keys }
    {
        self.rules
            .get(q)
            .iter()
            .any(|r| is_in(derived, band, r) && !self.is_beaten(labels, r))
    }

    /// Definite: a fact, or some strict rule is on. Not definite: no fact, and each strict rule is off.
    fn definite(&self, derived: &Derived, plus: bool, q: &Literal) -> bool
        ensures { result ≡ definite self.now (is_derived derived.now) plus q.now }
    {
        let strict = Kinds::Strict;
        if plus {
            self.is_fact(q) || self.some_in(derived, on(strict, Family::Definite), q)
        } else {
            !self.is_fact(q) && !self.some_in(derived, not_off(strict, Family::Definite), q)
        }
    }

    /// Some supporting rule is on, the complement is refuted as definite, and each rule for the complement
    /// is off or beaten by a supporting rule that is on.
    fn prevails(
        &self,
        derived: &Derived,
        family: Family,
        against: Family,
        q: &Literal,
    ) -> Result<bool, Memory>
        ensures { IfOk result (λ b. (T : TheoryLists) → StandsFor self.now T → b ≡ test.prevails T (is_derived derived.now) family against q.now) }
    {
        let team = self.labels_in(derived, on(Kinds::Supporting, family), q)?;
        let opposite = complement_of(q)?;
        Ok(self.prevails_by(derived, family, against, q, &opposite, &team))
    }

    fn prevails_by(
        &self,
        derived: &Derived,
        family: Family,
        against: Family,
        q: &Literal,
        opposite: &Literal,
        team: &IndexSet<Name>,
    ) -> bool
        ensures { result ≡ prevails self.now (is_derived derived.now) family against q.now opposite.now team.now.keys }
    {
        self.some_in(derived, on(Kinds::Supporting, family), q)
            && derived.has(false, Family::Definite, opposite)
            && !self.some_unbeaten(derived, not_off(Kinds::All, against), opposite, team)
    }

    /// Each supporting rule is off, or the complement is definite, or some rule for the complement is on
    /// and beaten by no supporting rule that is not off.
    fn fails(
        &self,
        derived: &Derived,
        family: Family,
        against: Family,
        q: &Literal,
    ) -> Result<bool, Memory>
        ensures { IfOk result (λ b. (T : TheoryLists) → StandsFor self.now T → b ≡ test.fails T (is_derived derived.now) family against q.now) }
    {
        let standing = self.labels_in(derived, not_off(Kinds::Supporting, family), q)?;
        let opposite = complement_of(q)?;
        Ok(self.fails_by(derived, family, against, q, &opposite, &standing))
    }

    fn fails_by(
        &self,
        derived: &Derived,
        family: Family,
        against: Family,
        q: &Literal,
        opposite: &Literal,
        standing: &IndexSet<Name>,
    ) -> bool
        ensures { result ≡ fails self.now (is_derived derived.now) family against q.now opposite.now standing.now.keys }
    {
        !self.some_in(derived, not_off(Kinds::Supporting, family), q)
            || derived.has(true, Family::Definite, opposite)
            || self.some_unbeaten(derived, on(Kinds::All, against), opposite, standing)
    }

    /// Some supporting rule is on, and each rule for the complement that beats it is off.
    fn supported(&self, derived: &Derived, q: &Literal) -> Result<bool, Memory>
        ensures { IfOk result (λ b. (T : TheoryLists) → StandsFor self.now T → b ≡ test_supported T (is_derived derived.now) q.now) }
    {
        let opposite = complement_of(q)?;
        let threats = self.labels_in(derived, not_off(Kinds::All, Family::Propagating), &opposite)?;
        let supporters = on(Kinds::Supporting, Family::Support);
        Ok(self.some_unbeaten(derived, supporters, q, &threats))
    }

    /// Each supporting rule is off, or beaten by a rule for the complement that is on.
    fn unsupported(&self, derived: &Derived, q: &Literal) -> Result<bool, Memory>
        ensures { IfOk result (λ b. (T : TheoryLists) → StandsFor self.now T → b ≡ test_unsupported T (is_derived derived.now) q.now) }
    {
        let opposite = complement_of(q)?;
        let foes = self.labels_in(derived, on(Kinds::All, Family::Propagating), &opposite)?;
        let supporters = not_off(Kinds::Supporting, Family::Support);
        Ok(!self.some_unbeaten(derived, supporters, q, &foes))
    }

    /// Blocking and propagating: definite, or it prevails; not definite, and it fails.
    fn defeasible(
        &self,
        derived: &Derived,
        plus: bool,
        family: Family,
        against: Family,
        q: &Literal,
    ) -> Result<bool, Memory>
        ensures { IfOk result (λ b. (T : TheoryLists) → StandsFor self.now T → b ≡ test_defeasible T (is_derived derived.now) plus family against q.now) }
    {
        if plus {
            if derived.has(true, Family::Definite, q) {
                return Ok(true);
            }
            return self.prevails(derived, family, against, q);
        }
        if !derived.has(false, Family::Definite, q) {
            return Ok(false);
        }
        self.fails(derived, family, against, q)
    }

    /// Support: definite, or supported; not definite, and unsupported.
    fn support(&self, derived: &Derived, plus: bool, q: &Literal) -> Result<bool, Memory>
        ensures { IfOk result (λ b. (T : TheoryLists) → StandsFor self.now T → b ≡ test.condition T (is_derived derived.now) plus Family.Support q.now) }
    {
        if plus {
            if derived.has(true, Family::Definite, q) {
                return Ok(true);
            }
            return self.supported(derived, q);
        }
        if !derived.has(false, Family::Definite, q) {
            return Ok(false);
        }
        self.unsupported(derived, q)
    }

    /// Whether a tagged literal meets its condition. Rules are attacked in the family of the condition,
    /// those of the propagating family in that of support, and those of support in the propagating one.
    pub(crate) fn meets(&self, derived: &Derived, x: &Tagged) -> Result<bool, Memory>
        ensures { IfOk result (λ b. (T : TheoryLists) → StandsFor self.now T → b ≡ test.meets T (is_derived derived.now) x.now) }
    {
        let q = &x.literal;
        match x.family {
            Family::Definite => Ok(self.definite(derived, x.plus, q)),
            Family::Blocking => {
                self.defeasible(derived, x.plus, Family::Blocking, Family::Blocking, q)
            }
            Family::Propagating => {
                self.defeasible(derived, x.plus, Family::Propagating, Family::Support, q)
            }
            Family::Support => self.support(derived, x.plus, q),
        }
    }
}

fn complement_of(q: &Literal) -> Result<Literal, Memory>
    ensures { IfOk result (λ opposite. opposite ≡ complement q.now) }
{
    Ok(q.copy()?.complement())
}

/// Puts the label of a rule among others, where the rule is in a band.
fn put_label(
    labels: &mut IndexSet<Name>,
    derived: &Derived,
    band: Band,
    rule: &Rule,
) -> Result<(), Memory>
    ensures { OnOk result ((l : List ℕ) → is_member bytes_eq labels.new.keys l
        ≡ (is_member bytes_eq labels.old.keys l || (bytes_eq rule.now.label l && bands.is_in (is_derived derived.now) band rule.now))) }
{
    if !is_in(derived, band, rule) {
        return Ok(());
    }
    labels.insert(rule.label.copy()?)?;
    Ok(())
}

fn append_fact(facts: &mut IndexSet<Literal>, fact: Literal) -> Result<(), Memory>
    requires { ¬ Contains facts.old.keys fact }
    ensures { OnOk result (facts.new.keys ≡ facts.old.keys ++ fact ∷ []) }
{
    facts.insert(fact)?;
    Ok(())
}

fn collect_facts(alloc: Global, facts: &[Literal]) -> Result<IndexSet<Literal>, Memory>
    requires { IsDistinct facts.now }
    ensures { IfOk result (λ set. set.keys ≡ facts.now) }
{
    let mut set = IndexSet::new(alloc);
    for fact in facts {
        append_fact(&mut set, fact.copy()?)?;
    }
    Ok(set)
}

fn put_rule(groups: &mut Groups<Literal, Rule>, rule: &Rule) -> Result<(), Memory>
    ensures { OnOk result ((rules : List Rule) → IsGrouped literal_eq (λ r. r.head) (λ r. r) groups.old.groups.entries rules
        → IsGrouped literal_eq (λ r. r.head) (λ r. r) groups.new.groups.entries (rules ++ rule.now ∷ [])) }
{
    let head = rule.head.copy()?;
    let copy = rule.copy()?;
    groups.push(head, copy)
}

fn rules_by_head(alloc: Global, rules: &[Rule]) -> Result<Groups<Literal, Rule>, Memory>
    ensures { IfOk result (λ groups. IsGrouped literal_eq (λ r. r.head) (λ r. r) groups.groups.entries rules.now) }
{
    let mut groups = Groups::make(alloc);
    for rule in rules {
        put_rule(&mut groups, rule)?;
    }
    Ok(groups)
}

fn put_pair(groups: &mut Groups<Name, Name>, pair: &Pair) -> Result<(), Memory>
    ensures { OnOk result ((pairs : List Pair) → IsGrouped bytes_eq (λ p. p.lower) (λ p. p.upper) groups.old.groups.entries pairs
        → IsGrouped bytes_eq (λ p. p.lower) (λ p. p.upper) groups.new.groups.entries (pairs ++ pair.now ∷ [])) }
{
    let lower = pair.lower.copy()?;
    let upper = pair.upper.copy()?;
    groups.push(lower, upper)
}

fn labels_above(alloc: Global, pairs: &[Pair]) -> Result<Groups<Name, Name>, Memory>
    ensures { IfOk result (λ groups. IsGrouped bytes_eq (λ p. p.lower) (λ p. p.upper) groups.groups.entries pairs.now) }
{
    let mut groups = Groups::make(alloc);
    for pair in pairs {
        put_pair(&mut groups, pair)?;
    }
    Ok(groups)
}
