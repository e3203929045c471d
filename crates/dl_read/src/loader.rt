//! Loading what lines say: facts and rules at once, and pairs when all lines are read.

ghost use Rattle.std.specs.Prelude.{◌≡◌, ◌+◌, [], ◌∷◌, ◌++◌, List, length, None, Some, IfOk, IfErr, OnOk, is_some};
ghost use Rattle.dl_theory.specs.declared.edit.Edit.TheVariants as edit;
ghost use Rattle.dl_theory.specs.Edits.{AddsPairs};
ghost use Rattle.dl_read.specs.Files.{label_of, placed, Placed, AreMade, IsLoadStop, in_loading_order, IsWaitingStop};
ghost use Rattle.dl_read.specs.Loading.{IsNoted};
ghost use Rattle.dl_read.specs.declared.statement.Statement.{Statement};

use crate::file::ReadStop;
use crate::statement::Statement;
use dl_lit::{Literal, Memory, Name};
use dl_theory::{Body, EditRefusal, EditStop, Loading, Pair, PairsStop, Rule};
use itoa::write_digits;
use std::alloc::Global;

/// The first edit that was refused, and the number of its line.
#[derive(Drop)]
pub struct Refused {
    pub line: u64,
    pub refusal: EditRefusal,
}

impl Refused {
    ghost use Rattle.dl_read.specs.declared.file.ReadStop.TheVariants as stop;

    fn stop(self) -> ReadStop
        ensures { result ≡ stop.Edit self.line self.refusal }
    {
        let Refused { line, refusal } = self;
        ReadStop::Edit { line, refusal }
    }
}

/// What is being loaded. After the first refusal it only takes lines.
#[derive(Drop)]
pub struct Loader<T> {
    pub alloc: Global,
    pub target: T,
    pub refused: Option<Refused>,
    /// The pairs so far.
    pub pairs: Vec<Pair>,
    /// The numbers of their lines.
    pub lines: Vec<u64>,
    /// A body whose room serves the next rule's.
    pub spare: Body,
}

impl<T: Loading> Loader<T> {
    ghost use Rattle.dl_theory.specs.Lists.{no_lists};
    ghost use Rattle.dl_read.specs.Loading.{HasTaken, Waits, held, HasRead};

    pub fn make(alloc: Global, empty: T) -> Loader<T>
        requires { T.lists empty ≡ no_lists }
        ensures { HasRead (held T.lists result) [] }
    {
        Loader {
            alloc,
            target: empty,
            refused: None,
            pairs: Vec::new(alloc),
            lines: Vec::new(alloc),
            spare: Body::make(alloc),
        }
    }

    /// Whether an edit was refused.
    #[inline(always)]
    fn has_refused(&self) -> bool
        ensures { result ≡ is_some self.now.refused }
    {
        self.refused.is_some()
    }

    /// Adds the fact of a line, unless an earlier edit was refused.
    // so that the fact is made once, and not moved on the way
    #[inline(always)]
    fn add_fact(&mut self, fact: Literal, line: u64) -> Result<(), Memory>
        ensures taken { OnOk result ((ps : List Placed) → HasTaken self.old.refused (T.lists self.old.target) ps
            → HasTaken self.new.refused (T.lists self.new.target) (ps ++ placed line (Some (edit.AddFact fact)))) }
        ensures pairs { self.new.pairs ≡ self.old.pairs }
        ensures lines { self.new.lines ≡ self.old.lines }
    {
        if self.has_refused() {
            return Ok(());
        }
        let answer = self.target.add_fact(fact);
        note(&mut self.refused, answer, line)
    }

    /// Adds the rule of a line, unless an earlier edit was refused.
    // so that the rule is made once, and not moved on the way
    #[inline(always)]
    fn add_rule(&mut self, rule: Rule, line: u64) -> Result<(), Memory>
        ensures taken { OnOk result ((ps : List Placed) → HasTaken self.old.refused (T.lists self.old.target) ps
            → HasTaken self.new.refused (T.lists self.new.target) (ps ++ placed line (Some (edit.AddRule rule)))) }
        ensures pairs { self.new.pairs ≡ self.old.pairs }
        ensures lines { self.new.lines ≡ self.old.lines }
    {
        if self.has_refused() {
            return Ok(());
        }
        match self.target.add_rule(rule) {
            Ok(None) => Ok(()),
            Ok(Some(body)) => {
                self.spare = body;
                Ok(())
            }
            Err(stop) => note(&mut self.refused, Err(stop), line),
        }
    }

    /// Keeps the pair of a line until all lines are read.
    fn wait(&mut self, pair: Pair, line: u64) -> Result<(), Memory>
        ensures waits { OnOk result ((ps : List Placed) → Waits ps self.old.pairs.items self.old.lines.items
            → Waits (ps ++ placed line (Some (edit.AddPair pair))) self.new.pairs.items self.new.lines.items) }
        ensures target { self.new.target ≡ self.old.target }
        ensures refused { self.new.refused ≡ self.old.refused }
    {
        self.pairs.push(pair)?;
        self.lines.push(line)?;
        Ok(())
    }

    /// Takes what a line says. A rule without a label gets `_k`, where k is the number of the line.
    pub fn load(&mut self, statement: Statement, line: u64) -> Result<(), Memory>
        ensures { OnOk result ((ss : List Statement) → line ≡ length ss + 1 → HasRead (held T.lists self.old) ss
            → HasRead (held T.lists self.new) (ss ++ statement ∷ [])) }
    {
        match statement {
            Statement::Blank => Ok(()),
            Statement::Fact(fact) => self.add_fact(fact, line),
            Statement::Rule {
                label,
                kind,
                body,
                head,
            } => {
                let label = label_of(self.alloc, label, line)?;
                self.add_rule(
                    Rule {
                        label,
                        kind,
                        body,
                        head,
                    },
                    line,
                )
            }
            Statement::Pair(pair) => self.wait(pair, line),
        }
    }

    /// What was loaded, with its pairs, or the first refusal.
    pub fn finish(self) -> Result<T, ReadStop>
        requires { (ss : List Statement) × HasRead (held T.lists self) ss }
        ensures loaded { IfOk result (λ t. (ss : List Statement) → HasRead (held T.lists self) ss → AreMade (in_loading_order ss) (T.lists t)) }
        ensures stopped { IfErr result (λ stop. (ss : List Statement) → HasRead (held T.lists self) ss → IsLoadStop (in_loading_order ss) stop) }
    {
        let Loader {
            alloc: _,
            target,
            refused,
            pairs,
            lines,
            spare: _,
        } = self;
        match refused {
            Some(refused) => Err(refused.stop()),
            None => add_waiting(target, pairs.as_slice(), lines.as_slice()),
        }
    }
}

/// Notes why the edit of a line was refused, where it was.
#[inline(always)]
fn note(
    refused: &mut Option<Refused>,
    answer: Result<(), EditStop>,
    line: u64,
) -> Result<(), Memory>
    ensures { OnOk result (IsNoted answer line refused.old refused.new) }
{
    match answer {
        Ok(()) => Ok(()),
        Err(EditStop::Memory) => Err(Memory),
        Err(EditStop::Refused(refusal)) => {
            *refused = Some(Refused { line, refusal });
            Ok(())
        }
    }
}

/// What was loaded, with these pairs, which stand on these lines.
fn add_waiting<T: Loading>(target: T, pairs: &[Pair], lines: &[u64]) -> Result<T, ReadStop>
    requires { length pairs.now ≡ length lines.now }
    ensures loaded { IfOk result (λ t. AddsPairs (T.lists target) pairs.now (T.lists t)) }
    ensures stopped { IfErr result (IsWaitingStop (T.lists target) pairs.now lines.now) }
{
    let mut target = target;
    match target.add_pairs(pairs) {
        Ok(()) => Ok(target),
        Err(PairsStop::Memory) => Err(ReadStop::Memory),
        Err(PairsStop::Refused { at, refusal }) => Err(ReadStop::Edit {
            line: lines[at],
            refusal,
        }),
    }
}

/// The label of a rule, `_k` where line k gives none.
fn label_of(alloc: Global, label: Option<Name>, line: u64) -> Result<Name, Memory>
    ensures { IfOk result (λ name. name ≡ label_of line label) }
{
    match label {
        Some(name) => Ok(name),
        None => line_label(alloc, line),
    }
}

fn line_label(alloc: Global, line: u64) -> Result<Name, Memory>
    ensures { IfOk result (λ name. name ≡ label_of line None) }
{
    let mut text = [b'_'; 21];
    let start = write_digits(line, &mut text, 21);
    Name::from_spelled(alloc, &text[start - 1..])
}
