//! Reading the requests that make an edit.

ghost use Rattle.std.specs.Prelude.{◌≡◌, ◌↔◌, IsTrue};
ghost use Rattle.dl_read.specs.Grammar.{has_variables, Reads};
ghost use Rattle.dl_read.specs.EditLines.{added, Adds, Drops, IsEditLine};
ghost use Rattle.dl_read.specs.Parsing.{Answers, dropped_at};
ghost use Rattle.dl_read.specs.Tokens.{tokens};

use crate::read::{outside, read_statement};
use crate::scanner::Scanner;
use crate::statement::{LineStop, Statement, Stop};
use crate::words::{begins_blank, cut_word};
use dl_theory::{Body, Edit, Rule};
use std::alloc::Global;

/// The edit that adds what a statement says.
fn added(statement: Statement) -> Option<Edit>
    ensures { result ≡ added statement }
{
    match statement {
        Statement::Blank => None,
        Statement::Fact(fact) => Some(Edit::AddFact(fact)),
        Statement::Rule {
            label,
            kind,
            body,
            head,
        } => match label {
            None => None,
            Some(label) => Some(Edit::AddRule(Rule {
                label,
                kind,
                body,
                head,
            })),
        },
        Statement::Pair(pair) => Some(Edit::AddPair(pair)),
    }
}

fn read_added(alloc: Global, rest: &[u8]) -> Result<Edit, LineStop>
    ensures { Reads Adds rest.now result }
{
    match read_statement(alloc, rest) {
        Ok(statement) => match added(statement) {
            Some(edit) => Ok(edit),
            None => Err(LineStop::Bad),
        },
        Err(stop) => Err(stop),
    }
}

fn dropped_answer(alloc: Global, rest: &[u8]) -> Result<Edit, LineStop>
    ensures { Answers (has_variables rest.now) (dropped_at (tokens rest.now)) result }
{
    let mut scanner = Scanner {
        alloc,
        rest,
        spare: Body::make(alloc),
    };
    match scanner.dropped() {
        Ok(edit) => Ok(edit),
        Err(Stop::Memory) => Err(LineStop::Memory),
        Err(Stop::Unread) => Err(outside(scanner.rest)),
    }
}

fn read_dropped(alloc: Global, rest: &[u8]) -> Result<Edit, LineStop>
    ensures { Reads Drops rest.now result }
{
    dropped_answer(alloc, rest)
}

fn is_word(word: &[u8], other: &[u8]) -> bool
    ensures { IsTrue result ↔ (word.now ≡ other.now) }
{
    word == other
}

/// The edit that a request `add` or `drop` makes.
/// Variables comes exactly where a `(` stands before any `#`, and Bad exactly where none does and the line is no such request.
pub fn read_edit(alloc: Global, line: &[u8]) -> Result<Edit, LineStop>
    ensures { Reads IsEditLine line.now result }
{
    let (word, rest) = cut_word(line);
    if !begins_blank(rest) {
        return Err(outside(line));
    }
    if is_word(word, b"add") {
        return read_added(alloc, rest);
    }
    if is_word(word, b"drop") {
        return read_dropped(alloc, rest);
    }
    Err(outside(line))
}
