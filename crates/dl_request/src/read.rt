//! Reading what a line of a session asks for.

ghost use Rattle.std.specs.Prelude.{◌≡◌, MatchOption, IfOk, OnErr};
ghost use Rattle.dl_theory.specs.declared.edit.Edit.{Edit};
ghost use Rattle.dl_request.specs.declared.keyword.Keyword.TheVariants as word;
ghost use Rattle.dl_request.specs.declared.request.Asked.{Asked};
ghost use Rattle.dl_read.specs.EditLines.{IsEditLine};
ghost use Rattle.dl_request.specs.Reading.{Finds};
ghost use Rattle.dl_request.specs.Requests.{Asks, AsksOnly, MayWantMemory};

use crate::keyword::{Keyword, is_edit_word, keyword_of};
use crate::request::{Asked, Request};
use crate::words::{cut_number_and_family, has_no_token, only_number};
use dl_lit::Memory;
use dl_read::{
    LineStop, begins_blank, cut_word, has_variables, read_edit, read_literal, without_cr,
};
use std::alloc::Global;

fn quit(rest: &[u8]) -> Option<Asked>
    ensures { Finds word.Quit rest.now result }
{
    if has_no_token(rest) {
        Some(Asked::Quit)
    } else {
        None
    }
}

fn publish(rest: &[u8]) -> Option<Asked>
    ensures { Finds word.Publish rest.now result }
{
    if has_no_token(rest) {
        Some(Asked::Request(Request::Publish))
    } else {
        None
    }
}

fn hold(rest: &[u8]) -> Option<Asked>
    ensures { Finds word.Hold rest.now result }
{
    let edition = only_number(rest)?;
    Some(Asked::Request(Request::Hold(edition)))
}

fn text(rest: &[u8]) -> Option<Asked>
    ensures { Finds word.Text rest.now result }
{
    let edition = only_number(rest)?;
    Some(Asked::Request(Request::Text { edition }))
}

fn conclusions(rest: &[u8]) -> Option<Asked>
    ensures { Finds word.Conclusions rest.now result }
{
    let (edition, family, behind) = cut_number_and_family(rest)?;
    if has_no_token(behind) {
        Some(Asked::Request(Request::Conclusions { edition, family }))
    } else {
        None
    }
}

fn ask(alloc: Global, rest: &[u8]) -> Result<Option<Asked>, Memory>
    ensures { IfOk result (Finds word.Ask rest.now) }
{
    let Some((edition, family, behind)) = cut_number_and_family(rest) else {
        return Ok(None);
    };
    if !begins_blank(behind) {
        return Ok(None);
    }
    match read_literal(alloc, behind) {
        Ok(literal) => Ok(Some(Asked::Request(Request::Ask {
            edition,
            family,
            literal,
        }))),
        Err(LineStop::Memory) => Err(Memory),
        Err(LineStop::Bad) => Ok(None),
        Err(LineStop::Variables) => Ok(None),
    }
}

/// What a line asks for behind this first word.
fn behind(alloc: Global, keyword: Keyword, rest: &[u8]) -> Result<Option<Asked>, Memory>
    ensures found { IfOk result (Finds keyword rest.now) }
    ensures memory { OnErr result (keyword ≡ word.Ask) }
{
    match keyword {
        Keyword::Quit => Ok(quit(rest)),
        Keyword::Publish => Ok(publish(rest)),
        Keyword::Hold => Ok(hold(rest)),
        Keyword::Ask => ask(alloc, rest),
        Keyword::Text => Ok(text(rest)),
        Keyword::Conclusions => Ok(conclusions(rest)),
    }
}

/// The edit that a line makes.
fn edit(alloc: Global, line: &[u8]) -> Result<Option<dl_theory::Edit>, Memory>
    ensures { IfOk result (λ edit. MatchOption edit ((e : Edit) → IsEditLine line.now e → ⊥) (IsEditLine line.now)) }
{
    match read_edit(alloc, line) {
        Ok(edit) => Ok(Some(edit)),
        Err(LineStop::Memory) => Err(Memory),
        Err(LineStop::Bad) => Ok(None),
        Err(LineStop::Variables) => Ok(None),
    }
}

/// What a line of a session asks for. One CR at its very end is dropped first.
/// Want of memory comes only in place of an edit, of a question or of a refusal for form.
pub fn read_request(alloc: Global, line: &[u8]) -> Result<Asked, Memory>
    ensures asked { IfOk result (AsksOnly line.now) }
    ensures memory { OnErr result ((y : Asked) → Asks line.now y → MayWantMemory y) }
{
    let line = without_cr(line);
    if has_variables(line) {
        return Ok(Asked::Variables);
    }
    let (word, rest) = cut_word(line);
    if word.is_empty() {
        return Ok(Asked::Nothing);
    }
    if is_edit_word(word) {
        return match edit(alloc, line)? {
            Some(edit) => Ok(Asked::Request(Request::Edit(edit))),
            None => Ok(Asked::Form),
        };
    }
    let Some(keyword) = keyword_of(word) else {
        return Ok(Asked::Form);
    };
    match behind(alloc, keyword, rest)? {
        Some(asked) => Ok(asked),
        None => Ok(Asked::Form),
    }
}
