//! Writers of what a session and a certificate say: numbers, tagged literals, edits and refusals.

ghost use Rattle.std.specs.Prelude.{◌≡◌, ◌++◌, ◌∷◌, [], decimal};
ghost use Rattle.std.specs.List.{flat_map};
ghost use Rattle.dl_io.specs.Outside.{HasCause};
ghost use Rattle.dl_io.specs.Streams.{WritesAll};
ghost use Rattle.dl_print.specs.Text.{plus_byte, family_letter, tag_text, tagged_text, keyword_text, object_text, edit_text, cause_text, labels_text, refusal_text, spaced};

use crate::write::{write_fact, write_literal, write_name, write_pair, write_rule};
use dl_io::{Failed, Sink, write_all};
use dl_lit::{Family, Name, Tagged};
use dl_theory::{Edit, EditRefusal};
use itoa::Buffer;

/// Appends a number in decimal, or a front of it where the sink fails.
pub fn write_number<S: Sink>(sink: &mut S, number: u64) -> Result<(), Failed>
    ensures bytes { WritesAll (S.written sink.old) (S.written sink.new) result (decimal number) }
    ensures cause { HasCause (S.faults sink.old) (S.faults sink.new) result }
    ensures name { S.name sink.new ≡ S.name sink.old }
{
    let mut buffer = Buffer::new();
    write_all(sink, buffer.format(number).as_bytes())
}

fn plus_byte(plus: bool) -> u8
    ensures { result ≡ plus_byte plus }
{
    if plus { b'+' } else { b'-' }
}

pub(crate) fn family_letter(family: Family) -> u8
    ensures { result ≡ family_letter family }
{
    match family {
        Family::Definite => b'D',
        Family::Blocking => b'd',
        Family::Propagating => b'a',
        Family::Support => b's',
    }
}

fn write_tag<S: Sink>(sink: &mut S, plus: bool, family: Family) -> Result<(), Failed>
    ensures bytes { WritesAll (S.written sink.old) (S.written sink.new) result (tag_text plus family) }
    ensures cause { HasCause (S.faults sink.old) (S.faults sink.new) result }
    ensures name { S.name sink.new ≡ S.name sink.old }
{
    let tag = [plus_byte(plus), family_letter(family), b' '];
    write_all(sink, &tag)
}

/// Appends a tagged literal, or a front of it where the sink fails.
pub fn write_tagged<S: Sink>(sink: &mut S, tagged: &Tagged) -> Result<(), Failed>
    ensures bytes { WritesAll (S.written sink.old) (S.written sink.new) result (tagged_text tagged.now) }
    ensures cause { HasCause (S.faults sink.old) (S.faults sink.new) result }
    ensures name { S.name sink.new ≡ S.name sink.old }
{
    write_tag(sink, tagged.plus, tagged.family)?;
    write_literal(sink, &tagged.literal)
}

fn write_keyword<S: Sink>(sink: &mut S, edit: &Edit) -> Result<(), Failed>
    ensures bytes { WritesAll (S.written sink.old) (S.written sink.new) result (keyword_text edit.now) }
    ensures cause { HasCause (S.faults sink.old) (S.faults sink.new) result }
    ensures name { S.name sink.new ≡ S.name sink.old }
{
    match edit {
        Edit::AddRule(_) => write_all(sink, b"add "),
        Edit::DropRule(_) => write_all(sink, b"drop "),
        Edit::AddFact(_) => write_all(sink, b"add "),
        Edit::DropFact(_) => write_all(sink, b"drop "),
        Edit::AddPair(_) => write_all(sink, b"add "),
        Edit::DropPair(_) => write_all(sink, b"drop "),
    }
}

fn write_object<S: Sink>(sink: &mut S, edit: &Edit) -> Result<(), Failed>
    ensures bytes { WritesAll (S.written sink.old) (S.written sink.new) result (object_text edit.now) }
    ensures cause { HasCause (S.faults sink.old) (S.faults sink.new) result }
    ensures name { S.name sink.new ≡ S.name sink.old }
{
    match edit {
        Edit::AddRule(rule) => write_rule(sink, rule),
        Edit::DropRule(label) => write_name(sink, label),
        Edit::AddFact(fact) => write_fact(sink, fact),
        Edit::DropFact(fact) => write_fact(sink, fact),
        Edit::AddPair(pair) => write_pair(sink, pair),
        Edit::DropPair(pair) => write_pair(sink, pair),
    }
}

/// Appends the request that makes an edit, without an LF, or a front of it where the sink fails.
pub fn write_edit<S: Sink>(sink: &mut S, edit: &Edit) -> Result<(), Failed>
    ensures bytes { WritesAll (S.written sink.old) (S.written sink.new) result (edit_text edit.now) }
    ensures cause { HasCause (S.faults sink.old) (S.faults sink.new) result }
    ensures name { S.name sink.new ≡ S.name sink.old }
{
    write_keyword(sink, edit)?;
    write_object(sink, edit)
}

fn write_spaced<S: Sink>(sink: &mut S, label: &Name) -> Result<(), Failed>
    ensures bytes { WritesAll (S.written sink.old) (S.written sink.new) result (spaced label.now) }
    ensures cause { HasCause (S.faults sink.old) (S.faults sink.new) result }
    ensures name { S.name sink.new ≡ S.name sink.old }
{
    write_all(sink, b" ")?;
    write_name(sink, label)
}

fn write_path<S: Sink>(sink: &mut S, labels: &[Name]) -> Result<(), Failed>
    ensures bytes { WritesAll (S.written sink.old) (S.written sink.new) result (flat_map spaced labels.now) }
    ensures cause { HasCause (S.faults sink.old) (S.faults sink.new) result }
    ensures name { S.name sink.new ≡ S.name sink.old }
{
    for label in labels {
        write_spaced(sink, label)?;
    }
    Ok(())
}

fn write_cause<S: Sink>(sink: &mut S, refusal: &EditRefusal) -> Result<(), Failed>
    ensures bytes { WritesAll (S.written sink.old) (S.written sink.new) result (cause_text refusal.now) }
    ensures cause { HasCause (S.faults sink.old) (S.faults sink.new) result }
    ensures name { S.name sink.new ≡ S.name sink.old }
{
    match refusal {
        EditRefusal::LabelThere(_) => write_all(sink, b"label"),
        EditRefusal::NoLabel(_) => write_all(sink, b"unknown"),
        EditRefusal::FactThere => write_all(sink, b"fact"),
        EditRefusal::NoFact => write_all(sink, b"nofact"),
        EditRefusal::PairThere => write_all(sink, b"pair"),
        EditRefusal::NoPair => write_all(sink, b"nopair"),
        EditRefusal::Cycle(_) => write_all(sink, b"cycle"),
        EditRefusal::RulesFull => write_all(sink, b"full rules"),
        EditRefusal::FactsFull => write_all(sink, b"full facts"),
        EditRefusal::PairsFull => write_all(sink, b"full pairs"),
    }
}

fn write_labels<S: Sink>(sink: &mut S, refusal: &EditRefusal) -> Result<(), Failed>
    ensures bytes { WritesAll (S.written sink.old) (S.written sink.new) result (labels_text refusal.now) }
    ensures cause { HasCause (S.faults sink.old) (S.faults sink.new) result }
    ensures name { S.name sink.new ≡ S.name sink.old }
{
    match refusal {
        EditRefusal::LabelThere(label) => write_spaced(sink, label),
        EditRefusal::NoLabel(label) => write_spaced(sink, label),
        EditRefusal::Cycle(path) => write_path(sink, path.as_slice()),
        EditRefusal::FactThere => Ok(()),
        EditRefusal::NoFact => Ok(()),
        EditRefusal::PairThere => Ok(()),
        EditRefusal::NoPair => Ok(()),
        EditRefusal::RulesFull => Ok(()),
        EditRefusal::FactsFull => Ok(()),
        EditRefusal::PairsFull => Ok(()),
    }
}

/// Appends the words of a refusal, as they stand behind `refused `, or a front of them where the sink fails.
pub fn write_refusal<S: Sink>(sink: &mut S, refusal: &EditRefusal) -> Result<(), Failed>
    ensures bytes { WritesAll (S.written sink.old) (S.written sink.new) result (refusal_text refusal.now) }
    ensures cause { HasCause (S.faults sink.old) (S.faults sink.new) result }
    ensures name { S.name sink.new ≡ S.name sink.old }
{
    write_cause(sink, refusal)?;
    write_labels(sink, refusal)
}
