//! The text of a rule whose names stand elsewhere.

ghost use Rattle.std.specs.Prelude.{◌≡◌, ◌++◌, ◌∷◌, [], drop};
ghost use Rattle.std.specs.List.{flat_map};
ghost use Rattle.dl_io.specs.Outside.{HasCause};
ghost use Rattle.dl_io.specs.Streams.{WritesAll};
ghost use Rattle.dl_lit.specs.Borrowed.{literal_of};
ghost use Rattle.dl_print.specs.Text.{arrow_text, body_text, comma_text, literal_text, rule_text};

use dl_graph::RuleRef;
use dl_io::{Failed, Sink, write_all};
use dl_lit::LiteralRef;
use dl_print::{write_arrow, write_comma, write_literal_ref, write_name};

/// Appends the literals of a body behind the first.
fn write_more<S: Sink>(sink: &mut S, rule: &RuleRef<'_>) -> Result<(), Failed>
    ensures bytes { WritesAll (S.written sink.old) (S.written sink.new) result (flat_map comma_text (drop 1 rule.now.body)) }
    ensures cause { HasCause (S.faults sink.old) (S.faults sink.new) result }
    ensures name { S.name sink.new ≡ S.name sink.old }
{
    for at in 1..rule.body_len() {
        match rule.body(at) {
            Some(literal) => write_comma(sink, literal)?,
            None => unreachable!(),
        }
    }
    Ok(())
}

fn write_literals<S: Sink>(
    sink: &mut S,
    first: LiteralRef<'_>,
    rule: &RuleRef<'_>,
) -> Result<(), Failed>
    ensures bytes { WritesAll (S.written sink.old) (S.written sink.new) result (literal_text (literal_of first.entry) ++ (flat_map comma_text (drop 1 rule.now.body) ++ 32 ∷ [])) }
    ensures cause { HasCause (S.faults sink.old) (S.faults sink.new) result }
    ensures name { S.name sink.new ≡ S.name sink.old }
{
    write_literal_ref(sink, first)?;
    write_more(sink, rule)?;
    write_all(sink, b" ")
}

fn write_body<S: Sink>(sink: &mut S, rule: &RuleRef<'_>) -> Result<(), Failed>
    ensures bytes { WritesAll (S.written sink.old) (S.written sink.new) result (body_text rule.now.body) }
    ensures cause { HasCause (S.faults sink.old) (S.faults sink.new) result }
    ensures name { S.name sink.new ≡ S.name sink.old }
{
    match rule.body(0) {
        None => Ok(()),
        Some(first) => write_literals(sink, first, rule),
    }
}

fn write_content<S: Sink>(sink: &mut S, rule: &RuleRef<'_>) -> Result<(), Failed>
    ensures bytes { WritesAll (S.written sink.old) (S.written sink.new) result (body_text rule.now.body ++ ((arrow_text rule.now.kind ++ 32 ∷ []) ++ literal_text rule.now.head)) }
    ensures cause { HasCause (S.faults sink.old) (S.faults sink.new) result }
    ensures name { S.name sink.new ≡ S.name sink.old }
{
    write_body(sink, rule)?;
    write_arrow(sink, rule.kind())?;
    write_literal_ref(sink, rule.head())
}

/// Appends a rule with its label, or a front of it where the sink fails.
pub(crate) fn write_rule_ref<S: Sink>(sink: &mut S, rule: &RuleRef<'_>) -> Result<(), Failed>
    ensures bytes { WritesAll (S.written sink.old) (S.written sink.new) result (rule_text rule.now) }
    ensures cause { HasCause (S.faults sink.old) (S.faults sink.new) result }
    ensures name { S.name sink.new ≡ S.name sink.old }
{
    write_name(sink, rule.label())?;
    write_all(sink, b": ")?;
    write_content(sink, rule)
}
