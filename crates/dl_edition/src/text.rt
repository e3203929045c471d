//! The text of a theory by numbers.

ghost use Rattle.std.specs.Prelude.{◌≡◌};
ghost use Rattle.std.specs.List.{flat_map};
ghost use Rattle.std.specs.Option.{option_map};
ghost use Rattle.dl_io.specs.Outside.{HasCause};
ghost use Rattle.dl_io.specs.Streams.{WritesAll};
ghost use Rattle.dl_lit.specs.Borrowed.{literal_of};
ghost use Rattle.dl_graph.specs.Borrowed.{pair_of};
ghost use Rattle.dl_graph.specs.Numbers.{IsNumbered};
ghost use Rattle.dl_print.specs.Text.{fact_text, rule_text, pair_text, line, theory_text};
ghost use Rattle.dl_edition.specs.Lines.{slot_text};

use crate::rule::write_rule_ref;
use dl_graph::{Graph, PairRef, RuleRef};
use dl_io::{Failed, Sink, write_all};
use dl_lit::LiteralRef;
use dl_print::{write_fact_ref, write_superior};

/// Appends the line of a fact, and nothing at an empty number.
fn write_fact_line<S: Sink>(sink: &mut S, fact: Option<LiteralRef<'_>>) -> Result<(), Failed>
    ensures bytes { WritesAll (S.written sink.old) (S.written sink.new) result (slot_text (line fact_text) (option_map literal_of fact.entry)) }
    ensures cause { HasCause (S.faults sink.old) (S.faults sink.new) result }
    ensures name { S.name sink.new ≡ S.name sink.old }
{
    match fact {
        None => Ok(()),
        Some(fact) => {
            write_fact_ref(sink, fact)?;
            write_all(sink, b"\n")
        }
    }
}

/// Appends the line of a rule, and nothing at an empty number.
fn write_rule_line<S: Sink>(sink: &mut S, rule: Option<RuleRef<'_>>) -> Result<(), Failed>
    ensures bytes { WritesAll (S.written sink.old) (S.written sink.new) result (slot_text (line rule_text) rule.entry) }
    ensures cause { HasCause (S.faults sink.old) (S.faults sink.new) result }
    ensures name { S.name sink.new ≡ S.name sink.old }
{
    match rule {
        None => Ok(()),
        Some(rule) => {
            write_rule_ref(sink, &rule)?;
            write_all(sink, b"\n")
        }
    }
}

/// Appends the line of a pair, and nothing at an empty number.
fn write_pair_line<S: Sink>(sink: &mut S, pair: Option<PairRef<'_>>) -> Result<(), Failed>
    ensures bytes { WritesAll (S.written sink.old) (S.written sink.new) result (slot_text (line pair_text) (option_map pair_of pair.entry)) }
    ensures cause { HasCause (S.faults sink.old) (S.faults sink.new) result }
    ensures name { S.name sink.new ≡ S.name sink.old }
{
    match pair {
        None => Ok(()),
        Some(pair) => {
            write_superior(sink, pair.upper, pair.lower)?;
            write_all(sink, b"\n")
        }
    }
}

fn write_facts<S: Sink>(sink: &mut S, net: &Graph<'_>) -> Result<(), Failed>
    requires { IsNumbered net.now }
    ensures bytes { WritesAll (S.written sink.old) (S.written sink.new) result (flat_map (line fact_text) net.now.theory.facts) }
    ensures cause { HasCause (S.faults sink.old) (S.faults sink.new) result }
    ensures name { S.name sink.new ≡ S.name sink.old }
{
    for number in 0..net.fact_numbers() {
        write_fact_line(sink, net.fact(number))?;
    }
    Ok(())
}

fn write_rules<S: Sink>(sink: &mut S, net: &Graph<'_>) -> Result<(), Failed>
    requires { IsNumbered net.now }
    ensures bytes { WritesAll (S.written sink.old) (S.written sink.new) result (flat_map (line rule_text) net.now.theory.rules) }
    ensures cause { HasCause (S.faults sink.old) (S.faults sink.new) result }
    ensures name { S.name sink.new ≡ S.name sink.old }
{
    for number in 0..net.rule_numbers() {
        write_rule_line(sink, net.rule(number))?;
    }
    Ok(())
}

fn write_pairs<S: Sink>(sink: &mut S, net: &Graph<'_>) -> Result<(), Failed>
    requires { IsNumbered net.now }
    ensures bytes { WritesAll (S.written sink.old) (S.written sink.new) result (flat_map (line pair_text) net.now.theory.pairs) }
    ensures cause { HasCause (S.faults sink.old) (S.faults sink.new) result }
    ensures name { S.name sink.new ≡ S.name sink.old }
{
    for number in 0..net.pair_numbers() {
        write_pair_line(sink, net.pair(number))?;
    }
    Ok(())
}

/// Appends the theory, each statement on a line, or a front of it where the sink fails.
pub(crate) fn write_net<S: Sink>(sink: &mut S, net: &Graph<'_>) -> Result<(), Failed>
    ensures bytes { WritesAll (S.written sink.old) (S.written sink.new) result (theory_text net.now.theory) }
    ensures cause { HasCause (S.faults sink.old) (S.faults sink.new) result }
    ensures name { S.name sink.new ≡ S.name sink.old }
{
    // The theory's lists are what is there at their numbers.
    let _count = net.names();
    write_facts(sink, net)?;
    write_rules(sink, net)?;
    write_pairs(sink, net)
}
