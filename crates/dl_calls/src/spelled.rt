//! Each entry that a program holds is one of which the laws speak. These functions look at it and do nothing.

ghost use Rattle.std.specs.Prelude.{IfSome, All};
ghost use Rattle.dl_calls.specs.Spelled.{IsName, IsCount, IsSpelledLiteral, IsSpelledRule, IsSpelledPair, IsSpelledEdit, IsSpelledRefusal, IsSpelledCall, IsSpelledReply, IsSpelled};

use crate::call::Call;
use crate::entry::Entry;
use crate::reply::Reply;
use dl_lit::{Literal, Name};
use dl_theory::{Edit, EditRefusal, Pair, Rule};

fn number_is_spelled(number: u64)
    ensures { IsCount number }
{
    let _ = number;
}

fn name_is_spelled(name: &Name)
    ensures { IsName name.now }
{
    let _ = name.bytes();
}

fn mode_is_spelled(mode: &Option<Name>)
    ensures { IfSome mode.now IsName }
{
    match mode {
        None => {}
        Some(own) => name_is_spelled(own),
    }
}

fn literal_is_spelled(literal: &Literal)
    ensures { IsSpelledLiteral literal.now }
{
    mode_is_spelled(&literal.mode);
    name_is_spelled(&literal.atom);
}

fn literals_are_spelled(literals: &[Literal])
    ensures { All IsSpelledLiteral literals.now }
{
    for literal in literals {
        literal_is_spelled(literal);
    }
}

fn names_are_spelled(names: &[Name])
    ensures { All IsName names.now }
{
    for name in names {
        name_is_spelled(name);
    }
}

fn rule_is_spelled(rule: &Rule)
    ensures { IsSpelledRule rule.now }
{
    name_is_spelled(&rule.label);
    literals_are_spelled(rule.body.as_slice());
    literal_is_spelled(&rule.head);
}

fn pair_is_spelled(pair: &Pair)
    ensures { IsSpelledPair pair.now }
{
    name_is_spelled(&pair.upper);
    name_is_spelled(&pair.lower);
}

fn edit_is_spelled(edit: &Edit)
    ensures { IsSpelledEdit edit.now }
{
    match edit {
        Edit::AddRule(it) => rule_is_spelled(it),
        Edit::DropRule(label) => name_is_spelled(label),
        Edit::AddFact(fact) => literal_is_spelled(fact),
        Edit::DropFact(fact) => literal_is_spelled(fact),
        Edit::AddPair(it) => pair_is_spelled(it),
        Edit::DropPair(it) => pair_is_spelled(it),
    }
}

fn refusal_is_spelled(refusal: &EditRefusal)
    ensures { IsSpelledRefusal refusal.now }
{
    match refusal {
        EditRefusal::LabelThere(label) => name_is_spelled(label),
        EditRefusal::NoLabel(label) => name_is_spelled(label),
        EditRefusal::Cycle(path) => names_are_spelled(path.as_slice()),
        EditRefusal::FactThere => {}
        EditRefusal::NoFact => {}
        EditRefusal::PairThere => {}
        EditRefusal::NoPair => {}
        EditRefusal::RulesFull => {}
        EditRefusal::FactsFull => {}
        EditRefusal::PairsFull => {}
    }
}

fn call_is_spelled(call: &Call)
    ensures { IsSpelledCall call.now }
{
    match call {
        Call::Enrol => {}
        Call::Edit(it) => edit_is_spelled(it),
        Call::Publish => {}
        Call::Hold(number) => number_is_spelled(*number),
    }
}

fn reply_is_spelled(reply: &Reply)
    ensures { IsSpelledReply reply.now }
{
    match reply {
        Reply::Enrolled(number) => number_is_spelled(*number),
        Reply::Edited => {}
        Reply::EditRefused(it) => refusal_is_spelled(it),
        Reply::Edition(number) => number_is_spelled(*number),
        Reply::Holding(number) => number_is_spelled(*number),
        Reply::Unpublished { asked, published } => {
            number_is_spelled(*asked);
            number_is_spelled(*published);
        }
    }
}

/// The names of an entry are spelled as names, and its numbers have 64 bits.
pub fn entry_is_spelled(entry: &Entry)
    ensures { IsSpelled entry.now }
{
    number_is_spelled(entry.seat);
    call_is_spelled(&entry.call);
    reply_is_spelled(&entry.reply);
}
