//! What a run comes to, and its text.

ghost use Rattle.std.specs.Prelude.{◌≡◌, ◌++◌, ◌∷◌, [], decimal};
ghost use Rattle.dl_io.specs.Outside.{HasCause};
ghost use Rattle.dl_io.specs.Streams.{WritesAll};
ghost use Rattle.dl_summary.specs.Summary.{counted_text, edits_text, editions_text, lists_text, verdicts_text, survey_text, checked_text, summary_text};

use crate::counts::{Counts, Survey};
use dl_io::{Failed, Sink, write_all};
use dl_print::write_number;

/// What the run of a number's calls comes to: how many edits were accepted and refused, how many editions were published, and how many
/// facts, rules and pairs the last of them has, with its survey.
pub struct Summary {
    pub accepted: u64,
    pub refused: u64,
    pub editions: u64,
    pub facts: u64,
    pub rules: u64,
    pub pairs: u64,
    pub survey: Survey,
}

impl Drop for Summary {
    fn drop(self) {
        let Summary {
            accepted: _,
            refused: _,
            editions: _,
            facts: _,
            rules: _,
            pairs: _,
            survey: _,
        } = self;
    }
}

fn write_counted<S: Sink>(sink: &mut S, words: &[u8], number: u64) -> Result<(), Failed>
    ensures bytes { WritesAll (S.written sink.old) (S.written sink.new) result (counted_text words.now number) }
    ensures cause { HasCause (S.faults sink.old) (S.faults sink.new) result }
    ensures name { S.name sink.new ≡ S.name sink.old }
{
    write_all(sink, words)?;
    write_number(sink, number)
}

fn write_edits<S: Sink>(sink: &mut S, summary: &Summary) -> Result<(), Failed>
    ensures bytes { WritesAll (S.written sink.old) (S.written sink.new) result (edits_text summary.now) }
    ensures cause { HasCause (S.faults sink.old) (S.faults sink.new) result }
    ensures name { S.name sink.new ≡ S.name sink.old }
{
    write_counted(sink, b"edits accepted ", summary.accepted)?;
    write_counted(sink, b" refused ", summary.refused)?;
    write_all(sink, b"\n")
}

fn write_editions<S: Sink>(sink: &mut S, summary: &Summary) -> Result<(), Failed>
    ensures bytes { WritesAll (S.written sink.old) (S.written sink.new) result (editions_text summary.now) }
    ensures cause { HasCause (S.faults sink.old) (S.faults sink.new) result }
    ensures name { S.name sink.new ≡ S.name sink.old }
{
    write_counted(sink, b"editions ", summary.editions)?;
    write_all(sink, b"\n")
}

fn write_lists<S: Sink>(sink: &mut S, summary: &Summary) -> Result<(), Failed>
    ensures bytes { WritesAll (S.written sink.old) (S.written sink.new) result (lists_text summary.now) }
    ensures cause { HasCause (S.faults sink.old) (S.faults sink.new) result }
    ensures name { S.name sink.new ≡ S.name sink.old }
{
    write_counted(sink, b"facts ", summary.facts)?;
    write_counted(sink, b" rules ", summary.rules)?;
    write_counted(sink, b" pairs ", summary.pairs)?;
    write_all(sink, b"\n")
}

fn write_verdicts<S: Sink>(sink: &mut S, letter: &[u8], counts: Counts) -> Result<(), Failed>
    ensures bytes { WritesAll (S.written sink.old) (S.written sink.new) result (verdicts_text letter.now counts) }
    ensures cause { HasCause (S.faults sink.old) (S.faults sink.new) result }
    ensures name { S.name sink.new ≡ S.name sink.old }
{
    write_all(sink, letter)?;
    write_counted(sink, b" proved ", counts.proved)?;
    write_counted(sink, b" refuted ", counts.refuted)?;
    write_counted(sink, b" neither ", counts.neither)?;
    write_all(sink, b"\n")
}

fn write_survey<S: Sink>(sink: &mut S, survey: &Survey) -> Result<(), Failed>
    ensures bytes { WritesAll (S.written sink.old) (S.written sink.new) result (survey_text survey.now) }
    ensures cause { HasCause (S.faults sink.old) (S.faults sink.new) result }
    ensures name { S.name sink.new ≡ S.name sink.old }
{
    write_verdicts(sink, b"D", survey.definite)?;
    write_verdicts(sink, b"d", survey.blocking)?;
    write_verdicts(sink, b"a", survey.propagating)?;
    write_verdicts(sink, b"s", survey.support)
}

fn write_checked<S: Sink>(sink: &mut S, survey: &Survey) -> Result<(), Failed>
    ensures bytes { WritesAll (S.written sink.old) (S.written sink.new) result (checked_text survey.now) }
    ensures cause { HasCause (S.faults sink.old) (S.faults sink.new) result }
    ensures name { S.name sink.new ≡ S.name sink.old }
{
    write_counted(sink, b"checked ", survey.checked.len() as u64)?;
    write_all(sink, b"\n")
}

/// Appends the eight lines of a summary, or a front of them where the sink fails.
pub fn write_summary<S: Sink>(sink: &mut S, summary: &Summary) -> Result<(), Failed>
    ensures bytes { WritesAll (S.written sink.old) (S.written sink.new) result (summary_text summary.now) }
    ensures cause { HasCause (S.faults sink.old) (S.faults sink.new) result }
    ensures name { S.name sink.new ≡ S.name sink.old }
{
    write_edits(sink, summary)?;
    write_editions(sink, summary)?;
    write_lists(sink, summary)?;
    write_survey(sink, &summary.survey)?;
    write_checked(sink, &summary.survey)
}
