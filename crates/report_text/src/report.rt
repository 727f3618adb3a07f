//! The text of a report.
ghost use Rattle.std.specs.Prelude.{◌≡◌, ◌+◌, [], ◌∷◌, ◌++◌, OnOk, IfOk, codes, Option};
ghost use Rattle.std.specs.Fmt.{decimal};
ghost use Rattle.report_text.specs.Words.{more, line_text};
ghost use Rattle.report_text.specs.ReportText.{crash_text, front_text, life_line, history_text, multis_text, log_text, life_text, lives_text, report_text, rest_text, title_text};

use crate::event::{put_events, put_multi_events};
use crate::record::{put_counters, put_records};
use crate::step::put_steps;
use crate::text::Text;
use std::alloc::Global;
use tx_model::{Counters, Event, How, Life, LifeReport, Memory, MultiEvent, NameList, Report};

/// The line that begins a life.
#[tactic(auto, using(crate::proofs::MoreWords::then_more, crate::proofs::MoreWords::then_line), unfolding(crate::specs::ReportText::life_line))]
pub fn put_life_line(out: &mut Text, number: u64, from: u64, base: &Counters) -> Result<(), Memory>
    ensures ok { OnOk result (out.new ≡ out.old ++ life_line number from base.now) }
{
    out.put(b"life")?;
    out.number(number)?;
    out.named(b"from", from)?;
    put_counters(out, base)?;
    out.end_line()
}

#[tactic(auto, unfolding(crate::specs::ReportText::history_text))]
fn put_history(out: &mut Text, names: &NameList, events: &[Event]) -> Result<(), Memory>
    ensures ok { OnOk result (out.new ≡ out.old ++ history_text names.now events.now) }
{
    out.short_line(b"history")?;
    put_events(out, names, events)
}

#[tactic(auto, unfolding(crate::specs::ReportText::multis_text))]
fn put_multis(out: &mut Text, names: &NameList, multis: &[MultiEvent]) -> Result<(), Memory>
    ensures ok { OnOk result (out.new ≡ out.old ++ multis_text names.now multis.now) }
{
    out.short_line(b"multis")?;
    put_multi_events(out, names, multis)
}

/// The line that begins a log: the number of the first record not known to be flushed, and the position of the next
/// gate.
#[tactic(auto, using(crate::proofs::MoreWords::then_more, crate::proofs::MoreWords::then_line))]
pub fn put_log_line(out: &mut Text, flushed: u64, end: u64) -> Result<(), Memory>
    ensures ok { OnOk result (out.new ≡ out.old ++ line_text (codes "log" ∷ codes "flushed" ∷ decimal flushed ∷ codes "end" ∷ decimal end ∷ [])) }
{
    out.put(b"log")?;
    out.named(b"flushed", flushed)?;
    out.named(b"end", end)?;
    out.end_line()
}

#[tactic(auto, unfolding(crate::specs::ReportText::log_text))]
fn put_log(out: &mut Text, life: &Life) -> Result<(), Memory>
    ensures ok { OnOk result (out.new ≡ out.old ++ log_text life.now) }
{
    put_log_line(out, life.flushed, life.end)?;
    put_records(out, life.from, life.recs.items())
}

#[tactic(auto, using(crate::proofs::MoreWords::then_line))]
fn put_crash_line(out: &mut Text, how: &[u8]) -> Result<(), Memory>
    ensures ok { OnOk result (out.new ≡ out.old ++ line_text (codes "crash" ∷ how.now ∷ [])) }
{
    out.put(b"crash")?;
    out.word(how)?;
    out.end_line()
}

/// The line of the crash that ended a life, if one did.
#[tactic(auto, unfolding(crate::specs::ReportText::crash_text))]
pub fn put_crash(out: &mut Text, crash: Option<How>) -> Result<(), Memory>
    ensures ok { OnOk result (out.new ≡ out.old ++ crash_text crash) }
{
    match crash {
        Some(How::Lost) => put_crash_line(out, b"lost"),
        Some(How::Kept) => put_crash_line(out, b"kept"),
        Some(How::Torn) => put_crash_line(out, b"torn"),
        None => Ok(()),
    }
}

/// What stands behind the steps of a life.
fn put_rest(out: &mut Text, names: &NameList, life: &Life, crash: Option<How>) -> Result<(), Memory>
    ensures ok { OnOk result (out.new ≡ out.old ++ rest_text names.now life.now crash) }
{
    put_history(out, names, life.events.items())?;
    put_multis(out, names, life.multis.items())?;
    put_log(out, life)?;
    put_crash(out, crash)
}

fn put_life(out: &mut Text, names: &NameList, number: u64, life: &LifeReport) -> Result<(), Memory>
    ensures ok { OnOk result (out.new ≡ out.old ++ life_text names.now number life.now) }
{
    put_life_line(out, number, life.life.from, &life.life.base)?;
    put_steps(out, names, life.steps.items())?;
    put_rest(out, names, &life.life, life.crash)
}

#[tactic(auto, unfolding(crate::specs::ReportText::lives_text))]
fn put_lives(out: &mut Text, names: &NameList, lives: &[LifeReport]) -> Result<(), Memory>
    ensures ok { OnOk result (out.new ≡ out.old ++ lives_text names.now 1 lives.now) }
{
    let mut number = 1;
    for life in lives {
        put_life(out, names, number, life)?;
        number += 1;
    }
    Ok(())
}

#[tactic(auto, using(crate::proofs::MoreWords::then_more, crate::proofs::MoreWords::then_line))]
fn put_title(out: &mut Text) -> Result<(), Memory>
    ensures ok { OnOk result (out.new ≡ out.old ++ title_text) }
{
    out.put(b"txid")?;
    out.word(b"report")?;
    out.word(b"1")?;
    out.end_line()
}

/// The text of a report: for each life the line that begins it, its steps, its history, its multixact events and its
/// log, and the crash that ended it.
pub fn print_report(alloc: Global, report: &Report) -> Result<Vec<u8>, Memory>
    ensures { IfOk result (λ text. text.items ≡ report_text report.now) }
{
    let mut out = Text::new(alloc);
    put_title(&mut out)?;
    put_lives(&mut out, &report.names, report.lives.items())?;
    out.short_line(b"end")?;
    Ok(out.into_bytes())
}

/// Begins the report of a run that goes on while it is printed: all up to the steps of its first life, which begins
/// with the checkpoint of this number and these counters. The steps follow, then the rest of each life.
pub fn begin_report(out: &mut Text, from: u64, base: &Counters) -> Result<(), Memory>
    ensures ok { OnOk result (out.new ≡ out.old ++ front_text from base.now) }
{
    put_title(out)?;
    put_life_line(out, 1, from, base)
}
