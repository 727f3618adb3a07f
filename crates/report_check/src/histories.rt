//! The lines of a life's two histories.
ghost use Rattle.std.specs.Prelude.{◌≡◌, ◌↔◌, ◌<◌, IfOk, IsTrue, Some, [], length, set, slice_get, take};
ghost use Rattle.std.specs.List.{All};
ghost use Rattle.tx_events.specs.History.{IsLegal};
ghost use Rattle.tx_events.specs.Multis.{AreLegalMultis, multi_by};
ghost use Rattle.report_law.specs.Events.{IsLawfulEvent, IsLawfulMulti};
ghost use Rattle.report_law.specs.MultiLines.{of_records};
ghost use Rattle.report_law.specs.ReportLines.{event, multi, placed};
ghost use Rattle.report_law.specs.Steps.{Judged, lines_of};
ghost use Rattle.event_rules.specs.Told.{AreToldEvents};
ghost use Rattle.reply_lines.specs.At.{IsReportOf};
ghost use Rattle.reply_lines.specs.Known.{IsKnown};
ghost use Rattle.report_check.specs.Walked.{AreLatest, IsWalked};

use crate::told_multis::is_told_multi_at;
use crate::walked::Walked;
use event_rules::{is_its_event, is_its_multi, may_come_at, multi_may_come_at};
use place_columns::Owned;
use reply_lines::Known;
use std::alloc::Global;
use tx_events::{Memory, MultiEvent};
use tx_model::LifeReport;

/// Whether the event at this place is lawful, where the history is legal up to it. `told` says line by line of each
/// event whether its line's reply tells it.
fn is_lawful_event(report: &LifeReport, known: &Known, told: &[bool], place: u64) -> bool
    ghost j: { Judged }
    requires report { IsReportOf j report.now }
    requires known { IsKnown j known.now }
    requires told { AreToldEvents j (length (lines_of j)) told.now }
    requires within { place < length j.life.events }
    requires legal { IsLegal j.begun.counters (take place j.life.events) }
    ensures { (e : _) → slice_get j.life.events place ≡ Some e → IsTrue result ↔ IsLawfulEvent j place e }
{
    if !may_come_at(&known.places, place) {
        return false;
    }
    is_its_event(
        &known.table,
        &known.events,
        told,
        &known.tops,
        report.life.events.items(),
        place,
    )
}

/// The lines of the history, where those of the steps are lawful.
pub fn walk_events(report: &LifeReport, known: &Known, told: &[bool]) -> Walked
    ghost j: { Judged }
    requires report { IsReportOf j report.now }
    requires known { IsKnown j known.now }
    requires told { AreToldEvents j (length (lines_of j)) told.now }
    ensures { IsWalked (placed (event j) 0 j.life.events) result }
{
    let count = report.life.events.items().len() as u64;
    for place in 0..count {
        if !is_lawful_event(report, known, told, place) {
            return Walked::Broken { lines: place };
        }
    }
    Walked::Lawful { lines: count }
}

/// Whether the multixact event at this place is lawful, where all are up to it. These are the numbers of each session's
/// latest command before it.
fn is_lawful_multi(
    alloc: Global,
    report: &LifeReport,
    known: &Known,
    last: &[u64],
    place: u64,
) -> Result<bool, Memory>
    ghost j: { Judged }
    requires report { IsReportOf j report.now }
    requires known { IsKnown j known.now }
    requires few { All (λ e. (multi_by e).session < 64) j.life.multis }
    requires last { AreLatest (take place j.life.multis) last.now }
    requires within { place < length j.life.multis }
    requires legal { AreLegalMultis j.begun.counters (of_records j.begun.counters j.begun.recorded) (take place j.life.multis) }
    ensures { IfOk result (λ b. (e : _) → slice_get j.life.multis place ≡ Some e → IsTrue b ↔ IsLawfulMulti j place e) }
{
    let multis = report.life.multis.items();
    let by = multis[place as usize].by();
    if by.command < last[by.session as usize] {
        return Ok(false);
    }
    if !multi_may_come_at(&known.multi_places, place) {
        return Ok(false);
    }
    let told = is_told_multi_at(alloc, report, known, place)?;
    Ok(is_its_multi(&known.table, &known.multis, multis, place, told))
}

/// Before the first multixact event.
fn none_latest(alloc: Global) -> Result<Vec<u64>, Memory>
    ensures { IfOk result (λ last. AreLatest [] last.items) }
{
    let mut last = Vec::with_capacity(alloc, 64)?;
    for _n in 0..64_u64 {
        last.push(0)?;
    }
    Ok(last)
}

/// The multixact event is its session's latest.
fn note_latest(last: &mut Vec<u64>, event: &MultiEvent)
    requires { (multi_by event.now).session < length last.old.items }
    ensures { last.new.items ≡ set last.old.items (multi_by event.now).session (multi_by event.now).command }
{
    let by = event.by();
    last[by.session as usize] = by.command;
}

/// The lines of the multixact events, where those of the history are lawful.
pub fn walk_multis(alloc: Global, report: &LifeReport, known: &Known) -> Result<Walked, Memory>
    ghost j: { Judged }
    requires report { IsReportOf j report.now }
    requires known { IsKnown j known.now }
    requires few { All (λ e. (multi_by e).session < 64) j.life.multis }
    ensures { IfOk result (IsWalked (placed (multi j) 0 j.life.multis)) }
{
    let multis = report.life.multis.items();
    let count = multis.len() as u64;
    let mut last = none_latest(alloc)?;
    for place in 0..count {
        if !is_lawful_multi(alloc, report, known, last.as_slice(), place)? {
            return Ok(Walked::Broken { lines: place });
        }
        note_latest(&mut last, &multis[place as usize]);
    }
    Ok(Walked::Lawful { lines: count })
}
