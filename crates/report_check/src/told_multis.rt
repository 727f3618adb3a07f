//! Whether a multixact event is told by its command's reply.
ghost use Rattle.std.specs.Prelude.{◌≡◌, ◌↔◌, ◌<◌, ◌≤◌, IfOk, IsTrue, List, Some, length, slice_get, slice_index, take};
ghost use Rattle.std.specs.Option.{option_copied};
ghost use Rattle.tx_events.specs.declared.multi.MultiEvent.{MultiEvent};
ghost use Rattle.tx_events.specs.Multis.{multi_by};
ghost use Rattle.tx_model.specs.declared.report.Step.{Step};
ghost use Rattle.tx_model.specs.Rounds.{lines_in};
ghost use Rattle.event_rules.specs.Lined.{multis_in};
ghost use Rattle.event_rules.specs.Told.{IsToldMulti};
ghost use Rattle.command_events.specs.Reached.{JudgedRound, span};
ghost use Rattle.place_columns.specs.declared.lines.LineAt.{LineAt};
ghost use Rattle.place_columns.specs.Lined.{bys_of, lines_from};
ghost use Rattle.report_law.specs.Events.{StandsAt};
ghost use Rattle.report_law.specs.Places.{multis_of};
ghost use Rattle.report_law.specs.Steps.{HasFirstMultis, Judged};
ghost use Rattle.reply_lines.specs.At.{IsReportOf};
ghost use Rattle.reply_lines.specs.Known.{IsKnown};

use command_events::{is_told_multi, reach_of};
use event_rules::count_of_events;
use reply_lines::{Known, multis_at};
use std::alloc::Global;
use tx_events::Memory;
use tx_model::{KeptLine, LifeReport, Line, Step};

/// The line at this place of the step, if there is one.
fn line_in(step: &Step, place: u64) -> Option<&KeptLine>
    ensures { option_copied result ≡ slice_get (lines_in step.now) place }
{
    match step {
        Step::Round { lines, .. } => lines.items().get(place as usize),
        _ => None,
    }
}

/// Whether the event at this place is told by the reply of this line, its command's, in its turn. The line has this number,
/// and its round stands from `from` to `to` in the history.
fn is_told_of(
    alloc: Global,
    report: &LifeReport,
    known: &Known,
    from: u64,
    to: u64,
    number: u64,
    line: &Line,
    place: u64,
) -> Result<bool, Memory>
    ghost of: { JudgedRound }
    requires report { IsReportOf of.judged report.now }
    requires known { IsKnown of.judged known.now }
    requires round { of.round ≡ span from to }
    requires forward { (from ≤ to) × (to ≤ length of.judged.life.events) }
    requires line { slice_get (bys_of (lines_from 0 of.judged.steps)) number ≡ Some line.now.by }
    requires within { place < length of.judged.life.multis }
    requires number { slice_index (multis_in of.judged).numbers place ≡ number }
    ensures { IfOk result (λ b. (e : MultiEvent) → slice_get of.judged.life.multis place ≡ Some e → IsTrue b ↔ ((es : List MultiEvent) × HasFirstMultis of.judged of.round line.now es × (slice_get es (length (multis_of line.now.by (take place of.judged.life.multis))) ≡ Some e))) }
{
    let multis = report.life.multis.items();
    let own = multis_at(alloc, multis, &known.multis, number)?;
    let reach = reach_of(&known.counts, from, to);
    let rank = known.multis.rank_at(place);
    Ok(is_told_multi(
        reach,
        &known.counts,
        multis,
        own.as_slice(),
        known.multis.places(number),
        line,
        rank,
        &multis[place as usize],
    ))
}

/// The same, where the line is known by its number, and its step.
fn is_told_in(
    alloc: Global,
    report: &LifeReport,
    known: &Known,
    number: u64,
    step: u64,
    place: u64,
) -> Result<bool, Memory>
    ghost j: { Judged }
    requires report { IsReportOf j report.now }
    requires known { IsKnown j known.now }
    requires within { place < length j.life.multis }
    requires number { slice_index (multis_in j).numbers place ≡ number }
    requires step { (l : LineAt) × (slice_get (lines_from 0 j.steps) number ≡ Some l) × (l.step ≡ step) }
    ensures { IfOk result (λ b. (e : MultiEvent) → slice_get j.life.multis place ≡ Some e → (s : StandsAt j (multi_by e)) → IsTrue b ↔ IsToldMulti j place e s) }
{
    let first = known.table.lines_before(step);
    let round = match report.steps.items().get(step as usize) {
        Some(round) => round,
        None => return Ok(false),
    };
    let kept = match line_in(round, number.saturating_sub(first)) {
        Some(kept) => kept,
        None => return Ok(false),
    };
    let line = kept.line()?;
    let end = known.table.lines_before(step + 1);
    let from = count_of_events(&known.events, first);
    let to = count_of_events(&known.events, end);
    is_told_of(alloc, report, known, from, to, number, &line, place)
}

/// Whether the multixact event at this place is told by its command's reply in its turn. False where no line is its
/// command's. Takes as long as its line and its command's events are many, and the logarithm of the life's lines.
pub fn is_told_multi_at(
    alloc: Global,
    report: &LifeReport,
    known: &Known,
    place: u64,
) -> Result<bool, Memory>
    ghost j: { Judged }
    requires report { IsReportOf j report.now }
    requires known { IsKnown j known.now }
    requires within { place < length j.life.multis }
    ensures { IfOk result (λ b. (e : MultiEvent) → slice_get j.life.multis place ≡ Some e → (s : StandsAt j (multi_by e)) → IsTrue b ↔ IsToldMulti j place e s) }
{
    let number = known.multis.number_at(place);
    match known.table.line(number) {
        Some(at) => is_told_in(alloc, report, known, number, at.step, place),
        None => Ok(false),
    }
}
