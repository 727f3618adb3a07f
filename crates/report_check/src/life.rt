//! The lines of a life.
ghost use Rattle.std.specs.Prelude.{◌≡◌, ◌++◌, ◌∷◌, ◌<◌, [], IfOk, List, length};
ghost use Rattle.std.specs.List.{All, AllByRecursion, flat_map};
ghost use Rattle.tx_model.specs.Rounds.{lines_in};
ghost use Rattle.tx_events.specs.Events.{by_of};
ghost use Rattle.tx_events.specs.History.{IsLegal};
ghost use Rattle.tx_events.specs.Multis.{AreLegalMultis, multi_by};
ghost use Rattle.report_law.specs.Begun.{IsLawfulStart, begun_from};
ghost use Rattle.report_law.specs.MultiLines.{of_records};
ghost use Rattle.report_law.specs.ReportLines.{IsLawfulAt, ReportLine, event, life_lines, log, logged, multi, placed, plain, steps_lines};
ghost use Rattle.report_law.specs.Steps.{Judged};
ghost use Rattle.life_tables.specs.Numbered.{IsNumbered};
ghost use Rattle.reply_lines.specs.At.{IsReportOf};
ghost use Rattle.reply_lines.specs.Known.{IsKept, IsKnown};
ghost use Rattle.report_check.specs.Keeping.{IsLeft};
ghost use Rattle.life_tables.specs.Lives.{LifeAt, judged_life};
ghost use Rattle.checkpoint_rules.specs.Noting.{AreNoted};
ghost use Rattle.report_check.specs.Passing.{IsPassed};
ghost use Rattle.report_check.specs.Stepping.{IsSoFar, KnownLife, noting_of};
ghost use Rattle.report_check.specs.Walked.{IfLawful, IsWalked, behind_events, behind_steps, log_lines};

use crate::histories::{walk_events, walk_multis};
use crate::known::known_of;
use crate::records::walk_records;
use crate::round_lines::Passed;
use crate::steps::{SoFar, Walk, behind_plain, walk_steps};
use crate::walked::{Walked, plus};
use checkpoint_rules::Checkpoints;
use history_places::MultiPlaces;
use record_rules::is_lawful_log;
use reply_lines::{Kept, Known};
use std::alloc::Global;
use tx_model::{LifeReport, Memory};

/// The same behind so many lawful lines.
fn behind(count: u64, walked: Walked) -> Result<Walked, Memory>
    ensures { IfOk result (λ w. (xs ys : List ReportLine) → AllByRecursion IsLawfulAt xs → count ≡ length xs → IsWalked ys walked → IsWalked (xs ++ ys) w) }
{
    match walked {
        Walked::Lawful { lines } => Ok(Walked::Lawful {
            lines: plus(count, lines)?,
        }),
        Walked::Broken { lines } => Ok(Walked::Broken {
            lines: plus(count, lines)?,
        }),
    }
}

/// The same with a line behind it that the grammar alone judges.
fn before_plain(walked: Walked) -> Result<Walked, Memory>
    ensures { IfOk result (λ w. (xs : List ReportLine) → IsWalked xs walked → IsWalked (xs ++ plain ∷ []) w) }
{
    match walked {
        Walked::Lawful { lines } => Ok(Walked::Lawful {
            lines: plus(lines, 1)?,
        }),
        Walked::Broken { lines } => Ok(Walked::Broken { lines }),
    }
}

/// The lines of the log and the last one, where all before are lawful.
fn walk_log(
    alloc: Global,
    report: &LifeReport,
    multis: &MultiPlaces,
    checkpoints: &Checkpoints,
) -> Result<Walked, Memory>
    ghost at: { KnownLife }
    requires report { IsReportOf at.j report.now }
    requires known { IsKnown at.j at.known × (multis.now ≡ at.known.multi_places) }
    requires base { at.j.begun.counters ≡ report.now.life.base }
    requires few { All (λ e. (by_of e).session < 64) at.j.life.events }
    requires noted { AreNoted (noting_of at.j at.j.steps at.known.multi_places.events) at.known.places checkpoints.now }
    requires legal { IsLegal at.j.begun.counters at.j.life.events }
    requires legal_multis { AreLegalMultis at.j.begun.counters (of_records at.j.begun.counters at.j.begun.recorded) at.j.life.multis }
    ensures { IfOk result (IsWalked (log_lines report.now.crash at.j)) }
{
    if !is_lawful_log(report.crash, &report.life) {
        return Ok(Walked::Broken { lines: 0 });
    }
    let records = walk_records(alloc, report, multis, checkpoints)?;
    before_plain(behind(1, records)?)
}

/// The legal front of the multixact events alone. The rest is let go.
fn into_multis(known: Known) -> MultiPlaces
    ensures { result ≡ known.multi_places }
{
    let Known { multi_places, .. } = known;
    multi_places
}

/// The lines from the multixact events on, where all before are lawful.
fn walk_from_multis(
    alloc: Global,
    report: &LifeReport,
    known: Known,
    checkpoints: &Checkpoints,
) -> Result<Walked, Memory>
    ghost at: { KnownLife }
    requires report { IsReportOf at.j report.now }
    requires known { IsKnown at.j known × (known ≡ at.known) }
    requires base { at.j.begun.counters ≡ report.now.life.base }
    requires few { All (λ e. (by_of e).session < 64) at.j.life.events }
    requires multis_few { All (λ e. (multi_by e).session < 64) at.j.life.multis }
    requires noted { AreNoted (noting_of at.j at.j.steps known.multi_places.events) known.places checkpoints.now }
    requires legal { IsLegal at.j.begun.counters at.j.life.events }
    ensures { IfOk result (IsWalked (behind_events report.now.crash at.j)) }
{
    match behind_plain(walk_multis(alloc, report, &known)?)? {
        Walked::Lawful { lines } => {
            let multis = into_multis(known);
            behind(lines, walk_log(alloc, report, &multis, checkpoints)?)
        }
        Walked::Broken { lines } => Ok(Walked::Broken { lines }),
    }
}

/// The lines of the history, where those of the steps are lawful. What is said of their events is let go then.
fn walk_told(report: &LifeReport, known: &Known, passed: Passed) -> Result<Walked, Memory>
    ghost j: { Judged }
    requires report { IsReportOf j report.now }
    requires known { IsKnown j known.now }
    requires passed { IsPassed j (flat_map lines_in j.steps) passed }
    ensures { IfOk result (IsWalked (plain ∷ placed (event j) 0 j.life.events)) }
{
    let told = passed.told.as_slice();
    behind_plain(walk_events(report, known, told))
}

/// The lines from the events on, where all before are lawful.
fn walk_from_events(
    alloc: Global,
    report: &LifeReport,
    known: Known,
    so_far: SoFar,
) -> Result<Walked, Memory>
    ghost j: { Judged }
    requires report { IsReportOf j report.now }
    requires known { IsKnown j known }
    requires base { j.begun.counters ≡ report.now.life.base }
    requires few { All (λ e. (by_of e).session < 64) j.life.events }
    requires multis_few { All (λ e. (multi_by e).session < 64) j.life.multis }
    requires so_far { IsSoFar j j.steps known so_far }
    ensures { IfOk result (IsWalked (behind_steps report.now.crash j)) }
{
    let SoFar {
        passed,
        checkpoints,
    } = so_far;
    match walk_told(report, &known, passed)? {
        Walked::Lawful { lines } => {
            behind(lines, walk_from_multis(alloc, report, known, &checkpoints)?)
        }
        Walked::Broken { lines } => Ok(Walked::Broken { lines }),
    }
}

/// The lines behind the first one, whose steps were judged so.
fn walk_on(alloc: Global, report: &LifeReport, known: Known, steps: Walk) -> Result<Walked, Memory>
    ghost j: { Judged }
    requires report { IsReportOf j report.now }
    requires known { IsKnown j known }
    requires base { j.begun.counters ≡ report.now.life.base }
    requires few { All (λ e. (by_of e).session < 64) j.life.events }
    requires multis_few { All (λ e. (multi_by e).session < 64) j.life.multis }
    requires walked { IsWalked (steps_lines j [] j.steps) steps.walked }
    requires so_far { IfLawful steps.walked (IsSoFar j j.steps known steps.so_far) }
    ensures { IfOk result (IsWalked (steps_lines j [] j.steps ++ behind_steps report.now.crash j)) }
{
    match steps.walked {
        Walked::Lawful { lines } => {
            behind(lines, walk_from_events(alloc, report, known, steps.so_far)?)
        }
        Walked::Broken { lines } => Ok(Walked::Broken { lines }),
    }
}

/// The lines behind the first one.
fn walk_from_steps(
    alloc: Global,
    before: &[LifeReport],
    report: &LifeReport,
    kept: &Kept,
    known: Known,
) -> Result<Walked, Memory>
    ghost j: { Judged }
    requires report { IsReportOf j report.now }
    requires kept { IsKept j.begun before.now kept.now }
    requires known { IsKnown j known }
    requires base { j.begun.counters ≡ report.now.life.base }
    requires few { All (λ e. (by_of e).session < 64) j.life.events }
    requires multis_few { All (λ e. (multi_by e).session < 64) j.life.multis }
    ensures { IfOk result (IsWalked (steps_lines j [] j.steps ++ behind_steps report.now.crash j)) }
{
    let steps = walk_steps(alloc, before, report, kept, &known)?;
    walk_on(alloc, report, known, steps)
}

/// The lines of the life that comes behind these and begins as it may, from what is kept.
pub fn walk_life(
    alloc: Global,
    before: &[LifeReport],
    report: &LifeReport,
    kept: &Kept,
) -> Result<Walked, Memory>
    ghost at: { LifeAt }
    requires begun { at.begun ≡ begun_from before.now report.now.life }
    requires report { report.now ≡ at.report }
    requires numbered { IsNumbered report.now }
    requires start { IsLawfulStart before.now report.now.life }
    requires left { IsLeft at.begun before.now kept.now }
    ensures { IfOk result (IsWalked (life_lines before.now report.now)) }
{
    let known = known_of(alloc, report, kept.starts.as_slice())?;
    let rest = walk_from_steps(alloc, before, report, kept, known)?;
    behind(1, rest)
}
