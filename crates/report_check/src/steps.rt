//! The lines of a life's steps.
ghost use Rattle.std.specs.Prelude.{◌≡◌, ◌+◌, ◌∷◌, ◌<◌, ◌↔◌, [], IfOk, IsTrue, List, Some, length, slice_get, take, true};
ghost use Rattle.std.specs.List.{flat_map, list_any};
ghost use Rattle.tx_model.specs.Rounds.{lines_in};
ghost use Rattle.report_law.specs.Checkpoints.{MayCheckpoint};
ghost use Rattle.report_law.specs.ReportLines.{IsLawfulAt, ReportLine, plain, step_lines, steps_lines};
ghost use Rattle.report_law.specs.Steps.{Judged};
ghost use Rattle.reply_lines.specs.At.{IsReportOf, IsRoundAt};
ghost use Rattle.reply_lines.specs.Known.{IsKept, IsKnown};
ghost use Rattle.record_rules.specs.AskedFor.{is_checkpoint};
ghost use Rattle.checkpoint_rules.specs.Behind.{AreMultiCounters};
ghost use Rattle.checkpoint_rules.specs.Noting.{AreNoted};
ghost use Rattle.report_check.specs.Passing.{IsPassed};
ghost use Rattle.report_check.specs.Stepping.{AreTables, AtStep, IsSoFar, noting_at, steps_before};
ghost use Rattle.report_check.specs.Walked.{IfLawful, IsWalked, is_lawful};

use crate::dumps::{Dumping, dumping_of, is_lawful_dump};
use crate::round_lines::{Passed, walk_round};
use crate::walked::{Walked, plus};
use checkpoint_rules::{
    Checkpoints, Point, checkpoints_of, is_lawful_checkpoint, multi_counters_of, pass_step,
};
use reply_lines::{Kept, Known, RoundAt, round_at};
use standing_rules::new_sessions;
use std::alloc::Global;
use tx_events::{Counters, Memory};
use tx_model::{LifeReport, Reply, Step};

/// What is made once of a life for its checkpoints and dumps: the counters at each place of its multixact events, if it has
/// a checkpoint, and what dumps are held against.
#[derive(Drop)]
pub struct Tables {
    pub column: Vec<Counters>,
    pub dumping: Dumping,
}

/// What is kept of the steps so far.
#[derive(Drop)]
pub struct SoFar {
    pub passed: Passed,
    pub checkpoints: Checkpoints,
}

/// A part of one line.
fn one_line(lawful: bool) -> Walked
    ensures { (x : ReportLine) → (IsTrue lawful ↔ IsLawfulAt x) → IsWalked (x ∷ []) result }
{
    if lawful {
        Walked::Lawful { lines: 1 }
    } else {
        Walked::Broken { lines: 0 }
    }
}

/// The same with a line before it that the grammar alone judges.
pub fn behind_plain(walked: Walked) -> Result<Walked, Memory>
    ensures walked { IfOk result (λ w. (xs : List ReportLine) → IsWalked xs walked → IsWalked (plain ∷ xs) w) }
    ensures same { IfOk result (λ w. is_lawful w ≡ is_lawful walked) }
{
    match walked {
        Walked::Lawful { lines } => Ok(Walked::Lawful {
            lines: plus(lines, 1)?,
        }),
        Walked::Broken { lines } => Ok(Walked::Broken {
            lines: plus(lines, 1)?,
        }),
    }
}

/// Where the place behind the steps so far stands.
fn here_of(known: &Known, passed: &Passed) -> RoundAt
    ghost of: { AtStep }
    requires known { IsKnown of.j known.now }
    requires step { slice_get of.j.steps of.round ≡ Some of.step }
    requires passed { IsPassed of.j (flat_map lines_in (steps_before of)) passed.now }
    ensures { IsRoundAt of.j (flat_map lines_in (steps_before of)) [] known.now result }
{
    let count = passed.lines;
    round_at(known, count, count)
}

/// Whether the checkpoint is lawful that was answered so behind the steps so far.
fn is_lawful_there(
    known: &Known,
    tables: &Tables,
    passed: &Passed,
    checkpoints: &Checkpoints,
    here: RoundAt,
    reply: &Reply,
) -> bool
    ghost of: { AtStep }
    requires known { IsKnown of.j known.now }
    requires multis { of.multis ≡ known.now.multi_places.events }
    requires tables { AreTables of.j known.now tables.now }
    requires step { slice_get of.j.steps of.round ≡ Some of.step }
    requires here { IsRoundAt of.j (flat_map lines_in (steps_before of)) [] known.now here }
    requires passed { IsPassed of.j (flat_map lines_in (steps_before of)) passed.now }
    requires noted { AreNoted (noting_at of) known.now.places checkpoints.now }
    requires checkpoint { list_any is_checkpoint of.j.steps ≡ true }
    ensures { IsTrue result ↔ MayCheckpoint of.j (steps_before of) reply.now }
{
    let point = Point {
        from: here.from,
        multi_from: here.multi_from,
    };
    is_lawful_checkpoint(
        &known.places,
        tables.column.as_slice(),
        checkpoints,
        point,
        here.judged,
        passed.sessions.as_slice(),
        known.end,
        reply,
    )
}

/// The lines of the step behind those so far. After want of memory nothing is known of `passed`.
fn walk_step_lines(
    alloc: Global,
    before: &[LifeReport],
    report: &LifeReport,
    kept: &Kept,
    known: &Known,
    tables: &Tables,
    passed: &mut Passed,
    checkpoints: &Checkpoints,
    here: RoundAt,
    step: &Step,
) -> Result<Walked, Memory>
    ghost of: { AtStep }
    requires report { IsReportOf of.j report.now }
    requires kept { IsKept of.j.begun before.now kept.now }
    requires known { IsKnown of.j known.now }
    requires multis { of.multis ≡ known.now.multi_places.events }
    requires tables { AreTables of.j known.now tables.now }
    requires step { slice_get of.j.steps of.round ≡ Some of.step }
    requires step_is { step.now ≡ of.step }
    requires here { IsRoundAt of.j (flat_map lines_in (steps_before of)) [] known.now here }
    requires passed { IsPassed of.j (flat_map lines_in (steps_before of)) passed.old }
    requires noted { AreNoted (noting_at of) known.now.places checkpoints.now }
    ensures walked { IfOk result (IsWalked (step_lines of.j (steps_before of) of.step)) }
    ensures passed { IfOk result (λ w. IfLawful w (IsPassed of.j (flat_map lines_in (take (of.round + 1) of.j.steps)) passed.new)) }
{
    match step {
        Step::Round { lines, .. } => behind_plain(walk_round(
            alloc,
            before,
            report,
            kept,
            known,
            passed,
            lines.items(),
        )?),
        Step::Checkpoint { reply } => Ok(one_line(is_lawful_there(
            known,
            tables,
            passed,
            checkpoints,
            here,
            reply.reply(),
        ))),
        Step::Dump {
            what,
            at,
            length,
            reply,
        } => Ok(one_line(is_lawful_dump(
            &tables.dumping,
            known,
            here,
            *what,
            *at,
            *length,
            reply.reply(),
        ))),
    }
}

/// The lines of the step at this place, behind those so far. After want of memory nothing is known of these.
fn walk_step(
    alloc: Global,
    before: &[LifeReport],
    report: &LifeReport,
    kept: &Kept,
    known: &Known,
    tables: &Tables,
    so_far: &mut SoFar,
    steps: &[Step],
    place: usize,
) -> Result<Walked, Memory>
    ghost of: { AtStep }
    requires report { IsReportOf of.j report.now }
    requires kept { IsKept of.j.begun before.now kept.now }
    requires known { IsKnown of.j known.now }
    requires multis { of.multis ≡ known.now.multi_places.events }
    requires tables { AreTables of.j known.now tables.now }
    requires steps { steps.now ≡ of.j.steps }
    requires place { place ≡ of.round }
    requires step { slice_get of.j.steps of.round ≡ Some of.step }
    requires within { place < length steps.now }
    requires so_far { IsSoFar of.j (steps_before of) known.now so_far.old }
    ensures walked { IfOk result (IsWalked (step_lines of.j (steps_before of) of.step)) }
    ensures so_far { IfOk result (λ w. IfLawful w (IsSoFar of.j (take (of.round + 1) of.j.steps) known.now so_far.new)) }
{
    let step = &steps[place];
    let here = here_of(known, &so_far.passed);
    let walked = walk_step_lines(
        alloc,
        before,
        report,
        kept,
        known,
        tables,
        &mut so_far.passed,
        &so_far.checkpoints,
        here,
        step,
    )?;
    let point = Point {
        from: here.from,
        multi_from: here.multi_from,
    };
    pass_step(
        &known.places,
        tables.column.as_slice(),
        &mut so_far.checkpoints,
        point,
        step,
    )?;
    Ok(walked)
}

/// How the steps of a life were judged, and what is kept of them.
#[derive(Drop)]
pub struct Walk {
    pub walked: Walked,
    pub so_far: SoFar,
}

/// Before the first step.
fn nothing_so_far(alloc: Global, report: &LifeReport) -> Result<SoFar, Memory>
    ensures { (j : Judged) (k : _) → j.life ≡ report.now.life → IfOk result (IsSoFar j [] k) }
{
    let checkpoints = checkpoints_of(alloc, &report.life)?;
    let sessions = new_sessions(alloc, 64)?;
    Ok(SoFar {
        passed: Passed {
            sessions,
            told: Vec::new(alloc),
            lines: 0,
            trims: 0,
        },
        checkpoints,
    })
}

fn is_checkpoint(step: &Step) -> bool
    ensures { result ≡ is_checkpoint step.now }
{
    matches!(step, Step::Checkpoint { .. })
}

/// Whether a checkpoint is among the steps.
fn has_checkpoint(steps: &[Step]) -> bool
    ensures { result ≡ list_any is_checkpoint steps.now }
{
    steps.iter().any(|step| is_checkpoint(step))
}

/// The counters of multixacts at each place, where a checkpoint is held against them; else none.
fn column_of(alloc: Global, report: &LifeReport, known: &Known) -> Result<Vec<Counters>, Memory>
    ghost j: { Judged }
    requires report { IsReportOf j report.now }
    requires known { IsKnown j known.now }
    requires base { report.now.life.base ≡ j.begun.counters }
    ensures { IfOk result (λ c. list_any is_checkpoint j.steps ≡ true → AreMultiCounters j.begun.counters known.now.multi_places.events c.items) }
{
    if !has_checkpoint(report.steps.items()) {
        return Ok(Vec::new(alloc));
    }
    multi_counters_of(alloc, &report.life.base, &known.multi_places)
}

fn tables_of(alloc: Global, report: &LifeReport, known: &Known) -> Result<Tables, Memory>
    ghost j: { Judged }
    requires report { IsReportOf j report.now }
    requires known { IsKnown j known.now }
    requires base { report.now.life.base ≡ j.begun.counters }
    ensures { IfOk result (AreTables j known.now) }
{
    let column = column_of(alloc, report, known)?;
    let dumping = dumping_of(alloc, report, known, &report.life.base)?;
    Ok(Tables { column, dumping })
}

/// The lines of a life's steps.
pub fn walk_steps(
    alloc: Global,
    before: &[LifeReport],
    report: &LifeReport,
    kept: &Kept,
    known: &Known,
) -> Result<Walk, Memory>
    ghost j: { Judged }
    requires report { IsReportOf j report.now }
    requires kept { IsKept j.begun before.now kept.now }
    requires known { IsKnown j known.now }
    requires base { report.now.life.base ≡ j.begun.counters }
    ensures walked { IfOk result (λ w. IsWalked (steps_lines j [] j.steps) w.walked) }
    ensures so_far { IfOk result (λ w. IfLawful w.walked (IsSoFar j j.steps known.now w.so_far)) }
{
    let tables = tables_of(alloc, report, known)?;
    let mut so_far = nothing_so_far(alloc, report)?;
    let steps = report.steps.items();
    let mut count: u64 = 0;
    for place in 0..steps.len() {
        match walk_step(
            alloc,
            before,
            report,
            kept,
            known,
            &tables,
            &mut so_far,
            steps,
            place,
        )? {
            Walked::Lawful { lines } => count = plus(count, lines)?,
            Walked::Broken { lines } => {
                return Ok(Walk {
                    walked: Walked::Broken {
                        lines: plus(count, lines)?,
                    },
                    so_far,
                });
            }
        }
    }
    Ok(Walk {
        walked: Walked::Lawful { lines: count },
        so_far,
    })
}
