//! The lines of a round.
ghost use Rattle.std.specs.Prelude.{◌≡◌, ◌++◌, ◌∷◌, ◌+◌, ◌<◌, ◌↔◌, [], IfOk, IsTrue, Some, length, slice_get};
ghost use Rattle.tx_model.specs.Rounds.{lines_in};
ghost use Rattle.report_law.specs.ReportLines.{command_lines};
ghost use Rattle.report_law.specs.Steps.{IsLawfulCommand};
ghost use Rattle.standing_rules.specs.Sessions.{AreBehind, IsBehind, Lived};
ghost use Rattle.reply_lines.specs.At.{AtLine, IsReportOf, IsRoundAt, before_at, earlier_at, lines_at, rounds_at};
ghost use Rattle.reply_lines.specs.Known.{IsKept, IsKnown};
ghost use Rattle.report_check.specs.Passing.{AtRound, IsPassed, lines_before, trims_with};
ghost use Rattle.report_check.specs.Walked.{IfLawful, IsWalked};

use crate::walked::{Walked, plus};
use reply_lines::{Kept, Known, RoundAt, is_lawful_command, pass_line, round_at};
use reply_rules::is_ok_trim;
use standing_rules::Session;
use std::alloc::Global;
use tx_events::Memory;
use tx_model::{KeptLine, LifeReport, Line};

/// What is kept of the lines of a life so far: how each session stands behind them, of each of their events whether its
/// line's reply tells it, how many lines there are, and how many are trims that were answered `ok`.
#[derive(Drop)]
pub struct Passed {
    pub sessions: Vec<Session>,
    pub told: Vec<bool>,
    pub lines: u64,
    pub trims: u64,
}

/// How many trims there are with this line.
fn trims_with(trims: u64, line: &Line) -> Result<u64, Memory>
    ensures { IfOk result (λ n. n ≡ trims_with trims line.now) }
{
    if is_ok_trim(line) {
        return plus(trims, 1);
    }
    Ok(trims)
}

/// How the line's session stands.
fn session_of<'a>(sessions: &'a [Session], line: &Line) -> &'a Session
    requires { line.now.by.session < length sessions.now }
    ensures { (v : Lived) → AreBehind v (length sessions.now) sessions.now → IsBehind v line.now.by.session result.now }
{
    &sessions[line.by.session as usize]
}

/// Whether the line at this place of its round is lawful; then it is passed. After want of memory nothing is known of
/// `passed`.
fn walk_line(
    alloc: Global,
    before: &[LifeReport],
    report: &LifeReport,
    kept: &Kept,
    known: &Known,
    round: RoundAt,
    passed: &mut Passed,
    lines: &[KeptLine],
    place: usize,
) -> Result<bool, Memory>
    ghost at: { AtLine }
    requires report { IsReportOf at.j report.now }
    requires kept { IsKept at.j.begun before.now kept.now }
    requires known { IsKnown at.j known.now }
    requires step { slice_get at.j.steps at.round ≡ Some at.step }
    requires lines { lines.now ≡ lines_in at.step }
    requires round { IsRoundAt at.j (rounds_at at) (lines_at at) known.now round }
    requires passed { IsPassed at.j (before_at at) passed.old }
    requires place { place ≡ at.place }
    requires within { place < length lines.now }
    ensures lawful { IfOk result (λ b. (l : _) → slice_get (lines_at at) at.place ≡ Some l → IsTrue b ↔ IsLawfulCommand at.j (rounds_at at) (lines_at at) (earlier_at at) l) }
    ensures passed { IfOk result (λ b. (l : _) → slice_get (lines_at at) at.place ≡ Some l → IsTrue b → IsPassed at.j (before_at at ++ l ∷ []) passed.new) }
{
    let line = lines[place].line()?;
    let number = passed.lines;
    let lawful = is_lawful_command(
        alloc,
        before,
        kept,
        report,
        known,
        round,
        session_of(passed.sessions.as_slice(), &line),
        passed.trims,
        number,
        &line,
        &mut passed.told,
    )?;
    if !lawful {
        return Ok(false);
    }
    pass_line(alloc, report, known, number, &line, &mut passed.sessions)?;
    let next = plus(number, 1)?;
    let trims = trims_with(passed.trims, &line)?;
    passed.lines = next;
    passed.trims = trims;
    Ok(true)
}

/// The lines of a round, behind those of the life that were passed. After want of memory nothing is known of `passed`.
pub fn walk_round(
    alloc: Global,
    before: &[LifeReport],
    report: &LifeReport,
    kept: &Kept,
    known: &Known,
    passed: &mut Passed,
    lines: &[KeptLine],
) -> Result<Walked, Memory>
    ghost of: { AtRound }
    requires report { IsReportOf of.j report.now }
    requires kept { IsKept of.j.begun before.now kept.now }
    requires known { IsKnown of.j known.now }
    requires step { slice_get of.j.steps of.round ≡ Some of.step }
    requires lines { lines.now ≡ lines_in of.step }
    requires passed { IsPassed of.j (lines_before of) passed.old }
    ensures walked { IfOk result (IsWalked (command_lines of.j (lines_before of) (lines_in of.step) [] (lines_in of.step))) }
    ensures passed { IfOk result (λ w. IfLawful w (IsPassed of.j (lines_before of ++ lines_in of.step) passed.new)) }
{
    let start = passed.lines;
    let count = lines.len();
    let round = round_at(known, start, plus(start, count as u64)?);
    for place in 0..count {
        if !walk_line(
            alloc, before, report, kept, known, round, passed, lines, place,
        )? {
            return Ok(Walked::Broken {
                lines: place as u64,
            });
        }
    }
    Ok(Walked::Lawful {
        lines: count as u64,
    })
}
