//! The lines of the steps of a life are taken one by one.
ghost use Rattle.std.specs.Prelude.{◌≡◌, ◌≤◌, ◌+◌, ◌-◌, ◌||◌, ◌↔◌, ◌^◌, ◌<◌, [], None, Some, length, drop, take, true, IfErr, IfOk, IfSome, IsTrue, OnOk};
ghost use Rattle.report_text.specs.ReportText.{command_line, round_line};
ghost use Rattle.report_words.specs.Words.{behind};
ghost use Rattle.report_read.specs.Grammar.{Rule, after, begins_step, is_round, steps_told};
ghost use Rattle.report_read.specs.Item as items;
ghost use Rattle.report_read.specs.Taking.{AreFew, IsNoStep, IsRefused, IsTaken, note_some, pending_name, said_name};

use crate::growing::Growing;
use crate::naming::{may_speak, note, note_turn};
use crate::sharing::shared;
use crate::told::{Stage, Told};
use crate::words::{pending_name, said_name};
use report_lines::{is_history, is_round, read_line, read_step};
use report_text::Text;
use report_usual::usual_line;
use report_words::Unread;
use std::alloc::Global;
use tx_model::{KeptLine, Line, Memory, NameList, Sequence, Step};

/// The round that has spoken becomes a step.
fn close_round(alloc: Global, told: &mut Told) -> Result<(), Memory>
    ensures { OnOk result (told.new ≡ record told.old { steps = steps_told told.old.stage told.old; lines = [] }) }
{
    let lines = told.lines.finish(alloc);
    match told.stage {
        Stage::Spoken => told.steps.push(Step::Round {
            number: told.round,
            lines,
        }),
        _ => Ok(()),
    }
}

fn in_round(stage: Stage) -> bool
    ensures { result ≡ is_round stage }
{
    match stage {
        Stage::Silent => true,
        Stage::Spoken => true,
        _ => false,
    }
}

fn begins_step(stage: Stage) -> bool
    ensures { result ≡ begins_step stage }
{
    match stage {
        Stage::Steps => true,
        Stage::Spoken => true,
        _ => false,
    }
}

fn is_next(command: u64, count: u64) -> bool
    ensures { IsTrue result ↔ command ≡ count + 1 }
{
    command > 0 && command - 1 == count
}

/// Where the name of the next command's session is looked for first: a session's commands stand one after another.
fn near_speaker(speaker: Option<u32>) -> usize
    ensures { result < 2 ^ 32 }
{
    match speaker {
        Some(session) => session as usize,
        None => 0,
    }
}

/// Takes a command with its reply, where it may stand.
fn add_line(alloc: Global, told: &mut Told, said: Line) -> Result<(), Memory>
    requires { said.by.session < 64 }
    ensures { OnOk result (told.new ≡ after told.old (items.command said)) }
{
    let session = said.by.session;
    note_turn(told.speaker, &mut told.spoken, session)?;
    told.speaker = Some(session);
    told.counts[session as usize] = said.by.command;
    let line = shared(told.lines.items(), said)?;
    told.lines.push(KeptLine::of(alloc, line)?)?;
    told.stage = Stage::Spoken;
    Ok(())
}

/// The command with its reply that the line tells, where it is one of the commonest, of the session that spoke last, and
/// may stand.
fn usual_said(alloc: Global, told: &Told, line: &[u8]) -> Result<Option<Line>, Memory>
    requires { AreFew told.now.names }
    ensures stands { IfOk result (λ found. IfSome found (λ l. is_round told.now.stage ≡ true)) }
    ensures rule { IfOk result (λ found. IfSome found (λ l. Rule told.now (items.command l) told.now.names)) }
    ensures text { IfOk result (λ found. IfSome found (λ l. line.now ≡ command_line told.now.names l)) }
{
    if !in_round(told.stage) {
        return Ok(None);
    }
    let Some(said) = usual_line(alloc, &told.names, near_speaker(told.speaker), line)? else {
        return Ok(None);
    };
    let session = said.by.session;
    if is_next(said.by.command, told.counts[session as usize])
        && may_speak(told.speaker, &told.spoken, session)
    {
        return Ok(Some(said));
    }
    Ok(None)
}

/// A command with its reply, of the session of this name.
fn take_command(
    alloc: Global,
    out: &mut Text,
    told: &mut Told,
    name: &[u8],
    line: &[u8],
) -> Result<(), Unread>
    requires stage { (begins_step told.old.stage || is_round told.old.stage) ≡ true }
    requires few { AreFew told.old.names }
    requires some { 1 ≤ length line.now }
    requires name { said_name (behind (take (length line.now - 1) line.now)) ≡ Some name.now }
    ensures taken { OnOk result (IsTaken told.old told.new (drop 1 line.now)) }
    ensures refused { IfErr result (λ u. IsRefused u told.old (drop 1 line.now)) }
{
    if !in_round(told.stage) {
        return Err(Unread::Form);
    }
    let place = note(&mut told.names, near_speaker(told.speaker), name)?;
    let said = read_line(alloc, out, &told.names, place, line)?;
    let session = said.by.session;
    let count = told.counts[session as usize];
    if !is_next(said.by.command, count) {
        return Err(Unread::Form);
    }
    if !may_speak(told.speaker, &told.spoken, session) {
        return Err(Unread::Form);
    }
    add_line(alloc, told, said)?;
    Ok(())
}

/// A checkpoint or a dump.
fn take_single(alloc: Global, out: &mut Text, told: &mut Told, line: &[u8]) -> Result<(), Unread>
    requires stage { begins_step told.old.stage ≡ true }
    requires few { AreFew told.old.names }
    requires some { 1 ≤ length line.now }
    ensures taken { OnOk result (IsTaken told.old told.new (drop 1 line.now)) }
    ensures refused { IfErr result (λ u. IsNoStep u told.old (drop 1 line.now)) }
{
    note_pending(&mut told.names, &line[..line.len() - 1])?;
    let step = read_step(alloc, out, &told.names, line)?;
    close_round(alloc, told)?;
    told.steps.push(step)?;
    told.stage = Stage::Steps;
    Ok(())
}

/// Adds the name in the line of a checkpoint that was refused for a session's sake. The bytes end before the line's end.
fn note_pending(names: &mut NameList, bytes: &[u8]) -> Result<(), Unread>
    requires { AreFew names.old }
    ensures noted { OnOk result (names.new ≡ note_some names.old (pending_name (behind bytes.now))) }
    ensures few { OnOk result (AreFew names.new) }
    ensures refused { IfErr result (λ u. u ≡ Unread.Form → AreFew (note_some names.old (pending_name (behind bytes.now))) → ⊥) }
{
    match pending_name(bytes) {
        Ok(name) => {
            let _place = note(names, 0, name)?;
            Ok(())
        }
        Err(Unread::Memory) => Err(Unread::Memory),
        Err(Unread::Form) => Ok(()),
    }
}

/// Whether the line begins the round behind this one.
fn begins_round(out: &mut Text, round: u64, line: &[u8]) -> Result<bool, Memory>
    ensures { IfOk result (λ b. IsTrue b ↔ (round + 1 < 2 ^ 64) × (line.now ≡ round_line (round + 1))) }
{
    match round.checked_add(1) {
        None => Ok(false),
        Some(number) => is_round(out, number, line),
    }
}

/// A line that no session says: one that begins a round or the history, a checkpoint or a dump.
fn take_unsaid(alloc: Global, out: &mut Text, told: &mut Told, line: &[u8]) -> Result<(), Unread>
    requires stage { (begins_step told.old.stage || is_round told.old.stage) ≡ true }
    requires few { AreFew told.old.names }
    requires some { 1 ≤ length line.now }
    requires unsaid { said_name (behind (take (length line.now - 1) line.now)) ≡ None }
    ensures taken { OnOk result (IsTaken told.old told.new (drop 1 line.now)) }
    ensures refused { IfErr result (λ u. IsRefused u told.old (drop 1 line.now)) }
{
    if !begins_step(told.stage) {
        return Err(Unread::Form);
    }
    if is_history(&line[1..]) {
        close_round(alloc, told)?;
        told.events = Growing::new(alloc);
        told.stage = Stage::History;
        return Ok(());
    }
    if begins_round(out, told.round, &line[1..])? {
        close_round(alloc, told)?;
        told.round += 1;
        told.speaker = None;
        told.spoken = Sequence::new(alloc);
        told.stage = Stage::Silent;
        return Ok(());
    }
    take_single(alloc, out, told, line)
}

/// A line where a step may stand, or a further command of a round.
fn take_step(alloc: Global, out: &mut Text, told: &mut Told, line: &[u8]) -> Result<(), Unread>
    requires stage { (begins_step told.old.stage || is_round told.old.stage) ≡ true }
    requires few { AreFew told.old.names }
    requires some { 1 ≤ length line.now }
    ensures taken { OnOk result (IsTaken told.old told.new (drop 1 line.now)) }
    ensures refused { IfErr result (λ u. IsRefused u told.old (drop 1 line.now)) }
{
    match said_name(&line[..line.len() - 1]) {
        Ok(name) => take_command(alloc, out, told, name, line),
        Err(Unread::Form) => take_unsaid(alloc, out, told, line),
        Err(Unread::Memory) => Err(Unread::Memory),
    }
}

/// The same, where the commonest commands are tried first.
pub fn take_step_line(
    alloc: Global,
    out: &mut Text,
    told: &mut Told,
    line: &[u8],
) -> Result<(), Unread>
    requires stage { (begins_step told.old.stage || is_round told.old.stage) ≡ true }
    requires few { AreFew told.old.names }
    requires some { 1 ≤ length line.now }
    ensures taken { OnOk result (IsTaken told.old told.new (drop 1 line.now)) }
    ensures refused { IfErr result (λ u. IsRefused u told.old (drop 1 line.now)) }
{
    match usual_said(alloc, told, &line[1..])? {
        Some(said) => {
            add_line(alloc, told, said)?;
            Ok(())
        }
        None => take_step(alloc, out, told, line),
    }
}
