//! Lines are taken one by one.
ghost use Rattle.std.specs.Prelude.{◌≡◌, ◌<◌, ◌≤◌, ◌||◌, ◌++◌, ◌∷◌, [], true, false, length, drop, IfErr, IfNone, IfOk, IfSome, OnOk, Some, Option, ◌+◌, ◌^◌};
ghost use Rattle.report_words.specs.Words.{behind};
ghost use Rattle.report_read.specs.Grammar.{Rule, begins_step, is_opening, is_round, life_told};
ghost use Rattle.report_read.specs.Item as items;
ghost use Rattle.report_words.specs.Texts.{record_line};
ghost use Rattle.report_read.specs.Taking.{AreFew, IsRefused, IsTaken};
ghost use Rattle.report_read.specs.declared.told.Stage.TheVariants as stages;

use crate::growing::Growing;
use crate::multi_history::MultiHistory;
use crate::naming::note;
use crate::steps::take_step_line;
use crate::told::{Stage, Told};
use crate::words::second_word;
use report_lines::{
    crash_at, is_end, is_multis, read_event, read_log_head, read_multi_event, read_record,
    read_start,
};
use report_text::Text;
use report_usual::{usual_event, usual_multi_event, usual_record};
use report_words::Unread;
use std::alloc::Global;
use tx_model::{Event, How, IdList, Life, LifeReport, Memory, MultiEvent, Rec, RecList};

fn take_life(alloc: Global, out: &mut Text, told: &mut Told, line: &[u8]) -> Result<(), Unread>
    requires stage { told.old.stage ≡ stages.Between }
    requires some { 1 ≤ length line.now }
    ensures taken { OnOk result (IsTaken told.old told.new (drop 1 line.now)) }
    ensures refused { IfErr result (λ u. IsRefused u told.old (drop 1 line.now)) }
{
    let number = told.lives.items().len() as u64 + 1;
    let start = read_start(out, number, line)?;
    told.stage = Stage::Steps;
    told.start = start;
    told.steps = Growing::new(alloc);
    told.round = 0;
    told.counts = [0; 64];
    Ok(())
}

/// Where the name of the next event's session is looked for first: at that of the last one.
fn near_event(events: &[Event]) -> usize
    ensures { result < 2 ^ 32 }
{
    match events.last() {
        Some(event) => event.by().session as usize,
        None => 0,
    }
}

fn take_event(alloc: Global, out: &mut Text, told: &mut Told, line: &[u8]) -> Result<(), Unread>
    requires stage { told.old.stage ≡ stages.History }
    requires few { AreFew told.old.names }
    requires some { 1 ≤ length line.now }
    ensures taken { OnOk result (IsTaken told.old told.new (drop 1 line.now)) }
    ensures refused { IfErr result (λ u. IsRefused u told.old (drop 1 line.now)) }
{
    if is_multis(&line[1..]) {
        told.stage = Stage::Multis;
        told.multis = MultiHistory::new(alloc);
        return Ok(());
    }
    let name = second_word(&line[..line.len() - 1])?;
    let place = note(&mut told.names, near_event(told.events.items()), name)?;
    let event = read_event(out, &told.names, place, line)?;
    told.events.push(event)?;
    Ok(())
}

/// The same, where the commonest events are tried first.
fn take_event_line(
    alloc: Global,
    out: &mut Text,
    told: &mut Told,
    line: &[u8],
) -> Result<(), Unread>
    requires stage { told.old.stage ≡ stages.History }
    requires few { AreFew told.old.names }
    requires some { 1 ≤ length line.now }
    ensures taken { OnOk result (IsTaken told.old told.new (drop 1 line.now)) }
    ensures refused { IfErr result (λ u. IsRefused u told.old (drop 1 line.now)) }
{
    match usual_event(&told.names, near_event(told.events.items()), &line[1..]) {
        Some(event) => {
            told.events.push(event)?;
            Ok(())
        }
        None => take_event(alloc, out, told, line),
    }
}

/// Where the name of the next multixact event's session is looked for first.
fn near_multi(events: &[MultiEvent]) -> usize
    ensures { result < 2 ^ 32 }
{
    match events.last() {
        Some(event) => event.by().session as usize,
        None => 0,
    }
}

fn take_multi(alloc: Global, out: &mut Text, told: &mut Told, line: &[u8]) -> Result<(), Unread>
    requires stage { told.old.stage ≡ stages.Multis }
    requires few { AreFew told.old.names }
    requires some { 1 ≤ length line.now }
    ensures taken { OnOk result (IsTaken told.old told.new (drop 1 line.now)) }
    ensures refused { IfErr result (λ u. IsRefused u told.old (drop 1 line.now)) }
{
    match read_log_head(out, line) {
        Ok(head) => {
            told.stage = Stage::Log;
            told.log = head;
            told.recs = Growing::new(alloc);
            return Ok(());
        }
        Err(Unread::Memory) => return Err(Unread::Memory),
        Err(Unread::Form) => (),
    }
    let name = second_word(&line[..line.len() - 1])?;
    let place = note(&mut told.names, near_multi(told.multis.items()), name)?;
    let event = read_multi_event(alloc, out, &told.names, place, line)?;
    told.multis.push(event)?;
    Ok(())
}

/// The same, where the commonest multixact events are tried first.
fn take_multi_line(
    alloc: Global,
    out: &mut Text,
    told: &mut Told,
    line: &[u8],
) -> Result<(), Unread>
    requires stage { told.old.stage ≡ stages.Multis }
    requires few { AreFew told.old.names }
    requires some { 1 ≤ length line.now }
    ensures taken { OnOk result (IsTaken told.old told.new (drop 1 line.now)) }
    ensures refused { IfErr result (λ u. IsRefused u told.old (drop 1 line.now)) }
{
    let near = near_multi(told.multis.items());
    match usual_multi_event(alloc, &told.names, near, &line[1..])? {
        Some(event) => {
            told.multis.push(event)?;
            Ok(())
        }
        None => take_multi(alloc, out, told, line),
    }
}

/// Ends the present life.
fn end_life(alloc: Global, told: &mut Told, crash: Option<How>) -> Result<(), Memory>
    ensures { OnOk result (told.new ≡ record told.old {
      lives = told.old.lives ++ life_told told.old crash ∷ [];
      steps = [];
      events = [];
      multis = [];
      recs = [];
    }) }
{
    let life = Life {
        from: told.start.from,
        base: told.start.base,
        committed: IdList::new(alloc),
        recorded: RecList::new(alloc),
        events: told.events.finish(alloc),
        multis: told.multis.finish(alloc),
        recs: told.recs.finish(alloc),
        flushed: told.log.flushed,
        end: told.log.end,
    };
    let steps = told.steps.finish(alloc);
    told.lives.push(LifeReport { life, steps, crash })
}

/// The number of the next record. None where it isn't below 2^64.
fn next_number(told: &Told) -> Option<u64>
    ensures some { IfSome result (λ n. n ≡ told.now.start.from + length told.now.recs) }
    ensures none { IfNone result (2 ^ 64 ≤ told.now.start.from + length told.now.recs) }
{
    told.start.from.checked_add(told.recs.items().len() as u64)
}

fn add_record(told: &mut Told, rec: Rec) -> Result<(), Memory>
    ensures ok { OnOk result (told.new ≡ record told.old { recs = told.old.recs ++ rec ∷ [] }) }
{
    let rec = told.multis.shared(rec)?;
    told.recs.push(rec)
}

fn take_record(alloc: Global, out: &mut Text, told: &mut Told, line: &[u8]) -> Result<(), Unread>
    requires stage { told.old.stage ≡ stages.Log }
    requires some { 1 ≤ length line.now }
    ensures taken { OnOk result (IsTaken told.old told.new (drop 1 line.now)) }
    ensures refused { IfErr result (λ u. IsRefused u told.old (drop 1 line.now)) }
{
    if is_end(&line[1..]) {
        end_life(alloc, told, None)?;
        told.stage = Stage::Closed;
        return Ok(());
    }
    if let Some(how) = crash_at(&line[1..]) {
        end_life(alloc, told, Some(how))?;
        told.stage = Stage::Between;
        return Ok(());
    }
    match next_number(told) {
        None => Err(Unread::Form),
        Some(number) => {
            let rec = read_record(alloc, out, number, line)?;
            add_record(told, rec)?;
            Ok(())
        }
    }
}

/// The next record, where the line tells it and it is one of the commonest.
fn usual_next(alloc: Global, told: &Told, line: &[u8]) -> Result<Option<Rec>, Memory>
    ensures rule { IfOk result (λ found. IfSome found (λ r. Rule told.now (items.logged (told.now.start.from + length told.now.recs) r) told.now.names)) }
    ensures text { IfOk result (λ found. IfSome found (λ r. line.now ≡ record_line (told.now.start.from + length told.now.recs) r)) }
{
    match next_number(told) {
        Some(number) => usual_record(alloc, number, line),
        None => Ok(None),
    }
}

/// A line of the log, where the commonest records are tried first.
fn take_log_line(alloc: Global, out: &mut Text, told: &mut Told, line: &[u8]) -> Result<(), Unread>
    requires stage { told.old.stage ≡ stages.Log }
    requires some { 1 ≤ length line.now }
    ensures taken { OnOk result (IsTaken told.old told.new (drop 1 line.now)) }
    ensures refused { IfErr result (λ u. IsRefused u told.old (drop 1 line.now)) }
{
    match usual_next(alloc, told, &line[1..])? {
        Some(rec) => {
            add_record(told, rec)?;
            Ok(())
        }
        None => take_record(alloc, out, told, line),
    }
}

/// Takes a line behind the title, where it may stand. The bytes begin with the one before the line, and end with the line's end. After
/// an `Err` nothing is known of what is told.
pub fn take(alloc: Global, out: &mut Text, told: &mut Told, line: &[u8]) -> Result<(), Unread>
    requires begun { is_opening told.old.stage ≡ false }
    requires few { AreFew told.old.names }
    requires some { 1 ≤ length line.now }
    ensures taken { OnOk result (IsTaken told.old told.new (drop 1 line.now)) }
    ensures refused { IfErr result (λ u. IsRefused u told.old (drop 1 line.now)) }
{
    match told.stage {
        Stage::Opening => Err(Unread::Form),
        Stage::Between => take_life(alloc, out, told, line),
        Stage::Steps => take_step_line(alloc, out, told, line),
        Stage::Silent => take_step_line(alloc, out, told, line),
        Stage::Spoken => take_step_line(alloc, out, told, line),
        Stage::History => take_event_line(alloc, out, told, line),
        Stage::Multis => take_multi_line(alloc, out, told, line),
        Stage::Log => take_log_line(alloc, out, told, line),
        Stage::Closed => Err(Unread::Form),
    }
}
