//! The events that a line tells.
ghost use Rattle.std.specs.Prelude.{◌≡◌, IfOk, IfSome, IfNone, List, false};
ghost use Rattle.tx_events.specs.declared.event.Event.{Event};
ghost use Rattle.tx_model.specs.declared.command.Command.TheVariants as commands;
ghost use Rattle.tx_model.specs.declared.reply.Reply.TheVariants as replies;
ghost use Rattle.command_events.specs.Told.{AreTold, IsToldNothing, as_list, gives_ids};

use crate::kinds::begin_as_told;
use crate::plain::plain_event;
use crate::writes::{ids_given, most_given};
use line_stances::Standing;
use std::alloc::Global;
use tx_events::{By, Event, Memory, Refusal};
use tx_model::{Command, GivenIds, Line, Reply};

/// Of a write that was answered with these ids.
fn told_wrote(
    alloc: Global,
    by: By,
    standing: &Standing,
    ids: &GivenIds,
    warn: bool,
    own: &[Event],
) -> Result<Option<Vec<Event>>, Memory>
    ensures some { IfOk result (λ o. IfSome o (λ es. AreTold by standing.now commands.Write (replies.Wrote warn ids.now) own.now es.items)) }
    ensures none { IfOk result (λ o. IfNone o (IsToldNothing by standing.now commands.Write (replies.Wrote warn ids.now) own.now)) }
{
    let given = ids.items();
    if given.len() as u64 != standing.levels.lacking() {
        return Ok(None);
    }
    let events = standing.levels.events_giving(alloc, by, given)?;
    if !begin_as_told(events.as_slice(), own) {
        return Ok(None);
    }
    Ok(Some(events))
}

/// Of a write that was refused so.
fn told_refused(
    alloc: Global,
    by: By,
    standing: &Standing,
    refusal: &Refusal,
    own: &[Event],
) -> Result<Vec<Event>, Memory>
    ensures { IfOk result (λ es. AreTold by standing.now commands.Write (replies.Refused refusal.now) own.now es.items) }
{
    let most = most_given(refusal, standing.levels.lacking());
    let below = standing.levels.top().is_some();
    let ids = ids_given(alloc, below, most, own)?;
    let events = standing.levels.events_giving(alloc, by, ids.as_slice())?;
    Ok(events)
}

fn list_of(alloc: Global, event: Option<Event>) -> Result<Vec<Event>, Memory>
    ensures { IfOk result (λ es. es.items ≡ as_list event) }
{
    match event {
        Some(event) => {
            let mut events = Vec::with_capacity(alloc, 1)?;
            events.push(event)?;
            Ok(events)
        }
        None => Ok(Vec::new(alloc)),
    }
}

/// Of a command that gives no ids.
fn told_plain(
    alloc: Global,
    standing: &Standing,
    line: &Line,
    own: &[Event],
) -> Result<Option<Vec<Event>>, Memory>
    requires { gives_ids line.now.command line.now.reply ≡ false }
    ensures some { IfOk result (λ o. IfSome o (λ es. AreTold line.now.by standing.now line.now.command line.now.reply own.now es.items)) }
    ensures none { IfOk result (λ o. IfNone o (IsToldNothing line.now.by standing.now line.now.command line.now.reply own.now)) }
{
    let event = plain_event(line.by, standing, &line.command, &line.reply);
    let events = list_of(alloc, event)?;
    if !begin_as_told(events.as_slice(), own) {
        return Ok(None);
    }
    Ok(Some(events))
}

/// The longest events that the line's reply tells and with which its command's events, these, begin. None where no events
/// that it tells stand there. The session stood so before the line.
pub fn told_events(
    alloc: Global,
    standing: &Standing,
    line: &Line,
    own: &[Event],
) -> Result<Option<Vec<Event>>, Memory>
    ensures some { IfOk result (λ o. IfSome o (λ es. AreTold line.now.by standing.now line.now.command line.now.reply own.now es.items)) }
    ensures none { IfOk result (λ o. IfNone o (IsToldNothing line.now.by standing.now line.now.command line.now.reply own.now)) }
{
    match &line.command {
        Command::Write => match &line.reply {
            Reply::Wrote { warn, ids } => told_wrote(alloc, line.by, standing, ids, *warn, own),
            Reply::Refused { refusal } => {
                let events = told_refused(alloc, line.by, standing, refusal, own)?;
                Ok(Some(events))
            }
            _ => told_plain(alloc, standing, line, own),
        },
        _ => told_plain(alloc, standing, line, own),
    }
}
