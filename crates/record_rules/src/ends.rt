//! How the transactions of a history ended, each with the ids that it had open then.
ghost use Rattle.std.specs.Prelude.{◌≡◌, ◌<◌, ◌≤◌, ◌∷◌, ◌++◌, [], List, IfOk, OnOk, length};
ghost use Rattle.std.specs.List.{between};
ghost use Rattle.tx_events.specs.declared.event.Event.{Event};
ghost use Rattle.tx_events.specs.Events.{by_of};
ghost use Rattle.tx_events.specs.XactEnds.{end_event};
ghost use Rattle.record_rules.specs.Ends.{AreEnds, is_end};

use history_check::HistoryReplay;
use near_map::NearMap;
use std::alloc::Global;
use tx_events::{By, Event, FullXid, Memory, XactEnd};

/// How a transaction ended, and where the ids stand that it had open then: its top, and the subids that weren't rolled
/// back.
#[derive(Clone, Copy)]
pub struct Ended {
    pub how: XactEnd,
    pub from: usize,
    pub end: usize,
}

/// Ended transactions by their top-level ids, and the ids of all.
#[derive(Drop)]
pub struct Ends {
    pub by_top: NearMap<Ended>,
    pub ids: Vec<FullXid>,
}

/// None has ended. Most tops are next to the first id.
#[tactic(auto, using(crate::proofs::Ending::no_ends))]
pub fn none_ended(alloc: Global, first: FullXid, count: usize) -> Result<Ends, Memory>
    ensures { IfOk result (AreEnds []) }
{
    let by_top = NearMap::new(alloc, first.number(), count)?;
    Ok(Ends {
        by_top,
        ids: Vec::new(alloc),
    })
}

/// Keeps that the transaction of this top ends so, with the ids that its session has open.
fn keep_end(
    ends: &mut Ends,
    replay: &HistoryReplay,
    how: XactEnd,
    by: By,
    top: FullXid,
) -> Result<(), Memory>
    requires { by.session < replay.now.sessions }
    ensures { OnOk result (AreEnds replay.now.events ends.old → AreEnds (replay.now.events ++ end_event how by top ∷ []) ends.new) }
{
    let from = ends.ids.len();
    replay.push_open(by.session, &mut ends.ids)?;
    let end = ends.ids.len();
    ends.by_top.put(top.number(), Ended { how, from, end })?;
    Ok(())
}

fn is_end(event: &Event) -> bool
    ensures { result ≡ is_end event.now }
{
    match event {
        Event::Commit { .. } => true,
        Event::Abort { .. } => true,
        _ => false,
    }
}

/// Keeps the event that comes next, where it ends a transaction.
pub fn note_end(ends: &mut Ends, replay: &HistoryReplay, event: &Event) -> Result<(), Memory>
    requires { (by_of event.now).session < replay.now.sessions }
    ensures { OnOk result (AreEnds replay.now.events ends.old → AreEnds (replay.now.events ++ event.now ∷ []) ends.new) }
{
    if !is_end(event) {
        return Ok(());
    }
    match event {
        Event::Commit { by, top } => keep_end(ends, replay, XactEnd::Commit, by.get(), *top),
        Event::Abort { by, top } => keep_end(ends, replay, XactEnd::Abort, by.get(), *top),
        _ => Ok(()),
    }
}

/// The ids from one place up to another.
pub fn part_of(ids: &[FullXid], from: usize, end: usize) -> &[FullXid]
    ensures { from ≤ end → end ≤ length ids.now → result.now ≡ between from end ids.now }
{
    let end = end.min(ids.len());
    let from = from.min(end);
    &ids[from..end]
}
