//! The counters behind the first events of both histories.
ghost use Rattle.std.specs.Prelude.{◌≡◌, ◌≤◌, List, IfOk, length, take};
ghost use Rattle.tx_events.specs.declared.multi.MultiEvent.{MultiEvent};
ghost use Rattle.report_law.specs.Checkpoints.{counters_after};
ghost use Rattle.checkpoint_rules.specs.Behind.{AreMultiCounters, IsSmall, counters_with};

use history_places::{HistoryPlaces, MultiPlaces};
use std::alloc::Global;
use tx_events::{Counters, Memory, MultiEvent};

/// The counters behind one event more, whose numbers are below their limits.
fn counters_with(counters: &Counters, event: &MultiEvent) -> Counters
    requires { IsSmall event.now }
    ensures { result ≡ counters_with counters.now event.now }
{
    let mut behind = counters.same();
    match event {
        MultiEvent::Gen {
            multi,
            offset,
            members,
            ..
        } => {
            behind.multi = multi.advance();
            behind.offset = *offset + members.items().len() as u64;
        }
        MultiEvent::Raise { multi, offset, .. } => {
            behind.oldest_multi = *multi;
            behind.oldest_offset = *offset;
        }
        _ => (),
    }
    behind
}

/// The counters of multixacts at each place of a legal history, and behind it.
pub fn multi_counters_of(
    alloc: Global,
    base: &Counters,
    multis: &MultiPlaces,
) -> Result<Vec<Counters>, Memory>
    requires { base.now ≡ multis.now.base }
    ensures { IfOk result (λ column. AreMultiCounters multis.now.base multis.now.events column.items) }
{
    let events = multis.events();
    let mut column = Vec::new(alloc);
    let mut counters = base.same();
    for event in events {
        column.push(counters.same())?;
        counters = counters_with(&counters, event);
    }
    column.push(counters)?;
    Ok(column)
}

/// The counters behind so many events of each of the two histories. The column is that of `multi_counters_of`.
pub fn counters_at(
    places: &HistoryPlaces,
    column: &[Counters],
    from: u64,
    multi_from: u64,
) -> Counters
    ghost multis: { List MultiEvent }
    requires column { AreMultiCounters places.now.base multis column.now }
    requires from { from ≤ length places.now.events }
    requires multi_from { multi_from ≤ length multis }
    ensures { result ≡ counters_after places.now.base (take from places.now.events) (take multi_from multis) }
{
    let mut counters = column[multi_from as usize].same();
    counters.next = places.next_at(from);
    counters.oldest = places.oldest_at(from);
    counters
}
