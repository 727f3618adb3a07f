//! Columns of the next ones.
ghost use Rattle.std.specs.Prelude.{◌≡◌, ◌^◌, ◌<◌, IfOk};
ghost use Rattle.std.specs.Prelude.{is_some};
ghost use Rattle.tx_events.specs.Events.{given_by};
ghost use Rattle.tx_events.specs.History.{next_given};
ghost use Rattle.tx_events.specs.Multis.{made_by, next_made};
ghost use Rattle.place_columns.specs.Columns.{IsColumn};
ghost use Rattle.place_columns.specs.Counted.{AreCounts};

use crate::behind::{id_behind, multi_behind};
use crate::column_of;
use std::alloc::Global;
use tx_events::{Counters, Event, Memory, MultiEvent};

/// At each place of a life's histories, and behind them: the id that is given next, of the events, and the multixact that
/// is given next, of the multixact events. By how many were given before, whatever numbers the events say.
#[derive(Drop)]
pub struct GivenCounts {
    pub given: Vec<u64>,
    pub made: Vec<u64>,
}

fn gives_id(event: &Event) -> bool
    ensures { result ≡ is_some (given_by event.now) }
{
    matches!(event, Event::Id { .. } | Event::Sub { .. })
}

fn gives_multi(event: &MultiEvent) -> bool
    ensures { result ≡ is_some (made_by event.now) }
{
    matches!(event, MultiEvent::Gen { .. })
}

/// The next id at each place, where the first one is this.
fn ids_given(alloc: Global, first: u64, events: &[Event]) -> Result<Vec<u64>, Memory>
    requires { first < 2 ^ 63 }
    ensures { IfOk result (λ column. IsColumn (next_given first) events.now column.items) }
{
    let mut column = column_of(alloc, first, events.len().saturating_add(1))?;
    let mut next = first;
    for event in events {
        if gives_id(event) {
            next = id_behind(next);
        }
        column.push(next)?;
    }
    Ok(column)
}

/// The next multixact at each place, where the first one is this.
fn multis_made(alloc: Global, first: u64, events: &[MultiEvent]) -> Result<Vec<u64>, Memory>
    requires { first < 2 ^ 63 }
    ensures { IfOk result (λ column. IsColumn (next_made first) events.now column.items) }
{
    let mut column = column_of(alloc, first, events.len().saturating_add(1))?;
    let mut next = first;
    for event in events {
        if gives_multi(event) {
            next = multi_behind(next);
        }
        column.push(next)?;
    }
    Ok(column)
}

/// Of a life that begins with these counters, both of whose next numbers are below 2^63.
pub fn given_counts(
    alloc: Global,
    base: &Counters,
    events: &[Event],
    multis: &[MultiEvent],
) -> Result<GivenCounts, Memory>
    requires next { base.now.next < 2 ^ 63 }
    requires multi { base.now.multi < 2 ^ 63 }
    ensures { IfOk result (λ counts. AreCounts base.now events.now multis.now counts) }
{
    let given = ids_given(alloc, base.next.number(), events)?;
    let made = multis_made(alloc, base.multi.number(), multis)?;
    Ok(GivenCounts { given, made })
}
