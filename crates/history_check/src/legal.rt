//! The first event of a history that may not come.
ghost use Rattle.std.specs.Prelude.{◌≡◌, ◌<◌, ◌≤◌, IfOk, IfSome, IfNone};
ghost use Rattle.std.specs.List.{All};
ghost use Rattle.tx_events.specs.Base.{IsBase};
ghost use Rattle.tx_events.specs.Events.{by_of};
ghost use Rattle.tx_events.specs.History.{IsLegal};
ghost use Rattle.history_check.specs.Replays.{IsFirstIllegal};

use crate::replay::HistoryReplay;
use std::alloc::Global;
use tx_events::{Counters, Event, Memory};

/// The place of the first event that may not come in a life of this base. None where the history is legal.
pub fn first_illegal(
    alloc: Global,
    base: Counters,
    sessions: u32,
    events: &[Event],
) -> Result<Option<usize>, Memory>
    requires base { IsBase base }
    requires sessions { sessions ≤ 64 }
    requires each { All (λ e. (by_of e).session < sessions) events.now }
    ensures none { IfOk result (λ o. IfNone o (IsLegal base events.now)) }
    ensures some { IfOk result (λ o. IfSome o (λ p. IsFirstIllegal base events.now p)) }
{
    let mut replay = HistoryReplay::new(alloc, base, sessions)?;
    for (place, event) in events.iter().enumerate() {
        let _legal = replay.events();
        if !replay.add(event)? {
            return Ok(Some(place));
        }
    }
    let _legal = replay.events();
    Ok(None)
}
