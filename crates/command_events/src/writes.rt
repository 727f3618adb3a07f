//! The ids that a refused write may have given.
ghost use Rattle.std.specs.Prelude.{◌≡◌, ◌<◌, IfOk, take};
ghost use Rattle.command_events.specs.Told.{all_given, id_given, most_given};

use std::alloc::Global;
use tx_events::{Event, FullXid, Memory, Refusal};

/// How many ids a write gave at most that was refused so, of so many that it was to give.
pub fn most_given(refusal: &Refusal, wanted: u64) -> u64
    ensures { result ≡ most_given refusal.now wanted }
{
    match refusal {
        Refusal::NoTransaction => 0,
        Refusal::CommitPending => 0,
        Refusal::AbortPending => 0,
        Refusal::UndoPending => 0,
        Refusal::DiskFault { .. } => wanted,
        _ => wanted.saturating_sub(1),
    }
}

/// The id that the event gives below another one, or as a transaction's.
fn id_given(below: bool, event: &Event) -> Option<FullXid>
    ensures { result ≡ id_given below event.now }
{
    match event {
        Event::Id { id, .. } => {
            if below {
                return None;
            }
            Some(*id)
        }
        Event::Sub { id, .. } => {
            if below {
                return Some(*id);
            }
            None
        }
        _ => None,
    }
}

/// The ids that the first events give, each below the one before it, at most so many.
pub fn ids_given(
    alloc: Global,
    below: bool,
    most: u64,
    own: &[Event],
) -> Result<Vec<FullXid>, Memory>
    ensures { IfOk result (λ ids. ids.items ≡ take most (all_given below own.now)) }
{
    let mut ids = Vec::new(alloc);
    let mut under = below;
    for e in own {
        if ids.len() as u64 >= most {
            return Ok(ids);
        }
        match id_given(under, e) {
            Some(id) => ids.push(id)?,
            None => return Ok(ids),
        }
        under = true;
    }
    Ok(ids)
}
