//! The events of one line.
ghost use Rattle.std.specs.Prelude.{◌≡◌, ◌<◌, List, Some, IfOk, length, map, slice_get, filter};
ghost use Rattle.tx_events.specs.declared.event.By.{By};
ghost use Rattle.tx_events.specs.Events.{by_of, same_by};
ghost use Rattle.tx_events.specs.Multis.{multi_by};
ghost use Rattle.place_columns.specs.declared.lines.LineAt.{LineAt};
ghost use Rattle.place_columns.specs.Lined.{AreInOrder, bys_of, numbered};

use crate::events::OwnEvents;
use std::alloc::Global;
use tx_events::{By, Copied, Event, Memory, MultiEvent};

/// An event, whose command is known.
pub trait Owned: Copied {
    ghost by: { Self → By };

    /// Of which command it is.
    fn by(&self) -> By
        ensures { result ≡ by self.now };
}

impl Owned for Event {
    ghost by = { by_of };

    fn by(&self) -> By {
        Event::by(self)
    }
}

impl Owned for MultiEvent {
    ghost by = { multi_by };

    fn by(&self) -> By {
        MultiEvent::by(self)
    }
}

/// The commands of events.
pub fn bys_of<E: Owned>(alloc: Global, events: &[E]) -> Result<Vec<By>, Memory>
    ensures { IfOk result (λ bys. bys.items ≡ map E.by events.now) }
{
    let mut bys = Vec::with_capacity(alloc, events.len())?;
    for e in events {
        bys.push(e.by())?;
    }
    Ok(bys)
}

/// The events of the command whose line has this number, in order.
pub fn events_of_line<E: Owned>(
    alloc: Global,
    events: &[E],
    own: &OwnEvents,
    line: u64,
    by: By,
) -> Result<Vec<E>, Memory>
    ghost lines: { List LineAt }
    requires numbers { own.now ≡ numbered lines (map E.by events.now) }
    requires order { AreInOrder (bys_of lines) }
    requires line { slice_get (bys_of lines) line ≡ Some by }
    ensures { IfOk result (λ es. es.items ≡ filter (λ e. same_by (E.by e) by) events.now) }
{
    let mut copies = Vec::new(alloc);
    for place in own.places(line) {
        copies.push(events[*place as usize].copy()?)?;
    }
    Ok(copies)
}
