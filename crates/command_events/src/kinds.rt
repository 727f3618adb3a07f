//! Whether a command's events are of the kinds that are told.
ghost use Rattle.std.specs.Prelude.{◌≡◌, ◌↔◌, IsTrue};
ghost use Rattle.report_law.specs.Kinds.{BeginAsTold, IsOfKind};

use tx_events::Event;

/// Whether the event is of the kind that is told, and gives the id that is told.
fn is_of_kind(told: &Event, e: &Event) -> bool
    ensures { IsTrue result ↔ IsOfKind told.now e.now }
{
    match told {
        Event::Id { id, .. } => match e {
            Event::Id { id: given, .. } => *given == *id,
            _ => false,
        },
        Event::Sub { id, .. } => match e {
            Event::Sub { id: given, .. } => *given == *id,
            _ => false,
        },
        Event::Undo { .. } => matches!(e, Event::Undo { .. }),
        Event::Commit { .. } => matches!(e, Event::Commit { .. }),
        Event::Abort { .. } => matches!(e, Event::Abort { .. }),
        Event::Snap { .. } => matches!(e, Event::Snap { .. }),
        Event::SnapDrop { .. } => matches!(e, Event::SnapDrop { .. }),
        Event::Oldest { .. } => matches!(e, Event::Oldest { .. }),
        Event::Ask { .. } => matches!(e, Event::Ask { .. }),
    }
}

/// Whether a command's events begin with the kinds of those that are told.
pub fn begin_as_told(told: &[Event], own: &[Event]) -> bool
    ensures { IsTrue result ↔ BeginAsTold told.now own.now }
{
    for (place, t) in told.iter().enumerate() {
        match own.get(place) {
            Some(e) => {
                if !is_of_kind(t, e) {
                    return false;
                }
            }
            None => return false,
        }
    }
    true
}
