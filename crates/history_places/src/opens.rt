//! How many ids sessions have open as a history goes on.
ghost use Rattle.std.specs.Prelude.{◌≡◌, ◌<◌, length};
ghost use Rattle.tx_events.specs.Events.{by_of};
ghost use Rattle.tx_events.specs.Running.{open_ids};

use history_check::HistoryReplay;
use tx_events::Event;

/// The session of the event.
fn session_of(event: &Event) -> u32
    ensures { result ≡ (by_of event.now).session }
{
    match event {
        Event::Id { by, .. } => by.get().session,
        Event::Sub { by, .. } => by.get().session,
        Event::Undo { by, .. } => by.get().session,
        Event::Commit { by, .. } => by.get().session,
        Event::Abort { by, .. } => by.get().session,
        Event::Snap { by, .. } => by.get().session,
        Event::SnapDrop { by, .. } => by.get().session,
        Event::Oldest { by, .. } => by.get().session,
        Event::Ask { by, .. } => by.get().session,
    }
}

/// How many ids the event's session has open now.
pub fn open_now(replay: &HistoryReplay, event: &Event) -> u64
    requires { (by_of event.now).session < replay.now.sessions }
    ensures { result ≡ length (open_ids (by_of event.now).session replay.now.events) }
{
    replay.count_open(session_of(event)) as u64
}
