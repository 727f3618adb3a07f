//! Whether an event may come.
ghost use Rattle.std.specs.Prelude.{◌≡◌, ◌↔◌, IsTrue, [], Contains, true, false};
ghost use Rattle.tx_events.specs.Events.{by_of};
ghost use Rattle.tx_events.specs.Families.{is_top};
ghost use Rattle.tx_events.specs.History.{IsNextGiven, MayCome};
ghost use Rattle.tx_events.specs.Running.{open_ids};
ghost use Rattle.history_check.specs.Opened.{IsOpened};

use crate::links::find_open;
use crate::opened::Opened;
use proc_table::ProcTable;
use tx_events::{Event, FullXid, Limits};

/// Whether this id is the next one, and below its limit.
fn may_give(table: &ProcTable, id: FullXid) -> bool
    ensures { IsTrue result ↔ IsNextGiven table.now.base table.now.events id }
{
    let _legal = table.events();
    id == table.next() && id < Limits::of(table.oldest()).stop
}

fn has_none_open(table: &ProcTable, session: u32, opened: &Opened) -> bool
    requires { IsOpened table.now.events session opened.now }
    ensures { IsTrue result ↔ (open_ids session table.now.events ≡ []) }
{
    opened.count == 0
}

fn has_open(table: &ProcTable, session: u32, opened: &Opened, id: FullXid) -> bool
    requires { IsOpened table.now.events session opened.now }
    ensures { IsTrue result ↔ Contains (open_ids session table.now.events) id }
{
    find_open(&opened.slots, id).is_some()
}

fn is_open_top(table: &ProcTable, session: u32, opened: &Opened, id: FullXid) -> bool
    requires { IsOpened table.now.events session opened.now }
    ensures { IsTrue result ↔ (Contains (open_ids session table.now.events) id × (is_top table.now.events id ≡ true)) }
{
    let _legal = table.events();
    match find_open(&opened.slots, id) {
        Some(found) => found.parent.is_none(),
        None => false,
    }
}

fn is_open_sub(table: &ProcTable, session: u32, opened: &Opened, id: FullXid) -> bool
    requires { IsOpened table.now.events session opened.now }
    ensures { IsTrue result ↔ (Contains (open_ids session table.now.events) id × (is_top table.now.events id ≡ false)) }
{
    let _legal = table.events();
    match find_open(&opened.slots, id) {
        Some(found) => found.parent.is_some(),
        None => false,
    }
}

/// Whether the event may come next in the table's history. These are the ids that its session has open.
pub fn may_come(table: &ProcTable, opened: &Opened, event: &Event) -> bool
    requires { IsOpened table.now.events (by_of event.now).session opened.now }
    ensures { IsTrue result ↔ MayCome table.now.base table.now.events event.now }
{
    match event {
        Event::Id { by, id } => may_give(table, *id)
            && has_none_open(table, by.get().session, opened),
        Event::Sub { by, parent, id } => {
            may_give(table, *id) && has_open(table, by.get().session, opened, *parent)
        }
        Event::Undo { by, id } => is_open_sub(table, by.get().session, opened, *id),
        Event::Commit { by, top } => is_open_top(table, by.get().session, opened, *top),
        Event::Abort { by, top } => is_open_top(table, by.get().session, opened, *top),
        Event::Snap { by, name } => !table.is_live(by.get().session, name),
        Event::SnapDrop { by, name } => table.is_live(by.get().session, name),
        Event::Oldest { oldest, .. } => {
            table.oldest() <= *oldest && *oldest <= table.oldest_xmin()
        }
        Event::Ask { id, .. } => id.number() >= 3,
    }
}
