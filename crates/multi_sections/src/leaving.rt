//! The generator is given back.
ghost use Rattle.std.specs.Prelude.{◌≡◌, ℕ, ◌+◌, ◌*◌, ◌<◌, ◌++◌, ◌∷◌, [], Contains, None, Some, false};
ghost use Rattle.hall.specs.declared.view.Stage.TheVariants.{Inside};
ghost use Rattle.hall.specs.Calls.{view, IsOf, start_of};
ghost use Rattle.notes.specs.Lists.{at};
ghost use Rattle.tx_events.specs.declared.multi.MultiEvent.TheVariants as events;
ghost use Rattle.tx_events.specs.After.{ids_of};
ghost use Rattle.tx_events.specs.History.{next_given};
ghost use Rattle.tx_events.specs.Ids.{IsFullId};
ghost use Rattle.tx_events.specs.Multis.{InBase, IsNextMade, MultiMayCome, multi_by};
ghost use Rattle.multi_store.specs.Generator.{Adds, Generator};
ghost use Rattle.tx_core.specs.declared.entry.Kind.TheVariants as kinds;
ghost use Rattle.tx_core.specs.Entries.{history};
ghost use Rattle.tx_core.specs.Locks.{multi_lock};
ghost use Rattle.tx_core.specs.MultiEntries.{multi_history};
ghost use Rattle.tx_core.specs.MultisLegal.{ToldOf};
ghost use Rattle.engine_parts.specs.Holds.{Leaves};
ghost use Rattle.engine_parts.specs.Sessions.{IsAt, IsReady, by_at};
ghost use Rattle.multi_sections.specs.Steps.{entry_of};
ghost use Rattle.multi_sections.specs.Leavings.{GivesNone, Made};

use disk_core::{LogDisk, PageDisk};
use engine_parts::{Caller, EngineLaw, Making, command_of, leave_multi};
use hall::{Hall, Note};
use multi_store::MultiGen;
use tx_core::Entry;
use tx_events::{By, MultiEvent};

/// The entry of this event.
fn event_note(by: By, event: Note<MultiEvent>) -> Note<Entry>
    ensures { result.value ≡ record { by = by; kind = kinds.Multi event.value } }
{
    Note::by(&(by, event))
}

/// Gives the generator back, in which this event of the session's command is new, which gives no multixact.
pub(crate) fn leave_made<L: LogDisk, P: PageDisk>(
    hall: &Hall<EngineLaw<L, P>>,
    caller: &mut Caller<L, P>,
    multis: Box<MultiGen>,
    event: Note<MultiEvent>,
)
    requires own { IsOf hall.now caller.old.pass }
    requires laid { hall.now.cells ≡ 3 + 4 * (start_of hall.now).banks }
    requires inside { (view caller.old.pass).stage ≡ Inside multi_lock }
    requires cell { caller.old.pass.cell ≡ multi_lock }
    requires at { IsAt (start_of hall.now) (view caller.old.pass) caller.old.number caller.old.session }
    requires by { multi_by event.value ≡ by_at caller.old.number caller.old.session.levels.commands }
    requires none { GivesNone event.value }
    requires may { MultiMayCome (start_of hall.now).base (InBase (start_of hall.now).base) (multi_history (view caller.old.pass).seen) event.value }
    requires told { ToldOf (start_of hall.now) event.value }
    requires made { Made (start_of hall.now) multis.value (at (view caller.old.pass).seen multi_lock) event.value }
    ensures own { IsOf hall.now caller.new.pass }
    ensures ready { IsReady (start_of hall.now) (view caller.new.pass) caller.new.number caller.new.session }
    ensures left { Leaves (start_of hall.now) multi_lock (entry_of event.value) (view caller.old.pass) (view caller.new.pass) }
    ensures same { (caller.new.session ≡ caller.old.session) × (caller.new.number ≡ caller.old.number) }
{
    let by = command_of(caller);
    let entry = event_note(by, event);
    leave_multi(hall, caller, multis, entry);
}

/// Gives the generator back, of which the session's command took this multixact. The session makes it from now on.
pub(crate) fn leave_given<L: LogDisk, P: PageDisk>(
    hall: &Hall<EngineLaw<L, P>>,
    caller: &mut Caller<L, P>,
    multis: Box<MultiGen>,
    event: Note<MultiEvent>,
    making: Making,
)
    requires own { IsOf hall.now caller.old.pass }
    requires laid { hall.now.cells ≡ 3 + 4 * (start_of hall.now).banks }
    requires inside { (view caller.old.pass).stage ≡ Inside multi_lock }
    requires cell { caller.old.pass.cell ≡ multi_lock }
    requires at { IsAt (start_of hall.now) (view caller.old.pass) caller.old.number caller.old.session }
    requires by { multi_by event.value ≡ by_at caller.old.number caller.old.session.levels.commands }
    requires given { event.value ≡ events.Gen (multi_by event.value) making.multi making.offset making.members }
    requires free { caller.old.session.making ≡ None }
    requires unlogged { making.logged ≡ false }
    requires next { IsNextMade (start_of hall.now).base (multi_history (view caller.old.pass).seen) making.multi making.offset making.members }
    requires full { (id : ℕ) → Contains (ids_of making.members) id → IsFullId id }
    requires before { (id : ℕ) → Contains (ids_of making.members) id → id < next_given (start_of hall.now).base.next (history (view caller.old.pass).seen) }
    requires made { Made (start_of hall.now) multis.value (at (view caller.old.pass).seen multi_lock) event.value }
    ensures own { IsOf hall.now caller.new.pass }
    ensures ready { IsReady (start_of hall.now) (view caller.new.pass) caller.new.number caller.new.session }
    ensures left { Leaves (start_of hall.now) multi_lock (entry_of event.value) (view caller.old.pass) (view caller.new.pass) }
    ensures session { caller.new.session ≡ record caller.old.session { making = Some making } }
    ensures number { caller.new.number ≡ caller.old.number }
{
    let by = command_of(caller);
    let entry = event_note(by, event);
    leave_multi(hall, caller, multis, entry);
    caller.session.making = Some(making);
}
