//! The oldest id is announced.
ghost use Rattle.std.specs.Prelude.{◌≡◌, ℕ, ◌+◌, ◌*◌};
ghost use Rattle.hall.specs.Calls.{view, IsOf, start_of};
ghost use Rattle.tx_events.specs.declared.event.Event.TheVariants as events;
ghost use Rattle.tx_core.specs.declared.entry.Kind.TheVariants as kinds;
ghost use Rattle.engine_parts.specs.Sessions.{IsReady};
ghost use Rattle.proc_sections.specs.Announcements.{AnnounceSection, Announces};

use disk_core::{LogDisk, PageDisk};
use engine_parts::{
    Caller, EngineLaw, Part, Passing, command_of, enter_proc, leave_looked, leave_proc,
};
use hall::{Hall, Note};
use tx_core::Entry;
use tx_events::{By, FullXid, Refusal};

/// The entry that this id was announced as the oldest.
fn oldest_note(by: By, oldest: FullXid) -> Note<Entry>
    ensures { result.value ≡ record { by = by; kind = kinds.Event (events.Oldest by oldest) } }
{
    Note::by(&(by, oldest))
}

/// Announces the oldest id (`SetTransactionIdLimit` of `src/backend/access/transam/varsup.c`): one critical section of
/// the ProcArray. The limits on ids go by it from then on, and ids before it may be asked for no more.
///
/// Refused with `Backward` exactly where it is before the announced one, else with `TooNew` exactly where it is past the
/// oldest xmin, or with `Memory`; then nothing was announced.
pub fn announce_oldest<R: Passing, L: LogDisk, P: PageDisk>(
    rt: &R,
    hall: &Hall<EngineLaw<L, P>>,
    caller: &mut Caller<L, P>,
    oldest: FullXid,
) -> Result<(), Refusal>
    requires own { IsOf hall.now caller.old.pass }
    requires laid { hall.now.cells ≡ 3 + 4 * (start_of hall.now).banks }
    requires ready { IsReady (start_of hall.now) (view caller.old.pass) caller.old.number caller.old.session }
    ensures section { AnnounceSection (start_of hall.now) caller.old.number caller.old.session oldest
        (view caller.old.pass) (view caller.new.pass) result }
    ensures own { IsOf hall.now caller.new.pass }
    ensures ready { IsReady (start_of hall.now) (view caller.new.pass) caller.new.number caller.new.session }
    ensures announces { Announces (start_of hall.now) caller.old.number caller.old.session oldest
        (view caller.old.pass).seen (view caller.new.pass).seen result }
    ensures same { (caller.new.session ≡ caller.old.session) × (caller.new.number ≡ caller.old.number) }
{
    let by = command_of(caller);
    let mut held = enter_proc(rt, hall, caller);
    let table = &mut *held;
    match table.raise_oldest(by, oldest) {
        Ok(()) => {
            let entry = oldest_note(by, oldest);
            leave_proc(hall, caller, held, entry);
            Ok(())
        }
        Err(refusal) => {
            leave_looked(hall, caller, 1, Part::Proc(held));
            Err(refusal)
        }
    }
}
