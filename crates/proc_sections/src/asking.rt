//! The status of an id is asked for.
ghost use Rattle.std.specs.Prelude.{◌≡◌, ℕ, ◌+◌, ◌*◌};
ghost use Rattle.hall.specs.Calls.{view, IsOf, start_of};
ghost use Rattle.tx_events.specs.Ids.{IsFullId};
ghost use Rattle.tx_events.specs.declared.event.Event.TheVariants as events;
ghost use Rattle.tx_core.specs.declared.entry.Kind.TheVariants as kinds;
ghost use Rattle.engine_parts.specs.Sessions.{IsReady};
ghost use Rattle.proc_sections.specs.Askings.{AskSection, AsksStatus};

use disk_core::{LogDisk, PageDisk};
use engine_parts::{
    Caller, EngineLaw, Part, Passing, command_of, enter_proc, leave_looked, leave_proc,
};
use hall::{Hall, Note};
use proc_table::Asked;
use tx_core::Entry;
use tx_events::{By, FullXid, Memory};

/// The entry that the status of an id was asked for.
fn ask_note(by: By, x: FullXid) -> Note<Entry>
    ensures { result.value ≡ record { by = by; kind = kinds.Event (events.Ask by x) } }
{
    Note::by(&(by, x))
}

/// Asks whether an id runs, and which id is next and which the oldest (`TransactionIdIsInProgress` of
/// `src/backend/storage/ipc/procarray.c`): one critical section of the ProcArray. The question stands in the history.
/// The id isn't special: none of these ever runs. After want of memory nothing was asked.
pub fn ask_status<R: Passing, L: LogDisk, P: PageDisk>(
    rt: &R,
    hall: &Hall<EngineLaw<L, P>>,
    caller: &mut Caller<L, P>,
    x: FullXid,
) -> Result<Asked, Memory>
    requires own { IsOf hall.now caller.old.pass }
    requires laid { hall.now.cells ≡ 3 + 4 * (start_of hall.now).banks }
    requires ready { IsReady (start_of hall.now) (view caller.old.pass) caller.old.number caller.old.session }
    requires full { IsFullId x }
    ensures section { AskSection (start_of hall.now) caller.old.number caller.old.session x (view caller.old.pass)
        (view caller.new.pass) result }
    ensures own { IsOf hall.now caller.new.pass }
    ensures ready { IsReady (start_of hall.now) (view caller.new.pass) caller.new.number caller.new.session }
    ensures asks { AsksStatus (start_of hall.now) caller.old.number caller.old.session x
        (view caller.old.pass).seen (view caller.new.pass).seen result }
    ensures same { (caller.new.session ≡ caller.old.session) × (caller.new.number ≡ caller.old.number) }
{
    let by = command_of(caller);
    let mut held = enter_proc(rt, hall, caller);
    let table = &mut *held;
    match table.ask(by, x) {
        Ok(asked) => {
            let entry = ask_note(by, x);
            leave_proc(hall, caller, held, entry);
            Ok(asked)
        }
        Err(Memory) => {
            leave_looked(hall, caller, 1, Part::Proc(held));
            Err(Memory)
        }
    }
}
