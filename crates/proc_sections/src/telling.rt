//! The ProcArray is told that pages are made.
ghost use Rattle.std.specs.Prelude.{◌≡◌, ℕ, ◌+◌, ◌*◌, ◌≤◌, []};
ghost use Rattle.hall.specs.Calls.{view, IsOf, start_of};
ghost use Rattle.tx_events.specs.History.{next_given};
ghost use Rattle.tx_core.specs.Entries.{Stands, history};
ghost use Rattle.tx_core.specs.Locks.{proc_lock};
ghost use Rattle.tx_core.specs.PagesBeforeIds.{IsMade};
ghost use Rattle.engine_parts.specs.Holds.{ProcSection};
ghost use Rattle.engine_parts.specs.Sessions.{MayCall, by_at};
ghost use Rattle.engine_parts.specs.Steps.{WentOn};
ghost use Rattle.tx_core.specs.declared.entry.Kind.TheVariants as kinds;

use disk_core::{LogDisk, PageDisk};
use engine_parts::{Caller, EngineLaw, Part, Passing, command_of, enter_proc, leave_quiet};
use hall::{Hall, Note};
use tx_core::Entry;
use tx_events::{By, FullXid};

/// The entry that the pages of an id are made.
fn made_note(by: By, id: FullXid) -> Note<Entry>
    ensures { result.value ≡ record { by = by; kind = kinds.Made id } }
{
    Note::by(&(by, id))
}

/// Tells the ProcArray that both pages of an id are made (`ExtendCLOG` of `clog.c` and `ExtendSUBTRANS` of `subtrans.c`
/// are done), so that the ids on them can be given: one critical section of the ProcArray. The id isn't past the next.
pub fn tell_made<R: Passing, L: LogDisk, P: PageDisk>(
    rt: &R,
    hall: &Hall<EngineLaw<L, P>>,
    caller: &mut Caller<L, P>,
    id: FullXid,
)
    requires own { IsOf hall.now caller.old.pass }
    requires laid { hall.now.cells ≡ 3 + 4 * (start_of hall.now).banks }
    requires may { MayCall (start_of hall.now) (view caller.old.pass) caller.old.number caller.old.session }
    requires made { IsMade (start_of hall.now) (view caller.old.pass).seen id }
    requires next { id ≤ next_given (start_of hall.now).base.next (history (view caller.old.pass).seen) }
    ensures own { IsOf hall.now caller.new.pass }
    ensures may { MayCall (start_of hall.now) (view caller.new.pass) caller.new.number caller.new.session }
    ensures section { ProcSection (start_of hall.now)
        (record { by = by_at caller.old.number caller.old.session.levels.commands; kind = kinds.Made id })
        (view caller.old.pass) (view caller.new.pass) }
    ensures went { WentOn caller.old.number [] (view caller.old.pass).seen (view caller.new.pass).seen }
    ensures told { Stands (view caller.new.pass).seen proc_lock (kinds.Made id) }
    ensures same { (caller.new.session ≡ caller.old.session) × (caller.new.number ≡ caller.old.number) }
{
    let by = command_of(caller);
    let mut held = enter_proc(rt, hall, caller);
    let table = &mut *held;
    table.made(id);
    let entry = made_note(by, id);
    leave_quiet(hall, caller, 1, Part::Proc(held), entry);
}
