//! Critical sections of the ProcArray.
ghost use Rattle.std.specs.Prelude.{◌≡◌, ℕ, ◌+◌, ◌*◌, ◌<◌, ◌≤◌, ◌++◌, ◌∷◌, []};
ghost use Rattle.hall.specs.declared.view.Stage.TheVariants.{Free, Inside};
ghost use Rattle.hall.specs.Calls.{view, IsOf, start_of};
ghost use Rattle.notes.specs.Lists.{at};
ghost use Rattle.tx_core.specs.EngineInvariant.{EngineInvariant};
ghost use Rattle.tx_core.specs.Entries.{session_of};
ghost use Rattle.tx_core.specs.Locks.{proc_lock};
ghost use Rattle.engine_parts.specs.Holds.{EntersProc, Leaves};
ghost use Rattle.engine_parts.specs.Law.{MayKeep};
ghost use Rattle.engine_parts.specs.Stand.{ProcStands};
ghost use Rattle.engine_parts.specs.Sessions.{IsAt, IsReady, by_at};

use crate::gate::Passing;
use crate::hold::{enter, leave};
use crate::law::EngineLaw;
use crate::oldest_word::publish_oldest;
use crate::part::Part;
use crate::session::{Caller, knock};
use disk_core::{LogDisk, PageDisk};
use hall::{Hall, Note};
use proc_table::ProcTable;
use tx_core::Entry;

/// Waits for the ProcArray (ProcArrayLock and XidGenLock, of which this project has one). Where the published oldest id is
/// older than the one that is found there, that one is published.
pub fn enter_proc<R: Passing, L: LogDisk, P: PageDisk>(
    rt: &R,
    hall: &Hall<EngineLaw<L, P>>,
    caller: &mut Caller<L, P>,
) -> Box<ProcTable>
    requires own { IsOf hall.now caller.old.pass }
    requires laid { hall.now.cells ≡ 3 + 4 * (start_of hall.now).banks }
    requires ready { IsReady (start_of hall.now) (view caller.old.pass) caller.old.number caller.old.session }
    ensures own { IsOf hall.now caller.new.pass }
    ensures cell { caller.new.pass.cell ≡ proc_lock }
    ensures entered { EntersProc (start_of hall.now) (by_at caller.old.number caller.old.session.levels.commands)
        (view caller.old.pass) (view caller.new.pass) }
    ensures at { IsAt (start_of hall.now) (view caller.new.pass) caller.new.number caller.new.session }
    ensures same { (caller.new.session ≡ caller.old.session) × (caller.new.number ≡ caller.old.number) }
    ensures stands { ProcStands (start_of hall.now) result.value (at (view caller.new.pass).seen proc_lock) }
{
    knock(rt, caller);
    let part = enter(rt, hall, &mut caller.pass, 1);
    let Part::Proc(table) = part else {
        unreachable!()
    };
    publish_oldest(hall, caller, &table);
    table
}

/// Gives the ProcArray back, with one entry more in its list.
pub fn leave_proc<L: LogDisk, P: PageDisk>(
    hall: &Hall<EngineLaw<L, P>>,
    caller: &mut Caller<L, P>,
    table: Box<ProcTable>,
    entry: Note<Entry>,
)
    requires own { IsOf hall.now caller.old.pass }
    requires laid { hall.now.cells ≡ 3 + 4 * (start_of hall.now).banks }
    requires inside { (view caller.old.pass).stage ≡ Inside proc_lock }
    requires cell { caller.old.pass.cell ≡ proc_lock }
    requires kept { EngineInvariant (start_of hall.now) (view caller.old.pass).seen }
    requires session { session_of entry.value ≡ (view caller.old.pass).name }
    requires may { MayKeep (start_of hall.now) (view caller.old.pass).seen proc_lock entry.value }
    requires stands { ProcStands (start_of hall.now) table.value
        (at (view caller.old.pass).seen proc_lock ++ entry.value ∷ []) }
    ensures own { IsOf hall.now caller.new.pass }
    ensures left { Leaves (start_of hall.now) proc_lock entry.value (view caller.old.pass) (view caller.new.pass) }
    ensures same { (caller.new.session ≡ caller.old.session) × (caller.new.number ≡ caller.old.number) }
{
    leave(hall, &mut caller.pass, Part::Proc(table), entry);
}
