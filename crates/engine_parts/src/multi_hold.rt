//! Critical sections of the generator of multixacts.
ghost use Rattle.std.specs.Prelude.{◌≡◌, ℕ, ◌+◌, ◌*◌, ◌<◌, ◌≤◌, ◌++◌, ◌∷◌, []};
ghost use Rattle.hall.specs.declared.view.Stage.TheVariants.{Free, Inside};
ghost use Rattle.hall.specs.Calls.{view, IsOf, start_of};
ghost use Rattle.notes.specs.Lists.{at};
ghost use Rattle.tx_core.specs.EngineInvariant.{EngineInvariant};
ghost use Rattle.tx_core.specs.Entries.{session_of};
ghost use Rattle.tx_core.specs.Locks.{multi_lock};
ghost use Rattle.engine_parts.specs.Holds.{Enters, Leaves};
ghost use Rattle.engine_parts.specs.Law.{MayKeep};
ghost use Rattle.engine_parts.specs.Stand.{MultiStands};
ghost use Rattle.engine_parts.specs.Sessions.{IsAt, IsReady};

use crate::gate::Passing;
use crate::hold::{enter, leave};
use crate::law::EngineLaw;
use crate::part::Part;
use crate::session::{Caller, knock};
use disk_core::{LogDisk, PageDisk};
use hall::{Hall, Note};
use multi_store::MultiGen;
use tx_core::Entry;

/// Waits for the generator of multixacts (MultiXactGenLock).
pub fn enter_multi<R: Passing, L: LogDisk, P: PageDisk>(
    rt: &R,
    hall: &Hall<EngineLaw<L, P>>,
    caller: &mut Caller<L, P>,
) -> Box<MultiGen>
    requires own { IsOf hall.now caller.old.pass }
    requires laid { hall.now.cells ≡ 3 + 4 * (start_of hall.now).banks }
    requires ready { IsReady (start_of hall.now) (view caller.old.pass) caller.old.number caller.old.session }
    ensures own { IsOf hall.now caller.new.pass }
    ensures cell { caller.new.pass.cell ≡ multi_lock }
    ensures entered { Enters (start_of hall.now) multi_lock (view caller.old.pass) (view caller.new.pass) }
    ensures at { IsAt (start_of hall.now) (view caller.new.pass) caller.new.number caller.new.session }
    ensures same { (caller.new.session ≡ caller.old.session) × (caller.new.number ≡ caller.old.number) }
    ensures stands { MultiStands (start_of hall.now) result.value (at (view caller.new.pass).seen multi_lock) }
{
    knock(rt, caller);
    let part = enter(rt, hall, &mut caller.pass, 2);
    let Part::Multi(multis) = part else {
        unreachable!()
    };
    multis
}

/// Gives it back, with one entry more in its list.
pub fn leave_multi<L: LogDisk, P: PageDisk>(
    hall: &Hall<EngineLaw<L, P>>,
    caller: &mut Caller<L, P>,
    multis: Box<MultiGen>,
    entry: Note<Entry>,
)
    requires own { IsOf hall.now caller.old.pass }
    requires laid { hall.now.cells ≡ 3 + 4 * (start_of hall.now).banks }
    requires inside { (view caller.old.pass).stage ≡ Inside multi_lock }
    requires cell { caller.old.pass.cell ≡ multi_lock }
    requires kept { EngineInvariant (start_of hall.now) (view caller.old.pass).seen }
    requires session { session_of entry.value ≡ (view caller.old.pass).name }
    requires may { MayKeep (start_of hall.now) (view caller.old.pass).seen multi_lock entry.value }
    requires stands { MultiStands (start_of hall.now) multis.value
        (at (view caller.old.pass).seen multi_lock ++ entry.value ∷ []) }
    ensures own { IsOf hall.now caller.new.pass }
    ensures left { Leaves (start_of hall.now) multi_lock entry.value (view caller.old.pass) (view caller.new.pass) }
    ensures same { (caller.new.session ≡ caller.old.session) × (caller.new.number ≡ caller.old.number) }
{
    leave(hall, &mut caller.pass, Part::Multi(multis), entry);
}
