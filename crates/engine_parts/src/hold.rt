//! Critical sections of an engine: what lies behind a lock is taken and given back.
ghost use Rattle.std.specs.Prelude.{◌≡◌, ℕ, ◌+◌, ◌<◌, ◌++◌, ◌∷◌, []};
ghost use Rattle.hall.specs.declared.view.Stage.TheVariants.{Free, Inside};
ghost use Rattle.hall.specs.Calls.{view, IsOf, start_of};
ghost use Rattle.notes.specs.Lists.{at};
ghost use Rattle.tx_core.specs.EngineInvariant.{EngineInvariant};
ghost use Rattle.tx_core.specs.Entries.{session_of};
ghost use Rattle.engine_parts.specs.Holds.{Enters, Leaves};
ghost use Rattle.engine_parts.specs.Law.{MayKeep};
ghost use Rattle.engine_parts.specs.Parts.{PartStands};

use crate::law::EngineLaw;
use crate::part::Part;
use disk_core::{LogDisk, PageDisk};
use hall::{Hall, Note, Pass};
use std::sync::Wait;
use tx_core::Entry;

/// Waits for a lock, below the number of locks, and takes the part behind it (LWLockAcquire of
/// `src/backend/storage/lmgr/lwlock.c`). The session learns the lists of all locks as they were at one moment.
pub fn enter<R: Wait, L: LogDisk, P: PageDisk>(
    rt: &R,
    hall: &Hall<EngineLaw<L, P>>,
    pass: &mut Pass<EngineLaw<L, P>>,
    lock: u32,
) -> Part<L, P>
    requires own { IsOf hall.now pass.old }
    requires free { (view pass.old).stage ≡ Free }
    requires lock { lock < hall.now.cells }
    ensures own { IsOf hall.now pass.new }
    ensures cell { pass.new.cell ≡ lock }
    ensures entered { Enters (start_of hall.now) lock (view pass.old) (view pass.new) }
    ensures stands { PartStands (start_of hall.now) lock result (at (view pass.new).seen lock) }
{
    hall.enter(rt, pass, lock)
}

/// Gives the part back, with one entry more in the lock's list (LWLockRelease). The session shows that the entry keeps
/// the invariant from all that it has seen, and that the part stands for the longer list.
pub fn leave<L: LogDisk, P: PageDisk>(
    hall: &Hall<EngineLaw<L, P>>,
    pass: &mut Pass<EngineLaw<L, P>>,
    part: Part<L, P>,
    entry: Note<Entry>,
)
    requires own { IsOf hall.now pass.old }
    requires inside { (view pass.old).stage ≡ Inside pass.old.cell }
    requires cell { pass.old.cell < hall.now.cells }
    requires kept { EngineInvariant (start_of hall.now) (view pass.old).seen }
    requires session { session_of entry.value ≡ (view pass.old).name }
    requires may { MayKeep (start_of hall.now) (view pass.old).seen pass.old.cell entry.value }
    requires stands { PartStands (start_of hall.now) pass.old.cell part
        (at (view pass.old).seen pass.old.cell ++ entry.value ∷ []) }
    ensures own { IsOf hall.now pass.new }
    ensures left { Leaves (start_of hall.now) pass.old.cell entry.value (view pass.old) (view pass.new) }
{
    hall.leave(pass, part, entry);
}
