//! Critical sections without an event and without a record, and those that changed nothing.
ghost use Rattle.std.specs.Prelude.{◌≡◌, ℕ, ◌+◌, ◌*◌, ◌<◌, ◌++◌, ◌∷◌, [], None};
ghost use Rattle.hall.specs.declared.view.Stage.TheVariants.{Inside};
ghost use Rattle.hall.specs.Calls.{view, IsOf, start_of};
ghost use Rattle.notes.specs.Lists.{at};
ghost use Rattle.tx_core.specs.Entries.{appended, event_of};
ghost use Rattle.tx_core.specs.MultiEntries.{multi_of};
ghost use Rattle.engine_parts.specs.Faults.{look_of};
ghost use Rattle.engine_parts.specs.Holds.{Leaves};
ghost use Rattle.engine_parts.specs.Law.{MayKeep};
ghost use Rattle.engine_parts.specs.Parts.{PartStands};
ghost use Rattle.engine_parts.specs.Sessions.{IsAt, IsReady, by_at, look_by};

use crate::hold::leave;
use crate::law::EngineLaw;
use crate::part::Part;
use crate::session::{Caller, command_of};
use disk_core::{LogDisk, PageDisk};
use hall::{Hall, Note};
use tx_core::Entry;
use tx_events::By;

/// Gives the part behind the lock `_lock` back with an entry of the session's command that has no event and no record.
/// The session stands as before.
pub fn leave_quiet<L: LogDisk, P: PageDisk>(
    hall: &Hall<EngineLaw<L, P>>,
    caller: &mut Caller<L, P>,
    _lock: u32,
    part: Part<L, P>,
    entry: Note<Entry>,
)
    requires own { IsOf hall.now caller.old.pass }
    requires laid { hall.now.cells ≡ 3 + 4 * (start_of hall.now).banks }
    requires lock { _lock < hall.now.cells }
    requires inside { (view caller.old.pass).stage ≡ Inside _lock }
    requires cell { caller.old.pass.cell ≡ _lock }
    requires at { IsAt (start_of hall.now) (view caller.old.pass) caller.old.number caller.old.session }
    requires by { entry.value.by ≡ by_at caller.old.number caller.old.session.levels.commands }
    requires quiet { (event_of entry.value ≡ None) × (appended entry.value ≡ None) × (multi_of entry.value ≡ None) }
    requires may { MayKeep (start_of hall.now) (view caller.old.pass).seen _lock entry.value }
    requires stands { PartStands (start_of hall.now) _lock part
        (at (view caller.old.pass).seen _lock ++ entry.value ∷ []) }
    ensures own { IsOf hall.now caller.new.pass }
    ensures ready { IsReady (start_of hall.now) (view caller.new.pass) caller.new.number caller.new.session }
    ensures left { Leaves (start_of hall.now) _lock entry.value (view caller.old.pass) (view caller.new.pass) }
    ensures same { (caller.new.session ≡ caller.old.session) × (caller.new.number ≡ caller.old.number) }
{
    leave(hall, &mut caller.pass, part, entry);
}

fn look_note(by: By) -> Note<Entry>
    ensures { result.value ≡ look_of by }
{
    Note::by(&by)
}

/// Gives the part behind this lock back of which nothing was changed that its list tells. The entry says that the
/// session's command looked there.
pub fn leave_looked<L: LogDisk, P: PageDisk>(
    hall: &Hall<EngineLaw<L, P>>,
    caller: &mut Caller<L, P>,
    lock: u32,
    part: Part<L, P>,
)
    requires own { IsOf hall.now caller.old.pass }
    requires laid { hall.now.cells ≡ 3 + 4 * (start_of hall.now).banks }
    requires lock { lock < hall.now.cells }
    requires inside { (view caller.old.pass).stage ≡ Inside lock }
    requires cell { caller.old.pass.cell ≡ lock }
    requires at { IsAt (start_of hall.now) (view caller.old.pass) caller.old.number caller.old.session }
    requires stands { PartStands (start_of hall.now) lock part
        (at (view caller.old.pass).seen lock ++ look_by caller.old.number caller.old.session ∷ []) }
    ensures own { IsOf hall.now caller.new.pass }
    ensures ready { IsReady (start_of hall.now) (view caller.new.pass) caller.new.number caller.new.session }
    ensures left { Leaves (start_of hall.now) lock (look_by caller.old.number caller.old.session) (view caller.old.pass)
        (view caller.new.pass) }
    ensures same { (caller.new.session ≡ caller.old.session) × (caller.new.number ≡ caller.old.number) }
{
    let by = command_of(caller);
    let entry = look_note(by);
    leave_quiet(hall, caller, lock, part, entry);
}
