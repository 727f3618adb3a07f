//! A transaction ends.
ghost use Rattle.std.specs.Prelude.{◌≡◌, ℕ, ◌+◌, ◌*◌, ◌≤◌, List, ◌∷◌, length};
ghost use Rattle.hall.specs.Calls.{view, IsOf, start_of};
ghost use Rattle.tx_events.specs.XactEnds.{end_event};
ghost use Rattle.tx_core.specs.declared.entry.Kind.TheVariants as kinds;
ghost use Rattle.engine_parts.specs.Holds.{ProcSection};
ghost use Rattle.engine_parts.specs.Sessions.{MayCall, by_at};
ghost use Rattle.proc_sections.specs.Endings.{HasEnded, MayEnd};

use disk_core::{LogDisk, PageDisk};
use engine_parts::{Caller, EngineLaw, Passing, Stage, enter_proc, leave_proc};
use hall::{Hall, Note};
use tx_events::{By, XactEnd};

/// The transaction counts as ended, with all its ids (`ProcArrayEndTransaction` of
/// `src/backend/storage/ipc/procarray.c`): one critical section of the ProcArray, which takes no memory. It has an id.
/// Of a commit its record and the committed states of all its ids stand before; of an abort the aborted states, and no
/// commit record.
pub fn end_transaction<R: Passing, L: LogDisk, P: PageDisk>(
    rt: &R,
    hall: &Hall<EngineLaw<L, P>>,
    caller: &mut Caller<L, P>,
    how: XactEnd,
)
    requires own { IsOf hall.now caller.old.pass }
    requires laid { hall.now.cells ≡ 3 + 4 * (start_of hall.now).banks }
    requires may { MayCall (start_of hall.now) (view caller.old.pass) caller.old.number caller.old.session }
    requires some { 1 ≤ length caller.old.session.levels.open_ids.items }
    requires end { MayEnd (start_of hall.now) (view caller.old.pass).seen caller.old.session how }
    ensures own { IsOf hall.now caller.new.pass }
    ensures may { MayCall (start_of hall.now) (view caller.new.pass) caller.new.number caller.new.session }
    ensures section { (top : ℕ) (subs : List ℕ) → caller.old.session.levels.open_ids.items ≡ top ∷ subs
        → ProcSection (start_of hall.now) (record {
          by = by_at caller.old.number caller.old.session.levels.commands;
          kind = kinds.Event
              (end_event how (by_at caller.old.number caller.old.session.levels.commands) top);
        })
        (view caller.old.pass) (view caller.new.pass) }
    ensures ended { HasEnded caller.old.number how caller.old.session caller.new.session
        (view caller.old.pass).seen (view caller.new.pass).seen }
    ensures number { caller.new.number ≡ caller.old.number }
{
    let by = By {
        session: caller.number,
        command: caller.session.levels.commands,
    };
    let top = caller.session.levels.open_ids[0];
    let mut held = enter_proc(rt, hall, caller);
    let table = &mut *held;
    table.end(by, top, how);
    let entry = Note::by(&(by, top, how));
    leave_proc(hall, caller, held, entry);
    caller.session.levels.level_ids.clear();
    caller.session.levels.unnamed = 0;
    caller.session.levels.open_ids.clear();
    caller.session.stage = Stage::Clear;
    caller.session.unlinked = None;
}
