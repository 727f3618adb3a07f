//! A savepoint is rolled back.
ghost use Rattle.std.specs.Prelude.{◌≡◌, ℕ, ◌+◌, ◌*◌, ◌≤◌, not, nat_le, take, drop, length, Some};
ghost use Rattle.std.specs.List.{filter};
ghost use Rattle.hall.specs.Calls.{view, IsOf, start_of};
ghost use Rattle.tx_events.specs.declared.event.Event.TheVariants as events;
ghost use Rattle.tx_events.specs.IdLists.{Ascending};
ghost use Rattle.tx_core.specs.declared.entry.Kind.TheVariants as kinds;
ghost use Rattle.engine_parts.specs.declared.session.Stage.TheVariants as stages;
ghost use Rattle.engine_parts.specs.Holds.{ProcSection};
ghost use Rattle.engine_parts.specs.Sessions.{MayCall, by_at, inner_id};
ghost use Rattle.proc_sections.specs.Undos.{AreRolledBack, HasUndone, unlinked_below};

use disk_core::{LogDisk, PageDisk};
use engine_parts::{Caller, EngineLaw, Passing, Stage, Unlinked, enter_proc, leave_proc};
use hall::{Hall, Note};
use tx_core::Entry;
use tx_events::{By, FullXid};

/// Where the ids from this one on begin.
pub fn place_of(ids: &[FullXid], id: FullXid) -> usize
    requires { Ascending ids.now }
    ensures within { result ≤ length ids.now }
    ensures from { drop result ids.now ≡ filter (λ x. nat_le id x) ids.now }
    ensures before { take result ids.now ≡ filter (λ x. not (nat_le id x)) ids.now }
{
    ids.partition_point(|x| *x < id)
}

fn undo_note(by: By, id: FullXid) -> Note<Entry>
    ensures { result.value ≡ record { by = by; kind = kinds.Event (events.Undo by id) } }
{
    Note::by(&(by, id))
}

/// What is left to be recorded where the ids from this one on are gone.
fn still_unlinked(unlinked: Option<Unlinked>, id: FullXid) -> Option<Unlinked>
    ensures { result ≡ unlinked_below id unlinked }
{
    match unlinked {
        Some(missing) => {
            if id <= missing.id {
                None
            } else {
                Some(missing)
            }
        }
        None => None,
    }
}

/// The innermost savepoint, which has this id, is closed with all ids that were given in it (`XidCacheRemoveRunningXids`
/// of `src/backend/storage/ipc/procarray.c`): one critical section of the ProcArray, which takes no memory. The undo is
/// pending, and the aborted states of these ids stand.
pub fn undo_savepoint<R: Passing, L: LogDisk, P: PageDisk>(
    rt: &R,
    hall: &Hall<EngineLaw<L, P>>,
    caller: &mut Caller<L, P>,
    id: FullXid,
)
    requires own { IsOf hall.now caller.old.pass }
    requires laid { hall.now.cells ≡ 3 + 4 * (start_of hall.now).banks }
    requires may { MayCall (start_of hall.now) (view caller.old.pass) caller.old.number caller.old.session }
    requires pending { caller.old.session.stage ≡ stages.Undoing }
    requires savepoint { 2 ≤ length caller.old.session.levels.level_ids.items }
    requires innermost { inner_id caller.old.session ≡ Some id }
    requires aborted { AreRolledBack (start_of hall.now) (view caller.old.pass).seen
        caller.old.session.levels.open_ids.items id }
    ensures own { IsOf hall.now caller.new.pass }
    ensures may { MayCall (start_of hall.now) (view caller.new.pass) caller.new.number caller.new.session }
    ensures section { ProcSection (start_of hall.now) (record {
      by = by_at caller.old.number caller.old.session.levels.commands;
      kind = kinds.Event (events.Undo (by_at caller.old.number caller.old.session.levels.commands) id);
    })
        (view caller.old.pass) (view caller.new.pass) }
    ensures undone { HasUndone caller.old.number id caller.old.session caller.new.session
        (view caller.old.pass).seen (view caller.new.pass).seen }
    ensures number { caller.new.number ≡ caller.old.number }
{
    let by = By {
        session: caller.number,
        command: caller.session.levels.commands,
    };
    let from = place_of(&caller.session.levels.open_ids, id);
    let mut held = enter_proc(rt, hall, caller);
    let table = &mut *held;
    table.undo(by, id, &caller.session.levels.open_ids[from..]);
    let entry = undo_note(by, id);
    leave_proc(hall, caller, held, entry);
    let _id = caller.session.levels.level_ids.pop();
    caller.session.levels.open_ids.truncate(from);
    caller.session.stage = Stage::Clear;
    caller.session.unlinked = still_unlinked(caller.session.unlinked, id);
}
