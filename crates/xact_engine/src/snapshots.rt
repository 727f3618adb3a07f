//! Snapshots are taken and registered, and dropped.
ghost use Rattle.std.specs.Prelude.{◌≡◌, ℕ, ◌+◌, ◌*◌, ◌<◌, ◌≤◌, ◌++◌, ◌∷◌, [], length, vec_len, vec_capacity, Some, None, MatchResult, false, not, true};
ghost use Rattle.std.specs.List.{filter, find, list_any};
ghost use Rattle.hall.specs.declared.view.Stage.TheVariants.{Inside};
ghost use Rattle.hall.specs.Calls.{view, IsOf, start_of};
ghost use Rattle.notes.specs.Lists.{at};
ghost use Rattle.tx_events.specs.declared.event.Event.TheVariants as events;
ghost use Rattle.tx_events.specs.Events.{same_name};
ghost use Rattle.tx_events.specs.Horizon.{is_live};
ghost use Rattle.tx_events.specs.Snapshots.{snapshot_data};
ghost use Rattle.tx_model.specs.declared.command.Command.TheVariants as commands;
ghost use Rattle.tx_model.specs.declared.reply.Reply.TheVariants as replies;
ghost use Rattle.tx_model.specs.Stance.{without_snap};
ghost use Rattle.proc_table.specs.Table.{InTurn};
ghost use Rattle.tx_core.specs.declared.entry.Kind.TheVariants as kinds;
ghost use Rattle.tx_core.specs.Entries.{history};
ghost use Rattle.tx_core.specs.Locks.{proc_lock};
ghost use Rattle.tx_core.specs.PostsFollow.{IsShown};
ghost use Rattle.engine_parts.specs.Answers.{reply_of};
ghost use Rattle.engine_parts.specs.Calls.{MayRun, Ran, next_command};
ghost use Rattle.engine_parts.specs.Holds.{Leaves};
ghost use Rattle.engine_parts.specs.Sessions.{IsAt, IsReady, MayCall, by_at, stance_of};
ghost use Rattle.engine_parts.specs.Stand.{ProcStands};
ghost use Rattle.xact_engine.specs.Snapshots.{IsTaken};

use disk_core::{LogDisk, PageDisk};
use engine_parts::{Caller, EngineLaw, Part, Passing, count, enter_proc, leave_looked, leave_proc};
use hall::{Hall, Note};
use proc_table::ProcTable;
use session_levels::{RegisteredSnapshot, forget, registered_as};
use tx_events::{By, Memory, Name, Refusal};
use tx_model::SharedSnap;

/// A session registers at most so many snapshots.
const MOST_SNAPS: usize = 64;

/// Takes a snapshot of the table: what the reply tells, what the session keeps, and the place of its event. After want of
/// memory nothing changed.
fn take_of(
    table: &mut ProcTable,
    by: By,
    name: &Name,
) -> Result<(SharedSnap, SharedSnap, usize), Memory>
    requires session { by.session < table.old.sessions }
    requires turn { InTurn by table.old.events }
    requires free { is_live table.old.base.next by.session name.now table.old.events ≡ false }
    ensures { MatchResult result (λ r. IsTaken table.old table.new by name.now r.0 r.1 r.2) (λ _. table.new ≡ table.old) }
{
    let lists = table.snapshot_data()?;
    let kept = lists.clone()?;
    let place = table.events().len();
    table.register(by, name, lists.xmin())?;
    Ok((lists, kept, place))
}

/// Leaves the ProcArray with a snapshot that was taken of it, and registers it.
fn register<L: LogDisk, P: PageDisk>(
    hall: &Hall<EngineLaw<L, P>>,
    caller: &mut Caller<L, P>,
    table: Box<ProcTable>,
    by: By,
    name: &Name,
    place: usize,
    snapshot: SharedSnap,
)
    requires own { IsOf hall.now caller.old.pass }
    requires laid { hall.now.cells ≡ 3 + 4 * (start_of hall.now).banks }
    requires inside { (view caller.old.pass).stage ≡ Inside proc_lock }
    requires cell { caller.old.pass.cell ≡ proc_lock }
    requires at { IsAt (start_of hall.now) (view caller.old.pass) caller.old.number caller.old.session }
    requires by { by ≡ by_at caller.old.number caller.old.session.levels.commands }
    requires shown { IsShown (start_of hall.now) (view caller.old.pass).seen }
    requires free { is_live (start_of hall.now).base.next by.session name.now
        (history (view caller.old.pass).seen) ≡ false }
    requires table { ProcStands (start_of hall.now) table.value
        (at (view caller.old.pass).seen proc_lock ++ record {
          by = by;
          kind = kinds.Event
              (events.Snap name.now by);
        } ∷ []) }
    requires place { place ≡ length (history (view caller.old.pass).seen) }
    requires holds { snapshot ≡ snapshot_data (start_of hall.now).base.next (history (view caller.old.pass).seen) }
    requires room { vec_len caller.old.session.levels.registered < vec_capacity caller.old.session.levels.registered }
    ensures own { IsOf hall.now caller.new.pass }
    ensures ready { IsReady (start_of hall.now) (view caller.new.pass) caller.new.number caller.new.session }
    ensures left { Leaves (start_of hall.now) proc_lock
        (record { by = by; kind = kinds.Event (events.Snap name.now by) })
        (view caller.old.pass) (view caller.new.pass) }
    ensures stance { stance_of caller.new.session ≡ record (stance_of caller.old.session)
        { snaps = (stance_of caller.old.session).snaps ++ (name.now, caller.old.session.levels.commands) ∷ [] } }
    ensures opened { caller.new.session.levels.open_ids.items ≡ caller.old.session.levels.open_ids.items }
    ensures stage { caller.new.session.stage ≡ caller.old.session.stage }
    ensures making { caller.new.session.making ≡ caller.old.session.making }
    ensures count { (caller.new.session.levels.commands ≡ caller.old.session.levels.commands)
        × (caller.new.number ≡ caller.old.number) }
{
    let entry = Note::by(&(by, name));
    leave_proc(hall, caller, table, entry);
    caller
        .session
        .levels
        .registered
        .push_reserved(RegisteredSnapshot {
            name: name.same(),
            command: by.command,
            place,
            snapshot,
        });
}

/// Takes a snapshot under a name that isn't taken. All memory is taken before the snapshot counts as taken.
fn take<R: Passing, L: LogDisk, P: PageDisk>(
    rt: &R,
    hall: &Hall<EngineLaw<L, P>>,
    caller: &mut Caller<L, P>,
    name: &Name,
) -> Result<SharedSnap, Refusal>
    requires own { IsOf hall.now caller.old.pass }
    requires laid { hall.now.cells ≡ 3 + 4 * (start_of hall.now).banks }
    requires may { MayCall (start_of hall.now) (view caller.old.pass) caller.old.number caller.old.session }
    requires free { find (λ k. same_name k.name name.now) caller.old.session.levels.registered.items ≡ None }
    requires room { length caller.old.session.levels.registered.items < 64 }
    ensures { Ran hall.now caller.old.session.levels.commands (commands.Snap name.now) (reply_of replies.Snapped result)
        caller.old caller.new }
{
    let Ok(()) = caller.session.levels.registered.reserve(1) else {
        return Err(Refusal::Memory);
    };
    let by = By {
        session: caller.number,
        command: caller.session.levels.commands,
    };
    let mut held = enter_proc(rt, hall, caller);
    match take_of(&mut *held, by, name) {
        Ok((lists, kept, place)) => {
            register(hall, caller, held, by, name, place, kept);
            Ok(lists)
        }
        Err(Memory) => {
            leave_looked(hall, caller, 1, Part::Proc(held));
            Err(Refusal::Memory)
        }
    }
}

/// Takes a snapshot (`GetSnapshotData` of `src/backend/storage/ipc/procarray.c`) and registers it under this name
/// (`RegisterSnapshot` of `src/backend/utils/time/snapmgr.c`): one critical section of the ProcArray.
///
/// Refused, in this order, with `NameTaken` where the session has a snapshot of this name, and with `SnapLimit` where
/// it has 64. Or with `Memory`: then nothing was taken. The session has run fewer than 2^48 commands.
pub fn snap<R: Passing, L: LogDisk, P: PageDisk>(
    rt: &R,
    hall: &Hall<EngineLaw<L, P>>,
    caller: &mut Caller<L, P>,
    name: &Name,
) -> Result<SharedSnap, Refusal>
    requires { MayRun hall.now (start_of hall.now).banks caller.old }
    ensures { Ran hall.now (next_command caller.old) (commands.Snap name.now) (reply_of replies.Snapped result)
        caller.old caller.new }
{
    count(caller);
    if let Some(_registered) = registered_as(&caller.session.levels, name) {
        return Err(Refusal::NameTaken);
    }
    if caller.session.levels.registered.len() >= MOST_SNAPS {
        return Err(Refusal::SnapLimit);
    }
    take(rt, hall, caller, name)
}

/// Lets go of the snapshot of this name, which is there: mostly the only one.
fn let_go(registered: &mut Vec<RegisteredSnapshot>, name: &Name)
    requires { list_any (λ k. same_name k.name name.now) registered.old.items ≡ true }
    ensures { registered.new.items ≡ filter (λ k. not (same_name k.name name.now)) registered.old.items }
{
    if registered.len() == 1 {
        registered.clear();
    } else {
        forget(registered, name.items());
    }
}

/// Leaves the ProcArray, of which the session's snapshot of this name was dropped, and forgets it.
fn unregister<L: LogDisk, P: PageDisk>(
    hall: &Hall<EngineLaw<L, P>>,
    caller: &mut Caller<L, P>,
    table: Box<ProcTable>,
    by: By,
    name: &Name,
)
    requires own { IsOf hall.now caller.old.pass }
    requires laid { hall.now.cells ≡ 3 + 4 * (start_of hall.now).banks }
    requires inside { (view caller.old.pass).stage ≡ Inside proc_lock }
    requires cell { caller.old.pass.cell ≡ proc_lock }
    requires at { IsAt (start_of hall.now) (view caller.old.pass) caller.old.number caller.old.session }
    requires by { by ≡ by_at caller.old.number caller.old.session.levels.commands }
    requires shown { IsShown (start_of hall.now) (view caller.old.pass).seen }
    requires live { is_live (start_of hall.now).base.next by.session name.now
        (history (view caller.old.pass).seen) ≡ true }
    requires table { ProcStands (start_of hall.now) table.value
        (at (view caller.old.pass).seen proc_lock ++ record {
          by = by;
          kind = kinds.Event
              (events.SnapDrop name.now by);
        } ∷ []) }
    ensures own { IsOf hall.now caller.new.pass }
    ensures ready { IsReady (start_of hall.now) (view caller.new.pass) caller.new.number caller.new.session }
    ensures left { Leaves (start_of hall.now) proc_lock
        (record { by = by; kind = kinds.Event (events.SnapDrop name.now by) })
        (view caller.old.pass) (view caller.new.pass) }
    ensures stance { stance_of caller.new.session ≡ record (stance_of caller.old.session)
        { snaps = without_snap name.now (stance_of caller.old.session).snaps } }
    ensures opened { caller.new.session.levels.open_ids.items ≡ caller.old.session.levels.open_ids.items }
    ensures stage { caller.new.session.stage ≡ caller.old.session.stage }
    ensures making { caller.new.session.making ≡ caller.old.session.making }
    ensures count { (caller.new.session.levels.commands ≡ caller.old.session.levels.commands)
        × (caller.new.number ≡ caller.old.number) }
{
    let entry = Note::by(&(by, name));
    leave_proc(hall, caller, table, entry);
    let_go(&mut caller.session.levels.registered, name);
}

/// Drops a snapshot that the session has.
fn drop_registered<R: Passing, L: LogDisk, P: PageDisk>(
    rt: &R,
    hall: &Hall<EngineLaw<L, P>>,
    caller: &mut Caller<L, P>,
    name: &Name,
)
    requires own { IsOf hall.now caller.old.pass }
    requires laid { hall.now.cells ≡ 3 + 4 * (start_of hall.now).banks }
    requires may { MayCall (start_of hall.now) (view caller.old.pass) caller.old.number caller.old.session }
    requires registered { list_any (λ k. same_name k.name name.now) caller.old.session.levels.registered.items ≡ true }
    ensures { Ran hall.now caller.old.session.levels.commands (commands.DropSnap name.now) replies.Done
        caller.old caller.new }
{
    let by = By {
        session: caller.number,
        command: caller.session.levels.commands,
    };
    let mut held = enter_proc(rt, hall, caller);
    held.drop_snapshot(by, name);
    unregister(hall, caller, held, by, name);
}

/// Drops the session's snapshot of this name (`UnregisterSnapshot` of `src/backend/utils/time/snapmgr.c`): one critical
/// section of the ProcArray. Takes no memory.
///
/// Refused with `NoSnapshot` where the session has none of this name. The session has run fewer than 2^48 commands.
pub fn drop_snap<R: Passing, L: LogDisk, P: PageDisk>(
    rt: &R,
    hall: &Hall<EngineLaw<L, P>>,
    caller: &mut Caller<L, P>,
    name: &Name,
) -> Result<(), Refusal>
    requires { MayRun hall.now (start_of hall.now).banks caller.old }
    ensures { Ran hall.now (next_command caller.old) (commands.DropSnap name.now) (reply_of (λ _. replies.Done) result)
        caller.old caller.new }
{
    count(caller);
    let Some(_registered) = registered_as(&caller.session.levels, name) else {
        return Err(Refusal::NoSnapshot);
    };
    drop_registered(rt, hall, caller, name);
    Ok(())
}
