//! Ids are given.
ghost use Rattle.std.specs.Prelude.{◌≡◌, ℕ, ◌+◌, ◌*◌, ◌<◌, ◌≤◌, ◌++◌, ◌∷◌, [], Some, None};
ghost use Rattle.hall.specs.declared.view.Stage.TheVariants.{Inside};
ghost use Rattle.hall.specs.Calls.{view, IsOf, start_of};
ghost use Rattle.notes.specs.Lists.{at};
ghost use Rattle.tx_events.specs.History.{MayCome};
ghost use Rattle.tx_model.specs.CommandEvents.{giving};
ghost use Rattle.proc_table.specs.Table.{Gives as TableGives, InTurn};
ghost use Rattle.tx_core.specs.declared.entry.Kind.TheVariants as kinds;
ghost use Rattle.tx_core.specs.Entries.{history};
ghost use Rattle.tx_core.specs.Locks.{proc_lock};
ghost use Rattle.tx_core.specs.PagesBeforeIds.{IsMade, IsTold};
ghost use Rattle.tx_core.specs.PostsFollow.{IsShown};
ghost use Rattle.session_levels.specs.Stands.{IsParent, last_of};
ghost use Rattle.engine_parts.specs.declared.session.Stage.TheVariants as stages;
ghost use Rattle.engine_parts.specs.Holds.{Leaves};
ghost use Rattle.engine_parts.specs.Sessions.{IsAt, IsReady, MayCall, by_at};
ghost use Rattle.engine_parts.specs.Stand.{ProcStands};
ghost use Rattle.proc_sections.specs.Givings.{GiveSection, GivesId, HasRoom, IsNamed, unlinked_of};

use disk_core::{LogDisk, PageDisk};
use engine_parts::{
    Caller, EngineLaw, Part, Passing, Session, Unlinked, enter_proc, leave_looked, leave_proc,
};
use hall::{Hall, Note};
use proc_table::{Given, ProcTable};
use tx_events::{By, FullXid, Refusal};

/// Asks the table for the next id, below a parent where there is one.
fn next_id(table: &mut ProcTable, by: By, parent: &Option<FullXid>) -> Result<Given, Refusal>
    requires session { by.session < table.old.sessions }
    requires turn { InTurn by table.old.events }
    requires parent { IsParent by.session table.old.events parent.now }
    ensures { TableGives table.old table.new (λ id. giving by parent.now id) result }
{
    match parent {
        None => table.assign(by),
        Some(parent) => table.add_sub(by, *parent),
    }
}

/// The id of the innermost level that has one.
fn innermost_id(session: &Session) -> Option<FullXid>
    ensures { result ≡ last_of session.now.levels.level_ids.items }
{
    match session.levels.level_ids.last() {
        Some(id) => Some(*id),
        None => None,
    }
}

/// The id where its parent is still to be recorded.
fn unlinked_id(id: FullXid, parent: &Option<FullXid>) -> Option<Unlinked>
    ensures { result ≡ unlinked_of id parent.now }
{
    match parent {
        None => None,
        Some(parent) => Some(Unlinked {
            id,
            parent: *parent,
        }),
    }
}

/// Gives the ProcArray back with an id that was given to the outermost level that lacked one.
fn name_level<L: LogDisk, P: PageDisk>(
    hall: &Hall<EngineLaw<L, P>>,
    caller: &mut Caller<L, P>,
    table: Box<ProcTable>,
    by: By,
    parent: &Option<FullXid>,
    id: FullXid,
)
    requires own { IsOf hall.now caller.old.pass }
    requires laid { hall.now.cells ≡ 3 + 4 * (start_of hall.now).banks }
    requires inside { (view caller.old.pass).stage ≡ Inside proc_lock }
    requires cell { caller.old.pass.cell ≡ proc_lock }
    requires at { IsAt (start_of hall.now) (view caller.old.pass) caller.old.number caller.old.session }
    requires by { by ≡ by_at caller.old.number caller.old.session.levels.commands }
    requires parent { parent.now ≡ last_of caller.old.session.levels.level_ids.items }
    requires shown { IsShown (start_of hall.now) (view caller.old.pass).seen }
    requires may { MayCome (start_of hall.now).base (history (view caller.old.pass).seen) (giving by parent.now id) }
    requires made { IsMade (start_of hall.now) (view caller.old.pass).seen id
        × IsTold (start_of hall.now) (at (view caller.old.pass).seen proc_lock) id }
    requires table { ProcStands (start_of hall.now) table.value
        (at (view caller.old.pass).seen proc_lock ++ record {
          by = by;
          kind = kinds.Event
              (giving by parent.now id);
        } ∷ []) }
    requires some { 1 ≤ caller.old.session.levels.unnamed }
    requires clear { caller.old.session.stage ≡ stages.Clear }
    requires linked { caller.old.session.unlinked ≡ None }
    requires room { HasRoom caller.old.session.levels }
    ensures own { IsOf hall.now caller.new.pass }
    ensures ready { IsReady (start_of hall.now) (view caller.new.pass) caller.new.number caller.new.session }
    ensures left { Leaves (start_of hall.now) proc_lock
        (record { by = by; kind = kinds.Event (giving by parent.now id) })
        (view caller.old.pass) (view caller.new.pass) }
    ensures named { IsNamed caller.old.session caller.new.session id }
    ensures number { caller.new.number ≡ caller.old.number }
{
    let entry = Note::by(&(by, id, parent));
    leave_proc(hall, caller, table, entry);
    caller.session.levels.level_ids.push_reserved(id);
    caller.session.levels.open_ids.push_reserved(id);
    caller.session.levels.unnamed -= 1;
    caller.session.unlinked = unlinked_id(id, parent);
}

/// Gives the next id to the outermost level that lacks one (`AssignTransactionId` of
/// `src/backend/access/transam/xact.c`, `GetNewTransactionId` of `varsup.c`): one critical section of the ProcArray. The
/// session's lists have room for it, no end was begun, and the parents of all open ids are recorded. From then on the
/// parent of a savepoint's id is still to be recorded.
///
/// `NeedPage` where the pages of the next id aren't told yet; then nothing was given. Refused with `Stop` at the stop
/// limit, or with `Memory`.
pub fn give_id<R: Passing, L: LogDisk, P: PageDisk>(
    rt: &R,
    hall: &Hall<EngineLaw<L, P>>,
    caller: &mut Caller<L, P>,
) -> Result<Given, Refusal>
    requires own { IsOf hall.now caller.old.pass }
    requires laid { hall.now.cells ≡ 3 + 4 * (start_of hall.now).banks }
    requires may { MayCall (start_of hall.now) (view caller.old.pass) caller.old.number caller.old.session }
    requires some { 1 ≤ caller.old.session.levels.unnamed }
    requires clear { caller.old.session.stage ≡ stages.Clear }
    requires linked { caller.old.session.unlinked ≡ None }
    requires room { HasRoom caller.old.session.levels }
    ensures own { IsOf hall.now caller.new.pass }
    ensures may { MayCall (start_of hall.now) (view caller.new.pass) caller.new.number caller.new.session }
    ensures section { GiveSection (start_of hall.now) caller.old.number caller.old.session (view caller.old.pass)
        (view caller.new.pass) result }
    ensures gives { GivesId (start_of hall.now) caller.old.number caller.old.session caller.new.session
        (view caller.old.pass).seen (view caller.new.pass).seen result }
    ensures number { caller.new.number ≡ caller.old.number }
{
    let by = By {
        session: caller.number,
        command: caller.session.levels.commands,
    };
    let parent = innermost_id(&caller.session);
    let mut held = enter_proc(rt, hall, caller);
    let table = &mut *held;
    let given = match next_id(table, by, &parent) {
        Ok(given) => given,
        Err(refusal) => {
            leave_looked(hall, caller, 1, Part::Proc(held));
            return Err(refusal);
        }
    };
    if let Given::Id { id, .. } = &given {
        name_level(hall, caller, held, by, &parent, *id);
        return Ok(given);
    }
    leave_looked(hall, caller, 1, Part::Proc(held));
    Ok(given)
}
