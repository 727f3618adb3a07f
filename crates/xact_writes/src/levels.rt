//! A level is given its id.
ghost use Rattle.std.specs.Prelude.{◌≡◌, ◌≤◌, None, OnOk};
ghost use Rattle.hall.specs.Calls.{view, start_of};
ghost use Rattle.engine_parts.specs.declared.session.Stage.TheVariants as stages;
ghost use Rattle.engine_parts.specs.Adding.{Adds, MayFault};
ghost use Rattle.engine_parts.specs.Calls.{MayStep};
ghost use Rattle.engine_parts.specs.Sessions.{by_at};
ghost use Rattle.proc_sections.specs.Givings.{HasRoom};
ghost use Rattle.xact_writes.specs.Writes.{GivesLevel, HasReserved};

use crate::page_making::make_pages;
use disk_core::{LogDisk, PageDisk};
use engine_parts::{Caller, EngineLaw, Passing};
use hall::Hall;
use proc_sections::give_id;
use proc_table::Given;
use session_levels::Session as Levels;
use tx_events::{FullXid, Memory, Refusal};

/// Takes the room for one id more.
fn make_room(levels: &mut Levels) -> Result<(), Memory>
    ensures reserved { HasReserved levels.old levels.new }
    ensures room { OnOk result (HasRoom levels.new) }
{
    levels.level_ids.reserve(1)?;
    levels.open_ids.reserve(1)?;
    Ok(())
}

/// Gives an id to the outermost level that lacks one; the room is taken. Makes the id's pages where they are wanted, as
/// often as others give the ids of these pages away first.
fn give_level<R: Passing, L: LogDisk, P: PageDisk>(
    rt: &R,
    hall: &Hall<EngineLaw<L, P>>,
    caller: &mut Caller<L, P>,
    banks: u32,
) -> Result<(FullXid, bool), Refusal>
    requires step { MayStep hall.now banks caller.old }
    requires some { 1 ≤ caller.old.session.levels.unnamed }
    requires clear { caller.old.session.stage ≡ stages.Clear }
    requires linked { caller.old.session.unlinked ≡ None }
    requires room { HasRoom caller.old.session.levels }
    ensures step { MayStep hall.now banks caller.new }
    ensures gives { GivesLevel (start_of hall.now) caller.old.number caller.old.session caller.new.session
        (view caller.old.pass).seen (view caller.new.pass).seen result }
    ensures adds { Adds (by_at caller.old.number caller.old.session.levels.commands) (MayFault result)
        (view caller.old.pass).seen (view caller.new.pass).seen }
    ensures number { caller.new.number ≡ caller.old.number }
{
    for _ in rt.forever() {
        let given = match give_id(rt, hall, caller) {
            Ok(given) => given,
            Err(refusal) => return Err(refusal),
        };
        match given {
            Given::Id { id, warn } => return Ok((id, warn)),
            Given::NeedPage { id } => match make_pages(rt, hall, caller, banks, id) {
                Ok(()) => {}
                Err(refusal) => return Err(refusal),
            },
        }
    }
    unreachable!()
}

/// Gives an id to the outermost level that lacks one, with the warning.
pub(crate) fn name_level<R: Passing, L: LogDisk, P: PageDisk>(
    rt: &R,
    hall: &Hall<EngineLaw<L, P>>,
    caller: &mut Caller<L, P>,
    banks: u32,
) -> Result<(FullXid, bool), Refusal>
    requires step { MayStep hall.now banks caller.old }
    requires some { 1 ≤ caller.old.session.levels.unnamed }
    requires clear { caller.old.session.stage ≡ stages.Clear }
    requires linked { caller.old.session.unlinked ≡ None }
    ensures step { MayStep hall.now banks caller.new }
    ensures gives { GivesLevel (start_of hall.now) caller.old.number caller.old.session caller.new.session
        (view caller.old.pass).seen (view caller.new.pass).seen result }
    ensures adds { Adds (by_at caller.old.number caller.old.session.levels.commands) (MayFault result)
        (view caller.old.pass).seen (view caller.new.pass).seen }
    ensures number { caller.new.number ≡ caller.old.number }
{
    let Ok(()) = make_room(&mut caller.session.levels) else {
        return Err(Refusal::Memory);
    };
    match give_level(rt, hall, caller, banks) {
        Ok(given) => Ok(given),
        Err(refusal) => Err(refusal),
    }
}
