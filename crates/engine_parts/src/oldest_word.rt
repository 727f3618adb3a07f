//! The published oldest id, which is read under no lock.
ghost use Rattle.std.specs.Prelude.{◌≡◌, ◌+◌, ◌*◌, [], ◌<◌};
ghost use Rattle.hall.specs.declared.view.Stage.TheVariants.{Inside};
ghost use Rattle.hall.specs.Calls.{view, IsOf, start_of};
ghost use Rattle.notes.specs.Lists.{at};
ghost use Rattle.tx_core.specs.Consequences.{IsShownBehind};
ghost use Rattle.tx_core.specs.Locks.{proc_lock};
ghost use Rattle.engine_parts.specs.Adding.{AddsNothing};
ghost use Rattle.engine_parts.specs.Holds.{Enters, EntersProc, Knowledge, post_of};
ghost use Rattle.engine_parts.specs.Sessions.{IsAt, IsReady, by_at};
ghost use Rattle.engine_parts.specs.Stand.{ProcStands};
ghost use Rattle.engine_parts.specs.Steps.{WentOn};

use crate::law::EngineLaw;
use crate::session::{Caller, command_of};
use disk_core::{LogDisk, PageDisk};
use hall::{Hall, Note};
use proc_table::ProcTable;
use tx_core::Entry;
use tx_events::{By, FullXid};

/// The number of the published word.
const OLDEST_WORD: u32 = 0;

fn post_note(by: By, oldest: u64) -> Note<Entry>
    ensures { result.value ≡ post_of by oldest }
{
    Note::by(&(by, oldest))
}

/// Publishes the oldest id, as it was found inside the ProcArray's lock, where the word shows an older one.
pub(crate) fn publish_oldest<L: LogDisk, P: PageDisk>(
    hall: &Hall<EngineLaw<L, P>>,
    caller: &mut Caller<L, P>,
    table: &ProcTable,
)
    requires own { IsOf hall.now caller.old.pass }
    requires laid { hall.now.cells ≡ 3 + 4 * (start_of hall.now).banks }
    requires inside { (view caller.old.pass).stage ≡ Inside proc_lock }
    requires at { IsAt (start_of hall.now) (view caller.old.pass) caller.old.number caller.old.session }
    requires stands { ProcStands (start_of hall.now) table.now (at (view caller.old.pass).seen proc_lock) }
    ensures own { IsOf hall.now caller.new.pass }
    ensures cell { caller.new.pass.cell ≡ caller.old.pass.cell }
    ensures at { IsAt (start_of hall.now) (view caller.new.pass) caller.new.number caller.new.session }
    ensures finds { (v : Knowledge) → Enters (start_of hall.now) proc_lock v (view caller.old.pass)
        → EntersProc (start_of hall.now) (by_at caller.old.number caller.old.session.levels.commands)
        v (view caller.new.pass) }
    ensures stands { ProcStands (start_of hall.now) table.now (at (view caller.new.pass).seen proc_lock) }
    ensures same { (caller.new.session ≡ caller.old.session) × (caller.new.number ≡ caller.old.number) }
{
    let oldest = table.oldest().number();
    let shown = hall.read_post(&mut caller.pass, OLDEST_WORD);
    if shown < oldest {
        let by = command_of(caller);
        let entry = post_note(by, oldest);
        hall.post(&mut caller.pass, OLDEST_WORD, oldest, entry);
    }
}

/// The published oldest id (`oldestXid` of `TransamVariables` in `src/backend/access/transam/varsup.c`): one load, under no
/// lock. It is at most one event behind what the session has seen of the ProcArray.
pub fn read_oldest_word<L: LogDisk, P: PageDisk>(
    hall: &Hall<EngineLaw<L, P>>,
    caller: &mut Caller<L, P>,
) -> FullXid
    requires own { IsOf hall.now caller.old.pass }
    requires laid { hall.now.cells ≡ 3 + 4 * (start_of hall.now).banks }
    requires ready { IsReady (start_of hall.now) (view caller.old.pass) caller.old.number caller.old.session }
    ensures own { IsOf hall.now caller.new.pass }
    ensures ready { IsReady (start_of hall.now) (view caller.new.pass) caller.new.number caller.new.session }
    ensures shown { IsShownBehind (start_of hall.now) (view caller.old.pass).seen (view caller.new.pass).seen result }
    ensures went { WentOn caller.old.number [] (view caller.old.pass).seen (view caller.new.pass).seen }
    ensures adds { AddsNothing (by_at caller.old.number caller.old.session.levels.commands)
        (view caller.old.pass).seen (view caller.new.pass).seen }
    ensures same { (caller.new.session ≡ caller.old.session) × (caller.new.number ≡ caller.old.number) }
{
    match FullXid::new(hall.read_post(&mut caller.pass, OLDEST_WORD)) {
        Some(oldest) => oldest,
        None => unreachable!(),
    }
}
