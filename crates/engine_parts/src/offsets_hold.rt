//! Critical sections of a bank of the offsets of multixacts.
ghost use Rattle.std.specs.Prelude.{◌≡◌, ◌+◌, ◌*◌, ◌<◌, ◌≤◌};
ghost use Rattle.hall.specs.Calls.{view, IsOf, start_of};
ghost use Rattle.notes.specs.Lists.{at};
ghost use Rattle.tx_core.specs.Locks.{offsets_lock};
ghost use Rattle.engine_parts.specs.Holds.{Enters};
ghost use Rattle.engine_parts.specs.Parts.{IsOffsetsOf};
ghost use Rattle.engine_parts.specs.Sessions.{IsAt, IsReady};

use crate::gate::Passing;
use crate::hold::enter;
use crate::in_place::InPlace;
use crate::law::EngineLaw;
use crate::part::Part;
use crate::session::{Caller, knock};
use disk_core::{LogDisk, PageDisk};
use hall::Hall;
use slru_bank::SlruBank;
use store_pages::OffsetPages;

/// Waits for a bank of the offsets of multixacts (its lock of MultiXactOffsetSLRU).
pub fn enter_offsets<R: Passing, L: LogDisk, P: PageDisk>(
    rt: &R,
    hall: &Hall<EngineLaw<L, P>>,
    caller: &mut Caller<L, P>,
    bank: u32,
) -> InPlace<SlruBank<P, OffsetPages>>
    requires own { IsOf hall.now caller.old.pass }
    requires laid { hall.now.cells ≡ 3 + 4 * (start_of hall.now).banks }
    requires bank { (bank < (start_of hall.now).banks) × ((start_of hall.now).banks ≤ 16) }
    requires ready { IsReady (start_of hall.now) (view caller.old.pass) caller.old.number caller.old.session }
    ensures own { IsOf hall.now caller.new.pass }
    ensures cell { caller.new.pass.cell ≡ offsets_lock bank }
    ensures entered { Enters (start_of hall.now) (offsets_lock bank) (view caller.old.pass) (view caller.new.pass) }
    ensures at { IsAt (start_of hall.now) (view caller.new.pass) caller.new.number caller.new.session }
    ensures same { (caller.new.session ≡ caller.old.session) × (caller.new.number ≡ caller.old.number) }
    ensures stands { IsOffsetsOf (start_of hall.now) bank result.value (at (view caller.new.pass).seen (offsets_lock bank)) }
{
    knock(rt, caller);
    let part = enter(rt, hall, &mut caller.pass, 5 + 4 * bank);
    let Part::Offsets(store) = part else {
        unreachable!()
    };
    store
}
