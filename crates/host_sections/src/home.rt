//! What lies behind a lock is taken by the host while no session is in, so that it learns nothing new.
ghost use Rattle.std.specs.Prelude.{◌≡◌, ◌<◌, ◌≤◌};
ghost use Rattle.hall.specs.Calls.{start_of, view};
ghost use Rattle.notes.specs.Lists.{at};
ghost use Rattle.tx_core.specs.Locks.{log_lock, members_lock, multi_lock, offsets_lock, proc_lock, subtrans_lock, xact_lock};
ghost use Rattle.engine_parts.specs.Alone.{IsAlone, IsIn};
ghost use Rattle.engine_parts.specs.Parts.{IsLogOf, IsMembersOf, IsOffsetsOf, IsSubtransOf, IsXactOf, PartStands};
ghost use Rattle.engine_parts.specs.Stand.{MultiStands, ProcStands};

use disk_core::{LogDisk, PageDisk};
use engine_parts::{EngineLaw, InPlace, Part};
use hall::{Hall, Pass};
use multi_store::MultiGen;
use proc_table::ProcTable;
use slru_bank::SlruBank;
use std::sync::Wait;
use store_pages::{MemberPages, OffsetPages, SubtransPages, XactPages};
use wal_core::WalLog;

// Takes the part behind a lock, below the number of locks.
pub(crate) fn take_part<R: Wait, L: LogDisk, P: PageDisk>(
    rt: &R,
    hall: &Hall<EngineLaw<L, P>>,
    pass: &mut Pass<EngineLaw<L, P>>,
    lock: u32,
) -> Part<L, P>
    requires alone { IsAlone hall.now pass.old }
    requires lock { lock < hall.now.cells }
    ensures inside { IsIn hall.now lock pass.old pass.new }
    ensures stands { PartStands (start_of hall.now) lock result (at (view pass.old).seen lock) }
{
    hall.enter(rt, pass, lock)
}

/// Takes the log (WALInsertLock and WALWriteLock of `xlog.c`), to be put back.
pub fn take_log<R: Wait, L: LogDisk, P: PageDisk>(
    rt: &R,
    hall: &Hall<EngineLaw<L, P>>,
    pass: &mut Pass<EngineLaw<L, P>>,
) -> Box<WalLog<L>>
    requires alone { IsAlone hall.now pass.old }
    ensures inside { IsIn hall.now log_lock pass.old pass.new }
    ensures stands { IsLogOf (start_of hall.now) result.value (at (view pass.old).seen log_lock) }
{
    let part = take_part(rt, hall, pass, 0);
    let Part::Log(log) = part else { unreachable!() };
    log
}

/// Takes a bank of pg_xact (its lock of XactSLRU, `clog.c`).
pub fn take_xact<R: Wait, L: LogDisk, P: PageDisk>(
    rt: &R,
    hall: &Hall<EngineLaw<L, P>>,
    pass: &mut Pass<EngineLaw<L, P>>,
    bank: u32,
) -> InPlace<SlruBank<P, XactPages>>
    requires alone { IsAlone hall.now pass.old }
    requires bank { bank < (start_of hall.now).banks }
    ensures inside { IsIn hall.now (xact_lock bank) pass.old pass.new }
    ensures stands { IsXactOf (start_of hall.now) bank result.value (at (view pass.old).seen (xact_lock bank)) }
{
    let part = take_part(rt, hall, pass, 3 + 4 * bank);
    let Part::Xact(store) = part else {
        unreachable!()
    };
    store
}

/// Takes a bank of pg_subtrans (its lock of SubtransSLRU, `subtrans.c`).
pub fn take_subtrans<R: Wait, L: LogDisk, P: PageDisk>(
    rt: &R,
    hall: &Hall<EngineLaw<L, P>>,
    pass: &mut Pass<EngineLaw<L, P>>,
    bank: u32,
) -> InPlace<SlruBank<P, SubtransPages>>
    requires alone { IsAlone hall.now pass.old }
    requires bank { bank < (start_of hall.now).banks }
    ensures inside { IsIn hall.now (subtrans_lock bank) pass.old pass.new }
    ensures stands { IsSubtransOf (start_of hall.now) bank result.value
        (at (view pass.old).seen (subtrans_lock bank)) }
{
    let part = take_part(rt, hall, pass, 4 + 4 * bank);
    let Part::Subtrans(store) = part else {
        unreachable!()
    };
    store
}

/// Takes a bank of the offsets of multixacts (its lock of MultiXactOffsetSLRU, `multixact.c`).
pub fn take_offsets<R: Wait, L: LogDisk, P: PageDisk>(
    rt: &R,
    hall: &Hall<EngineLaw<L, P>>,
    pass: &mut Pass<EngineLaw<L, P>>,
    bank: u32,
) -> InPlace<SlruBank<P, OffsetPages>>
    requires alone { IsAlone hall.now pass.old }
    requires bank { bank < (start_of hall.now).banks }
    ensures inside { IsIn hall.now (offsets_lock bank) pass.old pass.new }
    ensures stands { IsOffsetsOf (start_of hall.now) bank result.value
        (at (view pass.old).seen (offsets_lock bank)) }
{
    let part = take_part(rt, hall, pass, 5 + 4 * bank);
    let Part::Offsets(store) = part else {
        unreachable!()
    };
    store
}

/// Takes a bank of the members of multixacts (its lock of MultiXactMemberSLRU, `multixact.c`).
pub fn take_members<R: Wait, L: LogDisk, P: PageDisk>(
    rt: &R,
    hall: &Hall<EngineLaw<L, P>>,
    pass: &mut Pass<EngineLaw<L, P>>,
    bank: u32,
) -> InPlace<SlruBank<P, MemberPages>>
    requires alone { IsAlone hall.now pass.old }
    requires bank { bank < (start_of hall.now).banks }
    ensures inside { IsIn hall.now (members_lock bank) pass.old pass.new }
    ensures stands { IsMembersOf (start_of hall.now) bank result.value
        (at (view pass.old).seen (members_lock bank)) }
{
    let part = take_part(rt, hall, pass, 6 + 4 * bank);
    let Part::Members(store) = part else {
        unreachable!()
    };
    store
}

/// Takes the ProcArray (ProcArrayLock of `procarray.c`, XidGenLock of `varsup.c`).
pub fn take_proc<R: Wait, L: LogDisk, P: PageDisk>(
    rt: &R,
    hall: &Hall<EngineLaw<L, P>>,
    pass: &mut Pass<EngineLaw<L, P>>,
) -> Box<ProcTable>
    requires alone { IsAlone hall.now pass.old }
    ensures inside { IsIn hall.now proc_lock pass.old pass.new }
    ensures stands { ProcStands (start_of hall.now) result.value (at (view pass.old).seen proc_lock) }
{
    let part = take_part(rt, hall, pass, 1);
    let Part::Proc(table) = part else {
        unreachable!()
    };
    table
}

/// Takes the generator of multixacts (MultiXactGenLock of `multixact.c`).
pub fn take_multi<R: Wait, L: LogDisk, P: PageDisk>(
    rt: &R,
    hall: &Hall<EngineLaw<L, P>>,
    pass: &mut Pass<EngineLaw<L, P>>,
) -> Box<MultiGen>
    requires alone { IsAlone hall.now pass.old }
    ensures inside { IsIn hall.now multi_lock pass.old pass.new }
    ensures stands { MultiStands (start_of hall.now) result.value (at (view pass.old).seen multi_lock) }
{
    let part = take_part(rt, hall, pass, 2);
    let Part::Multi(multis) = part else {
        unreachable!()
    };
    multis
}
