//! The ProcArray is only looked at.
ghost use Rattle.std.specs.Prelude.{◌≡◌, ℕ, ◌+◌, ◌*◌, []};
ghost use Rattle.hall.specs.Calls.{view, IsOf, start_of};
ghost use Rattle.tx_events.specs.Horizon.{oldest_id};
ghost use Rattle.tx_core.specs.Entries.{history};
ghost use Rattle.tx_core.specs.PostsFollow.{IsShown};
ghost use Rattle.engine_parts.specs.Holds.{ProcSection};
ghost use Rattle.engine_parts.specs.Sessions.{IsReady, look_by};
ghost use Rattle.engine_parts.specs.Steps.{WentOn};
ghost use Rattle.proc_sections.specs.Horizons.{AreHorizonsOf, HasForms, truncation_behind};

use disk_core::{LogDisk, PageDisk};
use engine_parts::{Caller, EngineLaw, Part, Passing, enter_proc, leave_looked};
use hall::Hall;
use tx_events::{Counters, FullXid, Rec};

/// The announced oldest id (`oldestXid` of `TransamVariables` in `src/backend/access/transam/varsup.c`): one critical
/// section of the ProcArray.
pub fn read_oldest<R: Passing, L: LogDisk, P: PageDisk>(
    rt: &R,
    hall: &Hall<EngineLaw<L, P>>,
    caller: &mut Caller<L, P>,
) -> FullXid
    requires own { IsOf hall.now caller.old.pass }
    requires laid { hall.now.cells ≡ 3 + 4 * (start_of hall.now).banks }
    requires ready { IsReady (start_of hall.now) (view caller.old.pass) caller.old.number caller.old.session }
    ensures section { ProcSection (start_of hall.now) (look_by caller.old.number caller.old.session)
        (view caller.old.pass) (view caller.new.pass) }
    ensures own { IsOf hall.now caller.new.pass }
    ensures ready { IsReady (start_of hall.now) (view caller.new.pass) caller.new.number caller.new.session }
    ensures went { WentOn caller.old.number [] (view caller.old.pass).seen (view caller.new.pass).seen }
    ensures oldest { result
        ≡ oldest_id (start_of hall.now).base.oldest (history (view caller.new.pass).seen) }
    ensures same { (caller.new.session ≡ caller.old.session) × (caller.new.number ≡ caller.old.number) }
{
    let held = enter_proc(rt, hall, caller);
    let table = &*held;
    let oldest = table.oldest();
    leave_looked(hall, caller, 1, Part::Proc(held));
    oldest
}

/// Sees to it that the published oldest id is the announced one: one critical section of the ProcArray, which changes
/// nothing there.
pub fn publish_oldest<R: Passing, L: LogDisk, P: PageDisk>(
    rt: &R,
    hall: &Hall<EngineLaw<L, P>>,
    caller: &mut Caller<L, P>,
)
    requires own { IsOf hall.now caller.old.pass }
    requires laid { hall.now.cells ≡ 3 + 4 * (start_of hall.now).banks }
    requires ready { IsReady (start_of hall.now) (view caller.old.pass) caller.old.number caller.old.session }
    ensures section { ProcSection (start_of hall.now) (look_by caller.old.number caller.old.session)
        (view caller.old.pass) (view caller.new.pass) }
    ensures own { IsOf hall.now caller.new.pass }
    ensures ready { IsReady (start_of hall.now) (view caller.new.pass) caller.new.number caller.new.session }
    ensures went { WentOn caller.old.number [] (view caller.old.pass).seen (view caller.new.pass).seen }
    ensures shown { IsShown (start_of hall.now) (view caller.new.pass).seen }
    ensures same { (caller.new.session ≡ caller.old.session) × (caller.new.number ≡ caller.old.number) }
{
    let held = enter_proc(rt, hall, caller);
    leave_looked(hall, caller, 1, Part::Proc(held));
}

/// The counters with which the life began: one critical section of the ProcArray.
pub fn read_base<R: Passing, L: LogDisk, P: PageDisk>(
    rt: &R,
    hall: &Hall<EngineLaw<L, P>>,
    caller: &mut Caller<L, P>,
) -> Counters
    requires own { IsOf hall.now caller.old.pass }
    requires laid { hall.now.cells ≡ 3 + 4 * (start_of hall.now).banks }
    requires ready { IsReady (start_of hall.now) (view caller.old.pass) caller.old.number caller.old.session }
    ensures section { ProcSection (start_of hall.now) (look_by caller.old.number caller.old.session)
        (view caller.old.pass) (view caller.new.pass) }
    ensures own { IsOf hall.now caller.new.pass }
    ensures ready { IsReady (start_of hall.now) (view caller.new.pass) caller.new.number caller.new.session }
    ensures went { WentOn caller.old.number [] (view caller.old.pass).seen (view caller.new.pass).seen }
    ensures base { result ≡ (start_of hall.now).base }
    ensures same { (caller.new.session ≡ caller.old.session) × (caller.new.number ≡ caller.old.number) }
{
    let held = enter_proc(rt, hall, caller);
    let table = &*held;
    let base = table.base();
    leave_looked(hall, caller, 1, Part::Proc(held));
    base
}

/// What a command reads of the ProcArray at once.
#[derive(Clone, Copy, Debug, PartialEq, Eq)]
pub struct Horizons {
    /// The id that is given next.
    pub next: FullXid,
    /// The announced oldest id.
    pub oldest: FullXid,
    /// The oldest xmin.
    pub oldest_xmin: FullXid,
}

/// The next id, the announced oldest one and the oldest xmin (`nextXid` and `oldestXid` of `TransamVariables` in
/// `src/backend/access/transam/varsup.c`, `TransactionXmin` of `src/backend/utils/time/snapmgr.c`): one critical section
/// of the ProcArray.
pub fn read_horizons<R: Passing, L: LogDisk, P: PageDisk>(
    rt: &R,
    hall: &Hall<EngineLaw<L, P>>,
    caller: &mut Caller<L, P>,
) -> Horizons
    requires own { IsOf hall.now caller.old.pass }
    requires laid { hall.now.cells ≡ 3 + 4 * (start_of hall.now).banks }
    requires ready { IsReady (start_of hall.now) (view caller.old.pass) caller.old.number caller.old.session }
    ensures section { ProcSection (start_of hall.now) (look_by caller.old.number caller.old.session)
        (view caller.old.pass) (view caller.new.pass) }
    ensures own { IsOf hall.now caller.new.pass }
    ensures ready { IsReady (start_of hall.now) (view caller.new.pass) caller.new.number caller.new.session }
    ensures went { WentOn caller.old.number [] (view caller.old.pass).seen (view caller.new.pass).seen }
    ensures horizons { AreHorizonsOf (start_of hall.now).base (history (view caller.new.pass).seen) result }
    ensures same { (caller.new.session ≡ caller.old.session) × (caller.new.number ≡ caller.old.number) }
{
    let held = enter_proc(rt, hall, caller);
    let table = &*held;
    let found = Horizons {
        next: table.next(),
        oldest: table.oldest(),
        oldest_xmin: table.oldest_xmin(),
    };
    leave_looked(hall, caller, 1, Part::Proc(held));
    found
}

/// The record of a truncation to what is announced now (`WriteTruncateXlogRec` of `src/backend/access/transam/clog.c`
/// names it): the announced oldest id, and the oldest multixact and offset with which the life began, as no multixact is
/// announced yet. One critical section of the ProcArray.
pub fn read_truncation<R: Passing, L: LogDisk, P: PageDisk>(
    rt: &R,
    hall: &Hall<EngineLaw<L, P>>,
    caller: &mut Caller<L, P>,
) -> Rec
    requires own { IsOf hall.now caller.old.pass }
    requires laid { hall.now.cells ≡ 3 + 4 * (start_of hall.now).banks }
    requires ready { IsReady (start_of hall.now) (view caller.old.pass) caller.old.number caller.old.session }
    ensures section { ProcSection (start_of hall.now) (look_by caller.old.number caller.old.session)
        (view caller.old.pass) (view caller.new.pass) }
    ensures own { IsOf hall.now caller.new.pass }
    ensures ready { IsReady (start_of hall.now) (view caller.new.pass) caller.new.number caller.new.session }
    ensures went { WentOn caller.old.number [] (view caller.old.pass).seen (view caller.new.pass).seen }
    ensures record { result
        ≡ truncation_behind (start_of hall.now).base (history (view caller.new.pass).seen) }
    ensures forms { HasForms result }
    ensures same { (caller.new.session ≡ caller.old.session) × (caller.new.number ≡ caller.old.number) }
{
    let held = enter_proc(rt, hall, caller);
    let table = &*held;
    let base = table.base();
    let oldest = table.oldest();
    let multi = base.oldest_multi;
    let _oldest = oldest.number();
    let _multi = multi.number();
    let rec = Rec::Truncate {
        oldest,
        multi,
        offset: base.oldest_offset,
    };
    leave_looked(hall, caller, 1, Part::Proc(held));
    rec
}
