//! Critical sections of a bank that refused the call.
ghost use Rattle.std.specs.Prelude.{◌≡◌, ◌+◌, ◌*◌, ◌<◌};
ghost use Rattle.hall.specs.declared.view.Stage.TheVariants.{Inside};
ghost use Rattle.hall.specs.Calls.{view, IsOf, start_of};
ghost use Rattle.notes.specs.Lists.{at};
ghost use Rattle.disk_core.specs.Faults.{HasRisen};
ghost use Rattle.slru_bank.specs.declared.refusal.BankRefusal.TheVariants.{DiskFault};
ghost use Rattle.tx_core.specs.FaultsRise.{faults_told};
ghost use Rattle.tx_core.specs.Locks.{IsPageLock};
ghost use Rattle.engine_parts.specs.Faults.{fault_by};
ghost use Rattle.engine_parts.specs.Holds.{Leaves};
ghost use Rattle.engine_parts.specs.Parts.{PartStands};
ghost use Rattle.engine_parts.specs.Sessions.{IsAt, IsReady, by_at};
ghost use Rattle.multi_banks.specs.Refusals.{IsOfMultis, faults_in, entry_of_refusal};

use disk_core::{LogDisk, PageDisk};
use engine_parts::{Caller, EngineLaw, Part, leave_looked, leave_quiet};
use hall::{Hall, Note};
use slru_bank::BankRefusal;
use tx_core::Entry;

/// Gives a bank back that refused the call, and so stands for its list as before. The entry is the fault, with a count
/// that has risen, or a look where the page is cut.
pub(crate) fn leave_refused<L: LogDisk, P: PageDisk>(
    hall: &Hall<EngineLaw<L, P>>,
    caller: &mut Caller<L, P>,
    lock: u32,
    part: Part<L, P>,
    refusal: BankRefusal,
    fault: Note<Entry>,
)
    requires own { IsOf hall.now caller.old.pass }
    requires laid { hall.now.cells ≡ 3 + 4 * (start_of hall.now).banks }
    requires lock { IsPageLock (start_of hall.now) lock }
    requires built { IsOfMultis part }
    requires inside { (view caller.old.pass).stage ≡ Inside lock }
    requires cell { caller.old.pass.cell ≡ lock }
    requires at { IsAt (start_of hall.now) (view caller.old.pass) caller.old.number caller.old.session }
    requires stands { PartStands (start_of hall.now) lock part (at (view caller.old.pass).seen lock) }
    requires fault { fault.value
        ≡ fault_by (by_at caller.old.number caller.old.session.levels.commands) (faults_in part) }
    requires risen { refusal ≡ DiskFault
        → HasRisen (faults_told (start_of hall.now) lock (at (view caller.old.pass).seen lock)) (faults_in part) }
    ensures own { IsOf hall.now caller.new.pass }
    ensures ready { IsReady (start_of hall.now) (view caller.new.pass) caller.new.number caller.new.session }
    ensures left { Leaves (start_of hall.now) lock
        (entry_of_refusal (by_at caller.old.number caller.old.session.levels.commands) (faults_in part) refusal)
        (view caller.old.pass) (view caller.new.pass) }
    ensures same { (caller.new.session ≡ caller.old.session) × (caller.new.number ≡ caller.old.number) }
{
    match refusal {
        BankRefusal::DiskFault => leave_quiet(hall, caller, lock, part, fault),
        BankRefusal::Cut { .. } => leave_looked(hall, caller, lock, part),
    }
}
