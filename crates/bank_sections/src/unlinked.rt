//! The parent that is still to be recorded.
ghost use Rattle.std.specs.Prelude.{◌≡◌, ℕ, ◌+◌, ◌*◌, ◌≤◌, [], MatchResult};
ghost use Rattle.hall.specs.Calls.{view, IsOf, start_of};
ghost use Rattle.engine_parts.specs.Adding.{Adds, MayFault};
ghost use Rattle.engine_parts.specs.Sessions.{MayCall, by_at};
ghost use Rattle.engine_parts.specs.Steps.{WentOn};
ghost use Rattle.bank_sections.specs.Faults.{IsSubtransFault};
ghost use Rattle.bank_sections.specs.Parents.{linked};

use crate::parents::link_parent;
use crate::stalling::stall;
use disk_core::{LogDisk, PageDisk};
use engine_parts::{Caller, EngineLaw, Passing};
use hall::Hall;
use slru_bank::BankRefusal;
use store_pages::{bank_of, subtrans_page};
use tx_events::{Lock, Refusal};

/// Records the parent of the id that the session was given last, where it isn't recorded yet (`SubTransSetParent` of
/// `subtrans.c`): one critical section of a bank of pg_subtrans, or none. After a `DiskFault` it is still to be
/// recorded. Waits for ever where the page is cut, which can't be in a life of few ids. `banks` is the number of banks
/// of each store.
pub fn record_parent<R: Passing, L: LogDisk, P: PageDisk>(
    rt: &R,
    hall: &Hall<EngineLaw<L, P>>,
    caller: &mut Caller<L, P>,
    banks: u32,
) -> Result<(), Refusal>
    requires own { IsOf hall.now caller.old.pass }
    requires laid { hall.now.cells ≡ 3 + 4 * (start_of hall.now).banks }
    requires banks { (banks ≡ (start_of hall.now).banks) × (1 ≤ banks) × (banks ≤ 16) }
    requires may { MayCall (start_of hall.now) (view caller.old.pass) caller.old.number caller.old.session }
    ensures own { IsOf hall.now caller.new.pass }
    ensures may { MayCall (start_of hall.now) (view caller.new.pass) caller.new.number caller.new.session }
    ensures went { WentOn caller.old.number [] (view caller.old.pass).seen (view caller.new.pass).seen }
    ensures adds { Adds (by_at caller.old.number caller.old.session.levels.commands) (MayFault result)
        (view caller.old.pass).seen (view caller.new.pass).seen }
    ensures recorded { MatchResult result (λ _. caller.new.session ≡ linked caller.old.session)
        (λ refusal. (caller.new.session ≡ caller.old.session) × IsSubtransFault (view caller.new.pass).seen
        (by_at caller.old.number caller.old.session.levels.commands) refusal) }
    ensures number { caller.new.number ≡ caller.old.number }
{
    let Some(missing) = &caller.session.unlinked else {
        return Ok(());
    };
    let missing = *missing;
    let bank = bank_of(subtrans_page(missing.id.low()), banks);
    match link_parent(rt, hall, caller, bank, missing.id, missing.parent) {
        Ok(()) => {
            caller.session.unlinked = None;
            Ok(())
        }
        Err(BankRefusal::DiskFault) => Err(Refusal::DiskFault {
            lock: Lock::Subtrans(bank),
        }),
        Err(BankRefusal::Cut { .. }) => {
            stall(rt);
            unreachable!()
        }
    }
}
