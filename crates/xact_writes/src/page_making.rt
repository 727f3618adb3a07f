//! The pages of an id are made.
ghost use Rattle.std.specs.Prelude.{◌≡◌, [], IfErr};
ghost use Rattle.hall.specs.Calls.{view, start_of};
ghost use Rattle.tx_events.specs.History.{next_given};
ghost use Rattle.tx_core.specs.Entries.{history};
ghost use Rattle.engine_parts.specs.Adding.{Adds, MayFault};
ghost use Rattle.engine_parts.specs.Calls.{MayStep};
ghost use Rattle.engine_parts.specs.Sessions.{by_at};
ghost use Rattle.engine_parts.specs.Steps.{WentOn};
ghost use Rattle.bank_sections.specs.Faults.{IsBankFault};

use bank_sections::{make_page, make_parents};
use disk_core::{LogDisk, PageDisk};
use engine_parts::{Caller, EngineLaw, Passing};
use hall::Hall;
use proc_sections::tell_made;
use slru_bank::BankRefusal;
use store_pages::{bank_of, subtrans_page, xact_page};
use tx_events::{FullXid, Lock, Refusal};

/// Makes the pages of an id that came next when the session looked (`ExtendCLOG` of `clog.c` and `ExtendSUBTRANS` of
/// `subtrans.c`), and tells the ProcArray. A page that is cut isn't wanted any more: others gave the id meanwhile.
pub(crate) fn make_pages<R: Passing, L: LogDisk, P: PageDisk>(
    rt: &R,
    hall: &Hall<EngineLaw<L, P>>,
    caller: &mut Caller<L, P>,
    banks: u32,
    id: FullXid,
) -> Result<(), Refusal>
    requires step { MayStep hall.now banks caller.old }
    requires next { id ≡ next_given (start_of hall.now).base.next (history (view caller.old.pass).seen) }
    ensures step { MayStep hall.now banks caller.new }
    ensures went { WentOn caller.old.number [] (view caller.old.pass).seen (view caller.new.pass).seen }
    ensures adds { Adds (by_at caller.old.number caller.old.session.levels.commands) (MayFault result)
        (view caller.old.pass).seen (view caller.new.pass).seen }
    ensures fault { IfErr result (λ refusal. IsBankFault (view caller.new.pass).seen
        (by_at caller.old.number caller.old.session.levels.commands) refusal) }
    ensures same { (caller.new.session ≡ caller.old.session) × (caller.new.number ≡ caller.old.number) }
{
    let low = id.low();
    let xact_bank = bank_of(xact_page(low), banks);
    match make_page(rt, hall, caller, xact_bank, id) {
        Ok(()) => {}
        Err(BankRefusal::DiskFault) => {
            return Err(Refusal::DiskFault {
                lock: Lock::Xact(xact_bank),
            });
        }
        Err(BankRefusal::Cut { .. }) => return Ok(()),
    }
    let subtrans_bank = bank_of(subtrans_page(low), banks);
    match make_parents(rt, hall, caller, subtrans_bank, id) {
        Ok(()) => {}
        Err(BankRefusal::DiskFault) => {
            return Err(Refusal::DiskFault {
                lock: Lock::Subtrans(subtrans_bank),
            });
        }
        Err(BankRefusal::Cut { .. }) => return Ok(()),
    }
    tell_made(rt, hall, caller, id);
    Ok(())
}
