//! Whether an id's state says that it has committed.
ghost use Rattle.std.specs.Prelude.{◌≡◌, ◌+◌, ◌*◌, ◌≤◌, [], IfErr, IfOk, IsTrue};
ghost use Rattle.hall.specs.Calls.{view, IsOf, start_of};
ghost use Rattle.tx_core.specs.Verdict as verdicts;
ghost use Rattle.engine_parts.specs.Adding.{Adds, MayFault};
ghost use Rattle.engine_parts.specs.Sessions.{IsReady, by_at};
ghost use Rattle.engine_parts.specs.Steps.{WentOn};
ghost use Rattle.bank_sections.specs.Reads.{IsStateRead};
ghost use Rattle.xact_reads.specs.Apart.{FoundCut, KeepsApart};
ghost use Rattle.xact_reads.specs.Readings.{IsCommittedIn, IsStateUnread};

use bank_sections::{read_state, stall};
use disk_core::{LogDisk, PageDisk};
use engine_parts::{Caller, EngineLaw, Passing};
use hall::Hall;
use proc_sections::read_oldest;
use slru_bank::BankRefusal;
use store_pages::{bank_of, xact_page};
use tx_core::State;
use tx_events::{FullXid, Lock, Refusal};

fn says_committed(state: Option<State>) -> bool
    ensures { result ≡ verdicts.is_committed state }
{
    matches!(state, Some(State::Committed))
}

/// The state of an id (`TransactionLogFetch` of `src/backend/access/transam/transam.c`): one critical section of a bank
/// of pg_xact; None where none was set. Where the page is cut, the oldest id is read once more, which is past the id by
/// then: `TooOld`. Waits for ever where it isn't, which can't be in a life of few ids.
pub(crate) fn state_of<R: Passing, L: LogDisk, P: PageDisk>(
    rt: &R,
    hall: &Hall<EngineLaw<L, P>>,
    caller: &mut Caller<L, P>,
    banks: u32,
    x: FullXid,
) -> Result<Option<State>, Refusal>
    requires own { IsOf hall.now caller.old.pass }
    requires laid { hall.now.cells ≡ 3 + 4 * (start_of hall.now).banks }
    requires banks { (banks ≡ (start_of hall.now).banks) × (1 ≤ banks) × (banks ≤ 16) }
    requires ready { IsReady (start_of hall.now) (view caller.old.pass) caller.old.number caller.old.session }
    ensures own { IsOf hall.now caller.new.pass }
    ensures ready { IsReady (start_of hall.now) (view caller.new.pass) caller.new.number caller.new.session }
    ensures went { WentOn caller.old.number [] (view caller.old.pass).seen (view caller.new.pass).seen }
    ensures apart { KeepsApart (FoundCut (start_of hall.now) (by_at caller.old.number caller.old.session.levels.commands)
        (view caller.old.pass).seen (view caller.new.pass).seen x)
        caller.old.number (view caller.old.pass).seen (view caller.new.pass).seen result }
    ensures adds { Adds (by_at caller.old.number caller.old.session.levels.commands) (MayFault result)
        (view caller.old.pass).seen (view caller.new.pass).seen }
    ensures state { IsTrue P.tells
        → IfOk result (λ state. IsStateRead (start_of hall.now) (view caller.new.pass).seen x state) }
    ensures unread { IfErr result (λ refusal. IsStateUnread (start_of hall.now) (view caller.new.pass).seen
        (by_at caller.old.number caller.old.session.levels.commands) x refusal) }
    ensures same { (caller.new.session ≡ caller.old.session) × (caller.new.number ≡ caller.old.number) }
{
    let bank = bank_of(xact_page(x.low()), banks);
    match read_state(rt, hall, caller, bank, x) {
        Ok(state) => Ok(state),
        Err(BankRefusal::DiskFault) => Err(Refusal::DiskFault {
            lock: Lock::Xact(bank),
        }),
        Err(BankRefusal::Cut { .. }) => {
            let oldest = read_oldest(rt, hall, caller);
            if x < oldest {
                return Err(Refusal::TooOld { oldest });
            }
            stall(rt);
            unreachable!()
        }
    }
}

/// Whether pg_xact has an id as committed (`TransactionLogFetch` of `src/backend/access/transam/transam.c`), as
/// `state_of` reads it.
pub(crate) fn is_committed<R: Passing, L: LogDisk, P: PageDisk>(
    rt: &R,
    hall: &Hall<EngineLaw<L, P>>,
    caller: &mut Caller<L, P>,
    banks: u32,
    x: FullXid,
) -> Result<bool, Refusal>
    requires own { IsOf hall.now caller.old.pass }
    requires laid { hall.now.cells ≡ 3 + 4 * (start_of hall.now).banks }
    requires banks { (banks ≡ (start_of hall.now).banks) × (1 ≤ banks) × (banks ≤ 16) }
    requires ready { IsReady (start_of hall.now) (view caller.old.pass) caller.old.number caller.old.session }
    ensures own { IsOf hall.now caller.new.pass }
    ensures ready { IsReady (start_of hall.now) (view caller.new.pass) caller.new.number caller.new.session }
    ensures went { WentOn caller.old.number [] (view caller.old.pass).seen (view caller.new.pass).seen }
    ensures apart { KeepsApart (FoundCut (start_of hall.now) (by_at caller.old.number caller.old.session.levels.commands)
        (view caller.old.pass).seen (view caller.new.pass).seen x)
        caller.old.number (view caller.old.pass).seen (view caller.new.pass).seen result }
    ensures adds { Adds (by_at caller.old.number caller.old.session.levels.commands) (MayFault result)
        (view caller.old.pass).seen (view caller.new.pass).seen }
    ensures state { IsTrue P.tells → IfOk result (λ committed.
        IsCommittedIn (start_of hall.now) (view caller.new.pass).seen x committed) }
    ensures unread { IfErr result (λ refusal. IsStateUnread (start_of hall.now) (view caller.new.pass).seen
        (by_at caller.old.number caller.old.session.levels.commands) x refusal) }
    ensures same { (caller.new.session ≡ caller.old.session) × (caller.new.number ≡ caller.old.number) }
{
    match state_of(rt, hall, caller, banks, x) {
        Ok(state) => Ok(says_committed(state)),
        Err(refusal) => Err(refusal),
    }
}
