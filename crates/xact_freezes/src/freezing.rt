//! The oldest multixact is announced.
ghost use Rattle.std.specs.Prelude.{◌≡◌, ℕ, ◌%◌, ◌<◌, ◌≤◌, [], Contains, IfErr, IfOk, IsTrue, List, Some};
ghost use Rattle.hall.specs.Calls.{view, start_of};
ghost use Rattle.tx_events.specs.Ids.{low_half};
ghost use Rattle.tx_events.specs.declared.multi.Member.{Member};
ghost use Rattle.tx_events.specs.declared.multi.MultiEvent.TheVariants as multis;
ghost use Rattle.tx_events.specs.declared.record.Rec.{Rec};
ghost use Rattle.tx_events.specs.declared.record.Rec.TheVariants as records;
ghost use Rattle.tx_model.specs.declared.command.Command.TheVariants as commands;
ghost use Rattle.tx_model.specs.declared.reply.Reply.TheVariants as replies;
ghost use Rattle.tx_events.specs.Pages.{offset_page};
ghost use Rattle.tx_core.specs.MultiEntries.{AreFewMultis, multi_history};
ghost use Rattle.engine_parts.specs.Adding.{MayFault};
ghost use Rattle.engine_parts.specs.Answers.{reply_of};
ghost use Rattle.engine_parts.specs.Calls.{MayRun, MayStep, Ran, next_command};
ghost use Rattle.engine_parts.specs.Sessions.{by_at};
ghost use Rattle.multi_sections.specs.Pinnings.{Pins};
ghost use Rattle.xact_freezes.specs.Freezes.{FreezesPinned, IsHeldSince, IsOffsetsFault, IsStartRead, RaisesRead};
ghost use Rattle.xact_freezes.specs.Visits.{Visited};

use bank_sections::stall;
use disk_core::{LogDisk, PageDisk};
use engine_parts::{Caller, EngineLaw, Passing, count};
use hall::Hall;
use multi_banks::read_offset;
use multi_sections::{Freezing, Raising, raise_multi, start_freeze, unpin_multi};
use multi_store::Held;
use proc_sections::read_base;
use slru_bank::BankRefusal;
use store_pages::{bank_of, offset_page};
use tx_events::{FullMulti, Lock, Refusal};

/// The bank of a multixact's offset.
fn offsets_bank(multi: FullMulti, banks: u32) -> u32
    requires { 1 ≤ banks }
    ensures bank { result ≡ offset_page (low_half multi) % banks }
    ensures within { result < banks }
{
    bank_of(offset_page(multi.low()), banks)
}

/// The stored half of the offset at which the members of a pinned multixact begin, None where none stands: one critical
/// section of a bank of offsets. Waits for ever where the page is cut, which can't be in a life of few multixacts.
fn read_start<R: Passing, L: LogDisk, P: PageDisk>(
    rt: &R,
    hall: &Hall<EngineLaw<L, P>>,
    caller: &mut Caller<L, P>,
    banks: u32,
    multi: FullMulti,
) -> Result<Option<u32>, Refusal>
    requires step { MayStep hall.now banks caller.old }
    requires pinned { Pins caller.old.number multi (view caller.old.pass).seen }
    ensures visited { Visited hall.now banks (MayFault result) [] caller.old caller.new }
    ensures read { IfOk result (IsStartRead P.tells (start_of hall.now) (view caller.new.pass).seen multi) }
    ensures fault { IfErr result (IsOffsetsFault (view caller.new.pass).seen
        (by_at caller.old.number caller.old.session.levels.commands)) }
{
    let bank = offsets_bank(multi, banks);
    let _multi = multi.number();
    match read_offset(rt, hall, caller, bank, multi) {
        Ok(found) => Ok(found),
        Err(BankRefusal::DiskFault) => Err(Refusal::DiskFault {
            lock: Lock::Offsets(bank),
        }),
        Err(BankRefusal::Cut { .. }) => {
            stall(rt);
            unreachable!()
        }
    }
}

/// A pinned multixact becomes the oldest one, of which the stored half of the offset was read. Waits for ever where the
/// life began with it and has given 2,900,000 others.
fn raise_read<R: Passing, L: LogDisk, P: PageDisk>(
    rt: &R,
    hall: &Hall<EngineLaw<L, P>>,
    caller: &mut Caller<L, P>,
    banks: u32,
    held: &Held,
    low: u32,
) -> Result<(), Refusal>
    requires step { MayStep hall.now banks caller.old }
    requires pinned { IsHeldSince (start_of hall.now) caller.old.number (view caller.old.pass).seen held.now }
    requires read { IsStartRead P.tells (start_of hall.now) (view caller.old.pass).seen held.now.multi (Some low) }
    requires told { (rec : Rec) → Contains (start_of hall.now).recorded rec → IsTrue (start_of hall.now).told
        → IsTrue P.tells }
    ensures raises { RaisesRead P.tells hall.now banks held.now caller.old caller.new result }
{
    let base = read_base(rt, hall, caller);
    let _first = base.multi.number();
    let _multi = held.multi.number();
    match raise_multi(rt, hall, caller, &base, held, low) {
        Ok(Raising::Raised { .. }) => Ok(()),
        Ok(Raising::Many) => {
            stall(rt);
            unreachable!()
        }
        Err(refusal) => Err(refusal),
    }
}

/// A pinned multixact becomes the oldest one, and is let go, whatever came of it.
fn freeze_pinned<R: Passing, L: LogDisk, P: PageDisk>(
    rt: &R,
    hall: &Hall<EngineLaw<L, P>>,
    caller: &mut Caller<L, P>,
    banks: u32,
    held: &Held,
) -> Result<(), Refusal>
    requires step { MayStep hall.now banks caller.old }
    requires pinned { IsHeldSince (start_of hall.now) caller.old.number (view caller.old.pass).seen held.now }
    requires told { (rec : Rec) → Contains (start_of hall.now).recorded rec → IsTrue (start_of hall.now).told
        → IsTrue P.tells }
    ensures freezes { FreezesPinned P.tells hall.now banks held.now caller.old caller.new result }
{
    match read_start(rt, hall, caller, banks, held.multi) {
        Ok(Some(low)) => {
            let raised = raise_read(rt, hall, caller, banks, held, low);
            unpin_multi(rt, hall, caller, held.multi);
            raised
        }
        Ok(None) => {
            unpin_multi(rt, hall, caller, held.multi);
            Err(Refusal::NotYet { multi: held.multi })
        }
        Err(refusal) => {
            unpin_multi(rt, hall, caller, held.multi);
            Err(refusal)
        }
    }
}

/// Announces the oldest multixact that is still asked for (`SetMultiXactIdLimit` of
/// `src/backend/access/transam/multixact.c`, as `vac_truncate_clog` calls it): the limits on multixacts and members go
/// by it from then on, and who asks for one before it is told `MultiTooOld`. The next one is announced at once, with
/// the next free offset. An older one is pinned while its offset is read from its page: three critical sections of the
/// generator, one of a bank of offsets and one of the ProcArray. The log has no record of it yet. `banks` is the number
/// of banks of each store.
///
/// Refused with `Backward` where it is before the announced one, with `Held` where it is past the next one or one that
/// is pinned, with `NotYet` where its offset isn't recorded, with `DiskFault` of a bank of offsets, or with `Memory`;
/// then nothing was announced. The session has run fewer than 2^48 commands.
pub fn multi_freeze<R: Passing, L: LogDisk, P: PageDisk>(
    rt: &R,
    hall: &Hall<EngineLaw<L, P>>,
    caller: &mut Caller<L, P>,
    banks: u32,
    multi: FullMulti,
) -> Result<(), Refusal>
    requires may { MayRun hall.now banks caller.old }
    // What the pages say of a multixact that the life began with is known where they told it.
    requires told { (rec : Rec) → Contains (start_of hall.now).recorded rec → IsTrue (start_of hall.now).told
        → IsTrue P.tells }
    ensures ran { Ran hall.now (next_command caller.old) (commands.MultiFreeze multi)
        (reply_of (λ _. replies.Done) result) caller.old caller.new }
    ensures recorded { IsTrue P.tells → IfOk result (λ _. AreFewMultis (view caller.new.pass).seen
        → multi < (start_of hall.now).base.multi → (offset : ℕ)
        → Contains (multi_history (view caller.new.pass).seen)
        (multis.Raise (by_at caller.old.number (next_command caller.old)) multi offset)
        → (members : List Member) × Contains (start_of hall.now).recorded (records.Multi multi offset members)) }
{
    let _multi = multi.number();
    count(caller);
    let freezing = match start_freeze(rt, hall, caller, multi) {
        Ok(freezing) => freezing,
        Err(refusal) => return Err(refusal),
    };
    match freezing {
        Freezing::Raised { offset: _offset } => Ok(()),
        Freezing::Pinned(held) => match freeze_pinned(rt, hall, caller, banks, &held) {
            Ok(()) => Ok(()),
            Err(refusal) => Err(refusal),
        },
    }
}
