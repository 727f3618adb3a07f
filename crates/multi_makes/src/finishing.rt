//! The multixact that a session makes is made whole.
ghost use Rattle.std.specs.Prelude.{◌≡◌, ◌≢◌, IfErr, MatchResult, None, OnOk};
ghost use Rattle.hall.specs.Calls.{view, start_of};
ghost use Rattle.tx_core.specs.MembersBeforeOffset.{IsRecorded};
ghost use Rattle.engine_parts.specs.Adding.{IsOfMulti, IsToldBy, MayAdd, MayFault};
ghost use Rattle.engine_parts.specs.Calls.{MayStep};
ghost use Rattle.engine_parts.specs.Sessions.{by_at};
ghost use Rattle.tx_core.specs.OwnMultis.{IsMultiDone};
ghost use Rattle.log_sections.specs.Rooms.{MetFullFor};
ghost use Rattle.multi_makes.specs.Logged.{LogsMulti};
ghost use Rattle.multi_makes.specs.Pending.{ArePending, Finishes, IsLogged, IsMultiFault, IsPending, IsRecDone, IsRecordedRec};
ghost use Rattle.multi_makes.specs.Visits.{Visited};

use crate::logging::log_multi;
use crate::members::set_members;
use crate::offsets::make_begin;
use disk_core::{LogDisk, PageDisk};
use engine_parts::{Caller, EngineLaw, Making, Passing};
use hall::Hall;
use tx_events::{Copied, FullMulti, Member, Memory, Rec, Refusal};

/// The record of the multixact that is made, where one is.
fn pending_record(making: &Option<Making>) -> Result<Option<Rec>, Memory>
    ensures { MatchResult result (ArePending making.now) (λ _. making.now ≢ None) }
{
    match making {
        None => Ok(None),
        Some(made) => Ok(Some(Rec::Multi {
            multi: made.multi,
            offset: made.offset,
            members: made.members.copy()?,
        })),
    }
}

/// Whether the multixact that is made, which there is, has its record in the log.
fn is_logged(making: &Option<Making>) -> bool
    ensures { IsLogged making.now result }
{
    match making {
        None => false,
        Some(made) => made.logged,
    }
}

/// Appends the record where the log doesn't have it yet.
fn log_pending<R: Passing, L: LogDisk, P: PageDisk>(
    rt: &R,
    hall: &Hall<EngineLaw<L, P>>,
    caller: &mut Caller<L, P>,
    banks: u32,
    rec: &Rec,
) -> Result<(), Refusal>
    requires step { MayStep hall.now banks caller.old }
    requires record { IsPending caller.old.session.making rec.now }
    ensures visited { Visited hall.now banks (MayAdd IsOfMulti ⊥ (λ _. ⊥)) caller.old caller.new }
    ensures logs { LogsMulti (start_of hall.now) (view caller.new.pass).seen caller.old.session caller.new.session
        result }
    ensures full { IfErr result (MetFullFor (start_of hall.now) (view caller.new.pass).seen
        (by_at caller.old.number caller.old.session.levels.commands) (IsPending caller.new.session.making)) }
{
    if is_logged(&caller.session.making) {
        return Ok(());
    }
    log_multi(rt, hall, caller, rec)
}

/// Sets the members and then the offset of a multixact that the session recorded.
fn set_multi<R: Passing, L: LogDisk, P: PageDisk>(
    rt: &R,
    hall: &Hall<EngineLaw<L, P>>,
    caller: &mut Caller<L, P>,
    banks: u32,
    multi: FullMulti,
    offset: u64,
    members: &[Member],
) -> Result<(), Refusal>
    requires step { MayStep hall.now banks caller.old }
    requires recorded { IsRecorded (view caller.old.pass).seen caller.old.number multi offset members.now }
    ensures visited { Visited hall.now banks (MayFault result) caller.old caller.new }
    ensures session { caller.new.session ≡ caller.old.session }
    ensures done { OnOk result (IsMultiDone (start_of hall.now) (view caller.new.pass).seen caller.old.number multi
        offset members.now) }
    ensures fault { IfErr result (IsMultiFault (view caller.new.pass).seen
        (by_at caller.old.number caller.old.session.levels.commands)) }
{
    match set_members(rt, hall, caller, banks, offset, members) {
        Ok(()) => make_begin(rt, hall, caller, banks, multi, offset),
        Err(refusal) => Err(refusal),
    }
}

/// Sets what a record names that the session appended.
fn set_pending<R: Passing, L: LogDisk, P: PageDisk>(
    rt: &R,
    hall: &Hall<EngineLaw<L, P>>,
    caller: &mut Caller<L, P>,
    banks: u32,
    rec: &Rec,
) -> Result<(), Refusal>
    requires step { MayStep hall.now banks caller.old }
    requires recorded { IsRecordedRec (view caller.old.pass).seen caller.old.number rec.now }
    ensures visited { Visited hall.now banks (MayFault result) caller.old caller.new }
    ensures session { caller.new.session ≡ caller.old.session }
    ensures done { OnOk result (IsRecDone (start_of hall.now) (view caller.new.pass).seen caller.old.number rec.now) }
    ensures fault { IfErr result (IsMultiFault (view caller.new.pass).seen
        (by_at caller.old.number caller.old.session.levels.commands)) }
{
    match rec {
        Rec::Multi {
            multi,
            offset,
            members,
        } => set_multi(rt, hall, caller, banks, *multi, *offset, members.items()),
        _ => unreachable!(),
    }
}

/// Makes whole the multixact of this record, which the session makes.
fn finish_record<R: Passing, L: LogDisk, P: PageDisk>(
    rt: &R,
    hall: &Hall<EngineLaw<L, P>>,
    caller: &mut Caller<L, P>,
    banks: u32,
    rec: &Rec,
) -> Result<(), Refusal>
    requires step { MayStep hall.now banks caller.old }
    requires record { IsPending caller.old.session.making rec.now }
    ensures visited { Visited hall.now banks (MayAdd IsOfMulti ⊥ (IsToldBy result)) caller.old caller.new }
    ensures finishes { Finishes (start_of hall.now) caller.old.number caller.old.session caller.new.session
        (view caller.new.pass).seen result }
    ensures full { IfErr result (MetFullFor (start_of hall.now) (view caller.new.pass).seen
        (by_at caller.old.number caller.old.session.levels.commands) (IsPending caller.new.session.making)) }
{
    match log_pending(rt, hall, caller, banks, rec) {
        Ok(()) => match set_pending(rt, hall, caller, banks, rec) {
            Ok(()) => {
                caller.session.making = None;
                Ok(())
            }
            Err(refusal) => Err(refusal),
        },
        Err(refusal) => Err(refusal),
    }
}

/// Goes on with the multixact that the session makes, if it makes one, until it is whole: its record, its members, page
/// by page, and its offset. Members and the offset are set anew where they were set before.
///
/// Refused with `LogDown`, `Full`, `DiskFault` of a bank of offsets or of members, or `Memory`; then the session still
/// makes it.
pub(crate) fn finish<R: Passing, L: LogDisk, P: PageDisk>(
    rt: &R,
    hall: &Hall<EngineLaw<L, P>>,
    caller: &mut Caller<L, P>,
    banks: u32,
) -> Result<(), Refusal>
    requires { MayStep hall.now banks caller.old }
    ensures visited { Visited hall.now banks (MayAdd IsOfMulti ⊥ (IsToldBy result)) caller.old caller.new }
    ensures finishes { Finishes (start_of hall.now) caller.old.number caller.old.session caller.new.session
        (view caller.new.pass).seen result }
    ensures full { IfErr result (MetFullFor (start_of hall.now) (view caller.new.pass).seen
        (by_at caller.old.number caller.old.session.levels.commands) (IsPending caller.new.session.making)) }
{
    match pending_record(&caller.session.making) {
        Ok(None) => Ok(()),
        Ok(Some(rec)) => finish_record(rt, hall, caller, banks, &rec),
        Err(Memory) => Err(Refusal::Memory),
    }
}
