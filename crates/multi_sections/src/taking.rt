//! A multixact is given.
ghost use Rattle.std.specs.Prelude.{◌≡◌, ℕ, ◌+◌, ◌*◌, ◌<◌, Contains, None};
ghost use Rattle.hall.specs.Calls.{view, IsOf, start_of};
ghost use Rattle.tx_events.specs.declared.multi.MultiEvent.TheVariants as events;
ghost use Rattle.tx_events.specs.After.{ids_of};
ghost use Rattle.tx_events.specs.History.{next_given};
ghost use Rattle.tx_events.specs.Ids.{IsFullId};
ghost use Rattle.tx_events.specs.Multis.{AreMembers};
ghost use Rattle.tx_core.specs.Entries.{history};
ghost use Rattle.engine_parts.specs.Sessions.{IsReady};
ghost use Rattle.multi_sections.specs.Steps.{MultiSection};
ghost use Rattle.multi_sections.specs.Takings.{Takes, session_taken, taken_event};

use crate::leaving::leave_given;
use disk_core::{LogDisk, PageDisk};
use engine_parts::{
    Caller, EngineLaw, Making, Part, Passing, command_of, enter_multi, leave_looked,
};
use hall::{Hall, Note};
use multi_store::MultiGiven;
use tx_events::{By, MemberList, MultiEvent, Refusal};

/// The event that this multixact was given.
fn gen_note(by: By, given: &MultiGiven, members: &MemberList) -> Note<MultiEvent>
    ensures { result.value ≡ events.Gen by given.now.multi given.now.offset members.now }
{
    Note::by(&(by, given, members))
}

/// Gives the next multixact and the offset at which its members begin (`GetNewMultiXactId` of
/// `src/backend/access/transam/multixact.c`): one critical section of the generator. The session makes none; from then on
/// it makes this one: its record, its members and its offset are still to come. All members are full ids that were given.
///
/// Refused with `MultiStop` exactly where numbers stop, else with `MemberStop` exactly where the members would reach the
/// limit of their offsets, or with `Memory`; then nothing was given.
pub fn take_multi<R: Passing, L: LogDisk, P: PageDisk>(
    rt: &R,
    hall: &Hall<EngineLaw<L, P>>,
    caller: &mut Caller<L, P>,
    members: MemberList,
) -> Result<MultiGiven, Refusal>
    requires own { IsOf hall.now caller.old.pass }
    requires laid { hall.now.cells ≡ 3 + 4 * (start_of hall.now).banks }
    requires ready { IsReady (start_of hall.now) (view caller.old.pass) caller.old.number caller.old.session }
    requires free { caller.old.session.making ≡ None }
    requires members { AreMembers members }
    requires full { (id : ℕ) → Contains (ids_of members) id → IsFullId id }
    requires before { (id : ℕ) → Contains (ids_of members) id → id < next_given (start_of hall.now).base.next (history (view caller.old.pass).seen) }
    ensures section { MultiSection (start_of hall.now) caller.old.number caller.old.session
        (taken_event caller.old.number caller.old.session members) (view caller.old.pass) (view caller.new.pass) result }
    ensures own { IsOf hall.now caller.new.pass }
    ensures ready { IsReady (start_of hall.now) (view caller.new.pass) caller.new.number caller.new.session }
    ensures takes { Takes (start_of hall.now) caller.old.number caller.old.session members
        (view caller.old.pass).seen (view caller.new.pass).seen result }
    ensures session { caller.new.session ≡ session_taken caller.old.session members result }
    ensures number { caller.new.number ≡ caller.old.number }
{
    let by = command_of(caller);
    let mut held = enter_multi(rt, hall, caller);
    let multis = &mut *held;
    match multis.next(by, &members) {
        Ok(given) => {
            let event = gen_note(by, &given, &members);
            let making = Making {
                multi: given.multi,
                offset: given.offset,
                members,
                logged: false,
            };
            leave_given(hall, caller, held, event, making);
            Ok(given)
        }
        Err(refusal) => {
            leave_looked(hall, caller, 2, Part::Multi(held));
            Err(refusal)
        }
    }
}
