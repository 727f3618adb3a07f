//! A freeze begins: the next multixact becomes the oldest one, or an older one is pinned.
ghost use Rattle.std.specs.Prelude.{◌≡◌, ℕ, ◌+◌, ◌*◌, ◌<◌, ◌≤◌, MatchResult};
ghost use Rattle.hall.specs.Calls.{view, IsOf, start_of};
ghost use Rattle.tx_events.specs.Ids.{IsFullMulti, low_half};
ghost use Rattle.tx_events.specs.declared.multi.MultiEvent.TheVariants as events;
ghost use Rattle.tx_events.specs.declared.refusal.Refusal.TheVariants as refusals;
ghost use Rattle.multi_store.specs.Generator.{IsHeld, free_of, next_of, oldest_of};
ghost use Rattle.engine_parts.specs.Sessions.{IsReady};
ghost use Rattle.multi_sections.specs.Steps.{MultiSection};
ghost use Rattle.multi_sections.specs.Raisings.{IsFrozenAs, IsNotFrozen, StartsFreeze, freezing_event, frozen_event};

use crate::leaving::leave_made;
use crate::pinning::hold_note;
use disk_core::{LogDisk, PageDisk};
use engine_parts::{Caller, EngineLaw, Part, Passing, command_of, enter_multi, leave_looked};
use hall::{Hall, Note};
use multi_store::{Held, MultiGen};
use tx_events::{By, FullMulti, MultiEvent, Refusal};

/// How a freeze begins.
pub enum Freezing {
    /// The multixact was the next one and is the oldest one now, with the offset at which its members will begin.
    Raised { offset: u64 },
    /// It is an older one, which is pinned until its offset is read.
    Pinned(Held),
}

/// The event that the oldest multixact was raised.
pub(crate) fn raise_note(by: By, multi: FullMulti, offset: u64) -> Note<MultiEvent>
    ensures { result.value ≡ events.Raise by multi offset }
{
    Note::by(&(by, multi, offset))
}

/// The event that a freeze of this multixact begins with.
fn freezing_note(by: By, multi: FullMulti, freezing: &Freezing) -> Note<MultiEvent>
    ensures { result.value ≡ frozen_event by multi freezing.now }
{
    match freezing {
        Freezing::Raised { offset } => raise_note(by, multi, *offset),
        Freezing::Pinned(held) => hold_note(by, held.multi),
    }
}

/// Pins a multixact that was given, by its full number. Refused for want of memory alone.
fn pin_known(multis: &mut MultiGen, by: By, multi: FullMulti) -> Result<Held, Refusal>
    requires full { IsFullMulti multi }
    requires from { oldest_of multis.old ≤ multi }
    requires to { multi < next_of multis.old }
    ensures { MatchResult result (λ h. IsHeld multis.old multis.new by (low_half multi) h × (h.multi ≡ multi)) (λ r. (multis.new ≡ multis.old) × (r ≡ refusals.Memory)) }
{
    let _now = multis.counters();
    multis.hold(by, multi.low())
}

/// Makes the next multixact the oldest one, with the next free offset. Refused where it isn't the next one.
fn raise_next(
    multis: &mut MultiGen,
    by: By,
    multi: FullMulti,
    offset: u64,
) -> Result<Freezing, Refusal>
    requires past { oldest_of multis.old ≤ multi → next_of multis.old ≤ multi }
    requires free { offset ≡ free_of multis.old }
    ensures { MatchResult result (IsFrozenAs multis.old multis.new by multi) (λ r. (multis.new ≡ multis.old) × IsNotFrozen multis.old.base multis.old.events multi r) }
{
    match multis.raise_oldest(by, multi, offset) {
        Ok(()) => Ok(Freezing::Raised { offset }),
        Err(refusal) => Err(refusal),
    }
}

/// The freeze begins in the generator.
fn begin_freeze(multis: &mut MultiGen, by: By, multi: FullMulti) -> Result<Freezing, Refusal>
    requires { IsFullMulti multi }
    ensures { MatchResult result (IsFrozenAs multis.old multis.new by multi) (λ r. (multis.new ≡ multis.old) × IsNotFrozen multis.old.base multis.old.events multi r) }
{
    let now = multis.counters();
    if now.oldest_multi <= multi && multi < now.multi {
        let held = pin_known(multis, by, multi)?;
        return Ok(Freezing::Pinned(held));
    }
    raise_next(multis, by, multi, now.offset)
}

/// Begins to make a multixact the oldest one (`SetMultiXactIdLimit` of `src/backend/access/transam/multixact.c`): one
/// critical section of the generator. The next one becomes it at once, since its members begin at the next free offset. Of
/// an older one the offset is to be read from its page, so it is pinned by its full number.
///
/// Refused with `Backward` exactly where it is below the announced oldest one, else with `Held` where it is past the next
/// one, or is the next one while an older one is pinned, or with `Memory`; then nothing changed.
pub fn start_freeze<R: Passing, L: LogDisk, P: PageDisk>(
    rt: &R,
    hall: &Hall<EngineLaw<L, P>>,
    caller: &mut Caller<L, P>,
    multi: FullMulti,
) -> Result<Freezing, Refusal>
    requires own { IsOf hall.now caller.old.pass }
    requires laid { hall.now.cells ≡ 3 + 4 * (start_of hall.now).banks }
    requires ready { IsReady (start_of hall.now) (view caller.old.pass) caller.old.number caller.old.session }
    requires full { IsFullMulti multi }
    ensures section { MultiSection (start_of hall.now) caller.old.number caller.old.session
        (freezing_event caller.old.number caller.old.session multi) (view caller.old.pass) (view caller.new.pass) result }
    ensures own { IsOf hall.now caller.new.pass }
    ensures ready { IsReady (start_of hall.now) (view caller.new.pass) caller.new.number caller.new.session }
    ensures starts { StartsFreeze (start_of hall.now) caller.old.number caller.old.session multi
        (view caller.old.pass).seen (view caller.new.pass).seen result }
    ensures same { (caller.new.session ≡ caller.old.session) × (caller.new.number ≡ caller.old.number) }
{
    let by = command_of(caller);
    let mut held = enter_multi(rt, hall, caller);
    let multis = &mut *held;
    match begin_freeze(multis, by, multi) {
        Ok(freezing) => {
            let event = freezing_note(by, multi, &freezing);
            leave_made(hall, caller, held, event);
            Ok(freezing)
        }
        Err(refusal) => {
            leave_looked(hall, caller, 2, Part::Multi(held));
            Err(refusal)
        }
    }
}
