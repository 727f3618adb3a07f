//! A multixact is pinned, and let go.
ghost use Rattle.std.specs.Prelude.{◌≡◌, ℕ, ◌+◌, ◌*◌, ◌≤◌, [], ◌∷◌};
ghost use Rattle.hall.specs.Calls.{view, IsOf, start_of};
ghost use Rattle.tx_events.specs.declared.multi.MultiEvent.TheVariants as events;
ghost use Rattle.tx_core.specs.Locks.{multi_lock};
ghost use Rattle.engine_parts.specs.Holds.{Section};
ghost use Rattle.engine_parts.specs.Sessions.{IsReady};
ghost use Rattle.engine_parts.specs.Steps.{WentMulti};
ghost use Rattle.multi_sections.specs.Steps.{MultiSection, entry_of};
ghost use Rattle.multi_sections.specs.Pinnings.{Pins, TakesPin, hold_event, unhold_event};

use crate::leaving::leave_made;
use disk_core::{LogDisk, PageDisk};
use engine_parts::{Caller, EngineLaw, Part, Passing, command_of, enter_multi, leave_looked};
use hall::{Hall, Note};
use multi_store::Held;
use tx_events::{By, FullMulti, MultiEvent, MultiId, Refusal};

/// The event of a pin.
pub(crate) fn hold_note(by: By, multi: FullMulti) -> Note<MultiEvent>
    ensures { result.value ≡ events.Hold by multi }
{
    Note::by(&(by, multi))
}

fn unhold_note(by: By, multi: FullMulti) -> Note<MultiEvent>
    ensures { result.value ≡ events.Unhold by multi }
{
    Note::by(&(by, multi))
}

/// Pins the multixact that a stored number means near the next one, so that the oldest one isn't raised past it: one
/// critical section of the generator. From then on until it is let go its pages are kept.
///
/// Refused with `MultiTooOld` exactly where the number means none or one below the oldest, with `MultiFuture` exactly where
/// it means one at or past the next, or with `Memory`; then nothing was pinned.
pub fn pin_multi<R: Passing, L: LogDisk, P: PageDisk>(
    rt: &R,
    hall: &Hall<EngineLaw<L, P>>,
    caller: &mut Caller<L, P>,
    m: MultiId,
) -> Result<Held, Refusal>
    requires own { IsOf hall.now caller.old.pass }
    requires laid { hall.now.cells ≡ 3 + 4 * (start_of hall.now).banks }
    requires ready { IsReady (start_of hall.now) (view caller.old.pass) caller.old.number caller.old.session }
    requires some { 1 ≤ m.number }
    ensures section { MultiSection (start_of hall.now) caller.old.number caller.old.session
        (hold_event caller.old.number caller.old.session) (view caller.old.pass) (view caller.new.pass) result }
    ensures own { IsOf hall.now caller.new.pass }
    ensures ready { IsReady (start_of hall.now) (view caller.new.pass) caller.new.number caller.new.session }
    ensures pins { TakesPin (start_of hall.now) caller.old.number caller.old.session m.number
        (view caller.old.pass).seen (view caller.new.pass).seen result }
    ensures same { (caller.new.session ≡ caller.old.session) × (caller.new.number ≡ caller.old.number) }
{
    let by = command_of(caller);
    let mut held = enter_multi(rt, hall, caller);
    let multis = &mut *held;
    match multis.hold(by, m) {
        Ok(pinned) => {
            let event = hold_note(by, pinned.multi);
            leave_made(hall, caller, held, event);
            Ok(pinned)
        }
        Err(refusal) => {
            leave_looked(hall, caller, 2, Part::Multi(held));
            Err(refusal)
        }
    }
}

/// Lets go a multixact that the session pins, once: one critical section of the generator. Takes no memory.
pub fn unpin_multi<R: Passing, L: LogDisk, P: PageDisk>(
    rt: &R,
    hall: &Hall<EngineLaw<L, P>>,
    caller: &mut Caller<L, P>,
    multi: FullMulti,
)
    requires own { IsOf hall.now caller.old.pass }
    requires laid { hall.now.cells ≡ 3 + 4 * (start_of hall.now).banks }
    requires ready { IsReady (start_of hall.now) (view caller.old.pass) caller.old.number caller.old.session }
    requires pinned { Pins caller.old.number multi (view caller.old.pass).seen }
    ensures section { Section (start_of hall.now) multi_lock (entry_of (unhold_event caller.old.number caller.old.session multi))
        (view caller.old.pass) (view caller.new.pass) }
    ensures own { IsOf hall.now caller.new.pass }
    ensures ready { IsReady (start_of hall.now) (view caller.new.pass) caller.new.number caller.new.session }
    ensures went { WentMulti caller.old.number (unhold_event caller.old.number caller.old.session multi ∷ [])
        (view caller.old.pass).seen (view caller.new.pass).seen }
    ensures same { (caller.new.session ≡ caller.old.session) × (caller.new.number ≡ caller.old.number) }
{
    let by = command_of(caller);
    let mut held = enter_multi(rt, hall, caller);
    let multis = &mut *held;
    multis.unhold(by, multi);
    let event = unhold_note(by, multi);
    leave_made(hall, caller, held, event);
}
