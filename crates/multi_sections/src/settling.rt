//! The oldest multixact is raised to one that is pinned.
ghost use Rattle.std.specs.Prelude.{◌≡◌, ◌↔◌, ℕ, ◌+◌, ◌*◌, ◌^◌, ◌<◌, ◌≤◌, IsTrue, MatchResult};
ghost use Rattle.hall.specs.Calls.{view, IsOf, start_of};
ghost use Rattle.tx_events.specs.Base.{IsBase};
ghost use Rattle.tx_events.specs.Multis.{nth_multi};
ghost use Rattle.engine_parts.specs.Sessions.{IsReady};
ghost use Rattle.multi_sections.specs.Raised.{IsFew, IsNotRaisedNow, IsOffsetTold, IsRaisedAs, RaiseSection, RaisesMulti, first_from, offset_read};

use crate::leaving::leave_made;
use crate::raising::raise_note;
use disk_core::{LogDisk, PageDisk};
use engine_parts::{Caller, EngineLaw, Part, Passing, command_of, enter_multi, leave_looked};
use hall::Hall;
use multi_store::{Held, MultiGen};
use tx_events::{By, Counters, FullMulti, Refusal};

const ROUND: u64 = 1 << 32;

/// What came of a freeze of a pinned multixact.
#[derive(Clone, Copy, Debug, PartialEq, Eq)]
pub enum Raising {
    /// It is the oldest one now, with the offset at which its members begin.
    Raised { offset: u64 },
    /// The life began with it, and has given 2,900,000 others: what was read may be of another one.
    Many,
}

/// How many multixacts come from the first one on before this one: numbers less those of low half 0.
fn given_between(first: FullMulti, multi: FullMulti) -> u64
    requires { first ≤ multi }
    ensures { nth_multi first result ≡ multi }
{
    let from = first.number();
    let to = multi.number();
    (to - from) - (to / ROUND - from / ROUND)
}

/// Whether fewer than 2,900,000 multixacts were given since the life began with these counters.
pub(crate) fn is_few(base: &Counters, multis: &MultiGen) -> bool
    requires { base.now ≡ multis.now.base }
    ensures { IsTrue result ↔ IsFew multis.now }
{
    let now = multis.counters();
    given_between(base.multi, now.multi) < 2_900_000
}

/// The least number from this one on with this stored half.
fn first_from(from: u64, low: u32) -> u64
    requires { from < 2 ^ 63 }
    ensures { result ≡ first_from from low }
{
    from + (u64::from(low) + ROUND - from % ROUND) % ROUND
}

/// Where the pinned multixact begins, in full.
fn offset_read(base: &Counters, held: &Held, low: u32) -> u64
    requires { base.now.oldest_offset < 2 ^ 63 }
    ensures { result ≡ offset_read base.now held.now low }
{
    if held.multi < base.multi {
        return first_from(base.oldest_offset, low);
    }
    held.start.unwrap_or(0)
}

/// The pinned multixact becomes the oldest one in the generator.
fn raise_pinned(
    multis: &mut MultiGen,
    by: By,
    base: &Counters,
    held: &Held,
    low: u32,
) -> Result<Raising, Refusal>
    requires base { base.now ≡ multis.old.base }
    requires small { base.now.oldest_offset < 2 ^ 63 }
    ensures { MatchResult result (IsRaisedAs multis.old multis.new by held.now low) (λ r. (multis.new ≡ multis.old) × IsNotRaisedNow multis.old.base multis.old.events held.now low r) }
{
    let old = held.multi < base.multi;
    if old && !is_few(base, multis) {
        return Ok(Raising::Many);
    }
    let offset = offset_read(base, held, low);
    if !multis.begins_at(held.multi, offset) {
        return Err(Refusal::NotYet { multi: held.multi });
    }
    match multis.raise_oldest(by, held.multi, offset) {
        Ok(()) => Ok(Raising::Raised { offset }),
        Err(refusal) => Err(refusal),
    }
}

/// Makes a pinned multixact the oldest one (`SetMultiXactIdLimit` of `src/backend/access/transam/multixact.c`): one critical
/// section of the generator. The stored half of its offset was read behind the pin; the life began with `base`. Where it
/// is one that the life began with, and that has given many since, nothing is done.
///
/// Refused with `NotYet` where it begins at no such offset, with `Held` where an older one is pinned, or with `Memory`;
/// then nothing changed. `Backward` can't come while it is pinned.
pub fn raise_multi<R: Passing, L: LogDisk, P: PageDisk>(
    rt: &R,
    hall: &Hall<EngineLaw<L, P>>,
    caller: &mut Caller<L, P>,
    base: &Counters,
    held: &Held,
    low: u32,
) -> Result<Raising, Refusal>
    requires own { IsOf hall.now caller.old.pass }
    requires laid { hall.now.cells ≡ 3 + 4 * (start_of hall.now).banks }
    requires ready { IsReady (start_of hall.now) (view caller.old.pass) caller.old.number caller.old.session }
    requires base { base.now ≡ (start_of hall.now).base }
    requires read { IsOffsetTold (start_of hall.now) (view caller.old.pass).seen held.now.multi low }
    ensures section { RaiseSection (start_of hall.now) caller.old.number caller.old.session held.now.multi
        (view caller.old.pass) (view caller.new.pass) result }
    ensures own { IsOf hall.now caller.new.pass }
    ensures ready { IsReady (start_of hall.now) (view caller.new.pass) caller.new.number caller.new.session }
    ensures raises { RaisesMulti (start_of hall.now) caller.old.number caller.old.session held.now low
        (view caller.old.pass).seen (view caller.new.pass).seen result }
    ensures same { (caller.new.session ≡ caller.old.session) × (caller.new.number ≡ caller.old.number) }
{
    let by = command_of(caller);
    let mut part = enter_multi(rt, hall, caller);
    let multis = &mut *part;
    match raise_pinned(multis, by, base, held, low) {
        Ok(Raising::Raised { offset }) => {
            let event = raise_note(by, held.multi, offset);
            leave_made(hall, caller, part, event);
            Ok(Raising::Raised { offset })
        }
        Ok(Raising::Many) => {
            leave_looked(hall, caller, 2, Part::Multi(part));
            Ok(Raising::Many)
        }
        Err(refusal) => {
            leave_looked(hall, caller, 2, Part::Multi(part));
            Err(refusal)
        }
    }
}
