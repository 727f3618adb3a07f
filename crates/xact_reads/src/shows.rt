//! What a session's snapshot shows of an id that isn't too old.
ghost use Rattle.std.specs.Prelude.{◌≡◌, ℕ, ◌+◌, ◌*◌, ◌≤◌, [], IfErr, IfOk, IsTrue, Some};
ghost use Rattle.hall.specs.Calls.{view, IsOf, start_of};
ghost use Rattle.tx_events.specs.IdLists.{Ascending};
ghost use Rattle.tx_events.specs.Sights.{top_sight_by};
ghost use Rattle.tx_events.specs.declared.sight.Sight.TheVariants as sights;
ghost use Rattle.session_levels.specs.declared.session.RegisteredSnapshot.{RegisteredSnapshot};
ghost use Rattle.engine_parts.specs.Adding.{Adds, MayFault};
ghost use Rattle.engine_parts.specs.Sessions.{IsReady, by_at};
ghost use Rattle.engine_parts.specs.Steps.{WentOn};
ghost use Rattle.xact_reads.specs.Apart.{FoundCut, KeepsApart};
ghost use Rattle.xact_reads.specs.Glances.{HasGlanced, IsNamed};
ghost use Rattle.xact_reads.specs.Readings.{IsShown, IsUnread};

use crate::climbs::climb;
use crate::glances::Glance;
use crate::states::is_committed;
use disk_core::{LogDisk, PageDisk};
use engine_parts::{Caller, EngineLaw, Passing};
use hall::Hall;
use session_levels::{Session as Levels, registered_as};
use tx_events::{FullXid, Name, Refusal, Sight};

/// Whether the session's snapshot of this name shows a committed id of this topmost parent.
fn shows_top(levels: &Levels, name: &Name, topmost: FullXid) -> bool
    ensures { (k : RegisteredSnapshot) → IsNamed levels.now name.now k → Ascending k.snapshot.xip
        → result ≡ top_sight_by k.snapshot topmost }
{
    match registered_as(levels, name) {
        Some(registered) => registered.snapshot.shows_top(topmost),
        None => false,
    }
}

/// What the session's snapshot of this name shows of an id, which overflowed: its state is read, and then, where it has
/// committed, its parents.
fn ask_parents<R: Passing, L: LogDisk, P: PageDisk>(
    rt: &R,
    hall: &Hall<EngineLaw<L, P>>,
    caller: &mut Caller<L, P>,
    banks: u32,
    name: &Name,
    glance: Glance,
) -> Result<bool, Refusal>
    requires own { IsOf hall.now caller.old.pass }
    requires laid { hall.now.cells ≡ 3 + 4 * (start_of hall.now).banks }
    requires banks { (banks ≡ (start_of hall.now).banks) × (1 ≤ banks) × (banks ≤ 16) }
    requires ready { IsReady (start_of hall.now) (view caller.old.pass) caller.old.number caller.old.session }
    requires glanced { (x : ℕ) × HasGlanced caller.old.session.levels name.now x (Some glance) }
    requires asks { glance.sight ≡ sights.AskParents }
    ensures own { IsOf hall.now caller.new.pass }
    ensures ready { IsReady (start_of hall.now) (view caller.new.pass) caller.new.number caller.new.session }
    ensures went { WentOn caller.old.number [] (view caller.old.pass).seen (view caller.new.pass).seen }
    ensures apart { KeepsApart (FoundCut (start_of hall.now) (by_at caller.old.number caller.old.session.levels.commands)
        (view caller.old.pass).seen (view caller.new.pass).seen glance.id)
        caller.old.number (view caller.old.pass).seen (view caller.new.pass).seen result }
    ensures adds { Adds (by_at caller.old.number caller.old.session.levels.commands) (MayFault result)
        (view caller.old.pass).seen (view caller.new.pass).seen }
    ensures shown { IsTrue P.tells → IfOk result (λ shown. IsShown (start_of hall.now) (view caller.new.pass).seen
        caller.old.session.levels name.now glance.id shown) }
    ensures unread { IfErr result (λ refusal. IsUnread (start_of hall.now) (view caller.new.pass).seen
        (by_at caller.old.number caller.old.session.levels.commands) glance.id refusal) }
    ensures same { (caller.new.session ≡ caller.old.session) × (caller.new.number ≡ caller.old.number) }
{
    let committed = match is_committed(rt, hall, caller, banks, glance.id) {
        Ok(committed) => committed,
        Err(refusal) => return Err(refusal),
    };
    if !committed {
        return Ok(false);
    }
    match climb(rt, hall, caller, banks, glance.xmin, glance.id) {
        Ok(topmost) => Ok(shows_top(&caller.session.levels, name, topmost)),
        Err(refusal) => Err(refusal),
    }
}

/// What the session's snapshot of this name shows of an id: nothing is read of one that it hides by itself
/// (`HeapTupleSatisfiesMVCC` of `src/backend/access/heap/heapam_visibility.c` asks the snapshot first).
pub(crate) fn show<R: Passing, L: LogDisk, P: PageDisk>(
    rt: &R,
    hall: &Hall<EngineLaw<L, P>>,
    caller: &mut Caller<L, P>,
    banks: u32,
    name: &Name,
    glance: Glance,
) -> Result<bool, Refusal>
    requires own { IsOf hall.now caller.old.pass }
    requires laid { hall.now.cells ≡ 3 + 4 * (start_of hall.now).banks }
    requires banks { (banks ≡ (start_of hall.now).banks) × (1 ≤ banks) × (banks ≤ 16) }
    requires ready { IsReady (start_of hall.now) (view caller.old.pass) caller.old.number caller.old.session }
    requires glanced { (x : ℕ) × HasGlanced caller.old.session.levels name.now x (Some glance) }
    ensures own { IsOf hall.now caller.new.pass }
    ensures ready { IsReady (start_of hall.now) (view caller.new.pass) caller.new.number caller.new.session }
    ensures went { WentOn caller.old.number [] (view caller.old.pass).seen (view caller.new.pass).seen }
    ensures apart { KeepsApart (FoundCut (start_of hall.now) (by_at caller.old.number caller.old.session.levels.commands)
        (view caller.old.pass).seen (view caller.new.pass).seen glance.id)
        caller.old.number (view caller.old.pass).seen (view caller.new.pass).seen result }
    ensures adds { Adds (by_at caller.old.number caller.old.session.levels.commands) (MayFault result)
        (view caller.old.pass).seen (view caller.new.pass).seen }
    ensures shown { IsTrue P.tells → IfOk result (λ shown. IsShown (start_of hall.now) (view caller.new.pass).seen
        caller.old.session.levels name.now glance.id shown) }
    ensures unread { IfErr result (λ refusal. IsUnread (start_of hall.now) (view caller.new.pass).seen
        (by_at caller.old.number caller.old.session.levels.commands) glance.id refusal) }
    ensures same { (caller.new.session ≡ caller.old.session) × (caller.new.number ≡ caller.old.number) }
{
    match glance.sight {
        Sight::Hidden => Ok(false),
        Sight::Seen => match is_committed(rt, hall, caller, banks, glance.id) {
            Ok(committed) => Ok(committed),
            Err(refusal) => Err(refusal),
        },
        Sight::AskParents => match ask_parents(rt, hall, caller, banks, name, glance) {
            Ok(shown) => Ok(shown),
            Err(refusal) => Err(refusal),
        },
    }
}
