//! Whether a session's snapshot sees an id.
ghost use Rattle.std.specs.Prelude.{◌≡◌, ◌+◌, ◌*◌, ◌≤◌, [], None};
ghost use Rattle.hall.specs.Calls.{view, IsOf, start_of};
ghost use Rattle.tx_model.specs.declared.command.Command.TheVariants as commands;
ghost use Rattle.tx_model.specs.declared.reply.Reply.TheVariants as replies;
ghost use Rattle.tx_model.specs.Replies.{alone};
ghost use Rattle.tx_core.specs.Entries.{history};
ghost use Rattle.engine_parts.specs.Adding.{Adds, MayFault};
ghost use Rattle.engine_parts.specs.Answers.{MayAnswer, reply_of};
ghost use Rattle.engine_parts.specs.Calls.{MayRun, Ran, next_command};
ghost use Rattle.engine_parts.specs.Sessions.{IsReady, by_at, stance_of};
ghost use Rattle.life_law.specs.Refused.{by_standing};
ghost use Rattle.engine_parts.specs.Steps.{WentOn};
ghost use Rattle.xact_reads.specs.Apart.{FoundMeantCut, KeepsApart};
ghost use Rattle.xact_reads.specs.Glances.{HasGlanced};

use crate::glances::{Glance, glance_at};
use crate::shows::show;
use disk_core::{LogDisk, PageDisk};
use engine_parts::{Caller, EngineLaw, Passing, count, read_oldest_word};
use hall::Hall;
use session_levels::registered_as;
use tx_events::{Name, Refusal, Xid};

/// What the session's snapshot of this name shows of the stored id `_x`, for which it was looked there: `TooOld` where
/// the id is before the oldest one, or there is none. The published oldest id tells that, under no lock.
fn see_found<R: Passing, L: LogDisk, P: PageDisk>(
    rt: &R,
    hall: &Hall<EngineLaw<L, P>>,
    caller: &mut Caller<L, P>,
    banks: u32,
    name: &Name,
    _x: Xid,
    found: &Option<Glance>,
) -> Result<bool, Refusal>
    requires own { IsOf hall.now caller.old.pass }
    requires laid { hall.now.cells ≡ 3 + 4 * (start_of hall.now).banks }
    requires banks { (banks ≡ (start_of hall.now).banks) × (1 ≤ banks) × (banks ≤ 16) }
    requires ready { IsReady (start_of hall.now) (view caller.old.pass) caller.old.number caller.old.session }
    requires normal { 3 ≤ _x.number }
    requires glanced { HasGlanced caller.old.session.levels name.now _x.number found.now }
    ensures own { IsOf hall.now caller.new.pass }
    ensures ready { IsReady (start_of hall.now) (view caller.new.pass) caller.new.number caller.new.session }
    ensures went { WentOn caller.old.number [] (view caller.old.pass).seen (view caller.new.pass).seen }
    ensures apart { KeepsApart (FoundMeantCut (start_of hall.now) (by_at caller.old.number caller.old.session.levels.commands)
        (view caller.old.pass).seen (view caller.new.pass).seen caller.old.session.levels name.now _x.number)
        caller.old.number (view caller.old.pass).seen (view caller.new.pass).seen result }
    ensures adds { Adds (by_at caller.old.number caller.old.session.levels.commands) (MayFault result)
        (view caller.old.pass).seen (view caller.new.pass).seen }
    ensures allowed { MayAnswer P.tells (start_of hall.now) (view caller.new.pass).seen
        (alone (history (view caller.old.pass).seen) (history (view caller.new.pass).seen))
        (by_at caller.old.number caller.old.session.levels.commands) (stance_of caller.old.session)
        caller.old.session.stage (commands.See name.now _x) (reply_of replies.Seen result) }
    ensures standing { by_standing (reply_of replies.Seen result) ≡ None }
    ensures same { (caller.new.session ≡ caller.old.session) × (caller.new.number ≡ caller.old.number) }
{
    let published = read_oldest_word(hall, caller);
    match found {
        None => Err(Refusal::TooOld { oldest: published }),
        Some(glance) => {
            if glance.id < published {
                return Err(Refusal::TooOld { oldest: published });
            }
            match show(rt, hall, caller, banks, name, *glance) {
                Ok(shown) => Ok(shown),
                Err(refusal) => Err(refusal),
            }
        }
    }
}

/// Whether the session's snapshot of this name sees the stored id `x` (`XidInMVCCSnapshot` of
/// `src/backend/utils/time/snapmgr.c`, with `TransactionIdDidCommit` of `src/backend/access/transam/transam.c`). A
/// special id has its fixed answer; each other one means the full id nearest to the snapshot's xmax. `banks` is the
/// number of banks of each store, 1 to 16.
///
/// Refused, in this order, with `NoSnapshot` where the session has none of this name, with `TooOld` where the id is
/// before the published oldest id, or there is none, and with `DiskFault` of a bank of pg_xact or pg_subtrans. Takes no
/// memory. Enters the ProcArray only where the page with the id's state is cut. The session has run fewer than 2^48
/// commands.
pub fn see<R: Passing, L: LogDisk, P: PageDisk>(
    rt: &R,
    hall: &Hall<EngineLaw<L, P>>,
    caller: &mut Caller<L, P>,
    banks: u32,
    name: &Name,
    x: Xid,
) -> Result<bool, Refusal>
    requires { MayRun hall.now banks caller.old }
    ensures ran { Ran hall.now (next_command caller.old) (commands.See name.now x) (reply_of replies.Seen result)
        caller.old caller.new }
    ensures apart { KeepsApart (FoundMeantCut (start_of hall.now) (by_at caller.old.number (next_command caller.old))
        (view caller.old.pass).seen (view caller.new.pass).seen caller.old.session.levels name.now x.number)
        caller.old.number (view caller.old.pass).seen (view caller.new.pass).seen result }
{
    count(caller);
    let found = match registered_as(&caller.session.levels, name) {
        None => return Err(Refusal::NoSnapshot),
        Some(registered) => {
            if x.number < 3 {
                return Ok(x.number != 0);
            }
            glance_at(&registered.snapshot, x)
        }
    };
    match see_found(rt, hall, caller, banks, name, x, &found) {
        Ok(seen) => Ok(seen),
        Err(refusal) => Err(refusal),
    }
}
