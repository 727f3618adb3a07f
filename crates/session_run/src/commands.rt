//! The commands of a session over the lock table.
ghost use Rattle.std.specs.Prelude.{◌≡◌, Bool, IsTrue};
ghost use Rattle.tx_model.specs.declared.reply.Reply.TheVariants as replies;
ghost use Rattle.hall.specs.Calls.{start_of};
ghost use Rattle.engine_parts.specs.Calls.{MayRun, Ran, next_command};
ghost use Rattle.engine_parts.specs.Answers.{reply_of};
ghost use Rattle.run_law.specs.Turns.{MayAsk};
ghost use Rattle.life_law.specs.Replies.{is_told_verdict};
ghost use Rattle.xact_writes.specs.Writes.{reply_to};
ghost use Rattle.multi_makes.specs.Makes.{given_reply};
ghost use Rattle.session_run.specs.Turns.{AreToldBy, IsMade, IsRaised, IsTrimmed};

use disk_core::{LogDisk, PageDisk};
use engine_parts::{Caller, EngineLaw, Passing};
use hall::Hall;
use host_calls::{done, judged, known, seen, snapped, told};
use multi_makes::multi;
use multi_store::MultiGiven;
use std::alloc::Global;
use tx_model::{Command, GivenIds, Refusal, Reply};
use xact_ends::{abort, commit, undo};
use xact_engine::{begin, drop_snap, release, save, snap};
use xact_freezes::{freeze, multi_freeze, trim};
use xact_reads::{did, horizon, see, see_multi, status};
use xact_writes::{Wrote, write};

// The reply of a write.
fn wrote(answer: Result<Wrote, Refusal>) -> Reply
    ensures { result ≡ reply_of reply_to answer }
{
    match answer {
        Ok(Wrote { ids, warn }) => Reply::Wrote {
            warn,
            ids: GivenIds::of(ids),
        },
        Err(refusal) => Reply::Refused { refusal },
    }
}

// That of a new multixact.
fn given(answer: Result<MultiGiven, Refusal>) -> Reply
    ensures { result ≡ reply_of given_reply answer }
{
    match answer {
        Ok(given) => Reply::Multi {
            multi: given.multi,
            offset: given.offset,
            warn: given.warn,
        },
        Err(refusal) => Reply::Refused { refusal },
    }
}

/// Runs the session's next command, and answers its reply. `banks` is the number of banks of each store, 1 to 16. The
/// session has run fewer than 2^48 commands. Want of memory that the command met is its reply too.
pub fn run_command<R: Passing, L: LogDisk, P: PageDisk>(
    rt: &R,
    hall: &Hall<EngineLaw<L, P>>,
    caller: &mut Caller<L, P>,
    banks: u32,
    alloc: Global,
    command: &Command,
) -> Reply
    requires ask { MayAsk command.now }
    requires may { MayRun hall.now banks caller.old }
    requires told { AreToldBy P.tells (start_of hall.now) }
    ensures ran { Ran hall.now (next_command caller.old) command.now result caller.old caller.new }
    ensures verdict { (verdict : Bool) → result ≡ replies.Seen verdict → IsTrue (is_told_verdict command.now) }
    ensures made { IsMade hall.now caller.old caller.new command.now result }
    ensures trimmed { IsTrimmed hall.now caller.old caller.new command.now result }
    ensures raised { IsRaised hall.now caller.old caller.new command.now result }
{
    match command {
        Command::Begin => done(begin(hall, caller)),
        Command::Save => done(save(hall, caller)),
        Command::Write => wrote(write(rt, hall, caller, banks, alloc)),
        Command::Release => done(release(hall, caller)),
        Command::Undo => done(undo(rt, hall, caller, banks)),
        Command::Commit => done(commit(rt, hall, caller, banks, alloc)),
        Command::Abort => done(abort(rt, hall, caller, banks, alloc)),
        Command::Horizon => Reply::Horizon {
            oldest_xmin: horizon(rt, hall, caller),
        },
        Command::Snap { name } => snapped(snap(rt, hall, caller, name)),
        Command::DropSnap { name } => done(drop_snap(rt, hall, caller, name)),
        Command::See { name, x } => seen(see(rt, hall, caller, banks, name, *x)),
        Command::Status { x } => known(status(rt, hall, caller, banks, *x)),
        Command::Did { x } => told(did(rt, hall, caller, banks, *x)),
        Command::Freeze { oldest } => done(freeze(rt, hall, caller, *oldest)),
        Command::Trim => done(trim(rt, hall, caller, banks)),
        Command::Multi { members } => given(multi(rt, hall, caller, banks, members, alloc)),
        Command::SeeMulti { name, multi } => {
            judged(see_multi(rt, hall, caller, banks, name, *multi, alloc))
        }
        Command::MultiFreeze { multi } => done(multi_freeze(rt, hall, caller, banks, *multi)),
    }
}
