//! The stores are truncated.
ghost use Rattle.std.specs.Prelude.{◌≡◌, IfErr, IfOk};
ghost use Rattle.hall.specs.Calls.{view, start_of};
ghost use Rattle.tx_model.specs.declared.command.Command.TheVariants as commands;
ghost use Rattle.tx_model.specs.declared.reply.Reply.TheVariants as replies;
ghost use Rattle.engine_parts.specs.Adding.{IsTruncation};
ghost use Rattle.engine_parts.specs.Answers.{reply_of};
ghost use Rattle.engine_parts.specs.Calls.{MayRun, Ran, next_command};
ghost use Rattle.engine_parts.specs.Sessions.{by_at};
ghost use Rattle.log_sections.specs.Rooms.{MetFull};
ghost use Rattle.xact_freezes.specs.Trims.{HasTrimmed};

use crate::cutting::cut_all;
use crate::logging::log_trim;
use disk_core::{LogDisk, PageDisk};
use engine_parts::{Caller, EngineLaw, Passing, count};
use hall::Hall;
use multi_sections::read_multis;
use proc_sections::{read_base, read_horizons};
use tx_events::{Rec, Refusal};

/// Truncates the four stores (`vac_truncate_clog` of `src/backend/commands/vacuum.c`, `TruncateMultiXact` of
/// `src/backend/access/transam/multixact.c`, `TruncateSUBTRANS` of `subtrans.c`): the announced oldest id, and the
/// announced oldest multixact with its offset, are read, a record of them comes to the log and onto the disk, and then
/// each bank of pg_xact, of offsets and of members lets go of the whole segments before them, and each of pg_subtrans
/// of those before the oldest xmin; of ids no further than half a ring past the segment of the oldest one with which the
/// life began. `banks` is the number of banks of each store.
///
/// Refused with `LogDown`, `LogFault`, `Full` or `Memory`, and then nothing was let go; or with `DiskFault` of a bank,
/// and then the banks before it were cut. The session has run fewer than 2^48 commands.
pub fn trim<R: Passing, L: LogDisk, P: PageDisk>(
    rt: &R,
    hall: &Hall<EngineLaw<L, P>>,
    caller: &mut Caller<L, P>,
    banks: u32,
) -> Result<(), Refusal>
    requires may { MayRun hall.now banks caller.old }
    ensures ran { Ran hall.now (next_command caller.old) commands.Trim (reply_of (λ _. replies.Done) result)
        caller.old caller.new }
    ensures trimmed { IfOk result (λ _. HasTrimmed (start_of hall.now) (view caller.old.pass).seen
        (view caller.new.pass).seen (by_at caller.old.number (next_command caller.old))) }
    ensures full { IfErr result (MetFull (start_of hall.now) (view caller.new.pass).seen
        (by_at caller.old.number (next_command caller.old)) IsTruncation) }
{
    count(caller);
    let base = read_base(rt, hall, caller);
    let found = read_horizons(rt, hall, caller);
    let multis = read_multis(rt, hall, caller);
    let rec = Rec::Truncate {
        oldest: found.oldest,
        multi: multis.oldest_multi,
        offset: multis.oldest_offset,
    };
    match log_trim(rt, hall, caller, banks, &rec) {
        Ok(()) => cut_all(rt, hall, caller, banks, &base, &found, &multis),
        Err(refusal) => Err(refusal),
    }
}
