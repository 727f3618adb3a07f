//! The steps of a checkpoint, one after the other.
ghost use Rattle.std.specs.Prelude.{◌≡◌, Some};
ghost use Rattle.hall.specs.Calls.{start_of, view};
ghost use Rattle.tx_events.specs.declared.refusal.Lock.{Lock};
ghost use Rattle.tx_events.specs.declared.refusal.Refusal.TheVariants.{Full};
ghost use Rattle.tx_events.specs.Base.{IsBase};
ghost use Rattle.tx_model.specs.declared.reply.Reply.TheVariants as replies;
ghost use Rattle.tx_core.specs.EngineInvariant.{EngineInvariant};
ghost use Rattle.tx_core.specs.ProgramOrder.{IsHostsTurn};
ghost use Rattle.engine_parts.specs.Alone.{IsAlone};
ghost use Rattle.session_promise.specs.Causes.{failed_volume};
ghost use Rattle.host_calls.specs.Moments.{KeptThroughout};
ghost use Rattle.host_calls.specs.Made.{HasFailed, IsFullCheckpoint, IsOfUpLog, IsTried, IsUntouched, IsWholeCheckpoint, Went};
ghost use Rattle.host_calls.specs.Synced.{AreAllMade, IsNoneWaiting};

use crate::syncs::sync_all;
use crate::writing::write_checkpoint;
use disk_core::{LogDisk, PageDisk};
use engine_host::Cluster;
use engine_parts::EngineLaw;
use hall::{Hall, Pass};
use host_sections::flush_records;
use log_sections::refusal_of;
use std::alloc::Global;
use std::sync::Wait;
use tx_events::{By, Refusal};
use tx_model::Reply;

/// Makes a checkpoint while no session is in the midst of a commit or of a multixact: the log is flushed, all banks are synced, and the
/// checkpoint is written.
pub(crate) fn make_checkpoint<R: Wait, L: LogDisk, P: PageDisk>(
    rt: &R,
    alloc: Global,
    hall: &Hall<EngineLaw<L, P>>,
    pass: &mut Pass<EngineLaw<L, P>>,
    by: By,
    cluster: Cluster,
) -> Reply
    requires alone { IsAlone hall.now pass.old }
    requires turn { IsHostsTurn (start_of hall.now) by }
    requires lawful { IsBase (start_of hall.now).base }
    requires banks { cluster.banks ≡ (start_of hall.now).banks }
    requires none { IsNoneWaiting (start_of hall.now) (view pass.old).seen }
    requires made { AreAllMade (start_of hall.now) (view pass.old).seen }
    ensures alone { IsAlone hall.now pass.new }
    ensures holds { (view pass.new).holds ≡ (view pass.old).holds }
    ensures kept { EngineInvariant (start_of hall.now) (view pass.new).seen }
    ensures was_kept { EngineInvariant (start_of hall.now) (view pass.old).seen }
    ensures stages { KeptThroughout L.LogDisk P.PageDisk (start_of hall.now) (view pass.old).seen (view pass.new).seen }
    ensures tried { IsTried result }
    ensures went { Went (start_of hall.now) (view pass.old).seen (view pass.new).seen result }
    ensures whole { result ≡ replies.Done
        → IsWholeCheckpoint (start_of hall.now) (view pass.old).seen (view pass.new).seen }
    ensures fault { (lock : Lock) → failed_volume result ≡ Some lock
        → HasFailed (start_of hall.now) (view pass.old).seen (view pass.new).seen lock }
    ensures up { IsOfUpLog (view pass.old).seen result }
    ensures untouched { IsUntouched (view pass.old).seen (view pass.new).seen result }
    ensures full { result ≡ replies.Refused Full
        → IsFullCheckpoint (start_of hall.now) (view pass.old).seen (view pass.new).seen }
{
    match flush_records(rt, hall, pass, by) {
        Ok(()) => match sync_all(rt, hall, pass, by, cluster.banks) {
            Ok(()) => match write_checkpoint(rt, alloc, hall, pass, by) {
                Ok(()) => Reply::Done,
                Err(refusal) => Reply::Refused {
                    refusal: refusal_of(refusal),
                },
            },
            Err(lock) => Reply::Refused {
                refusal: Refusal::DiskFault { lock },
            },
        },
        Err(refusal) => Reply::Refused {
            refusal: refusal_of(refusal),
        },
    }
}
