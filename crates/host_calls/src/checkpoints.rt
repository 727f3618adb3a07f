//! A checkpoint between two rounds.
ghost use Rattle.std.specs.Prelude.{◌≡◌, ℕ, Some, length, slice_get};
ghost use Rattle.hall.specs.Calls.{start_of, view};
ghost use Rattle.tx_events.specs.declared.refusal.Lock.{Lock};
ghost use Rattle.tx_events.specs.declared.refusal.Refusal.TheVariants.{Full};
ghost use Rattle.tx_model.specs.declared.reply.Reply.TheVariants as replies;
ghost use Rattle.recoverable.specs.Whole.{BeganRight, IsShort};
ghost use Rattle.engine_parts.specs.declared.session.Session.{Session};
ghost use Rattle.engine_host.specs.Homes.{IsHome};
ghost use Rattle.engine_host.specs.Hosts.{IsParked};
ghost use Rattle.session_promise.specs.Causes.{failed_volume};
ghost use Rattle.session_promise.specs.Checkpoints.{WentCheckpoint};
ghost use Rattle.host_calls.specs.Moments.{FitThroughout};
ghost use Rattle.host_calls.specs.Made.{HasFailed, IsFullCheckpoint, IsOfUpLog, IsUntouched, IsWholeCheckpoint};

use crate::committing::{first_committing, first_making};
use crate::making::make_checkpoint;
use disk_core::{LogDisk, PageDisk};
use engine_host::Host;
use engine_parts::{EngineLaw, Session};
use hall::Hall;
use std::alloc::Global;
use std::sync::Wait;
use tx_events::{By, Refusal};
use tx_model::Reply;

/// Makes a checkpoint while all sessions are parked (`CreateCheckPoint` of `src/backend/access/transam/xlog.c`), and answers
/// it: the log is flushed, all banks are synced, the checkpoint is appended and flushed, and the log is forgotten before
/// it. Where a session is in the midst of a commit, which a server would wait for (`DELAY_CHKPT_START` of `xact.c`), nothing
/// is done and the least such session is named; else, where one is at a multixact that has a number and may have no record
/// yet, the least of these. Refused with `DiskFault` where a bank's volume failed, with `LogFault` where
/// the log's did, after which the log is down, with `LogDown` where it was, or with `Full` or `Memory`.
pub fn checkpoint<R: Wait, L: LogDisk, P: PageDisk>(
    rt: &R,
    alloc: Global,
    hall: &Hall<EngineLaw<L, P>>,
    host: &mut Host<L, P>,
    sessions: &[Session],
) -> Reply
    requires home { IsHome hall.now host.old }
    requires parked { (n : ℕ) (s : Session) → slice_get sessions.now n ≡ Some s → IsParked hall.now host.old n s }
    requires count { length sessions.now ≡ host.old.cluster.sessions }
    ensures home { IsHome hall.now host.new }
    ensures cluster { host.new.cluster ≡ host.old.cluster }
    ensures parked { (n : ℕ) (s : Session) → IsParked hall.now host.old n s → IsParked hall.now host.new n s }
    ensures went { WentCheckpoint (start_of hall.now) sessions.now (view host.old.pass).seen (view host.new.pass).seen
        result }
    ensures whole { result ≡ replies.Done
        → IsWholeCheckpoint (start_of hall.now) (view host.old.pass).seen (view host.new.pass).seen }
    ensures fault { (lock : Lock) → failed_volume result ≡ Some lock
        → HasFailed (start_of hall.now) (view host.old.pass).seen (view host.new.pass).seen lock }
    ensures up { IsOfUpLog (view host.old.pass).seen result }
    // Whatever is answered, in a short life that began with a base from which one may start: before and behind each section
    // what follows the lists fits, and so do the volumes of whatever stands for them; and at every moment of a section's
    // volume they do, whatever a crash leaves of the others. So a recovery may begin from any of it.
    ensures fit { BeganRight (start_of hall.now) → IsShort (view host.old.pass).seen
        → FitThroughout L.LogDisk P.PageDisk (start_of hall.now) (view host.old.pass).seen (view host.new.pass).seen }
    ensures untouched { IsUntouched (view host.old.pass).seen (view host.new.pass).seen result }
    ensures full { result ≡ replies.Refused Full
        → IsFullCheckpoint (start_of hall.now) (view host.old.pass).seen (view host.new.pass).seen }
{
    match first_committing(sessions) {
        Some(session) => Reply::Pending {
            session,
            refusal: Refusal::CommitPending,
        },
        None => match first_making(sessions) {
            Some(session) => Reply::Pending {
                session,
                refusal: Refusal::MultiPending,
            },
            None => {
                let by = By {
                    session: host.cluster.sessions,
                    command: 0,
                };
                let cluster = host.cluster;
                make_checkpoint(rt, alloc, hall, &mut host.pass, by, cluster)
            }
        },
    }
}
