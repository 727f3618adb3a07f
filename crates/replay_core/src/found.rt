//! The log of a media is opened.
ghost use Rattle.std.specs.Prelude.{IfErr, IfOk, IsTrue};
ghost use Rattle.disk_core.specs.Images.{LeavesOnly};
ghost use Rattle.wal_core.specs.Log.{EndsWithin, OpensAsBefore};
ghost use Rattle.replay_core.specs.Moments.{disk_found};
ghost use Rattle.replay_core.specs.Opened.{IsFoundLog, OpensStill};
ghost use Rattle.replay_core.specs.Refused.{IsOpenRefusal};

use crate::refusal::{RecoverRefusal, refusal_of};
use disk_core::LogDisk;
use std::alloc::Global;
use tx_events::{Counters, RecList};
use wal_core::{Started, WalLog};

/// A log, the records that its volume has, and the counters behind them.
#[derive(Drop)]
pub struct Found<D: LogDisk> {
    pub log: WalLog<D>,
    pub recs: RecList,
    pub base: Counters,
}

/// What a log's volume has.
#[derive(Drop)]
pub enum FoundLog<D: LogDisk> {
    /// No record: a new cluster is to be begun on it.
    New(WalLog<D>),
    /// Records: the cluster is to be recovered.
    Old(Found<D>),
}

/// Opens the log of a volume (`WalLog::start`), and tells whether it has records. An error hands the volume back.
pub fn find_log<D: LogDisk + Drop>(
    alloc: Global,
    disk: D,
) -> Result<FoundLog<D>, (D, RecoverRefusal)>
    ensures found { IfOk result (IsFoundLog disk) }
    // Whatever is answered, at every moment a crash leaves what opens as an image of before.
    ensures moments { IsTrue D.tells → EndsWithin (D.reads disk) → IfOk result (λ f. LeavesOnly D.moment D.left_at disk (disk_found f) (OpensAsBefore (D.images disk))) }
    ensures moments_err { IsTrue D.tells → EndsWithin (D.reads disk) → IfErr result (λ e. LeavesOnly D.moment D.left_at disk e.0 (OpensAsBefore (D.images disk))) }
    ensures still_err { IsTrue D.tells → EndsWithin (D.reads disk) → IfErr result (λ e. OpensStill D.LogDisk disk e.0) }
    ensures refused { IfErr result (λ e. IsOpenRefusal D.LogDisk disk e.0 e.1) }
{
    match WalLog::start(alloc, disk) {
        Ok(started) => {
            let Started {
                log,
                recs,
                first: _,
            } = started;
            if log.is_new() {
                return Ok(FoundLog::New(log));
            }
            let base = log.counters();
            Ok(FoundLog::Old(Found { log, recs, base }))
        }
        Err((disk, refusal)) => Err((disk, refusal_of(refusal))),
    }
}
