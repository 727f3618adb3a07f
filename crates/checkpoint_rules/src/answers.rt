//! What a checkpoint may be answered.
ghost use Rattle.std.specs.Prelude.{◌≡◌, ◌↔◌, ◌<◌, [], IsTrue, List, drop};
ghost use Rattle.std.specs.List.{count_by, flat_map};
ghost use Rattle.tx_model.specs.declared.reply.Reply.TheVariants as replies;
ghost use Rattle.tx_model.specs.declared.report.Line.{Line};
ghost use Rattle.tx_model.specs.declared.report.Step.{Step};
ghost use Rattle.tx_model.specs.Rounds.{lines_in};
ghost use Rattle.report_law.specs.Answers.{AreLogFaults, is_page_lock};
ghost use Rattle.report_law.specs.Checkpoints.{MayCheckpoint, counters_behind, is_checkpoint_of, ok_checkpoints};
ghost use Rattle.report_law.specs.Standing.{unfinished};
ghost use Rattle.report_law.specs.Steps.{AreJudged, Judged, lines_of};
ghost use Rattle.standing_rules.specs.Told.{told_of};
ghost use Rattle.checkpoint_rules.specs.Asked.{AreCountersOf, IsAsked, IsNamed};
ghost use Rattle.checkpoint_rules.specs.Behind.{AreCheckpoints, Walked};

use crate::counted::Checkpoints;
use crate::pending::{Asked, both, is_commit_pending, is_multi_pending, is_none_pending};
use record_rules::how_often;
use standing_rules::Unfinished;
use tx_events::{Counters, Lock, Refusal};
use tx_model::Reply;

fn is_fewer(few: u64, many: u64) -> bool
    ensures { IsTrue result ↔ (few < many) }
{
    many > few
}

/// Whether behind the first record there are more with these counters than checkpoints so far were `ok` with them.
fn has_own_record(checkpoints: &Checkpoints, counters: Option<Counters>) -> bool
    ensures { (j : Judged) (before : List Step) → (AreJudged j (flat_map lines_in before) [] → AreCheckpoints j before checkpoints.now) → AreCountersOf j (flat_map lines_in before) counters → IsTrue result ↔ (AreJudged j (flat_map lines_in before) [] → ok_checkpoints j (counters_behind j (flat_map lines_in before)) [] before < count_by (is_checkpoint_of (counters_behind j (flat_map lines_in before))) (drop 1 j.life.recs)) }
{
    match counters {
        Some(counters) => {
            let done = how_often(&checkpoints.done, &counters);
            let recorded = how_often(&checkpoints.recorded, &counters);
            is_fewer(done, recorded)
        }
        None => true,
    }
}

fn is_page_lock(lock: Lock) -> bool
    ensures { result ≡ is_page_lock lock }
{
    match lock {
        Lock::Log => false,
        Lock::Proc => true,
        Lock::Multi => true,
        Lock::Xact(_bank) => true,
        Lock::Subtrans(_bank) => true,
        Lock::Offsets(_bank) => true,
        Lock::Members(_bank) => true,
    }
}

fn is_down_at(asked: &Asked, at: u64) -> bool
    ensures { (j : Judged) (lines : List Line) → IsAsked j lines asked.now → IsTrue result ↔ ((at ≡ j.life.flushed) × AreLogFaults (lines_of j) j.steps) }
{
    at == asked.end.flushed && asked.end.failed
}

fn may_refuse(asked: &Asked, refusal: &Refusal) -> bool
    ensures { (j : Judged) (before : List Step) → IsAsked j (flat_map lines_in before) asked.now → IsTrue result ↔ MayCheckpoint j before (replies.Refused refusal.now) }
{
    let none_pending = is_none_pending(asked);
    match refusal {
        Refusal::LogDown { at } => both(none_pending, is_down_at(asked, *at)),
        Refusal::LogFault => none_pending,
        Refusal::DiskFault { lock } => both(none_pending, is_page_lock(*lock)),
        Refusal::Full => both(none_pending, asked.end.room.lacks(57)),
        Refusal::Memory => true,
        _ => false,
    }
}

fn may_be_pending(asked: &Asked, session: u32, named: Unfinished, refusal: &Refusal) -> bool
    ensures { (j : Judged) (before : List Step) → IsAsked j (flat_map lines_in before) asked.now → told_of named ≡ unfinished j.life.multis (flat_map lines_in before) session → IsTrue result ↔ MayCheckpoint j before (replies.Pending session refusal.now) }
{
    match refusal {
        Refusal::CommitPending => is_commit_pending(asked, session),
        Refusal::MultiPending => is_multi_pending(asked, session, named),
        _ => false,
    }
}

/// Whether a checkpoint may be answered so behind these steps. The counters are those behind them, exactly where both
/// histories are judged up to there; and this is unfinished of the session that the reply names.
pub fn may_checkpoint(
    checkpoints: &Checkpoints,
    counters: Option<Counters>,
    asked: &Asked,
    named: Unfinished,
    reply: &Reply,
) -> bool
    ghost at: { Walked }
    requires kept { AreJudged at.j (flat_map lines_in at.before) [] → AreCheckpoints at.j at.before checkpoints.now }
    requires counters { AreCountersOf at.j (flat_map lines_in at.before) counters }
    requires asked { IsAsked at.j (flat_map lines_in at.before) asked.now }
    requires named { IsNamed at.j (flat_map lines_in at.before) reply.now named }
    ensures { IsTrue result ↔ MayCheckpoint at.j at.before reply.now }
{
    match reply {
        Reply::Pending { session, refusal } => may_be_pending(asked, *session, named, refusal),
        Reply::Done => {
            let none_pending = is_none_pending(asked);
            let own = has_own_record(checkpoints, counters);
            both(none_pending, own)
        }
        Reply::Refused { refusal } => may_refuse(asked, refusal),
        _ => false,
    }
}
