//! The checkpoints of a life, counted by their counters.
ghost use Rattle.std.specs.Prelude.{◌≡◌, ◌+◌, ◌<◌, ◌^◌, ◌∷◌, ◌++◌, [], IfOk, List, OnOk, drop, false, length, unwrap_or};
ghost use Rattle.std.specs.BTreeMap.{get};
ghost use Rattle.std.specs.List.{count_by, flat_map};
ghost use Rattle.tx_events.specs.declared.record.Rec.{Rec};
ghost use Rattle.tx_model.specs.declared.reply.Reply.{Reply};
ghost use Rattle.tx_model.specs.declared.report.Step.{Step};
ghost use Rattle.tx_model.specs.declared.report.Step.TheVariants as steps;
ghost use Rattle.tx_model.specs.Rounds.{lines_in};
ghost use Rattle.report_law.specs.Checkpoints.{counters_behind, is_checkpoint_of, ok_checkpoints};
ghost use Rattle.report_law.specs.Steps.{Judged};
ghost use Rattle.record_rules.specs.AskedFor.{asked_checkpoints, is_checkpoint};
ghost use Rattle.record_rules.specs.declared.counts.CountersKey.{CountersKey};
ghost use Rattle.record_rules.specs.Counts.{AreCounted, key_cmp};
ghost use Rattle.checkpoint_rules.specs.Behind.{AreCheckpoints, Walked};

use record_rules::{CounterCounts, count_one};
use std::alloc::Global;
use std::collections::BTreeMap;
use tx_events::{Counters, Memory, Rec};
use tx_model::{Life, Reply};

/// Checkpoints by their counters: how many records of them there are behind the life's first record, how many were asked
/// for so far, and how many of these were answered `ok`.
#[derive(Drop)]
pub struct Checkpoints {
    pub recorded: CounterCounts,
    pub asked: CounterCounts,
    pub done: CounterCounts,
}

fn count_record(counts: &mut CounterCounts, rec: &Rec) -> Result<(), Memory>
    requires { (k : CountersKey) → unwrap_or (get key_cmp counts.old k) 0 + 1 < 2 ^ 64 }
    ensures { OnOk result ((recs : List Rec) → AreCounted (λ k. count_by (is_checkpoint_of k) recs) counts.old → AreCounted (λ k. count_by (is_checkpoint_of k) (recs ++ rec.now ∷ [])) counts.new) }
{
    match rec {
        Rec::Commit { .. } => Ok(()),
        Rec::Abort { .. } => Ok(()),
        Rec::Multi { .. } => Ok(()),
        Rec::Checkpoint { counters, .. } => count_one(counts, counters.get()),
        Rec::Truncate { .. } => Ok(()),
    }
}

fn counted_records(alloc: Global, recs: &[Rec]) -> Result<CounterCounts, Memory>
    ensures { IfOk result (λ counts. AreCounted (λ k. count_by (is_checkpoint_of k) recs.now) counts) }
{
    let mut counts = BTreeMap::new(alloc);
    for rec in recs {
        count_record(&mut counts, rec)?;
    }
    Ok(counts)
}

/// The records behind the first one.
fn behind_first(recs: &[Rec]) -> &[Rec]
    ensures { result.now ≡ drop 1 recs.now }
{
    match recs.split_first() {
        Some((_first, rest)) => rest,
        None => recs,
    }
}

/// The checkpoints of a life at its start.
pub fn checkpoints_of(alloc: Global, life: &Life) -> Result<Checkpoints, Memory>
    ensures { IfOk result (λ c. (j : Judged) → j.life ≡ life.now → AreCheckpoints j [] c) }
{
    let recorded = counted_records(alloc, behind_first(life.recs.items()))?;
    Ok(Checkpoints {
        recorded,
        asked: BTreeMap::new(alloc),
        done: BTreeMap::new(alloc),
    })
}

fn note_asked(asked: &mut CounterCounts, counters: &Counters) -> Result<(), Memory>
    ghost at: { Walked }
    requires counted { AreCounted (λ k. asked_checkpoints at.j k [] at.before) asked.old }
    requires counters { counters.now ≡ counters_behind at.j (flat_map lines_in at.before) }
    requires small { length at.before < 2 ^ 63 }
    ensures { OnOk result ((reply : Reply) → AreCounted (λ k. asked_checkpoints at.j k [] (at.before ++ steps.Checkpoint reply ∷ [])) asked.new) }
{
    count_one(asked, counters)
}

fn note_done(done: &mut CounterCounts, counters: &Counters, reply: &Reply) -> Result<(), Memory>
    ghost at: { Walked }
    requires counted { AreCounted (λ k. ok_checkpoints at.j k [] at.before) done.old }
    requires counters { counters.now ≡ counters_behind at.j (flat_map lines_in at.before) }
    requires small { length at.before < 2 ^ 63 }
    ensures { OnOk result (AreCounted (λ k. ok_checkpoints at.j k [] (at.before ++ steps.Checkpoint reply.now ∷ [])) done.new) }
{
    match reply {
        Reply::Done => count_one(done, counters),
        _ => Ok(()),
    }
}

/// Notes a checkpoint that was answered so, with these counters behind the steps before it.
pub fn note_checkpoint(
    checkpoints: &mut Checkpoints,
    counters: &Counters,
    reply: &Reply,
) -> Result<(), Memory>
    ghost at: { Walked }
    requires kept { AreCheckpoints at.j at.before checkpoints.old }
    requires counters { counters.now ≡ counters_behind at.j (flat_map lines_in at.before) }
    requires small { length at.before < 2 ^ 63 }
    ensures { OnOk result (AreCheckpoints at.j (at.before ++ steps.Checkpoint reply.now ∷ []) checkpoints.new) }
{
    note_asked(&mut checkpoints.asked, counters)?;
    note_done(&mut checkpoints.done, counters, reply)
}

/// A step that is no checkpoint leaves them as they are.
pub fn other_steps_are_none()
    ensures { (j : Judged) (before : List Step) (s : Step) (c : Checkpoints) → is_checkpoint s ≡ false → AreCheckpoints j before c → AreCheckpoints j (before ++ s ∷ []) c }
{}
