// Reads the batches of a log, from its start up to the first closed gate (as XLogReadRecord walks a log until what stands
// there is no record).
ghost use Rattle.std.specs.Prelude.{◌≡◌, ◌≢◌, ◌+◌, ◌<◌, ◌≤◌, ◌^◌, ◌∷◌, ℕ, length, drop, Ok, Err, Some, None, IsNone, IfSome, IfOk};
ghost use Rattle.wal_records.specs.Numbers.{le_number};
ghost use Rattle.wal_core.specs.Opening.{batch_at, opened_bytes, BeginsOpen};
ghost use Rattle.wal_core.specs.LastBatch.{last_in};
ghost use Rattle.wal_core.specs.Checkpoint.{IsLastCheckpoint, IsCheckpointIn};
ghost use Rattle.wal_core.specs.SoFar.{history_read, history_so_far, recs_so_far};
ghost use Rattle.wal_core.specs.declared.refusal.LogRefusal.TheVariants.{Damaged, LogFault, LogDown, Full};

use crate::batch_records::{SoFar, read_body};
use crate::checkpoint::{LastCheckpoint, checkpoint_of};
use crate::refusal::LogRefusal;
use byteorder::{ByteOrder, LittleEndian};
use std::alloc::Global;
use wal_records::Stop;

// What was found: the records, the place of the next gate, and the checkpoint that the last batch may be.
#[derive(Drop)]
pub struct Found {
    pub past: SoFar,
    pub gate: u64,
    pub checkpoint: Option<LastCheckpoint>,
}

// Takes a batch's length and body off the front.
#[tactic(auto, unfolding(crate::specs::Opening::batch_at, wal_records::specs::Numbers::le_number))]
fn batch_body<'a>(rest: &mut &'a [u8]) -> Option<&'a [u8]>
    ensures some { IfSome result (λ body. batch_at rest.old.now ≡ Some (body.now, rest.new.now)) }
    ensures none { IsNone result → batch_at rest.old.now ≡ None }
{
    if rest.len() < 4 {
        return None;
    }
    let (front, after) = rest.split_at(4);
    let count = LittleEndian::read_u32(front) as usize;
    if after.len() < count {
        return None;
    }
    let (body, left) = after.split_at(count);
    *rest = left;
    Some(body)
}

// What stands behind an open gate.
pub(crate) fn behind_open<'a>(bytes: &'a [u8]) -> Option<&'a [u8]>
    ensures some { IfSome result (λ after. bytes.now ≡ 1 ∷ after.now) }
    ensures none { IsNone result → BeginsOpen bytes.now → ⊥ }
{
    match bytes {
        [1, after @ ..] => Some(after),
        _ => None,
    }
}

fn count_so_far(past: &Option<SoFar>) -> usize
    ensures { result ≡ length (recs_so_far (history_so_far past.now)) }
{
    match past {
        Some(past) => past.recs.items().len(),
        None => 0,
    }
}

// The checkpoint that the batch at this gate may be. It has all records but the first so many.
fn checkpoint_behind(at: u64, past: &SoFar, count: usize) -> Option<LastCheckpoint>
    requires { count ≤ length past.now.recs }
    ensures { IsLastCheckpoint at (drop count past.now.recs) (Some past.now.counters) result }
{
    checkpoint_of(at, &past.recs.items()[count..], Some(past.counters))
}

// The bytes are those of a volume from its start on.
pub(crate) fn read_batches(alloc: Global, start: u64, bytes: &[u8]) -> Result<Found, LogRefusal>
    requires { start + length bytes.now < 2 ^ 64 }
    ensures found { IfOk result (λ f. opened_bytes start bytes.now ≡ Ok (record { history = Some (history_read f.past); gate = f.gate })) }
    ensures damaged { (at : ℕ) → result ≡ Err (Damaged at) → opened_bytes start bytes.now ≡ Err at }
    ensures others { (result ≢ Err LogFault) × ((result ≢ Err Full) × ((at : ℕ) → result ≢ Err (LogDown at))) }
    ensures last { IfOk result (λ f. IsCheckpointIn (last_in start bytes.now) (Some f.past.counters) f.checkpoint) }
    ensures within { IfOk result (λ f. f.gate ≤ start + length bytes.now) }
{
    let mut past = None;
    let mut checkpoint = None;
    let mut at = start;
    let mut rest = bytes;
    while let Some(after) = behind_open(rest) {
        let mut left = after;
        let Some(body) = batch_body(&mut left) else {
            return Err(LogRefusal::Damaged { at });
        };
        let count = count_so_far(&past);
        match read_body(alloc, past, at, body) {
            Ok(more) => {
                checkpoint = checkpoint_behind(at, &more, count);
                past = Some(more);
            }
            Err(Stop::Memory) => return Err(LogRefusal::Memory),
            Err(Stop::Unlawful) => return Err(LogRefusal::Damaged { at }),
        }
        at += 5 + body.len() as u64;
        rest = left;
    }
    match past {
        Some(past) => Ok(Found {
            past,
            gate: at,
            checkpoint,
        }),
        None => Err(LogRefusal::Damaged { at: start }),
    }
}
