// The batch that the next flush writes, as records are added to it: made whole in memory, so that a flush takes none.
ghost use Rattle.std.specs.Prelude.{◌≡◌, ◌⊎◌, ◌↔◌, ◌+◌, ◌-◌, ◌<◌, ◌≤◌, ◌^◌, ◌++◌, ◌∷◌, [], ℕ, length, drop, remove, replicate, IsTrue, IsNone, IsSome, IfOk, OnOk, OnErr, Some};
ghost use Rattle.tx_events.specs.After.{after_record};
ghost use Rattle.tx_events.specs.Base.{IsBase};
ghost use Rattle.wal_records.specs.Numbers.{le_bytes};
ghost use Rattle.wal_core.specs.Opening.{first_number};
ghost use Rattle.wal_records.specs.Spelling.{rec_bytes, HasCounts};
ghost use Rattle.wal_core.specs.Log.{counters_or_none, with_more, IsFull};

use crate::next_rec::counters_then;
use byteorder::{ByteOrder, LittleEndian};
use std::alloc::{AllocError, Global};
use tx_events::{Copied, Counters, Memory, Rec, RecList};
use wal_records::write_rec;

// Room for a few records.
const FIRST_ROOM: usize = 128;

// What is written when nothing is pending.
pub(crate) fn no_batch(alloc: Global) -> Result<Vec<u8>, AllocError>
    ensures { IfOk result (λ behind. behind.items ≡ replicate 5 0) }
{
    let mut behind = Vec::with_capacity(alloc, FIRST_ROOM)?;
    behind.resize(5, 0)?;
    Ok(behind)
}

// Whether the log would pass its greatest length, or the batch its own.
pub(crate) fn is_full(gate: u64, pending: u64, more: u64) -> bool
    requires { pending + more < 2 ^ 63 }
    ensures { IsTrue result ↔ IsFull gate pending more }
{
    gate.saturating_add(6 + pending + more) > 1 << 40 || pending + more > 0xffff_ffff
}

// The record and a gate behind it, at the end.
fn stage(behind: &mut Vec<u8>, rec: &Rec) -> Result<(), Memory>
    requires { HasCounts rec.now }
    ensures ok { OnOk result (behind.new.items ≡ behind.old.items ++ (rec_bytes rec.now ++ 0 ∷ [])) }
    ensures err { OnErr result (behind.new.items ≡ behind.old.items) }
{
    let length = behind.len();
    write_rec(rec, behind)?;
    match behind.push(0) {
        Ok(()) => Ok(()),
        Err(_) => {
            behind.truncate(length);
            Err(Memory)
        }
    }
}

#[tactic(auto, unfolding(wal_records::specs::Numbers::le_bytes))]
fn put_count(bytes: &mut [u8], count: u32)
    requires { 4 ≤ length bytes.old }
    ensures { bytes.new ≡ le_bytes 4 count ++ drop 4 bytes.old }
{
    LittleEndian::write_u32(bytes, count);
}

// Takes the earlier gate away, and counts anew what stands before the last one.
fn join_staged(behind: &mut Vec<u8>, gate: usize)
    requires { (4 ≤ gate) × (gate + 1 < length behind.old.items) × (length behind.old.items < 2 ^ 32 + 6) }
    ensures { behind.new.items ≡ le_bytes 4 (length behind.old.items - 6) ++ drop 4 (remove behind.old.items gate) }
{
    behind.remove(gate);
    let count = (behind.len() - 5) as u32;
    put_count(behind, count);
}

// Adds a record, and its bytes before the gate at the end.
pub(crate) fn add_rec(behind: &mut Vec<u8>, recs: &mut RecList, rec: &Rec) -> Result<(), Memory>
    requires counts { HasCounts rec.now }
    requires behind { (5 ≤ length behind.old.items) × (length behind.old.items + length (rec_bytes rec.now) < 2 ^ 32 + 5) }
    ensures recs { OnOk result (recs.new ≡ recs.old ++ rec.now ∷ []) }
    ensures behind { OnOk result (behind.new.items ≡ with_more behind.old.items (rec_bytes rec.now)) }
    ensures err_recs { OnErr result (recs.new ≡ recs.old) }
    ensures err_behind { OnErr result (behind.new.items ≡ behind.old.items) }
{
    let copy = rec.copy()?;
    let length = behind.len();
    stage(behind, rec)?;
    match recs.push(copy) {
        Ok(()) => {
            join_staged(behind, length - 1);
            Ok(())
        }
        Err(memory) => {
            behind.truncate(length);
            Err(memory)
        }
    }
}

// The counters after a record that may be appended.
pub(crate) fn counters_with(counters: Option<Counters>, rec: &Rec) -> Option<Counters>
    requires first { IsNone counters → IsSome (first_number (rec.now ∷ [])) }
    requires base { IsBase (after_record (counters_or_none counters) rec.now) }
    ensures { result ≡ Some (after_record (counters_or_none counters) rec.now) }
{
    counters_then(counters, rec)
}
