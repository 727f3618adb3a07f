// Writers of a record's bytes, one spelling for each record.
ghost use Rattle.std.specs.Prelude.{◌≡◌, ◌<◌, ◌≤◌, ◌^◌, ◌++◌, ◌∷◌, [], length, OnOk, OnErr, IfOk, take};
ghost use Rattle.std.specs.List.{flat_map};
ghost use Rattle.tx_events.specs.RecordSize.{record_size};
ghost use Rattle.wal_records.specs.Numbers.{le_bytes};
ghost use Rattle.wal_records.specs.Spelling.{rec_bytes, tree_bytes, multi_bytes, counters_bytes, truncate_bytes, member_bytes, HasCounts};

use byteorder::{ByteOrder, LittleEndian};
use std::alloc::{AllocError, Global};
use tx_events::{Counters, FullMulti, FullXid, Member, Memory, Rec};

#[tactic(auto, using(crate::proofs::Kept::kept_after, crate::proofs::Kept::kept_same, crate::proofs::Kept::kept_then), unfolding(crate::specs::Numbers::le_bytes))]
fn put_u64(out: &mut Vec<u8>, n: u64) -> Result<(), AllocError>
    ensures put { OnOk result (out.new.items ≡ out.old.items ++ le_bytes 8 n) }
    ensures kept { take (length out.old.items) out.new.items ≡ out.old.items }
{
    let mut bytes = [0; 8];
    LittleEndian::write_u64(&mut bytes, n);
    out.extend_from_slice(&bytes)
}

#[tactic(auto, using(crate::proofs::Kept::kept_after, crate::proofs::Kept::kept_same, crate::proofs::Kept::kept_then), unfolding(crate::specs::Numbers::le_bytes))]
fn put_u32(out: &mut Vec<u8>, n: u32) -> Result<(), AllocError>
    ensures put { OnOk result (out.new.items ≡ out.old.items ++ le_bytes 4 n) }
    ensures kept { take (length out.old.items) out.new.items ≡ out.old.items }
{
    let mut bytes = [0; 4];
    LittleEndian::write_u32(&mut bytes, n);
    out.extend_from_slice(&bytes)
}

#[tactic(auto, using(crate::proofs::Kept::kept_after, crate::proofs::Kept::kept_same, crate::proofs::Kept::kept_then))]
fn put_ids(out: &mut Vec<u8>, ids: &[FullXid]) -> Result<(), AllocError>
    ensures put { OnOk result (out.new.items ≡ out.old.items ++ flat_map (le_bytes 8) ids.now) }
    ensures kept { take (length out.old.items) out.new.items ≡ out.old.items }
{
    for id in ids {
        put_u64(out, id.number())?;
    }
    Ok(())
}

#[tactic(auto, using(crate::proofs::Kept::kept_after, crate::proofs::Kept::kept_same, crate::proofs::Kept::kept_then), unfolding(crate::specs::Spelling::tree_bytes))]
fn put_tree(out: &mut Vec<u8>, top: FullXid, subs: &[FullXid]) -> Result<(), AllocError>
    requires { length subs.now < 2 ^ 32 }
    ensures put { OnOk result (out.new.items ≡ out.old.items ++ tree_bytes top subs.now) }
    ensures kept { take (length out.old.items) out.new.items ≡ out.old.items }
{
    put_u64(out, top.number())?;
    put_u32(out, subs.len() as u32)?;
    put_ids(out, subs)
}

#[tactic(auto, using(crate::proofs::Kept::kept_after, crate::proofs::Kept::kept_same, crate::proofs::Kept::kept_then))]
fn put_member(out: &mut Vec<u8>, member: &Member) -> Result<(), AllocError>
    ensures put { OnOk result (out.new.items ≡ out.old.items ++ member_bytes member.now) }
    ensures kept { take (length out.old.items) out.new.items ≡ out.old.items }
{
    out.push(member.mode.number())?;
    put_u64(out, member.id.number())
}

#[tactic(auto, using(crate::proofs::Kept::kept_after, crate::proofs::Kept::kept_same, crate::proofs::Kept::kept_then))]
fn put_members(out: &mut Vec<u8>, members: &[Member]) -> Result<(), AllocError>
    ensures put { OnOk result (out.new.items ≡ out.old.items ++ flat_map member_bytes members.now) }
    ensures kept { take (length out.old.items) out.new.items ≡ out.old.items }
{
    for member in members {
        put_member(out, member)?;
    }
    Ok(())
}

#[tactic(auto, using(crate::proofs::Kept::kept_after, crate::proofs::Kept::kept_same, crate::proofs::Kept::kept_then), unfolding(crate::specs::Spelling::counters_bytes))]
fn put_counters(out: &mut Vec<u8>, counters: &Counters) -> Result<(), AllocError>
    ensures put { OnOk result (out.new.items ≡ out.old.items ++ counters_bytes counters.now) }
    ensures kept { take (length out.old.items) out.new.items ≡ out.old.items }
{
    put_u64(out, counters.next.number())?;
    put_u64(out, counters.oldest.number())?;
    put_u64(out, counters.multi.number())?;
    put_u64(out, counters.offset)?;
    put_u64(out, counters.oldest_multi.number())?;
    put_u64(out, counters.oldest_offset)
}

#[tactic(auto, using(crate::proofs::Kept::kept_after, crate::proofs::Kept::kept_same, crate::proofs::Kept::kept_then), unfolding(crate::specs::Spelling::multi_bytes))]
fn put_multi(
    out: &mut Vec<u8>,
    multi: FullMulti,
    offset: u64,
    members: &[Member],
) -> Result<(), AllocError>
    requires { length members.now ≤ 64 }
    ensures put { OnOk result (out.new.items ≡ out.old.items ++ multi_bytes multi offset members.now) }
    ensures kept { take (length out.old.items) out.new.items ≡ out.old.items }
{
    put_u64(out, multi.number())?;
    put_u64(out, offset)?;
    put_u32(out, members.len() as u32)?;
    put_members(out, members)
}

#[tactic(auto, using(crate::proofs::Kept::kept_after, crate::proofs::Kept::kept_same, crate::proofs::Kept::kept_then), unfolding(crate::specs::Spelling::truncate_bytes))]
fn put_truncate(
    out: &mut Vec<u8>,
    oldest: FullXid,
    multi: FullMulti,
    offset: u64,
) -> Result<(), AllocError>
    ensures put { OnOk result (out.new.items ≡ out.old.items ++ truncate_bytes oldest multi offset) }
    ensures kept { take (length out.old.items) out.new.items ≡ out.old.items }
{
    put_u64(out, oldest.number())?;
    put_u64(out, multi.number())?;
    put_u64(out, offset)
}

#[tactic(auto, using(crate::proofs::Kept::kept_after, crate::proofs::Kept::kept_same, crate::proofs::Kept::kept_then))]
fn put_rec(out: &mut Vec<u8>, rec: &Rec) -> Result<(), AllocError>
    requires { HasCounts rec.now }
    ensures put { OnOk result (out.new.items ≡ out.old.items ++ rec_bytes rec.now) }
    ensures kept { take (length out.old.items) out.new.items ≡ out.old.items }
{
    match rec {
        Rec::Commit { top, subs } => {
            out.push(1)?;
            put_tree(out, *top, subs.items())
        }
        Rec::Abort { top, subs } => {
            out.push(2)?;
            put_tree(out, *top, subs.items())
        }
        Rec::Multi {
            multi,
            offset,
            members,
        } => {
            out.push(3)?;
            put_multi(out, *multi, *offset, members.items())
        }
        Rec::Checkpoint { number, counters } => {
            out.push(4)?;
            put_u64(out, *number)?;
            put_counters(out, counters.get())
        }
        Rec::Truncate {
            oldest,
            multi,
            offset,
        } => {
            out.push(5)?;
            put_truncate(out, *oldest, *multi, *offset)
        }
    }
}

/// Adds the record's bytes at the end. After an `Err` nothing has changed.
pub fn write_rec(rec: &Rec, into: &mut Vec<u8>) -> Result<(), Memory>
    requires { HasCounts rec.now }
    ensures ok { OnOk result (into.new.items ≡ into.old.items ++ rec_bytes rec.now) }
    ensures err { OnErr result (into.new.items ≡ into.old.items) }
{
    let length = into.len();
    match put_rec(into, rec) {
        Ok(()) => Ok(()),
        Err(_) => {
            into.truncate(length);
            Err(Memory)
        }
    }
}

/// How many bytes a record has.
pub fn rec_length(rec: &Rec) -> u64
    requires { HasCounts rec.now }
    ensures length { result ≡ length (rec_bytes rec.now) }
    ensures size { result ≡ record_size rec.now }
    ensures short { result < 2 ^ 36 }
{
    rec.size()
}
