// Readers of a record's bytes. A log may come from anywhere: no number is trusted before it was compared.
ghost use Rattle.std.specs.Prelude.{◌≡◌, ◌≤◌, ◌++◌, List, ℕ, length, take, IfOk, IfSome, IfNone, IsSomeAnd, Some};
ghost use Rattle.wal_records.specs.Numbers.{le_number};
ghost use Rattle.wal_records.specs.Spelling.{rec_bytes, IsLawful};
ghost use Rattle.wal_records.specs.ReadRec.{IsRecordAt};
ghost use Rattle.tx_events.specs.declared.record.Rec.{Rec};
ghost use Rattle.tx_events.specs.Modes.{mode_of};
ghost use Rattle.wal_records.specs.Reading.{Gives, GivesAt, number_at, id_at, multi_at, ids_at, member_at, members_at, tree_at, commit_at, abort_at, multi_rec_at, counters_at, checkpoint_at, truncate_at, rec_at};

use crate::stop::Stop;
use byteorder::{ByteOrder, LittleEndian};
use std::alloc::Global;
use tx_events::{
    Counters, FullMulti, FullXid, IdList, Member, MemberList, Memory, Mode, Rec, Sequence,
    SharedCounters,
};

// Each reader takes what it reads off the front of `rest`.

#[tactic(auto, unfolding(crate::specs::Numbers::le_number))]
fn u64_at(rest: &mut &[u8]) -> Result<u64, Stop>
    ensures { GivesAt result rest.new.now (number_at 8 rest.old.now) }
{
    if rest.len() < 8 {
        return Err(Stop::Unlawful);
    }
    let (front, after) = rest.split_at(8);
    *rest = after;
    Ok(LittleEndian::read_u64(front))
}

#[tactic(auto, unfolding(crate::specs::Numbers::le_number))]
fn u32_at(rest: &mut &[u8]) -> Result<u32, Stop>
    ensures { GivesAt result rest.new.now (number_at 4 rest.old.now) }
{
    if rest.len() < 4 {
        return Err(Stop::Unlawful);
    }
    let (front, after) = rest.split_at(4);
    *rest = after;
    Ok(LittleEndian::read_u32(front))
}

#[tactic(auto, unfolding(crate::specs::Reading::id_at))]
fn xid_at(rest: &mut &[u8]) -> Result<FullXid, Stop>
    ensures { GivesAt result rest.new.now (id_at rest.old.now) }
{
    let number = u64_at(rest)?;
    if number & 0xffff_ffff < 3 {
        return Err(Stop::Unlawful);
    }
    match FullXid::new(number) {
        Some(id) => Ok(id),
        None => Err(Stop::Unlawful),
    }
}

#[tactic(auto, unfolding(crate::specs::Reading::multi_at))]
fn full_multi_at(rest: &mut &[u8]) -> Result<FullMulti, Stop>
    ensures { GivesAt result rest.new.now (multi_at rest.old.now) }
{
    let number = u64_at(rest)?;
    match FullMulti::new(number) {
        Some(multi) => Ok(multi),
        None => Err(Stop::Unlawful),
    }
}

fn mode_from(byte: u8) -> Result<Mode, Stop>
    ensures { Gives result (mode_of byte) }
{
    Mode::of_number(byte).ok_or(Stop::Unlawful)
}

#[tactic(auto, unfolding(crate::specs::Reading::member_at))]
fn one_member(rest: &mut &[u8]) -> Result<Member, Stop>
    ensures { GivesAt result rest.new.now (member_at rest.old.now) }
{
    match *rest {
        [] => Err(Stop::Unlawful),
        [byte, after @ ..] => {
            let mode = mode_from(*byte)?;
            *rest = after;
            let id = xid_at(rest)?;
            Ok(Member { id, mode })
        }
    }
}

#[tactic(auto, unfolding(crate::specs::Reading::counters_at))]
fn counters_from(rest: &mut &[u8]) -> Result<Counters, Stop>
    ensures { GivesAt result rest.new.now (counters_at rest.old.now) }
{
    let next = xid_at(rest)?;
    let oldest = xid_at(rest)?;
    let multi = full_multi_at(rest)?;
    let offset = u64_at(rest)?;
    let oldest_multi = full_multi_at(rest)?;
    let oldest_offset = u64_at(rest)?;
    Ok(Counters {
        next,
        oldest,
        multi,
        offset,
        oldest_multi,
        oldest_offset,
    })
}

// So many ids, each above the one before.
fn ids_from(alloc: Global, count: u32, last: u64, rest: &mut &[u8]) -> Result<IdList, Stop>
    ensures { GivesAt result rest.new.now (ids_at count last rest.old.now) }
{
    let mut ids = IdList::new(alloc);
    let mut below = last;
    for _ in 0..count {
        let id = xid_at(rest)?;
        if id.number() <= below {
            return Err(Stop::Unlawful);
        }
        below = id.number();
        ids.push(id)?;
    }
    Ok(ids)
}

fn members_from(alloc: Global, count: u32, rest: &mut &[u8]) -> Result<MemberList, Stop>
    ensures { GivesAt result rest.new.now (members_at count rest.old.now) }
{
    let mut members = Sequence::with_room(alloc, count as usize)?;
    for _ in 0..count {
        members.push(one_member(rest)?)?;
    }
    Ok(MemberList::of(alloc, members)?)
}

#[tactic(auto, unfolding(crate::specs::Reading::tree_at))]
fn tree_from(alloc: Global, rest: &mut &[u8]) -> Result<(FullXid, IdList), Stop>
    ensures { GivesAt result rest.new.now (tree_at rest.old.now) }
{
    let top = xid_at(rest)?;
    let count = u32_at(rest)?;
    let subs = ids_from(alloc, count, top.number(), rest)?;
    Ok((top, subs))
}

#[tactic(auto, unfolding(crate::specs::Reading::commit_at))]
fn commit_from(alloc: Global, rest: &mut &[u8]) -> Result<Rec, Stop>
    ensures { GivesAt result rest.new.now (commit_at rest.old.now) }
{
    let (top, subs) = tree_from(alloc, rest)?;
    Ok(Rec::Commit { top, subs })
}

#[tactic(auto, unfolding(crate::specs::Reading::abort_at))]
fn abort_from(alloc: Global, rest: &mut &[u8]) -> Result<Rec, Stop>
    ensures { GivesAt result rest.new.now (abort_at rest.old.now) }
{
    let (top, subs) = tree_from(alloc, rest)?;
    Ok(Rec::Abort { top, subs })
}

#[tactic(auto, unfolding(crate::specs::Reading::multi_rec_at))]
fn multi_from(alloc: Global, rest: &mut &[u8]) -> Result<Rec, Stop>
    ensures { GivesAt result rest.new.now (multi_rec_at rest.old.now) }
{
    let multi = full_multi_at(rest)?;
    let offset = u64_at(rest)?;
    let count = u32_at(rest)?;
    if count < 1 {
        return Err(Stop::Unlawful);
    }
    if 64 < count {
        return Err(Stop::Unlawful);
    }
    let members = members_from(alloc, count, rest)?;
    Ok(Rec::Multi {
        multi,
        offset,
        members,
    })
}

#[tactic(auto, unfolding(crate::specs::Reading::checkpoint_at))]
fn checkpoint_from(alloc: Global, rest: &mut &[u8]) -> Result<Rec, Stop>
    ensures { GivesAt result rest.new.now (checkpoint_at rest.old.now) }
{
    let number = u64_at(rest)?;
    let counters = SharedCounters::of(alloc, counters_from(rest)?)?;
    Ok(Rec::Checkpoint { number, counters })
}

#[tactic(auto, unfolding(crate::specs::Reading::truncate_at))]
fn truncate_from(rest: &mut &[u8]) -> Result<Rec, Stop>
    ensures { GivesAt result rest.new.now (truncate_at rest.old.now) }
{
    let oldest = xid_at(rest)?;
    let multi = full_multi_at(rest)?;
    let offset = u64_at(rest)?;
    Ok(Rec::Truncate {
        oldest,
        multi,
        offset,
    })
}

/// Takes the record off the front with which the bytes begin. After an error it isn't said how many were taken.
#[tactic(auto, unfolding(crate::specs::Reading::rec_at))]
pub fn take_rec(alloc: Global, rest: &mut &[u8]) -> Result<Rec, Stop>
    ensures { GivesAt result rest.new.now (rec_at rest.old.now) }
{
    match *rest {
        [1, after @ ..] => {
            *rest = after;
            commit_from(alloc, rest)
        }
        [2, after @ ..] => {
            *rest = after;
            abort_from(alloc, rest)
        }
        [3, after @ ..] => {
            *rest = after;
            multi_from(alloc, rest)
        }
        [4, after @ ..] => {
            *rest = after;
            checkpoint_from(alloc, rest)
        }
        [5, after @ ..] => {
            *rest = after;
            truncate_from(rest)
        }
        _ => Err(Stop::Unlawful),
    }
}

/// A record, and how many bytes it takes.
#[derive(Drop)]
pub struct ReadRec {
    pub rec: Rec,
    pub length: u64,
}

/// The record with which the bytes begin. None where they begin with no lawful one.
pub fn read_rec(alloc: Global, bytes: &[u8]) -> Result<Option<ReadRec>, Memory>
    // What is read is lawful, and stands there.
    ensures found { IfOk result (λ o. IfSome o (IsRecordAt bytes.now)) }
    // What stands there and is lawful is read, unless memory runs out.
    ensures only { (rec : Rec) (rest : List ℕ) → IsLawful rec → bytes.now ≡ rec_bytes rec ++ rest
        → IfOk result (λ o. IsSomeAnd o (λ r. (r.rec ≡ rec) × (r.length ≡ length (rec_bytes rec)))) }
    // Where there is none, none is read.
    ensures none { IfOk result (λ o. IfNone o ((rec : Rec) (rest : List ℕ) → IsLawful rec → bytes.now ≡ rec_bytes rec ++ rest → ⊥)) }
{
    let mut rest = bytes;
    match take_rec(alloc, &mut rest) {
        Ok(rec) => {
            let length = (bytes.len() - rest.len()) as u64;
            Ok(Some(ReadRec { rec, length }))
        }
        Err(Stop::Unlawful) => Ok(None),
        Err(Stop::Memory) => Err(Memory),
    }
}
