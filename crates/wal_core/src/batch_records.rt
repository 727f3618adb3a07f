// Reads the records of a batch, and joins each to those before it if it may come next.
ghost use Rattle.std.specs.Prelude.{◌≡◌, true, false, Ok, None};
ghost use Rattle.wal_core.specs.Opening.{next_number, number_fits, may_follow, with_rec, with_body};
ghost use Rattle.wal_core.specs.SoFar.{history_read, history_so_far, begun, joins, GivesHistory};

use crate::counters::counters_after;
use std::alloc::Global;
use tx_events::{Counters, Memory, Rec, RecList, is_base};
use wal_records::{Stop, take_rec};

// The records that were read so far.
#[derive(Drop)]
pub struct SoFar {
    // The number of the first of them.
    pub first: u64,
    pub recs: RecList,
    // After them.
    pub counters: Counters,
}

// Whether a checkpoint carries the number of the next record.
fn has_next_number(past: &SoFar, rec: &Rec) -> bool
    ensures { result ≡ number_fits (next_number (history_read past.now)) rec.now }
{
    match rec {
        Rec::Checkpoint {
            number,
            counters: _,
        } => past.first.checked_add(past.recs.items().len() as u64) == Some(*number),
        _ => true,
    }
}

// Adds a record, if it may come next.
fn join_rec(past: &mut SoFar, rec: Rec) -> Result<bool, Memory>
    ensures may { result ≡ Ok true → may_follow (history_read past.old) rec ≡ true }
    ensures joins { result ≡ Ok true → history_read past.new ≡ with_rec (history_read past.old) rec }
    ensures may_not { result ≡ Ok false → may_follow (history_read past.old) rec ≡ false }
{
    if !has_next_number(past, &rec) {
        return Ok(false);
    }
    let Some(counters) = counters_after(&past.counters, &rec) else {
        return Ok(false);
    };
    if !is_base(&counters) {
        return Ok(false);
    }
    past.recs.push(rec)?;
    past.counters = counters;
    Ok(true)
}

// Begins with a checkpoint whose number isn't past the place of its gate.
fn begin(alloc: Global, at: u64, rec: Rec) -> Result<SoFar, Stop>
    ensures { GivesHistory result (begun at rec) }
{
    let Rec::Checkpoint { number, counters } = rec else {
        return Err(Stop::Unlawful);
    };
    let base = *counters.get();
    if at < number || !is_base(&base) {
        return Err(Stop::Unlawful);
    }
    let mut recs = RecList::new(alloc);
    recs.push(Rec::Checkpoint { number, counters })?;
    Ok(SoFar {
        first: number,
        recs,
        counters: base,
    })
}

// All of the bytes as records, at most so many.
fn read_more(alloc: Global, past: SoFar, count: usize, bytes: &[u8]) -> Result<SoFar, Stop>
    ensures { GivesHistory result (joins count bytes.now (history_read past)) }
{
    let mut past = past;
    let mut rest = bytes;
    for _ in 0..count {
        if rest.is_empty() {
            return Ok(past);
        }
        let rec = take_rec(alloc, &mut rest)?;
        if !join_rec(&mut past, rec)? {
            return Err(Stop::Unlawful);
        }
    }
    if !rest.is_empty() {
        return Err(Stop::Unlawful);
    }
    Ok(past)
}

// The records of the first batch.
fn read_first(alloc: Global, at: u64, body: &[u8]) -> Result<SoFar, Stop>
    ensures { GivesHistory result (with_body at None body.now) }
{
    if body.is_empty() {
        return Err(Stop::Unlawful);
    }
    let mut rest = body;
    let first = take_rec(alloc, &mut rest)?;
    let past = begin(alloc, at, first)?;
    read_more(alloc, past, body.len() - 1, rest)
}

// The records of a batch.
pub(crate) fn read_body(
    alloc: Global,
    past: Option<SoFar>,
    at: u64,
    body: &[u8],
) -> Result<SoFar, Stop>
    ensures { GivesHistory result (with_body at (history_so_far past) body.now) }
{
    match past {
        Some(past) => read_more(alloc, past, body.len(), body),
        None => read_first(alloc, at, body),
    }
}
