//! The counters of a life, and a snapshot.
ghost use Rattle.std.specs.Prelude.{◌≡◌};
ghost use Rattle.report_words.specs.Words.{behind};
ghost use Rattle.report_words.specs.Reading.{Gives, counters_at, snap_at, snap_lists_at};

use crate::list::{full_multi, named_at, read_list};
use crate::unread::Unread;
use crate::word::{full_id, word_at};
use std::alloc::Global;
use tx_events::FullXid;
use tx_model::{Counters, IdList, SnapData};

/// The counters, each behind its word.
#[tactic(auto, unfolding(crate::specs::Reading::counters_at))]
pub fn counters_at(rest: &[u8]) -> Result<Counters, Unread>
    ensures { Gives (λ x. x) result (counters_at (behind rest.now)) }
{
    let (next, rest) = named_at(rest)?;
    let next = full_id(next)?;
    let (oldest, rest) = named_at(rest)?;
    let oldest = full_id(oldest)?;
    let (multi, rest) = named_at(rest)?;
    let multi = full_multi(multi)?;
    let (offset, rest) = named_at(rest)?;
    let (oldest_multi, rest) = named_at(rest)?;
    let oldest_multi = full_multi(oldest_multi)?;
    let (oldest_offset, _rest) = named_at(rest)?;
    Ok(Counters {
        next,
        oldest,
        multi,
        offset,
        oldest_multi,
        oldest_offset,
    })
}

#[tactic(auto, unfolding(crate::specs::Reading::snap_lists_at))]
fn snap_lists_at(
    alloc: Global,
    xmin: FullXid,
    xmax: FullXid,
    rest: &[u8],
) -> Result<SnapData, Unread>
    ensures { Gives (λ x. x) result (snap_lists_at xmin xmax (behind rest.now)) }
{
    let mut xip = IdList::new(alloc);
    let mut subxip = IdList::new(alloc);
    let (_label, rest) = word_at(rest)?;
    let rest = read_list(&mut xip, rest)?;
    let (_label, rest) = word_at(rest)?;
    let rest = read_list(&mut subxip, rest)?;
    let (_label, rest) = word_at(rest)?;
    let (word, _rest) = word_at(rest)?;
    let overflowed = word == b"yes".as_slice();
    Ok(SnapData {
        xmin,
        xmax,
        xip,
        subxip,
        overflowed,
    })
}

/// What a snapshot holds, behind `ok`.
#[tactic(auto, unfolding(crate::specs::Reading::snap_at))]
pub fn snap_at(alloc: Global, rest: &[u8]) -> Result<SnapData, Unread>
    ensures { Gives (λ x. x) result (snap_at (behind rest.now)) }
{
    let (xmin, rest) = named_at(rest)?;
    let xmin = full_id(xmin)?;
    let (xmax, rest) = named_at(rest)?;
    let xmax = full_id(xmax)?;
    snap_lists_at(alloc, xmin, xmax, rest)
}
