//! Which counters a life may start from. A start asks it of whatever a log holds, so it answers for any counters.
ghost use Rattle.std.specs.Prelude.{◌≡◌, ◌^◌, ◌<◌, ◌≤◌, ◌↔◌, IsTrue};
ghost use Rattle.tx_events.specs.Ids.{IsFullId};
ghost use Rattle.tx_events.specs.Limits.{stop_limit, multi_stop_limit, member_stop};
ghost use Rattle.tx_events.specs.Base.{IsBase};

use crate::record::Counters;
use crate::{FullMulti, FullXid, Limits, MultiLimits, member_stop};

/// Limits are below 2^63, so a number from there on is past each of them.
const PAST_LIMITS: u64 = 1 << 63;

/// Whether these are no special ids, and the next id is one from the oldest to its stop limit.
fn are_ids(oldest: FullXid, next: FullXid) -> bool
    ensures { IsTrue result ↔ (IsFullId next × IsFullId oldest × (oldest ≤ next) × (next ≤ stop_limit oldest)) }
{
    next.number() >= 3
        && oldest.number() >= 3
        && oldest <= next
        && next.number() < PAST_LIMITS
        && next <= Limits::of(oldest).stop
}

/// Whether the next multixact is one from the oldest to its stop limit.
fn are_multis(oldest: FullMulti, next: FullMulti) -> bool
    ensures { IsTrue result ↔ ((oldest ≤ next) × (next ≤ multi_stop_limit oldest)) }
{
    oldest <= next && next.number() < PAST_LIMITS && next <= MultiLimits::of(oldest).stop
}

/// Whether the next offset is one from the oldest to its limit.
fn are_offsets(oldest: u64, next: u64) -> bool
    ensures { IsTrue result ↔ ((oldest ≤ next) × (next ≤ member_stop oldest)) }
{
    oldest <= next && next < PAST_LIMITS && next <= member_stop(oldest)
}

/// Whether a life may start from these counters: each oldest number is at most the next one, which is at most its
/// stop limit; no id is a special one; and without a multixact there is no member. For any counters.
pub fn is_base(counters: &Counters) -> bool
    ensures { IsTrue result ↔ IsBase counters.now }
{
    are_ids(counters.oldest, counters.next)
        && are_multis(counters.oldest_multi, counters.multi)
        && are_offsets(counters.oldest_offset, counters.offset)
        && (counters.oldest_multi != counters.multi || counters.oldest_offset == counters.offset)
}
