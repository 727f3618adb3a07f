//! The limit on member offsets. After PostgreSQL's `SetOffsetVacuumLimit` (`src/backend/access/transam/multixact.c`).
ghost use Rattle.std.specs.Prelude.{◌≡◌, ℕ, ◌^◌, ◌<◌};
ghost use Rattle.tx_events.specs.Limits.{member_stop};

use crate::rounding::capped;

/// A quarter of all member offsets.
const QUARTER_ROUND: u64 = 1 << 30;

/// The members of a segment: 32 pages of 1,636.
const SEGMENT_MEMBERS: u64 = 52_352;

/// The offset that no member reaches, under this oldest offset, which is below 2^63 (`SetOffsetVacuumLimit`, with a
/// quarter of the ring in place of nearly all of it).
pub fn member_stop(oldest_offset: u64) -> u64
    requires { oldest_offset < 2 ^ 63 }
    ensures { result ≡ member_stop oldest_offset }
{
    let into = (oldest_offset & 0xffff_ffff) % SEGMENT_MEMBERS;
    capped(oldest_offset + QUARTER_ROUND - SEGMENT_MEMBERS - into)
}
