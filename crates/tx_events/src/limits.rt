//! The limits on transaction ids. After PostgreSQL's `SetTransactionIdLimit` (`src/backend/access/transam/varsup.c`),
//! with ids in full: `xidWrapLimit`, `xidStopLimit`, `xidWarnLimit`.
ghost use Rattle.std.specs.Prelude.{◌≡◌, ◌^◌, ◌<◌, ◌≤◌};
ghost use Rattle.tx_events.specs.Ids.{low_half};
ghost use Rattle.tx_events.specs.Limits.{wrap_limit, stop_limit, warn_limit};

use crate::full_xid::FullXid;
use crate::rounding::{HALF_ROUND, STOP_MARGIN, WARN_MARGIN, capped, down_to, up_to};

/// The limits on transaction ids under one oldest id.
#[derive(Clone, Copy, Debug, PartialEq, Eq)]
pub struct Limits {
    /// From here on an id would count as older than the oldest one (`xidWrapLimit`).
    pub wrap: FullXid,
    /// No id at or past it is given (`xidStopLimit`).
    pub stop: FullXid,
    /// An id at or past it is given with a warning (`xidWarnLimit`).
    pub warn: FullXid,
}

/// The id of a number that is known to be one.
fn id_of(number: u64) -> FullXid
    requires { 3 ≤ low_half number }
    ensures { result ≡ number }
{
    match FullXid::new(number) {
        Some(id) => id,
        None => unreachable!(),
    }
}

impl Limits {
    /// The limits under this oldest id, which is below 2^63 (`SetTransactionIdLimit`).
    pub fn of(oldest: FullXid) -> Limits
        requires { oldest < 2 ^ 63 }
        ensures wrap { result.wrap ≡ wrap_limit oldest }
        ensures stop { result.stop ≡ stop_limit oldest }
        ensures warn { result.warn ≡ warn_limit oldest }
    {
        let wrap = up_to(oldest.number() + HALF_ROUND, 3);
        let stop = down_to(wrap - STOP_MARGIN, 3);
        let warn = down_to(wrap - WARN_MARGIN, 3);
        Limits {
            wrap: id_of(wrap),
            stop: id_of(capped(stop)),
            warn: id_of(warn),
        }
    }
}
