//! The limits on multixacts. After PostgreSQL's `SetMultiXactIdLimit` (`src/backend/access/transam/multixact.c`), with
//! numbers in full: `multiWrapLimit`, `multiStopLimit`, `multiWarnLimit`.
ghost use Rattle.std.specs.Prelude.{◌≡◌, ◌^◌, ◌<◌, ◌≤◌};
ghost use Rattle.tx_events.specs.Ids.{low_half};
ghost use Rattle.tx_events.specs.Limits.{multi_wrap_limit, multi_stop_limit, multi_warn_limit};

use crate::full_multi::FullMulti;
use crate::rounding::{HALF_ROUND, STOP_MARGIN, WARN_MARGIN, capped, down_to, up_to};

/// The limits on multixacts under one oldest multixact.
#[derive(Clone, Copy, Debug, PartialEq, Eq)]
pub struct MultiLimits {
    /// From here on a multixact would count as older than the oldest one (`multiWrapLimit`).
    pub wrap: FullMulti,
    /// No multixact at or past it is given (`multiStopLimit`).
    pub stop: FullMulti,
    /// A multixact at or past it is given with a warning (`multiWarnLimit`).
    pub warn: FullMulti,
}

/// The multixact of a number that is known to be one.
fn multi_of(number: u64) -> FullMulti
    requires { 1 ≤ low_half number }
    ensures { result ≡ number }
{
    match FullMulti::new(number) {
        Some(multi) => multi,
        None => unreachable!(),
    }
}

impl MultiLimits {
    /// The limits under this oldest multixact, which is below 2^63 (`SetMultiXactIdLimit`).
    pub fn of(oldest: FullMulti) -> MultiLimits
        requires { oldest < 2 ^ 63 }
        ensures wrap { result.wrap ≡ multi_wrap_limit oldest }
        ensures stop { result.stop ≡ multi_stop_limit oldest }
        ensures warn { result.warn ≡ multi_warn_limit oldest }
    {
        let wrap = up_to(oldest.number() + HALF_ROUND, 1);
        let stop = down_to(wrap - STOP_MARGIN, 1);
        let warn = down_to(wrap - WARN_MARGIN, 1);
        MultiLimits {
            wrap: multi_of(wrap),
            stop: multi_of(capped(stop)),
            warn: multi_of(warn),
        }
    }
}
