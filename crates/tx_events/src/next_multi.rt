//! Whether the next multixact may still be given.
ghost use Rattle.std.specs.Prelude.{◌^◌, ◌<◌};
ghost use Rattle.tx_events.specs.Limits.{multi_stop_limit, multi_warn_limit};
ghost use Rattle.tx_events.specs.declared.refusal.Refusal.TheVariants as refusals;
ghost use Rattle.tx_events.specs.Checks.{IsCheck};

use crate::full_multi::FullMulti;
use crate::multi_limits::MultiLimits;
use crate::refusal::Refusal;

/// Whether the multixact `next` is given with a warning, under an oldest multixact below 2^63. Refused with
/// `MultiStop` exactly where it is at or past the stop limit (`GetNewMultiXactId`).
pub fn check_multi(oldest: FullMulti, next: FullMulti) -> Result<bool, Refusal>
    requires { oldest < 2 ^ 63 }
    ensures { IsCheck (multi_stop_limit oldest) (multi_warn_limit oldest) next (refusals.MultiStop next (multi_stop_limit oldest)) result }
{
    let limits = MultiLimits::of(oldest);
    if next >= limits.stop {
        return Err(Refusal::MultiStop {
            next,
            stop: limits.stop,
        });
    }
    Ok(next >= limits.warn)
}
