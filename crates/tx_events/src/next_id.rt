//! Whether the next transaction id may still be given.
ghost use Rattle.std.specs.Prelude.{◌^◌, ◌<◌};
ghost use Rattle.tx_events.specs.Limits.{stop_limit, warn_limit};
ghost use Rattle.tx_events.specs.declared.refusal.Refusal.TheVariants as refusals;
ghost use Rattle.tx_events.specs.Checks.{IsCheck};

use crate::full_xid::FullXid;
use crate::limits::Limits;
use crate::refusal::Refusal;

/// Whether the id `next` is given with a warning, under an oldest id below 2^63. Refused with `Stop` exactly where it
/// is at or past the stop limit (`GetNewTransactionId`).
pub fn check_id(oldest: FullXid, next: FullXid) -> Result<bool, Refusal>
    requires { oldest < 2 ^ 63 }
    ensures { IsCheck (stop_limit oldest) (warn_limit oldest) next (refusals.Stop next (stop_limit oldest)) result }
{
    let limits = Limits::of(oldest);
    if next >= limits.stop {
        return Err(Refusal::Stop {
            next,
            stop: limits.stop,
        });
    }
    Ok(next >= limits.warn)
}
