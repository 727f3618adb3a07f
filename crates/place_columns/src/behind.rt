//! The numbers behind a number, whichever it is.
ghost use Rattle.std.specs.Prelude.{◌≡◌, ◌+◌, ◌^◌, ◌<◌, ◌≤◌};
ghost use Rattle.tx_events.specs.Ids.{next_id, next_multi};

/// The least id in full above this number.
pub fn id_behind(number: u64) -> u64
    requires { number < 2 ^ 63 + 2 ^ 62 }
    ensures value { result ≡ next_id number }
    ensures near { result ≤ number + 4 }
{
    let next = number + 1;
    let low = next & 0xffff_ffff;
    if low < 3 { next + (3 - low) } else { next }
}

/// The least multixact in full above this number.
pub fn multi_behind(number: u64) -> u64
    requires { number < 2 ^ 63 + 2 ^ 62 }
    ensures value { result ≡ next_multi number }
    ensures near { result ≤ number + 4 }
{
    if (number + 1) & 0xffff_ffff == 0 {
        number + 2
    } else {
        number + 1
    }
}
