// Multixacts are numbered without those of low half 0, so a place in the history and a number differ by the laps between.
ghost use Rattle.std.specs.Prelude.{◌≡◌, ◌^◌, ◌<◌, ◌≤◌};
ghost use Rattle.tx_events.specs.Multis.{nth_multi, first_member};

use tx_events::FullMulti;

/// How many numbers have one high half.
const ROUND: u64 = 1 << 32;

/// How many multixacts come from the first one on before this one: numbers less those of low half 0.
pub fn place_of(first: FullMulti, multi: FullMulti) -> u64
    requires { first ≤ multi }
    ensures { nth_multi first result ≡ multi }
{
    let from = first.number();
    let to = multi.number();
    (to - from) - (to / ROUND - from / ROUND)
}

/// Where members begin: at the next free offset, or one later where the stored half of that is 0, which means none.
pub fn first_member(free: u64) -> u64
    requires { free < 2 ^ 63 }
    ensures { result ≡ first_member free }
{
    if free & 0xffff_ffff == 0 {
        free + 1
    } else {
        free
    }
}
