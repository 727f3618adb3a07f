//! Sums on the ring, rounded past the numbers that stand for nothing (low halves 0 to 2 of ids, 0 of multixacts), as
//! PostgreSQL's limit functions round them.
ghost use Rattle.std.specs.Prelude.{◌≡◌, ℕ, ◌+◌, ◌-◌, ◌%◌, ◌^◌, ◌<◌, ◌≤◌, ◌⊎◌, cond, min, nat_lt};
ghost use Rattle.tx_events.specs.Ids.{low_half};

/// The greatest number that a limit has: the counters of a log stay below 2^63.
pub const GREATEST: u64 = 0x7fff_ffff_ffff_ffff;

/// How far past the oldest number the ring is half round.
pub const HALF_ROUND: u64 = 0x7fff_ffff;

/// How far before the wrap limit numbers stop.
pub const STOP_MARGIN: u64 = 3_000_000;

/// How far before the wrap limit warnings begin.
pub const WARN_MARGIN: u64 = 40_000_000;

/// The first number from `n` on whose low half is at least `first`.
pub fn up_to(n: u64, first: u64) -> u64
    requires size { n < 2 ^ 63 + 2 ^ 32 }
    requires small { (1 ≤ first) × (first ≤ 3) }
    ensures value { result ≡ cond (nat_lt (low_half n) first) (n + (first - low_half n)) n }
    ensures form { first ≤ low_half result }
{
    let low = n & 0xffff_ffff;
    if low < first { n + (first - low) } else { n }
}

/// The last number up to `n` whose low half is at least `first`.
pub fn down_to(n: u64, first: u64) -> u64
    requires from { (2 ^ 32 ≤ n) ⊎ (first ≤ low_half n) }
    requires small { (1 ≤ first) × (first ≤ 3) }
    ensures value { result ≡ cond (nat_lt (low_half n) first) (n - low_half n - 1) n }
    ensures form { first ≤ low_half result }
{
    let low = n & 0xffff_ffff;
    if low < first { n - low - 1 } else { n }
}

/// The lesser of a number and the greatest one that a limit has.
pub fn capped(n: u64) -> u64
    ensures { result ≡ min n (2 ^ 63 - 1) }
{
    n.min(GREATEST)
}
