//! How often counters of each value are there.
ghost use Rattle.std.specs.Prelude.{◌≡◌, ℕ, ◌+◌, ◌^◌, ◌<◌, OnOk, unwrap_or};
ghost use Rattle.std.specs.BTreeMap.{get};
ghost use Rattle.tx_events.specs.declared.record.Counters.{Counters};
ghost use Rattle.record_rules.specs.Counts.{AreCounted, key_cmp, key_of, with_one};

use std::collections::BTreeMap;
use tx_events::{Counters, FullMulti, FullXid, Memory};

/// Counters, in an order of theirs.
#[derive(Clone, Copy, PartialEq, Eq, PartialOrd, Ord, Drop)]
pub struct CountersKey {
    pub next: FullXid,
    pub oldest: FullXid,
    pub multi: FullMulti,
    pub offset: u64,
    pub oldest_multi: FullMulti,
    pub oldest_offset: u64,
}

/// How often counters of each value are there.
pub type CounterCounts = BTreeMap<CountersKey, u64>;

fn key_of(counters: &Counters) -> CountersKey
    ensures { result ≡ key_of counters.now }
{
    CountersKey {
        next: counters.next,
        oldest: counters.oldest,
        multi: counters.multi,
        offset: counters.offset,
        oldest_multi: counters.oldest_multi,
        oldest_offset: counters.oldest_offset,
    }
}

/// How often these counters are there. Takes the logarithm of how many there are.
pub fn how_often(counts: &CounterCounts, counters: &Counters) -> u64
    ensures value { result ≡ unwrap_or (get key_cmp counts.now (key_of counters.now)) 0 }
    ensures counted { (f : Counters → ℕ) → AreCounted f counts.now → result ≡ f counters.now }
{
    let key = key_of(counters);
    counts.get(&key).copied().unwrap_or(0)
}

/// Counts these counters once more.
pub fn count_one(counts: &mut CounterCounts, counters: &Counters) -> Result<(), Memory>
    requires { unwrap_or (get key_cmp counts.old (key_of counters.now)) 0 + 1 < 2 ^ 64 }
    ensures { OnOk result ((f : Counters → ℕ) → AreCounted f counts.old → AreCounted (with_one counters.now f) counts.new) }
{
    let count = how_often(counts, counters);
    counts.insert(key_of(counters), count + 1)?;
    Ok(())
}
