//! How many live snapshots have each xmin.
ghost use Rattle.std.specs.Prelude.{◌≡◌, ℕ, ◌+◌, ◌^◌, ◌<◌, List, OnOk, OnErr, map, min};
ghost use Rattle.std.specs.List.{fold};
ghost use Rattle.std.specs.Ordering.{nat_cmp};
ghost use Rattle.counted_map.specs.Counts.{counted};
ghost use Rattle.tx_events.specs.Horizon.{LiveSnap};
ghost use Rattle.proc_table.specs.Lives.{IsTally, one_more, with_xmin};

use counted_map::CountedMap;
use tx_events::{FullXid, Memory};

/// How many live snapshots have each xmin.
pub type XminCounts = CountedMap<FullXid>;

/// Counts one more of this xmin.
pub fn count_more(counts: &mut XminCounts, xmin: FullXid) -> Result<(), Memory>
    requires fits { counted nat_cmp counts.old xmin + 1 < 2 ^ 64 }
    ensures more { OnOk result ((f : ℕ → ℕ) → IsTally f counts.old → IsTally (one_more xmin f) counts.new) }
    ensures same { OnErr result ((f : ℕ → ℕ) → IsTally f counts.old → IsTally f counts.new) }
{
    counts.add(xmin)?;
    Ok(())
}

/// Counts one less of this xmin. Takes no memory.
pub fn count_less(counts: &mut XminCounts, xmin: FullXid)
    ensures { (f : ℕ → ℕ) → IsTally (one_more xmin f) counts.old → IsTally f counts.new }
{
    counts.remove(xmin);
}

/// The least of an id and the xmins that are counted.
pub fn least_counted(from: FullXid, counts: &XminCounts) -> FullXid
    ensures { (snaps : List LiveSnap) → IsTally (with_xmin snaps) counts.now → result ≡ fold min from (map (λ s. s.xmin) snaps) }
{
    match counts.least() {
        Some(xmin) => { if xmin < from { xmin } else { from } }
        None => from,
    }
}
