// Rows of pages that a removal leaves. A walk over a volume's pages passes each in one step, so it costs the pages that
// go, and no others but some near the other side of the ring and on its last segment.
ghost use Rattle.std.specs.Prelude.{◌≡◌, ◌≤◌, ◌<◌, ◌+◌, ◌*◌, ◌/◌, ◌^◌, ℕ, false, IfSome};
ghost use Rattle.slru_bank.specs.Removal.{removes};
ghost use Rattle.slru_bank.specs.Rows.{IsPast};

use crate::removal::Removal;
use store_pages::{PAGES_PER_SEGMENT, PageRule};

/// The order of a store's pages, with how many numbers a page holds.
pub trait PageSpan: PageRule {
    /// How many of the store's numbers stand on a page.
    fn per_page() -> u32
        ensures { result ≡ Self.per_page };
}

// How many numbers half of the ring has.
const HALF_RING: u64 = 2_147_483_648;

// A number below it is on the ring with the four after it, of which one may stand for a page.
const RING_END: u64 = 4_294_967_292;

// A page up to which, it not included, those from this one on lie past it.
fn ahead(page: u32, per_page: u32) -> u32
    requires { 1 ≤ per_page }
    ensures { (l : ℕ) → page ≤ l → l < result → IsPast per_page l page }
{
    let n = u64::from(per_page);
    let end = RING_END / n;
    let near = u64::from(page) + (HALF_RING - 1) / n;
    if near < end { near as u32 } else { end as u32 }
}

// A page up to which, it not included, pages lie past this one on the next turn of the ring.
#[tactic(auto, using(crate::proofs::RowLemmas::turn_past))]
fn next_turn(page: u32, per_page: u32) -> u32
    requires { 1 ≤ per_page }
    ensures { (l : ℕ) → l < result → IsPast per_page l page }
{
    let n = u64::from(per_page);
    let first = u64::from(page) * n;
    if first >= RING_END {
        return 0;
    }
    (first.saturating_sub(HALF_RING) / n) as u32
}

// The last page of a row from this one on whose segments end past the cutoff, but for this one maybe.
fn past_cutoff(cutoff: u32, page: u32, per_page: u32) -> u32
    requires { 1 ≤ per_page }
    ensures from { page ≤ result }
    ensures past { (q : ℕ) → page < q → q ≤ result → IsPast per_page (q / 32 * 32 + 31) cutoff }
{
    let last = page / PAGES_PER_SEGMENT * PAGES_PER_SEGMENT + (PAGES_PER_SEGMENT - 1);
    let end = if last >= cutoff {
        ahead(cutoff, per_page)
    } else {
        next_turn(cutoff, per_page)
    };
    page.max(end.saturating_sub(PAGES_PER_SEGMENT))
}

// The last page of a row from this one on that doesn't come after the kept one, but for this one maybe.
#[tactic(auto, using(crate::proofs::RowLemmas::kept_past, crate::proofs::RowLemmas::kept_far))]
fn up_to(kept: u32, page: u32, per_page: u32) -> u32
    requires { 1 ≤ per_page }
    ensures from { page ≤ result }
    ensures past { (q : ℕ) → page < q → q ≤ result → IsPast per_page kept q }
{
    let n = u64::from(per_page);
    let at = u64::from(kept) * n;
    let from = u64::from(page) * n;
    if at >= RING_END {
        return page;
    }
    if page <= kept && at < from + HALF_RING {
        return kept;
    }
    if at + HALF_RING < from {
        return page.max((RING_END / n).saturating_sub(1) as u32);
    }
    page
}

impl Removal {
    // From a page that stays, the last one of a row of pages that all stay.
    #[tactic(auto, using(crate::proofs::RowLemmas::precedes_none, crate::proofs::RowLemmas::cut_none))]
    pub(crate) fn row_end<O: PageRule>(self, page: u32, per_page: Option<u32>) -> u32
        requires stays { removes O.shape O.per_page self page ≡ false }
        requires span { IfSome per_page (λ n. n ≡ O.per_page) }
        ensures from { page ≤ result }
        ensures fits { result < 2 ^ 32 }
        ensures stay { (q : ℕ) → page ≤ q → q ≤ result → removes O.shape O.per_page self q ≡ false }
    {
        match (self, per_page) {
            (_, None | Some(0)) => page,
            (Removal::Before { cutoff }, Some(n)) => past_cutoff(cutoff, page, n),
            (Removal::After { page: kept }, Some(n)) => up_to(kept, page, n),
            (Removal::All, Some(_)) => page,
        }
    }
}
