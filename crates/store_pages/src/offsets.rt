// The pages of the offsets of multixacts. After PostgreSQL's `src/backend/access/transam/multixact.c`.
ghost use Rattle.std.specs.Prelude.{◌≡◌, ◌<◌, ◌+◌, ◌*◌, ◌%◌, ◌^◌, ℕ};
ghost use Rattle.tx_events.specs.Ids.{low_half};
ghost use Rattle.tx_events.specs.PageOrder.{Multis, page_precedes};
ghost use Rattle.tx_events.specs.Pages.{offset_page, offset_place, offsets_per_page};

use crate::page_rule::PageRule;
use crate::ring::number_on;
use tx_events::{FullMulti, MultiId, multi_precedes};

/// How many multixacts have their offsets on one page, four bytes each (`MULTIXACT_OFFSETS_PER_PAGE`).
pub const OFFSETS_PER_PAGE: u32 = 2048;

/// The page of a multixact's offset as it is stored, below 2^21 (`MultiXactIdToOffsetPage`).
pub fn offset_page(m: MultiId) -> u32
    ensures page { result ≡ offset_page m.number }
    ensures within { result < 2 ^ 21 }
{
    m.number / OFFSETS_PER_PAGE
}

/// Which offset of its page it is (`MultiXactIdToOffsetEntry`).
pub fn offset_place(m: MultiId) -> u32
    ensures place { result ≡ offset_place m.number }
    ensures within { result < offsets_per_page }
{
    m.number % OFFSETS_PER_PAGE
}

/// The page in full. The stored one is its rest by 2^21.
pub fn offset_page_in_full(m: FullMulti) -> u64
    ensures page { result ≡ offset_page m }
    ensures stored { result % 2 ^ 21 ≡ offset_page (low_half m) }
{
    m.number() / u64::from(OFFSETS_PER_PAGE)
}

/// The order of the pages of offsets.
#[derive(Clone, Copy, Drop)]
pub struct OffsetPages;

impl PageRule for OffsetPages {
    ghost shape = { Multis };

    ghost per_page = { offsets_per_page };

    /// A page is seen by its third multixact, as in `MultiXactOffsetPagePrecedes`.
    fn precedes(p: u32, q: u32) -> bool
        ensures order { result ≡ page_precedes Multis offsets_per_page p q }
    {
        let first = multi_on(p, 2);
        multi_precedes(first, multi_on(q, 2))
            && multi_precedes(first, multi_on(q, OFFSETS_PER_PAGE + 1))
    }
}

fn multi_on(page: u32, past: u32) -> MultiId
    ensures { result.number ≡ (page * offsets_per_page + past) % 2 ^ 32 }
{
    MultiId {
        number: number_on(page, OFFSETS_PER_PAGE, past),
    }
}
