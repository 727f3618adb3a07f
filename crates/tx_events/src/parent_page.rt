//! On which page an id's parent stands. After PostgreSQL's `src/backend/access/transam/subtrans.c`.
ghost use Rattle.std.specs.Prelude.{◌≡◌, ◌%◌, ◌^◌};
ghost use Rattle.tx_events.specs.Ids.{low_half};
ghost use Rattle.tx_events.specs.Pages.{subtrans_page};

use crate::full_xid::FullXid;

/// How many ids have their parents on one page, four bytes each (`SUBTRANS_XACTS_PER_PAGE`).
pub const PARENTS_PER_PAGE: u32 = 2048;

/// The page in full. The stored one is its rest by 2^21.
pub fn subtrans_page_in_full(id: FullXid) -> u64
    ensures page { result ≡ subtrans_page id }
    ensures stored { result % 2 ^ 21 ≡ subtrans_page (low_half id) }
{
    id.number() / u64::from(PARENTS_PER_PAGE)
}
