// The pages of the parents of subtransactions. After PostgreSQL's `src/backend/access/transam/subtrans.c`.
ghost use Rattle.std.specs.Prelude.{◌≡◌, ◌<◌, ◌≤◌, ◌+◌, ◌*◌, ◌%◌, ◌^◌, ℕ};
ghost use Rattle.tx_events.specs.PageOrder.{Ids, page_precedes};
ghost use Rattle.tx_events.specs.Pages.{parents_per_page, subtrans_page, subtrans_place};
ghost use Rattle.store_pages.specs.Layouts.{subtrans_cut_page};

use crate::page_rule::{PAGES_PER_SEGMENT, PageRule};
use crate::ring::number_on;
use tx_events::{FullXid, PARENTS_PER_PAGE, Xid, precedes, subtrans_page_in_full};

/// How many pages half a ring of ids has.
const HALF_RING: u64 = 1_048_576;

/// The page of an id's parent as it is stored, below 2^21 (`TransactionIdToPage`).
pub fn subtrans_page(x: Xid) -> u32
    ensures page { result ≡ subtrans_page x.number }
    ensures within { result < 2 ^ 21 }
{
    x.number / PARENTS_PER_PAGE
}

/// Which parent of its page it is (`TransactionIdToEntry`).
pub fn subtrans_place(x: Xid) -> u32
    ensures place { result ≡ subtrans_place x.number }
    ensures within { result < parents_per_page }
{
    x.number % PARENTS_PER_PAGE
}

/// The page in full before which a life that began with the oldest id `first` cuts pg_subtrans (`TruncateSUBTRANS`): that
/// of the id before the oldest xmin, or the last one less than half a ring past the page before the first one's segment.
pub fn subtrans_cut_page(first: FullXid, xmin: FullXid) -> u64
    requires { 1 ≤ xmin }
    ensures { result ≡ subtrans_cut_page first xmin }
{
    let segment = u64::from(PAGES_PER_SEGMENT);
    let begin = first.number() / u64::from(PARENTS_PER_PAGE) / segment * segment;
    subtrans_page_in_full(xmin.retreat()).min(begin + (HALF_RING - 2))
}

/// The order of the pages of parents.
#[derive(Clone, Copy, Drop)]
pub struct SubtransPages;

impl PageRule for SubtransPages {
    ghost shape = { Ids };

    ghost per_page = { parents_per_page };

    /// A page is seen by its fifth id, as in `SubTransPagePrecedes`.
    fn precedes(p: u32, q: u32) -> bool
        ensures order { result ≡ page_precedes Ids parents_per_page p q }
    {
        let first = id_on(p, 4);
        precedes(first, id_on(q, 4)) && precedes(first, id_on(q, PARENTS_PER_PAGE + 3))
    }
}

fn id_on(page: u32, past: u32) -> Xid
    ensures { result.number ≡ (page * parents_per_page + past) % 2 ^ 32 }
{
    Xid {
        number: number_on(page, PARENTS_PER_PAGE, past),
    }
}
