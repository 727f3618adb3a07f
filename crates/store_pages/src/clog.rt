// The pages of the commit log. After PostgreSQL's `src/backend/access/transam/clog.c`.
ghost use Rattle.std.specs.Prelude.{◌≡◌, ◌<◌, ◌+◌, ◌*◌, ◌%◌, ◌^◌, ℕ};
ghost use Rattle.tx_events.specs.Ids.{low_half};
ghost use Rattle.tx_events.specs.PageOrder.{Ids, page_precedes};
ghost use Rattle.tx_events.specs.Pages.{xact_page, xact_place, xacts_per_page};
ghost use Rattle.store_pages.specs.Layouts.{xact_cut_page};

use crate::page_rule::{PAGES_PER_SEGMENT, PageRule};
use crate::ring::number_on;
use tx_events::{FullXid, Xid, precedes};

/// How many ids have their states on one page, two bits each (`CLOG_XACTS_PER_PAGE`).
pub const XACTS_PER_PAGE: u32 = 32768;

/// How many pages half a ring of ids has.
const HALF_RING: u64 = 65_536;

/// The page of an id's state as it is stored, below 2^17 (`TransactionIdToPage`).
pub fn xact_page(x: Xid) -> u32
    ensures page { result ≡ xact_page x.number }
    ensures within { result < 2 ^ 17 }
{
    x.number / XACTS_PER_PAGE
}

/// Which state of its page it is (`TransactionIdToPgIndex`).
pub fn xact_place(x: Xid) -> u32
    ensures place { result ≡ xact_place x.number }
    ensures within { result < xacts_per_page }
{
    x.number % XACTS_PER_PAGE
}

/// The page in full. The stored one is its rest by 2^17.
pub fn xact_page_in_full(id: FullXid) -> u64
    ensures page { result ≡ xact_page id }
    ensures stored { result % 2 ^ 17 ≡ xact_page (low_half id) }
{
    id.number() / u64::from(XACTS_PER_PAGE)
}

/// The page in full before which a life that began with the oldest id `first` cuts pg_xact (`TruncateCLOG`): that of the
/// oldest id, or the last one less than half a ring past the segment of the first one.
pub fn xact_cut_page(first: FullXid, oldest: FullXid) -> u64
    ensures { result ≡ xact_cut_page first oldest }
{
    let segment = u64::from(PAGES_PER_SEGMENT);
    let begin = first.number() / u64::from(XACTS_PER_PAGE) / segment * segment;
    xact_page_in_full(oldest).min(begin + (HALF_RING - 1))
}

/// The order of the pages of states.
#[derive(Clone, Copy, Drop)]
pub struct XactPages;

impl PageRule for XactPages {
    ghost shape = { Ids };

    ghost per_page = { xacts_per_page };

    /// A page is seen by its fifth id, as in `CLOGPagePrecedes`: the first ones of page 0 are the special ids.
    fn precedes(p: u32, q: u32) -> bool
        ensures order { result ≡ page_precedes Ids xacts_per_page p q }
    {
        let first = id_on(p, 4);
        precedes(first, id_on(q, 4)) && precedes(first, id_on(q, XACTS_PER_PAGE + 3))
    }
}

fn id_on(page: u32, past: u32) -> Xid
    ensures { result.number ≡ (page * xacts_per_page + past) % 2 ^ 32 }
{
    Xid {
        number: number_on(page, XACTS_PER_PAGE, past),
    }
}
