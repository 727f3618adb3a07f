// How many numbers a page of each store holds.

use crate::rows::PageSpan;
use store_pages::{
    MEMBERS_PER_PAGE, MemberPages, OFFSETS_PER_PAGE, OffsetPages, SubtransPages, XACTS_PER_PAGE,
    XactPages,
};
use tx_events::PARENTS_PER_PAGE;

impl PageSpan for XactPages {
    fn per_page() -> u32 {
        XACTS_PER_PAGE
    }
}

impl PageSpan for SubtransPages {
    fn per_page() -> u32 {
        PARENTS_PER_PAGE
    }
}

impl PageSpan for OffsetPages {
    fn per_page() -> u32 {
        OFFSETS_PER_PAGE
    }
}

impl PageSpan for MemberPages {
    fn per_page() -> u32 {
        MEMBERS_PER_PAGE
    }
}
