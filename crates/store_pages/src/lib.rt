//! Where the numbers of the four stores stand: how many a page holds, the page and the place of an id, of a multixact
//! or of a member, the order of the pages, and the bank of a page. After the macros and the page orders of PostgreSQL's
//! `clog.c`, `subtrans.c`, `multixact.c` and `slru.c` in `src/backend/access/transam`. `docs/PAGES.md` tells more.
#![tactic(auto)]

mod banks;
mod clog;
mod members;
mod offsets;
mod page_rule;
mod ring;
mod subtrans;

pub use banks::bank_of;
pub use clog::{
    XACTS_PER_PAGE, XactPages, xact_cut_page, xact_page, xact_page_in_full, xact_place,
};
pub use members::{
    MEMBERS_PER_PAGE, MemberPages, id_position, member_page, member_page_in_full, mode_position,
};
pub use offsets::{OFFSETS_PER_PAGE, OffsetPages, offset_page, offset_page_in_full, offset_place};
pub use page_rule::{PAGES_PER_SEGMENT, PageRule};
pub use subtrans::{SubtransPages, subtrans_cut_page, subtrans_page, subtrans_place};
