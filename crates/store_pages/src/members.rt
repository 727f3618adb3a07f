// The pages of the members of multixacts. After PostgreSQL's `src/backend/access/transam/multixact.c`.
ghost use Rattle.std.specs.Prelude.{◌≡◌, ◌<◌, ◌≤◌, ◌+◌, ◌*◌, ◌%◌, ◌^◌, ℕ};
ghost use Rattle.tx_events.specs.Ids.{low_half};
ghost use Rattle.tx_events.specs.PageOrder.{Offsets, page_precedes};
ghost use Rattle.tx_events.specs.Pages.{id_at, member_page, member_page_in_full, member_place, members_per_page, mode_at};

use crate::page_rule::PageRule;
use crate::ring::number_on;
use tx_events::offset_precedes;

/// How many members one page holds, in 409 groups of 20 bytes (`MULTIXACT_MEMBERS_PER_PAGE`).
pub const MEMBERS_PER_PAGE: u32 = 1636;

/// How many members a group holds (`MULTIXACT_MEMBERS_PER_MEMBERGROUP`).
const MEMBERS_PER_GROUP: u32 = 4;

/// How many bytes a group has: a mode byte for each member, and then their ids (`MULTIXACT_MEMBERGROUP_SIZE`).
const GROUP_SIZE: u32 = 20;

/// How many pages the 2^32 stored offsets fill, the last one not to its end.
const PAGES_PER_LAP: u64 = 2_625_286;

/// The page of a member as it is stored, by its stored offset (`MXOffsetToMemberPage`).
pub fn member_page(offset: u32) -> u32
    ensures page { result ≡ member_page offset }
    ensures within { result < 2625286 }
{
    offset / MEMBERS_PER_PAGE
}

/// The page in full, by the full offset. The stored one is its rest by 2625286.
pub fn member_page_in_full(offset: u64) -> u64
    ensures page { result ≡ member_page_in_full offset }
    ensures stored { result % 2625286 ≡ member_page (low_half offset) }
{
    let low = offset & 0xffff_ffff;
    (offset >> 32) * PAGES_PER_LAP + low / u64::from(MEMBERS_PER_PAGE)
}

/// The position of a member's mode on its page, in bytes (`MXOffsetToFlagsOffset` and `MXOffsetToFlagsBitShift`).
pub fn mode_position(offset: u32) -> u32
    ensures position { result ≡ mode_at (member_place offset) }
    ensures within { result < 8192 }
{
    let place = offset % MEMBERS_PER_PAGE;
    GROUP_SIZE * (place / MEMBERS_PER_GROUP) + place % MEMBERS_PER_GROUP
}

/// The position of a member's id on its page, in bytes (`MXOffsetToMemberOffset`).
pub fn id_position(offset: u32) -> u32
    ensures position { result ≡ id_at (member_place offset) }
    ensures within { result + 4 ≤ 8192 }
{
    let place = offset % MEMBERS_PER_PAGE;
    GROUP_SIZE * (place / MEMBERS_PER_GROUP) + MEMBERS_PER_GROUP + 4 * (place % MEMBERS_PER_GROUP)
}

/// The order of the pages of members.
#[derive(Clone, Copy, Drop)]
pub struct MemberPages;

impl PageRule for MemberPages {
    ghost shape = { Offsets };

    ghost per_page = { members_per_page };

    /// A page is seen by its first offset, as in `MultiXactMemberPagePrecedes`.
    fn precedes(p: u32, q: u32) -> bool
        ensures order { result ≡ page_precedes Offsets members_per_page p q }
    {
        let first = offset_on(p, 0);
        offset_precedes(first, offset_on(q, 0))
            && offset_precedes(first, offset_on(q, MEMBERS_PER_PAGE - 1))
    }
}

fn offset_on(page: u32, past: u32) -> u32
    ensures { result ≡ (page * members_per_page + past) % 2 ^ 32 }
{
    number_on(page, MEMBERS_PER_PAGE, past)
}
