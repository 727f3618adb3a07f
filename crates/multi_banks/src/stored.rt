//! Offsets and pages as they are stored, and the page before which the offsets are cut.
ghost use Rattle.std.specs.Prelude.{◌≡◌, ◌%◌, ◌^◌};
ghost use Rattle.store_pages.specs.Layouts.{multi_before};
ghost use Rattle.tx_events.specs.Pages.{offset_page};
ghost use Rattle.tx_events.specs.Ids.{low_half};

use tx_events::FullMulti;

/// The 32 bits of an offset that are stored, and by which pages and locks go.
pub(crate) fn low_offset(offset: u64) -> u32
    ensures { result ≡ low_half offset }
{
    (offset & 0xffff_ffff) as u32
}

/// The page in full of the multixact before this one (`PreviousMultiXactId` of
/// `src/backend/access/transam/multixact.c`); page 0 where there is none.
pub(crate) fn page_before(oldest: FullMulti) -> u64
    ensures { result ≡ offset_page (multi_before oldest) }
{
    let number = oldest.number();
    let before = number - 1;
    if before & 0xffff_ffff == 0 && before != 0 {
        (number - 2) / 2048
    } else {
        before / 2048
    }
}

/// A page of offsets as it is stored.
pub(crate) fn stored_offsets(page: u64) -> u32
    ensures { result ≡ page % 2 ^ 21 }
{
    (page % 2_097_152) as u32
}

/// A page of members as it is stored.
pub(crate) fn stored_members(page: u64) -> u32
    ensures { result ≡ page % 2625286 }
{
    (page % 2_625_286) as u32
}
