// Numbers of 32 bits on pages.
ghost use Rattle.std.specs.Prelude.{◌≡◌, ◌+◌, ◌*◌, ◌%◌, ◌^◌};

// The number so many past the first one of a page, around the ring.
pub(crate) fn number_on(page: u32, per_page: u32, past: u32) -> u32
    ensures { result ≡ (page * per_page + past) % 2 ^ 32 }
{
    page.wrapping_mul(per_page).wrapping_add(past)
}
