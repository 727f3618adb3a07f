// What a bank has to know of its store's pages.
ghost use Rattle.std.specs.Prelude.{◌≡◌, ℕ, Bool};
ghost use Rattle.tx_events.specs.PageOrder.{Shape, page_precedes};

/// How many pages a segment has, the least that a truncation removes (`SLRU_PAGES_PER_SEGMENT` of `slru.h`).
pub const PAGES_PER_SEGMENT: u32 = 32;

/// The order of a store's pages (`PagePrecedes` of `SlruCtlData`). Each store has a type of its own for it.
pub trait PageRule {
    /// What the store's numbers are.
    ghost shape: { Shape };

    /// How many of them stand on a page.
    ghost per_page: { ℕ };

    /// Whether page `p` comes before page `q`: the number that stands for `p` comes before that of `q`, and before the
    /// last one of a page's length from there.
    fn precedes(p: u32, q: u32) -> bool
        ensures { result ≡ page_precedes shape per_page p q };
}
