//! Laws on pages, limits and bases. The functions do nothing; their contracts are the laws.
ghost use Rattle.std.specs.Prelude.{ℕ, ◌≤◌};
ghost use Rattle.tx_events.specs.LifeBase.{BasesAdd};
ghost use Rattle.tx_events.specs.Limits.{LimitsRise};
ghost use Rattle.tx_events.specs.PageOrder.{Ids, Multis, Offsets, IsKeptFrom};

/// In each store a page with a number from the cutoff's number on, and less than 2^31 - 2^15 past it, isn't cut. Given
/// numbers stop 3,000,000 before 2^31 past the oldest one, so none of their pages is, and no page right behind them.
#[tactic(auto, using(crate::specs::PageWindow::id_is_kept, crate::specs::PageWindow::parent_is_kept, crate::specs::PageWindow::multi_is_kept, crate::specs::PageWindow::member_is_kept))]
pub fn pages_are_kept()
    ensures ids { IsKeptFrom Ids 32768 }
    ensures parents { IsKeptFrom Ids 2048 }
    ensures multis { IsKeptFrom Multis 2048 }
    ensures members { IsKeptFrom Offsets 1636 }
{}

/// No limit falls where the oldest number rises.
pub fn limits_rise()
    ensures { (a b : ℕ) → a ≤ b → LimitsRise a b }
{}

/// The base behind two stretches of records is the one that the second gives from the base behind the first.
pub fn bases_add()
    ensures { BasesAdd }
{}
