//! What a stored half means.
ghost use Rattle.std.specs.Prelude.{◌≡◌, ◌^◌, ◌<◌, ◌≤◌, ◌↔◌, IsTrue, IfSome};
ghost use Rattle.tx_events.specs.Nearest.{near_id};
ghost use Rattle.report_law.specs.MultiLines.{IsUngiven};

use tx_events::{FullXid, Xid, near};

/// Whether the id that the stored half means near `f` is below `oldest`, or would be below 0.
pub fn is_older(f: FullXid, x: Xid, oldest: FullXid) -> bool
    requires normal { 3 ≤ x.number }
    requires from { 3 ≤ f }
    requires to { f < 2 ^ 63 }
    ensures { IsTrue result ↔ IfSome (near_id f x.number) (λ id. id < oldest) }
{
    match near(f, x) {
        Some(id) => id < oldest,
        None => true,
    }
}

/// Whether the stored half is of a special id, or means one from `next` on.
pub fn is_ungiven(next: FullXid, x: Xid) -> bool
    requires from { 3 ≤ next }
    requires to { next < 2 ^ 63 }
    ensures { IsTrue result ↔ IsUngiven next x.number }
{
    if x.number < 3 {
        return true;
    }
    match near(next, x) {
        Some(id) => next <= id,
        None => false,
    }
}
