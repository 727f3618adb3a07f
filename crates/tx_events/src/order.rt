//! Which of two stored numbers comes before the other, around the ring.
ghost use Rattle.std.specs.Prelude.{◌≡◌, ℕ, ◌+◌, ◌-◌, ◌%◌, ◌^◌, ◌<◌, ◌≤◌, ◌⊎◌, ◌↔◌, IsTrue};
ghost use Rattle.tx_events.specs.Order.{OrdersNear, OrdersNearIds, ring_before, xid_before};

use crate::full_multi::MultiId;

/// The stored half of a transaction id (`TransactionId`): 0 is invalid, 1 the bootstrap id (`BootstrapTransactionId`),
/// 2 the frozen one (`FrozenTransactionId`), 3 the first normal one (`FirstNormalTransactionId`).
#[derive(Clone, Copy, Debug, PartialEq, Eq, PartialOrd, Ord, Hash)]
pub struct Xid {
    pub number: u32,
}

/// Whether `a` comes before `b` (`TransactionIdPrecedes`). Special ids compare as numbers, the others by their
/// signed difference, which is the order of the full ids wherever these are less than 2^31 apart.
pub fn precedes(a: Xid, b: Xid) -> bool
    ensures special { (a.number < 3) ⊎ (b.number < 3) → IsTrue result ↔ (a.number < b.number) }
    ensures near { OrdersNearIds a.number b.number result }
    ensures value { result ≡ xid_before a.number b.number }
{
    if a.number < 3 || b.number < 3 {
        return a.number < b.number;
    }
    a.number.wrapping_sub(b.number) > 0x7fff_ffff
}

/// Whether multixact `a` comes before `b` (`MultiXactIdPrecedes`): by their signed difference, with no special
/// values.
pub fn multi_precedes(a: MultiId, b: MultiId) -> bool
    ensures near { OrdersNear a.number b.number result }
    ensures value { result ≡ ring_before a.number b.number }
{
    a.number.wrapping_sub(b.number) > 0x7fff_ffff
}

/// Whether member offset `a` comes before `b` (`MultiXactOffsetPrecedes`): by their signed difference.
pub fn offset_precedes(a: u32, b: u32) -> bool
    ensures near { OrdersNear a b result }
    ensures value { result ≡ ring_before a b }
{
    a.wrapping_sub(b) > 0x7fff_ffff
}
