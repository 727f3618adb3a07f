// Which record may come next.
ghost use Rattle.std.specs.Prelude.{◌≡◌, ◌⊎◌, ◌↔◌, ◌^◌, ◌&&◌, ◌∷◌, [], length, nat_lt, IsTrue, IsNone, IsSome, IfSome, false};
ghost use Rattle.tx_events.specs.declared.record.Rec.TheVariants as records;
ghost use Rattle.tx_events.specs.After.{after_record};
ghost use Rattle.wal_core.specs.BaseTest.{is_base_of};
ghost use Rattle.wal_core.specs.Opening.{first_number, number_fits};
ghost use Rattle.wal_core.specs.Log.{counters_or_none, MayAppend};

use crate::counters::counters_after;
use tx_events::{Counters, Rec, is_base};
use wal_records::is_lawful;

fn carries_number(number: u64, rec: &Rec) -> bool
    ensures { result ≡ number_fits number rec.now }
{
    match rec {
        Rec::Checkpoint {
            number: own,
            counters: _,
        } => *own == number,
        _ => true,
    }
}

// The counters after a record, which begins a log that has none. None where they are no base, or it can't begin one.
pub(crate) fn counters_then(counters: Option<Counters>, rec: &Rec) -> Option<Counters>
    ensures some { IfSome result (λ n. n ≡ after_record (counters_or_none counters) rec.now) }
    ensures first { IsSome result → IsNone counters → IsSome (first_number (rec.now ∷ [])) }
    ensures none { IsNone result → (is_base_of (after_record (counters_or_none counters) rec.now) ≡ false) ⊎ (IsNone counters × IsNone (first_number (rec.now ∷ []))) }
{
    match counters {
        Some(counters) => counters_after(&counters, rec),
        None => match rec {
            Rec::Checkpoint {
                number: _,
                counters,
            } => Some(*counters.get()),
            _ => None,
        },
    }
}

// Whether a record may be appended to a log with these counters, as the one of this number.
pub(crate) fn may_come_next(counters: Option<Counters>, number: u64, rec: &Rec) -> bool
    ensures { IsTrue result ↔ MayAppend counters number rec.now }
{
    if !is_lawful(rec) || !carries_number(number, rec) {
        return false;
    }
    match counters_then(counters, rec) {
        Some(after) => is_base(&after),
        None => false,
    }
}
