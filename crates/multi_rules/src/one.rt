//! By which snapshots the verdict on a member is so.
ghost use Rattle.std.specs.Prelude.{◌≡◌, ◌==◌, ℕ, ◌≤◌, ◌<◌, ◌↔◌, IsTrue, length};
ghost use Rattle.std.specs.BTreeSet.{contains};
ghost use Rattle.std.specs.List.{list_any};
ghost use Rattle.std.specs.Ordering.{nat_cmp};
ghost use Rattle.tx_events.specs.Ids.{low_half};
ghost use Rattle.tx_model.specs.Replies.{RoundSpan, taken_by};
ghost use Rattle.report_law.specs.MultiLines.{MayCarry};
ghost use Rattle.multi_rules.specs.Snapped.{AreBetween, AreTaken};
ghost use Rattle.multi_rules.specs.Telling.{AreToldBy, IsCarriedPast, IsToldBy, Telling, too_old_span};

use crate::nearby::{far_below, not_far_above};
use crate::taken::Taken;
use crate::visible::{legal, unseen};
use history_places::HistoryPlaces;
use place_columns::Span;
use std::collections::BTreeSet;
use tx_events::{FullXid, Member};
use tx_model::{MemberVerdict, Verdict};

/// Whether the mode and the stored half are the member's.
fn is_same(member: &Member, told: &MemberVerdict) -> bool
    ensures { IsTrue result ↔ ((told.now.mode ≡ member.now.mode) × (low_half told.now.id ≡ low_half member.now.id)) }
{
    told.mode == member.mode && told.id.low() == member.id.low()
}

/// Whether a command of the round, which ends at `to`, may carry an oldest id above this one.
fn is_carried_past(places: &HistoryPlaces, to: u64, id: FullXid) -> bool
    ghost round: { RoundSpan }
    requires round { (to ≡ round.to) × (to ≤ length places.now.events) }
    ensures { IsTrue result ↔ IsCarriedPast places.now.base places.now.events round id }
{
    legal(places);
    id < places.oldest_at(to)
}

/// Those from the first one that isn't far below the id to the last one that isn't far above it; or for one below 2^32 from
/// the start, where those far below don't know it, and to the last one only where an oldest id past it may be carried.
fn too_old_span(below: u64, end: u64, id: FullXid, carried: bool) -> Span
    ensures { result ≡ too_old_span below end id carried }
{
    let small = id.number() < 1 << 32;
    Span {
        from: if small { 0 } else { below },
        end: if carried {
            end
        } else if small {
            below
        } else {
            0
        },
    }
}

/// Which of the snapshots tell the verdict so on the member.
fn span_of(
    places: &HistoryPlaces,
    committed: &BTreeSet<u64>,
    taken: &[Taken],
    to: u64,
    member: Member,
    told: MemberVerdict,
) -> Span
    ghost of: { Telling }
    requires known { (y : ℕ) → contains nat_cmp committed.now y ≡ list_any (λ z. z == y) of.ids }
    requires taken { AreTaken places.now.base.next places.now.events (taken_by of.by of.number) taken.now }
    requires round { (to ≡ of.round.to) × (to ≤ length places.now.events) }
    ensures { AreBetween (IsToldBy places.now.base places.now.events of member told) taken.now result }
{
    legal(places);
    if !is_same(&member, &told) {
        return Span { from: 0, end: 0 };
    }
    let below = far_below(taken, told.id);
    let end = not_far_above(taken, told.id);
    match told.verdict {
        Verdict::TooOld => too_old_span(below, end, told.id, is_carried_past(places, to, told.id)),
        Verdict::Visible => Span {
            from: below.max(unseen(places, committed, taken, told.id)),
            end,
        },
        Verdict::Hidden => Span {
            from: below,
            end: end.min(unseen(places, committed, taken, told.id)),
        },
    }
}

/// Which of the snapshots tell all these verdicts so on the members.
pub fn span_of_all(
    places: &HistoryPlaces,
    committed: &BTreeSet<u64>,
    taken: &[Taken],
    to: u64,
    members: &[Member],
    told: &[MemberVerdict],
) -> Span
    ghost of: { Telling }
    requires known { (y : ℕ) → contains nat_cmp committed.now y ≡ list_any (λ z. z == y) of.ids }
    requires taken { AreTaken places.now.base.next places.now.events (taken_by of.by of.number) taken.now }
    requires round { (to ≡ of.round.to) × (to ≤ length places.now.events) }
    ensures { AreBetween (AreToldBy places.now.base places.now.events of members.now told.now) taken.now result }
{
    if members.len() != told.len() {
        return Span { from: 0, end: 0 };
    }
    let mut span = Span {
        from: 0,
        end: taken.len() as u64,
    };
    for (number, member) in members.iter().enumerate() {
        span = span.and(span_of(places, committed, taken, to, *member, told[number]));
    }
    span
}
