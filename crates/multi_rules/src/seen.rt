//! What a command's snapshots show of a stored half.
ghost use Rattle.std.specs.Prelude.{◌≡◌, ◌==◌, ℕ, ◌^◌, ◌<◌, ◌≤◌, ◌↔◌, IsTrue, IfSome, Some, List, length, slice_get, take};
ghost use Rattle.std.specs.BTreeSet.{contains};
ghost use Rattle.std.specs.Ordering.{nat_cmp};
ghost use Rattle.std.specs.List.{list_any};
ghost use Rattle.tx_events.specs.Nearest.{near_id};
ghost use Rattle.tx_events.specs.Visible.{is_visible};
ghost use Rattle.tx_model.specs.Replies.{seen_id, taken_by};
ghost use Rattle.report_law.specs.MultiLines.{MayCarry};
ghost use Rattle.report_law.specs.Steps.{IsSeen, IsTooOldFor};
ghost use Rattle.multi_rules.specs.Shown.{AreFull, Asking, MeanTheSame, Seeing};
ghost use Rattle.multi_rules.specs.Snapped.{AreTaken, NeverFall};

use crate::taken::Taken;
use crate::visible::legal;
use history_places::{HistoryPlaces, was_visible};
use std::collections::BTreeSet;
use tx_events::{FullXid, Xid, near};

/// The id that the stored half means to a snapshot: a special one itself, each other the one near its xmax.
fn seen_id(xmax: FullXid, x: Xid) -> Option<FullXid>
    requires from { 3 ≤ xmax }
    requires to { xmax < 2 ^ 63 }
    ensures { result ≡ seen_id xmax x.number }
{
    if x.number < 3 {
        return FullXid::new(u64::from(x.number));
    }
    near(xmax, x)
}

/// Whether the id that the stored half means to a snapshot with this xmax is below `oldest`, or would be below 0.
fn is_older_to(xmax: FullXid, x: Xid, oldest: FullXid) -> bool
    requires normal { 3 ≤ x.number }
    requires from { 3 ≤ xmax }
    requires to { xmax < 2 ^ 63 }
    ensures { IsTrue result ↔ IfSome (near_id xmax x.number) (λ id. id < oldest) }
{
    match near(xmax, x) {
        Some(id) => id < oldest,
        None => true,
    }
}

fn is_alike(one: bool, other: bool) -> bool
    ensures { IsTrue result ↔ (one ≡ other) }
{
    one == other
}

/// Whether the id that the stored half means to a snapshot with this xmax is shown so at this place.
fn shows_so(
    places: &HistoryPlaces,
    committed: &BTreeSet<u64>,
    place: u64,
    xmax: FullXid,
    x: Xid,
    visible: bool,
) -> bool
    ghost ids: { List ℕ }
    requires known { (y : ℕ) → contains nat_cmp committed.now y ≡ list_any (λ z. z == y) ids }
    requires place { place ≤ length places.now.events }
    requires from { 3 ≤ xmax }
    requires to { xmax < 2 ^ 63 }
    ensures { IsTrue result ↔ ((id : ℕ) × (seen_id xmax x.number ≡ Some id) × (visible ≡ is_visible ids (take place places.now.events) id)) }
{
    match seen_id(xmax, x) {
        Some(id) => is_alike(visible, was_visible(places.replay(), committed, place, id)),
        None => false,
    }
}

/// Whether the stored half means the same to both.
fn mean_the_same(one: FullXid, other: FullXid, x: Xid) -> bool
    requires from { (3 ≤ one) × (3 ≤ other) }
    requires to { (one < 2 ^ 63) × (other < 2 ^ 63) }
    ensures { IsTrue result ↔ (seen_id one x.number ≡ seen_id other x.number) }
{
    seen_id(one, x) == seen_id(other, x)
}

/// Where those end that follow the snapshot of this number and to which the stored half means the same.
fn same_until(taken: &[Taken], from: usize, x: Xid) -> usize
    requires order { NeverFall taken.now }
    requires full { AreFull taken.now }
    requires within { from < length taken.now }
    ensures forward { from < result }
    ensures within { result ≤ length taken.now }
    ensures same { MeanTheSame taken.now x.number from result }
{
    let first = taken[from].xmax;
    let mut same = from + 1;
    let mut end = taken.len();
    while same < end {
        let middle = same + (end - same) / 2;
        if mean_the_same(first, taken[middle].xmax, x) {
            same = middle + 1;
        } else {
            end = middle;
        }
    }
    same
}

/// Whether the snapshot that the session's command `number` took shows the id so: these are all that it took. `committed`
/// are the ids that the base has as committed. The first and the last one tell of those to which the stored half means the
/// same.
pub fn is_seen(
    places: &HistoryPlaces,
    committed: &BTreeSet<u64>,
    taken: &[Taken],
    x: Xid,
    visible: bool,
) -> bool
    ghost seeing: { Seeing }
    requires known { (y : ℕ) → contains nat_cmp committed.now y ≡ list_any (λ z. z == y) seeing.ids }
    requires taken { AreTaken places.now.base.next places.now.events (taken_by seeing.by seeing.number) taken.now }
    ensures { IsTrue result ↔ IsSeen places.now.base seeing.ids places.now.events seeing.by seeing.number x.number visible }
{
    legal(places);
    let mut from = 0;
    while from < taken.len() {
        let end = same_until(taken, from, x);
        let first = taken[from];
        let last = taken[end - 1];
        if shows_so(places, committed, first.place, first.xmax, x, visible) {
            return true;
        }
        if shows_so(places, committed, last.place, last.xmax, x, visible) {
            return true;
        }
        from = end;
    }
    false
}

/// Whether the id that the stored half means to the snapshot is below this oldest id, which the command may carry where
/// `carried`. These are all snapshots that the command took; the first one decides.
pub fn is_too_old_for(
    places: &HistoryPlaces,
    taken: &[Taken],
    x: Xid,
    oldest: FullXid,
    carried: bool,
) -> bool
    ghost asked: { Asking }
    requires taken { AreTaken places.now.base.next places.now.events (taken_by asked.by asked.number) taken.now }
    requires carried { IsTrue carried ↔ MayCarry places.now.base places.now.events asked.round oldest }
    ensures { IsTrue result ↔ IsTooOldFor places.now.base places.now.events asked.round asked.by asked.number x.number oldest }
{
    if x.number < 3 {
        return false;
    }
    if !carried {
        return false;
    }
    legal(places);
    match taken.first() {
        Some(first) => is_older_to(first.xmax, x, oldest),
        None => false,
    }
}
