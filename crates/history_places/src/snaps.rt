//! What is kept of a snapshot.
ghost use Rattle.std.specs.Prelude.{◌≡◌, ◌↔◌, IsTrue, Some};
ghost use Rattle.std.specs.Option.{option_copied};
ghost use Rattle.history_places.specs.SnapMarks.{IsMarkOf};

use tx_events::{FullXid, SharedSnap};

/// What is kept of a snapshot.
#[derive(Clone, Copy, Debug, PartialEq, Eq)]
pub struct SnapMark {
    pub xmax: FullXid,
    /// Whether its command was answered with these lists.
    pub right: bool,
}

fn same_ids(one: &[FullXid], other: &[FullXid]) -> bool
    ensures { IsTrue result ↔ (one.now ≡ other.now) }
{
    one == other
}

/// Whether both hold the same.
fn is_same(one: &SharedSnap, other: &SharedSnap) -> bool
    ensures { IsTrue result ↔ (one.now ≡ other.now) }
{
    if one.xmin() != other.xmin() {
        return false;
    }
    if one.xmax() != other.xmax() {
        return false;
    }
    if one.overflowed() != other.overflowed() {
        return false;
    }
    if !same_ids(one.xip(), other.xip()) {
        return false;
    }
    same_ids(one.subxip(), other.subxip())
}

/// What is kept of a snapshot that holds this, of whose command the reply tells these lists, if it tells any.
pub fn snap_mark(holds: &SharedSnap, told: Option<&SharedSnap>) -> SnapMark
    ensures { IsMarkOf holds.now (option_copied told.entry) result }
{
    let right = match told {
        Some(lists) => is_same(holds, lists),
        None => false,
    };
    SnapMark {
        xmax: holds.xmax(),
        right,
    }
}
