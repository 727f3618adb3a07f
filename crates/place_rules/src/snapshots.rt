//! The rule of what a snapshot holds.
ghost use Rattle.std.specs.Prelude.{◌≡◌, ◌<◌, ◌↔◌, IsTrue, Some, length};
ghost use Rattle.history_places.specs.SnapMarks.{AreSnapMarks};
ghost use Rattle.place_rules.specs.Runs.{AreItsPlaces, IsRightMark, IsSnapped, Snapping};

use history_places::SnapMark;

/// Whether the place has a snapshot whose command was answered with its lists.
fn is_right(snaps: &[Option<SnapMark>], place: u64) -> bool
    requires { place < length snaps.now }
    ensures { IsTrue result ↔ IsRightMark snaps.now place }
{
    match snaps[place as usize] {
        Some(mark) => mark.right,
        None => false,
    }
}

/// Whether a snapshot that the command took holds what its reply tells. These are the places of its events.
pub fn is_snapped(snaps: &[Option<SnapMark>], run: &[u64]) -> bool
    ghost said: { Snapping }
    requires run { AreItsPlaces said.events said.by run.now }
    requires marks { AreSnapMarks said.first said.events said.told snaps.now }
    requires lists { said.told said.by ≡ Some said.lists }
    ensures { IsTrue result ↔ IsSnapped said }
{
    for place in run {
        if is_right(snaps, *place) {
            return true;
        }
    }
    false
}
