//! Where multixacts of a life's base begin.
ghost use Rattle.std.specs.Prelude.{◌≡◌, ◌↔◌, ◌<◌, IsTrue, IfSome, IfNone, Contains, map};
ghost use Rattle.tx_events.specs.IdLists.{Ascending};
ghost use Rattle.history_places.specs.Starts.{IsMissing, IsPlaceOf, start_of};

use tx_events::FullMulti;

/// A multixact that the log has recorded before the life, and the offset at which its members begin.
#[derive(Clone, Copy, Debug, PartialEq, Eq)]
pub struct Start {
    pub multi: FullMulti,
    pub offset: u64,
}

/// Where the multixact stands among these, which ascend. None where it doesn't.
fn place_of(starts: &[Start], multi: FullMulti) -> Option<usize>
    requires { Ascending (map (λ (s : Start). s.multi) starts.now) }
    ensures some { IfSome result (IsPlaceOf starts.now multi) }
    ensures none { IfNone result (IsMissing starts.now multi) }
{
    starts.binary_search_by_key(&multi, |s| s.multi).ok()
}

/// Whether the multixact begins at this offset by one of these, which ascend. Takes a binary search.
pub fn is_start(starts: &[Start], multi: FullMulti, offset: u64) -> bool
    requires { Ascending (map (λ (s : Start). s.multi) starts.now) }
    ensures { IsTrue result ↔ Contains starts.now (start_of multi offset) }
{
    match place_of(starts, multi) {
        Some(place) => starts[place].offset == offset,
        None => false,
    }
}
