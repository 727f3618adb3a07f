//! Where the multixacts that a life finds recorded were given.
ghost use Rattle.std.specs.Prelude.{IfSome, IfNone, map};
ghost use Rattle.tx_events.specs.IdLists.{Ascending};
ghost use Rattle.multi_rules.specs.Stored.{IsMissing, IsPlaceOf};

use tx_events::FullMulti;

/// A multixact that the log has recorded before the life, the offset at which its members begin, and where it was given: in
/// which of the lives, counted from 0, and by which of that life's multixact events.
#[derive(Clone, Copy, Debug, PartialEq, Eq)]
pub struct Home {
    pub multi: FullMulti,
    pub offset: u64,
    pub life: u64,
    pub event: u64,
}

/// Where the multixact stands among these, which ascend. None where it doesn't.
pub fn place_of(homes: &[Home], multi: FullMulti) -> Option<usize>
    requires { Ascending (map (λ (h : Home). h.multi) homes.now) }
    ensures some { IfSome result (IsPlaceOf homes.now multi) }
    ensures none { IfNone result (IsMissing homes.now multi) }
{
    homes.binary_search_by_key(&multi, |h| h.multi).ok()
}
