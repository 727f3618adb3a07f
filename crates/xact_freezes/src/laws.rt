//! What no truncation removes, and what each does.
ghost use Rattle.xact_freezes.specs.Members.{MembersHeld};
ghost use Rattle.xact_freezes.specs.Reached.{ParentsCut, StatesCut, StatesCutNear};

/// In a life of fewer than 2,900,000 multixacts no page is cut that has a member of one from the announced oldest
/// multixact on, so of none that is pinned.
pub fn members_held()
    ensures { MembersHeld }
{}

/// What an `ok` trim cut in a life of fewer than 2,900,000 ids: each bank of pg_subtrans before the page of the id before
/// the oldest xmin; and each of pg_xact before that of the oldest id, or less than a segment before it. It is that page
/// itself where the life began with its oldest id on one of the first three pages of a segment, or gave fewer than
/// 1,950,000 ids.
pub fn trims_cut()
    ensures parents { ParentsCut }
    ensures near { StatesCutNear }
    ensures states { StatesCut }
{}
