// Laws of what a log volume opens to, and of what may come next.
ghost use Rattle.wal_core.specs.Laws.{CheckpointMayCome, FirstStays, SizesMatch};
ghost use Rattle.wal_core.specs.Spelled.{OpensExactly, NewExactly};

/// A volume opens to a history exactly where its bytes are batches of that history's records, each spelled, up to a gate
/// that isn't open.
pub fn opens_exactly()
    ensures { OpensExactly }
{}

/// A volume opens to no history, with its first gate at 0, exactly where its start is 0 and it has at most one byte or its
/// first gate is closed.
pub fn new_exactly()
    ensures { NewExactly }
{}

/// To a log whose counters are a base a checkpoint of these may be appended.
pub fn checkpoint_may_come()
    ensures { CheckpointMayCome }
{}

/// With a batch more a history begins where it did.
pub fn first_stays()
    ensures { FirstStays }
{}

/// A record's size is how many bytes spell it.
pub fn sizes_match()
    ensures { SizesMatch }
{}
