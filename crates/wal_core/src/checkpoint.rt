// The checkpoint before which a log can be forgotten. With counters below those of the log it can't: a later record that was
// lawful in the whole log could then damage the one that begins here.
ghost use Rattle.std.specs.Prelude.{◌≡◌};
ghost use Rattle.wal_core.specs.Checkpoint.{IsLastCheckpoint};

use tx_events::{Counters, Rec};

/// A checkpoint that is alone in the last batch of a log, and whose counters were those of the log: a log that begins
/// with it has the same counters.
#[derive(Clone, Copy, Debug, PartialEq, Eq)]
pub struct LastCheckpoint {
    /// The place of its gate.
    pub gate: u64,
    /// The number of its record, through all lives.
    pub number: u64,
    pub counters: Counters,
}

// The checkpoint of a batch at this gate, where it is alone there and has the counters that the log has after it.
pub(crate) fn checkpoint_of(
    gate: u64,
    batch: &[Rec],
    after: Option<Counters>,
) -> Option<LastCheckpoint>
    ensures { IsLastCheckpoint gate batch.now after result }
{
    match batch {
        [Rec::Checkpoint { number, counters }] if after == Some(*counters.get()) => {
            Some(LastCheckpoint {
                gate,
                number: *number,
                counters: *counters.get(),
            })
        }
        _ => None,
    }
}
