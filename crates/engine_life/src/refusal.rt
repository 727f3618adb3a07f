//! Why no life was opened.
ghost use Rattle.std.specs.Prelude.{◌≡◌};
ghost use Rattle.engine_life.specs.Refusals.{refusal_by, unrecovered_by};

use engine_host::OpenRefusal;
use replay_core::RecoverRefusal;

/// Why no life was opened over a media.
#[derive(Clone, Copy, Debug, PartialEq, Eq)]
pub enum NoLife {
    /// The log's volume is no lawful log, from the gate at this place on.
    Damaged { at: u64 },
    /// The media or a volume failed.
    Device,
    /// There is no room for the checkpoint with which the life begins.
    Full,
    /// Out of memory.
    Memory,
}

// What a refusal of the engine means here.
pub(crate) fn refusal_of(refusal: OpenRefusal) -> NoLife
    ensures { result ≡ refusal_by refusal }
{
    match refusal {
        OpenRefusal::LogFault | OpenRefusal::DiskFault { .. } => NoLife::Device,
        OpenRefusal::Full => NoLife::Full,
        OpenRefusal::Memory => NoLife::Memory,
    }
}

// And one to recover.
pub(crate) fn unrecovered(refusal: RecoverRefusal) -> NoLife
    ensures { result ≡ unrecovered_by refusal }
{
    match refusal {
        RecoverRefusal::Damaged { at } => NoLife::Damaged { at },
        RecoverRefusal::LogFault | RecoverRefusal::DiskFault { .. } => NoLife::Device,
        RecoverRefusal::Full => NoLife::Full,
        RecoverRefusal::Memory => NoLife::Memory,
    }
}
