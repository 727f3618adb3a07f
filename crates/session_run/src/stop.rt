//! Why a run stopped before its end.

use engine_life::NoLife;

/// Why a run stopped before its report was whole.
pub enum Stopped {
    /// The sink failed.
    Sink,
    /// The media failed at a crash, no life was opened, or memory was wanting.
    NoLife(NoLife),
}
