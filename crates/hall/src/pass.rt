//! What a thread goes through a table with.
ghost use Rattle.std.specs.Prelude.{◌≡◌};
ghost use Rattle.hall.specs.Fits.{Fits};

use crate::law::Law;
use crate::names::Names;
use crate::view::{Held, View};
use atomic_table::Seat;

/// A lock permit. It carries what its thread knows of the table, in contracts alone, and the number of
/// the lock that it looked at last. It names no law, so that a type that holds one needs none.
#[derive(Drop)]
pub struct Token<V, E, S> {
    pub(crate) seat: Seat<Held<V, E>, View<S, E>>,
    pub(crate) cell: usize,
    pub(crate) names: Names,
    ghost fits: { Fits seat.table_id.slots seat.table_id.words cell names seat.me },
}

/// The permit of a table over the law `L`.
pub type Pass<L> = Token<<L as Law>::Value, <L as Law>::Entry, <L as Law>::Start>;
