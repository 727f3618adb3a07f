//! The rule of the table below.
use crate::law::Law;
use crate::view::{Held, Opening, View};
use atomic_table::TableRule;
use notes::Note;
use std::marker::PhantomData;

/// The rule of a lock table over a law, in the words of `atomic_table`.
pub struct HallRule<L> {
    law: PhantomData<L>,
}

impl<L: Law> TableRule<
    Held<L::Value, L::Entry>,
    View<L::Start, L::Entry>,
    Note<Opening<L::Start, L::Entry>>,
> for HallRule<L> {
    ghost use Rattle.std.specs.Prelude.{length};
    ghost use Rattle.hall.specs.Rule.{Kept, first_view};

    ghost holds = { λ key. Kept key.value.start key.value.passes (length key.value.lists) L.session L.writer L.stands L.number L.kept };

    ghost first = { λ key. first_view key.value };
}
