//! The engine invariant as the law of a lock table.
use crate::part::Part;
use disk_core::{LogDisk, PageDisk};
use hall::Law;
use std::marker::PhantomData;
use tx_core::{Entry, Start};

/// The law of a lock table over the parts of an engine: the lists keep the engine invariant, each part stands for its
/// lock's list, and a session may add what keeps the invariant by all that it has seen.
pub struct EngineLaw<L, P> {
    log: PhantomData<L>,
    pages: PhantomData<P>,
}

impl<L: LogDisk, P: PageDisk> Law for EngineLaw<L, P> {
    ghost use Rattle.tx_core.specs.Entries.{session_of};
    ghost use Rattle.tx_core.specs.EngineInvariant.{EngineInvariant};
    ghost use Rattle.engine_parts.specs.Parts.{PartStands};
    ghost use Rattle.engine_parts.specs.Law.{MayKeep, engine_keeps, number_of_word, writer_of};

    type Value = Part<L, P>;

    type Entry = Entry;

    type Start = Start;

    ghost session = { session_of };

    ghost writer = { writer_of };

    ghost stands = { PartStands };

    ghost number = { number_of_word };

    ghost kept = { EngineInvariant };

    ghost may = { MayKeep };

    ghost keeps = { engine_keeps };
}
