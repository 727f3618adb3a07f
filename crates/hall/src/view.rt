//! What a pass knows, and what a slot holds.
ghost use Rattle.std.specs.Prelude.{◌≡◌, None, Some};

use crate::layout::LINE;
use notes::Note;
use std::collections::LinkedList;

/// Where a pass stands. It is inside one lock at the most.
pub enum Stage {
    /// The pass is inside no lock.
    Free,
    /// The pass has the value of this lock.
    Inside(u64),
}

/// What a pass knows. No value of it is made: contracts alone see it.
pub struct View<S, E> {
    /// The table's start, or nothing once the pass was joined into another.
    pub start: LinkedList<S>,
    /// The session whose entries this pass adds.
    pub name: u64,
    /// Of each name, whether this pass has it, and so has seen all of its entries.
    pub holds: LinkedList<bool>,
    /// The observed histories: of each place the beginning that was seen.
    pub seen: LinkedList<LinkedList<E>>,
    pub stage: Stage,
    /// How often it looked at a lock.
    pub looks: u64,
    /// What its last look found: 0 a free lock, 1 a taken one.
    pub found: u64,
    /// How often it loaded a published word.
    pub reads: u64,
    /// The name that it last asked for.
    pub asked: u64,
    /// Within a join, what the two passes knew. Else it is empty.
    pub merged: LinkedList<Merged<E>>,
}

/// What two passes knew as they were joined, and what the joined pass has seen. No value of it is made.
pub struct Merged<E> {
    pub holds: LinkedList<bool>,
    pub seen: LinkedList<LinkedList<E>>,
    pub other_holds: LinkedList<bool>,
    pub other_seen: LinkedList<LinkedList<E>>,
    pub both: LinkedList<LinkedList<E>>,
}

/// What a slot holds: a value, with the entry that it was returned with.
pub struct Held<V, E> {
    // Never read, and written once: a cache line between this value and the last lock's. It stands first, so that it is
    // laid out by whole words when a slot is moved.
    pub(crate) gap: [u64; LINE],
    pub value: Option<V>,
    pub note: Option<Note<E>>,
}

impl<V, E> Held<V, E> {
    pub(crate) fn new(value: Option<V>, note: Option<Note<E>>) -> Held<V, E>
        ensures { (result.value ≡ value) × (result.note ≡ note) }
    {
        Held {
            value,
            note,
            gap: [0; LINE],
        }
    }

    // Takes the value out, in place: the gap is not touched.
    pub(crate) fn take(&mut self) -> Option<V>
        ensures value { result ≡ self.old.value }
        ensures left { self.new ≡ record self.old { value = None } }
    {
        self.value.take()
    }

    // Puts a value back without an entry, in place. Returns what was there.
    pub(crate) fn restore(&mut self, value: V) -> Option<V>
        ensures value { result ≡ self.old.value }
        ensures left { self.new ≡ record self.old { value = Some value } }
    {
        self.value.replace(value)
    }

    // Puts a value back with the entry, in place. Returns what was there.
    pub(crate) fn put(&mut self, value: V, note: Note<E>) -> Option<V>
        ensures value { result ≡ self.old.value }
        ensures left { self.new ≡ record self.old { value = Some value; note = Some note } }
    {
        self.note = Some(note);
        self.value.replace(value)
    }
}

/// What a table starts from. No value of it is made: contracts alone see it.
pub struct Opening<S, E> {
    pub start: S,
    /// The first histories, those of the locks before those of the words.
    pub lists: LinkedList<LinkedList<E>>,
    /// One more than the greatest name of a pass.
    pub passes: u64,
}
