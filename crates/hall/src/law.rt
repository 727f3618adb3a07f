//! What a lock table keeps.
ghost use Rattle.std.specs.Prelude.{◌≡◌, ℕ, ◌<◌, List, length};
ghost use Rattle.hall.specs.declared.writer.Writer.{Writer};
ghost use Rattle.hall.specs.declared.writer.Writer.TheVariants.{Session};
ghost use Rattle.notes.specs.Lists.{Knows, add};
ghost use Rattle.hall.specs.Lists.{Whole};

/// What a user states of a lock table: which facts tie its values and numbers to its histories, and
/// which relation all histories keep.
///
/// Histories are lists of entries that only grow. They are numbered by *place*: a table with n locks
/// has the history of the lock c at place c, and the history of the published word w at place n + w.
/// Each fact takes the table's start, plain data that contracts alone see, fixed by `Hall::new`.
pub trait Law {
    /// What lies behind a lock.
    type Value;

    /// What one critical section, or one publication, adds to a history. Only contracts see it.
    type Entry;

    /// What a table starts from. Only contracts see it.
    type Start;

    // The session that made an entry.
    ghost session: { Self.Entry → ℕ };

    // Who adds to the history at a place. That of the lock c is added to by whoever is inside c.
    ghost writer: { Self.Start → ℕ → Writer };

    // What a value behind a lock says, where the lock's history is this list.
    ghost stands: { Self.Start → ℕ → Self.Value → List Self.Entry → Type 0 };

    // The number that a published word shows, where the history at its place is this list.
    ghost number: { Self.Start → ℕ → List Self.Entry → ℕ };

    // The relation that all histories keep together, with what is claimed of published numbers.
    ghost kept: { Self.Start → List (List Self.Entry) → Type 0 };

    // The entry that a caller may add at a place, by the histories that it has seen.
    ghost may: { Self.Start → List (List Self.Entry) → ℕ → Self.Entry → Type 0 };

    // An entry that a caller may add keeps the relation. The caller has seen a beginning of each history, all entries of its own, and whole histories where it alone may write: at this place, at the others of the same writer, and at its session's words.
    ghost keeps: { (start : Self.Start) (lists seen : List (List Self.Entry)) (place : ℕ) (entry : Self.Entry) → kept start lists → Knows session (session entry) seen lists → Whole (writer start) (Session (session entry)) seen lists → place < length lists → Whole (writer start) (writer start place) seen lists → may start seen place entry → kept start (add lists place entry) };
}
