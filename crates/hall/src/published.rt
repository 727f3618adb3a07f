//! Published words: numbers that their writers change under no lock, and that any pass may load.
ghost use Rattle.std.specs.Prelude.{◌≡◌, ◌+◌, ◌<◌, [], ◌∷◌, ◌++◌};
ghost use Rattle.notes.specs.Lists.{at};
ghost use Rattle.hall.specs.Rule.{Writes};
ghost use Rattle.hall.specs.Told.{published};
ghost use Rattle.hall.specs.Calls.{view, IsOf, IsSame, Loaded, start_of};

use crate::hall::Hall;
use crate::law::Law;
use crate::layout::line_at;
use crate::pass::Pass;
use crate::step_kinds::{Check, Publish, Read};
use crate::view::Held;
use notes::Note;

impl<L: Law> Hall<L> {
    /// Loads the published word `word`, which is below the number of words, and returns the number
    /// that this one load found.
    ///
    /// The pass learns all histories as they were at that load, at which the relation held of them,
    /// and the number is what the word's history shows there.
    pub fn read_post(&self, pass: &mut Pass<L>, word: u32) -> u64
        requires own { IsOf self.now pass.old }
        requires word { word < self.now.posts }
        ensures own { IsOf self.now pass.new × IsSame pass.old pass.new }
        ensures cell { pass.new.cell ≡ pass.old.cell }
        ensures view { Loaded L.session L.writer L.number L.kept (start_of self.now) (self.now.cells + word) (view pass.old) result (view pass.new) }
    {
        let at = line_at(self.cells + word as usize);
        self.table.shared.load::<Read<L>>(&mut pass.seat, at)
    }

    /// Publishes `number` in the word `word`, which is below the number of words, and adds `entry`
    /// to the word's history.
    ///
    /// The pass is the word's one writer: it has the name of the word's session, or it is inside the
    /// lock that guards the word. The law lets it add the entry, which is of its own session, and
    /// `number` is what the history then shows.
    pub fn post(&self, pass: &mut Pass<L>, word: u32, number: u64, entry: Note<L::Entry>)
        requires own { IsOf self.now pass.old }
        requires word { word < self.now.posts }
        requires session { L.session entry.value ≡ (view pass.old).name }
        requires writes { Writes (L.writer (start_of self.now) (self.now.cells + word)) (view pass.old) }
        requires may { L.may (start_of self.now) (view pass.old).seen (self.now.cells + word) entry.value }
        requires number { L.number (start_of self.now) (self.now.cells + word) (at (view pass.old).seen (self.now.cells + word) ++ entry.value ∷ []) ≡ number }
        ensures own { IsOf self.now pass.new × IsSame pass.old pass.new }
        ensures cell { pass.new.cell ≡ pass.old.cell }
        ensures view { view pass.new ≡ published (self.now.cells + word) entry.value (view pass.old) }
    {
        let at = line_at(self.cells + word as usize);
        let shared = &self.table.shared;
        let said = Held::new(None, Some(entry));
        // No other pass changes the word, so the exchange finds what the load found.
        let before = shared.load::<Check<L>>(&mut pass.seat, at);
        shared.compare_exchange_with::<Publish>(&mut pass.seat, at, before, number, &said);
        let Held {
            value,
            note: _,
            gap: _,
        } = said;
        let None = value else { unreachable!() };
    }
}
