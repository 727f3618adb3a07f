//! Critical sections: look at a lock until it is free, and release it.
ghost use Rattle.std.specs.Prelude.{◌≡◌, ℕ, ◌+◌, ◌*◌, ◌<◌, ◌≤◌, List, [], ◌∷◌, ◌++◌, MatchOption, slice_index_or, true, false};
ghost use Rattle.hall.specs.declared.view.View.{View};
ghost use Rattle.hall.specs.declared.view.Stage.TheVariants.{Free, Inside};
ghost use Rattle.notes.specs.Lists.{at};
ghost use Rattle.hall.specs.Told.{missed, left, released};
ghost use Rattle.hall.specs.Calls.{view, IsOf, IsSame, Looked, Entered, start_of};

use crate::hall::Hall;
use crate::law::Law;
use crate::layout::line_at;
use crate::pass::Pass;
use crate::step_kinds::{Leave, Look, Release};
use crossbeam_utils::Backoff;
use notes::Note;
use std::sync::Wait;
use std::sync::atomic::AtomicU64;
use std::time::Duration;

// How often a waiter looks again before it sleeps, each time after a pause twice as long.
const LOOKS_AWAKE: u32 = 4;

// How long it sleeps. Two threads that enter the same few locks in turn send the cache lines of locks and values to and
// fro, which costs more than what is done inside; so one of them sleeps for as long as some hundred critical sections.
const NAP_MICROS: u64 = 200;

impl<L: Law> Hall<L> {
    /// Looks once at the lock `cell`, which is below the number of locks, as LWLockConditionalAcquire:
    /// its value, where the lock was free. None exactly where the one compare-exchange of this call found it taken.
    ///
    /// The pass is inside no lock. Where it gets the value, it learns all histories as they were at
    /// that moment, at which the relation held of them, and the value stands for the lock's. Nobody
    /// adds to that history, nor to those of the words that the lock guards, until the pass releases
    /// the lock.
    pub fn look(&self, pass: &mut Pass<L>, cell: u32) -> Option<L::Value>
        requires own { IsOf self.now pass.old }
        requires free { (view pass.old).stage ≡ Free }
        requires cell { cell < self.now.cells }
        ensures own { IsOf self.now pass.new × IsSame pass.old pass.new }
        ensures cell { pass.new.cell ≡ cell }
        ensures view { MatchOption result (view pass.new ≡ missed (view pass.old)) (λ x. Entered L.session L.writer L.stands L.kept (start_of self.now) cell (view pass.old) x (view pass.new)) }
    {
        let shared = &self.table.shared;
        let word = line_at(cell as usize);
        pass.cell = cell as usize;
        let found = shared.compare_exchange::<Look<L>>(&mut pass.seat, word, 0, 1);
        if found != 0 {
            return None;
        }
        pass.seat.slot_mut(shared, cell as usize).take()
    }

    /// Looks until it has the lock's value, as LWLockAcquire, and may wait for ever.
    ///
    /// After a few looks in vain it sleeps between them, a fifth of a millisecond each time, so that whoever is at work
    /// keeps its processor and the lock's cache line. There is no queue: who looks first after a release gets in.
    ///
    /// It promises what `look` does where that finds the lock free. What the pass has seen before
    /// counts as of the moment of the look that found it so.
    pub fn enter<R: Wait>(&self, rt: &R, pass: &mut Pass<L>, cell: u32) -> L::Value
        requires own { IsOf self.now pass.old }
        requires free { (view pass.old).stage ≡ Free }
        requires cell { cell < self.now.cells }
        ensures own { IsOf self.now pass.new × IsSame pass.old pass.new }
        ensures cell { pass.new.cell ≡ cell }
        ensures view { (v : View L.Start L.Entry) × Looked (view pass.old) v × Entered L.session L.writer L.stands L.kept (start_of self.now) cell v result (view pass.new) }
    {
        if let Some(value) = self.look(pass, cell) {
            return value;
        }
        self.look_again(rt, pass, cell)
    }

    // The same where a look was in vain. A look takes the cache line of the lock from whoever is inside, also where
    // it finds the lock taken, and a load leaves it there. So it looks only after a load that shows the lock free.
    #[cold]
    #[inline(never)]
    fn look_again<R: Wait>(&self, rt: &R, pass: &mut Pass<L>, cell: u32) -> L::Value
        requires own { IsOf self.now pass.old }
        requires free { (view pass.old).stage ≡ Free }
        requires cell { cell < self.now.cells }
        ensures own { IsOf self.now pass.new × IsSame pass.old pass.new }
        ensures cell { pass.new.cell ≡ cell }
        ensures view { (v : View L.Start L.Entry) × Looked (view pass.old) v × Entered L.session L.writer L.stands L.kept (start_of self.now) cell v result (view pass.new) }
    {
        let word = line_at(cell as usize);
        let backoff = Backoff::new();
        let asleep = AtomicU64::new(0);
        let nap = Duration::from_micros(NAP_MICROS);
        let mut looks = 0;
        for _ in rt.forever() {
            if looks < LOOKS_AWAKE {
                backoff.spin();
                looks += 1;
            } else {
                asleep.park_timeout(rt, 0, nap);
            }
            if self.table.shared.peek(word) != 0 {
                continue;
            }
            if let Some(value) = self.look(pass, cell) {
                return value;
            }
        }
        unreachable!()
    }

    /// Releases the lock that the pass is inside, as LWLockRelease: returns the value, adds `entry` to the lock's
    /// history, and lets the next pass in.
    ///
    /// The law lets this pass add the entry, which is of its own session, and the value stands for
    /// the history with that entry.
    pub fn leave(&self, pass: &mut Pass<L>, value: L::Value, entry: Note<L::Entry>)
        requires own { IsOf self.now pass.old }
        requires inside { (view pass.old).stage ≡ Inside pass.old.cell }
        requires session { L.session entry.value ≡ (view pass.old).name }
        requires may { L.may (start_of self.now) (view pass.old).seen pass.old.cell entry.value }
        requires stands { L.stands (start_of self.now) pass.old.cell value (at (view pass.old).seen pass.old.cell ++ entry.value ∷ []) }
        ensures own { IsOf self.now pass.new × IsSame pass.old pass.new }
        ensures view { view pass.new ≡ left pass.old.cell entry.value (view pass.old) }
    {
        let shared = &self.table.shared;
        let word = line_at(pass.cell);
        let gone = pass.seat.slot_mut(shared, pass.cell).put(value, entry);
        let None = gone else { unreachable!() };
        shared.store::<Leave>(&mut pass.seat, word, 0);
    }

    /// Releases the lock that the pass is inside, and adds nothing to its history: returns the value, which stands for
    /// the history as the pass found it, and lets the next pass in.
    pub fn put_back(&self, pass: &mut Pass<L>, value: L::Value)
        requires own { IsOf self.now pass.old }
        requires inside { (view pass.old).stage ≡ Inside pass.old.cell }
        requires stands { L.stands (start_of self.now) pass.old.cell value (at (view pass.old).seen pass.old.cell) }
        ensures own { IsOf self.now pass.new × IsSame pass.old pass.new }
        ensures view { view pass.new ≡ released (view pass.old) }
    {
        let shared = &self.table.shared;
        let word = line_at(pass.cell);
        let gone = pass.seat.slot_mut(shared, pass.cell).restore(value);
        let None = gone else { unreachable!() };
        shared.store::<Release>(&mut pass.seat, word, 0);
    }
}
