//! Passes are given, and taken in.
ghost use Rattle.std.specs.Prelude.{◌≡◌, ℕ, ◌*◌, ◌<◌, MatchOption};
ghost use Rattle.hall.specs.declared.view.Stage.TheVariants.{Free};
ghost use Rattle.hall.specs.Told.{asking, giving, given};
ghost use Rattle.hall.specs.Calls.{view, IsOf, IsSame, Joined, MayGive, start_of};

use crate::hall::Hall;
use crate::law::Law;
use crate::layout::SPARE;
use crate::pass::{Pass, Token};
use crate::step_kinds::{Ask, Cut, Glue, Settle};

impl<L: Law> Hall<L> {
    /// A new pass with the name `name`, which has seen what this pass has. None exactly where this
    /// pass may not give the name: it hasn't got it, as where it gave it and didn't join it yet, or
    /// the name is its own.
    ///
    /// Until it is joined, all entries of that name are the new pass's.
    pub fn split(&self, pass: &mut Pass<L>, name: u32) -> Option<Pass<L>>
        requires own { IsOf self.now pass.old }
        ensures own { IsOf self.now pass.new × IsSame pass.old pass.new }
        ensures cell { pass.new.cell ≡ pass.old.cell }
        ensures none { MatchOption result (MayGive (view pass.old) name → ⊥) (λ _. MayGive (view pass.old) name) }
        ensures view { MatchOption result (view pass.new ≡ view pass.old) (λ p. IsOf self.now p × (view pass.new ≡ giving (asking name (view pass.old))) × (view p ≡ given (asking name (view pass.old)))) }
    {
        if !pass.names.may_give(name) {
            return None;
        }
        let shared = &self.table.shared;
        shared.compare_exchange::<Ask>(&mut pass.seat, SPARE, name as u64, name as u64);
        let seat = shared.split_seat::<Cut>(&mut pass.seat);
        Some(Token {
            seat,
            cell: 0,
            names: pass.names.give(name),
        })
    }

    /// Takes in what another pass knows, and its names, which this pass may give again. Neither is
    /// inside a lock.
    ///
    /// The pass learns all histories as they were at one moment of this call, and contracts know
    /// from then on that the entries of the other's name are just those that the other had seen.
    pub fn join(&self, pass: &mut Pass<L>, other: Pass<L>)
        requires own { IsOf self.now pass.old }
        requires other { IsOf self.now other }
        requires free { (view pass.old).stage ≡ Free }
        requires other_free { (view other).stage ≡ Free }
        ensures own { IsOf self.now pass.new × IsSame pass.old pass.new }
        ensures cell { pass.new.cell ≡ pass.old.cell }
        ensures view { Joined L.session L.writer L.kept (start_of self.now) (view pass.old) (view other) (view pass.new) }
    {
        let Token {
            seat,
            cell: _,
            names,
        } = other;
        pass.names.take_in(&names);
        let shared = &self.table.shared;
        shared.join_seat::<Glue>(&mut pass.seat, seat);
        shared.load::<Settle<L>>(&mut pass.seat, SPARE);
    }
}
