//! The names that a pass has.
ghost use Rattle.std.specs.Prelude.{◌≡◌, ℕ, ◌-◌, ◌<◌, ◌≤◌, ◌||◌, replicate, true, false, Decides, slice_index_or, slice_set};
ghost use Rattle.hall.specs.Names.{AreHeld, IsGivable, only};

// One more than the greatest name of any table.
pub(crate) const NAMES: usize = 65;

// The name under which a pass adds, and of each name whether the pass has it.
#[derive(Drop)]
pub(crate) struct Names {
    pub(crate) own: u32,
    pub(crate) held: [bool; NAMES],
}

impl Names {
    // All names below `passes`, of which the last is the pass's own.
    pub(crate) fn first(passes: u32) -> Names
        requires { (0 < passes) × (passes ≤ 65) }
        ensures own { result.own ≡ passes - 1 }
        ensures held { AreHeld (replicate passes true) result }
    {
        let mut held = [false; NAMES];
        for name in 0..NAMES {
            held[name] = name < passes as usize;
        }
        Names {
            own: passes - 1,
            held,
        }
    }

    // Whether the pass may give the name: it has it, and it isn't its own.
    pub(crate) fn may_give(&self, name: u32) -> bool
        ensures is { Decides result (IsGivable self.now name) }
        ensures small { result ≡ true → name < 65 }
    {
        (name as usize) < NAMES && name != self.own && self.held[name as usize]
    }

    // Gives the name away, to a new pass whose own it is.
    pub(crate) fn give(&mut self, name: u32) -> Names
        requires may { IsGivable self.old name }
        requires small { name < 65 }
        ensures left { self.new ≡ record self.old { held = slice_set self.old.held name false } }
        ensures given { (result.own ≡ name) × (result.held ≡ only 65 name) }
    {
        let at = name as usize;
        self.held[at] = false;
        let mut held = [false; NAMES];
        held[at] = true;
        Names { own: name, held }
    }

    // Takes in the names of another pass.
    pub(crate) fn take_in(&mut self, other: &Names)
        ensures own { self.new.own ≡ self.old.own }
        ensures held { (k : ℕ) → slice_index_or self.new.held k false ≡ (slice_index_or self.old.held k false || slice_index_or other.now.held k false) }
    {
        for name in 0..NAMES {
            self.held[name] |= other.held[name];
        }
    }
}
