//! The pseudo-random numbers by which a script is drawn.
ghost use Rattle.std.specs.Prelude.{◌≡◌, ◌<◌, ◌%◌};
ghost use Rattle.script_gen.specs.Draws.{next_state};

/// Lehmer's generator with the multiplier 48271 and the modulus 2^31 - 1. It stands where its last draw left it, at
/// first at the seed.
#[derive(Clone, Copy)]
pub struct Draws {
    pub state: u32,
}

impl Draws {
    /// The next draw, from 0 to one below `limit`.
    pub fn below(&mut self, limit: u32) -> u32
        requires { 0 < limit }
        ensures state { self.new.state ≡ next_state self.old.state }
        ensures draw { result ≡ next_state self.old.state % limit }
    {
        self.state = (u64::from(self.state) * 48271 % 2147483647) as u32;
        self.state % limit
    }
}
