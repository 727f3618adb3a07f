// A value of which a fact holds is found, and is the one of which it holds.
ghost use Rattle.std.specs.Prelude.{◌≡◌, ◌+◌};

use noted_facts::{Fact, found};
use notes::Note;

struct HalfOf;

impl Fact for HalfOf {
    type About = u32;

    type Value = u32;

    ghost holds = { λ whole half. half + half ≡ whole };
}

fn half_of_six() -> Note<u32>
    ensures { result.value ≡ 3 }
{
    found::<HalfOf>(&6)
}

#[test]
fn half_of_six_is_found_to_be_three() {
    let _note = half_of_six();
}
