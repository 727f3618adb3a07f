//! One of two.
ghost use Rattle.std.specs.Prelude.{◌≡◌, ◌⊎◌, IsTrue, false};

pub fn either(one: bool, other: bool) -> bool
    ensures some { IsTrue result → IsTrue one ⊎ IsTrue other }
    ensures none { result ≡ false → (one ≡ false) × (other ≡ false) }
{
    one || other
}
