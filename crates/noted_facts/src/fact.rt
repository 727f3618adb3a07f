//! A value of which a fact holds, found where there is one.
ghost use base.Fml.{ftrue};

use notes::Note;
use std::marker::{Model, PhantomData};

/// A fact about a value, by which another is found. The type that bears it only names it: no value of that type is made.
pub trait Fact {
    /// What the fact is about.
    type About;

    /// What is found.
    type Value;

    // Which values may be found. The first is what the fact is about.
    ghost holds: { Self.About → Self.Value → Type 0 };
}

// A value that was found. It takes no bytes.
struct Held<V> {
    marker: PhantomData<V>,
    ghost value: { V },
}

impl<V> Model for Held<V> {
    ghost also_owns = { λ _. ftrue };
}

impl<V> Held<V> {
    // Takes one of the values of which the fact holds. What clauses say makes no code, so this runs none.
    fn of<F: Fact<Value = V>>(about: &F::About) -> Held<V>
        requires { (value : V) × F.holds about.now value }
        ensures { F.holds about.now result.value }
    {
        let _ = about;
        Held {
            marker: PhantomData,
        }
    }
}

impl<V> Drop for Held<V> {
    fn drop(self) {
        let Self { marker: _ } = self;
    }
}

/// A note of a value of which the fact holds, where there is one. Which one it is nothing says.
pub fn found<F: Fact>(about: &F::About) -> Note<F::Value>
    requires { (value : F.Value) × F.holds about.now value }
    ensures { F.holds about.now result.value }
{
    let held = Held::of::<F>(about);
    Note::by(&held)
}
