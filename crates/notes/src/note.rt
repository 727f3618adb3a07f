//! A ghost value with no bytes: a program keeps account of its past at no cost.
ghost use Rattle.std.specs.Prelude.{◌≡◌};
ghost use base.Fml.{ftrue};

use std::marker::{Model, PhantomData};

/// A value that contracts alone see. It takes no bytes, and making one runs no code.
pub struct Note<T> {
    marker: PhantomData<T>,
    pub ghost value: { T },
}

impl<T> Model for Note<T> {
    ghost also_owns = { λ _. ftrue };
}

impl<T> Note<T> {
    /// A note of the value that the caller's proof picks.
    pub fn of() -> Note<T>
        ghost noted: { T }
        ensures { result.value ≡ noted }
    {
        Note {
            marker: PhantomData,
        }
    }
}

impl<T> Note<T> {
    /// A note of the value that the caller's proof picks, from what the reference shows.
    pub fn by<A>(_about: &A) -> Note<T>
        ghost noted: { T }
        ensures { result.value ≡ noted }
    {
        Note::of()
    }
}

impl<T> Drop for Note<T> {
    fn drop(self) {
        let Self { marker: _ } = self;
    }
}

unsafe impl<T> Send for Note<T> {}

unsafe impl<T> Sync for Note<T> {}
