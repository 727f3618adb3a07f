//! A value in its place, where a box would ask for memory.
ghost use Rattle.std.specs.Prelude.{◌≡◌};
ghost use Rattle.std.specs.Borrow.{Lends, sem};
ghost use Rattle.engine_parts.specs.contracts.in_place.InPlace.{the_row};
ghost use Rattle.engine_parts.specs.InPlace.{with_value};

use std::ops::{Deref, DerefMut};

/// A bank in its place. Lives that follow one another ask for no memory for it.
#[derive(Drop)]
pub struct InPlace<T> {
    pub value: T,
}

impl<T> InPlace<T> {
    /// The value alone.
    pub fn into_inner(self) -> T
        ensures { result ≡ self.value }
    {
        let InPlace { value } = self;
        value
    }
}

impl<T> Deref for InPlace<T> {
    type Target = T;

    ghost deref_gives = { λ held value. value ≡ held.value };

    fn deref(&self) -> &T
        ensures { result.now ≡ self.now.value }
    {
        &self.value
    }
}

impl<T> DerefMut for InPlace<T> {
    ghost deref_mut_gives = { λ held value. value ≡ held.value };

    fn deref_mut(&mut self) -> &mut T
        ensures* writes_back { sem 𝓛 (Lends (the_row T.row) T.row self.entry result (with_value self.old)) }
        ensures value { result.now ≡ self.old.value }
    {
        &mut self.value
    }
}
