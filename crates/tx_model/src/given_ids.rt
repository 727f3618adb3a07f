//! The ids that a write gave.
ghost use Rattle.std.specs.Prelude.{◌≡◌, [], ◌∷◌};

use std::alloc::AllocError;
use std::marker::Model;
use tx_events::{FullXid, IdList};

#[derive(Clone, Drop)]
enum Held {
    Nothing,
    /// As most writes give.
    One { id: [FullXid; 1] },
    /// As the first write in a savepoint gives.
    Two { ids: [FullXid; 2] },
    Listed { ids: IdList },
}

/// The ids that a write gave, in order: one or two are held in place. A contract sees the list of them.
#[derive(Drop)]
pub struct GivenIds {
    held: Held,
}

impl Model for GivenIds {
    ghost use Rattle.std.specs.Prelude.{List, ℕ};
    ghost use Rattle.tx_model.specs.Given.{ids_in};

    ghost Value = { List ℕ };

    ghost view = { λ g. ids_in g.held };
}

impl GivenIds {
    /// No ids.
    pub fn none() -> GivenIds
        ensures { result ≡ [] }
    {
        GivenIds {
            held: Held::Nothing,
        }
    }

    /// One id.
    pub fn one(id: FullXid) -> GivenIds
        ensures { result ≡ id ∷ [] }
    {
        GivenIds {
            held: Held::One { id: [id] },
        }
    }

    /// Two ids.
    pub fn two(ids: [FullXid; 2]) -> GivenIds
        ensures { result ≡ ids }
    {
        GivenIds {
            held: Held::Two { ids },
        }
    }

    /// These. Takes no memory.
    pub fn of(ids: IdList) -> GivenIds
        ensures { result ≡ ids }
    {
        match ids.items() {
            [] => GivenIds::none(),
            [id] => GivenIds::one(*id),
            [first, second] => GivenIds::two([*first, *second]),
            _ => GivenIds {
                held: Held::Listed { ids },
            },
        }
    }

    /// The ids, in order.
    pub fn items(&self) -> &[FullXid]
        ensures { result.now ≡ self.now }
    {
        match &self.held {
            Held::Nothing => &[],
            Held::One { id } => id,
            Held::Two { ids } => ids,
            Held::Listed { ids } => ids.items(),
        }
    }
}

impl Clone for GivenIds {
    ghost is_clone = { λ x y. y ≡ x };

    fn clone(&self) -> Result<Self, AllocError> {
        Ok(GivenIds {
            held: self.held.clone()?,
        })
    }
}
