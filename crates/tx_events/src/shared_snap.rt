//! What a snapshot holds, as table, session and reply share it.
ghost use Rattle.std.specs.Prelude.{◌≡◌, IfOk, true};
ghost use Rattle.tx_events.specs.IdLists.{Ascending};
ghost use Rattle.tx_events.specs.SharedSnaps.{idle_data};
ghost use Rattle.tx_events.specs.Sights.{sight_by, top_sight_by};

use crate::full_xid::FullXid;
use crate::sequence::{Copied, Memory};
use crate::sight::{Sight, sight_of, sight_of_top};
use crate::snapshot::SnapData;
use std::alloc::{AllocError, Global};
use std::marker::Model;
use std::sync::Arc;

#[derive(Drop)]
enum Held {
    /// Where nothing ran.
    Idle { xmin: FullXid, xmax: FullXid },
    /// Where something did.
    Lists { block: Arc<SnapData> },
}

/// What a snapshot holds: in place where nothing ran, else in a block that copies share. A contract sees the `SnapData`.
#[derive(Drop)]
pub struct SharedSnap {
    held: Held,
}

const _: () = prove!(size_of::<SharedSnap>() == 24);

impl Model for SharedSnap {
    ghost use Rattle.tx_events.specs.declared.snapshot.SnapData.{SnapData};
    ghost use Rattle.tx_events.specs.SharedSnaps.{data_in};

    ghost Value = { SnapData };

    ghost view = { λ s. data_in s.held };
}

impl SharedSnap {
    /// Where nothing ran. Takes no memory.
    pub fn idle(xmin: FullXid, xmax: FullXid) -> SharedSnap
        ensures { result ≡ idle_data xmin xmax }
    {
        SharedSnap {
            held: Held::Idle { xmin, xmax },
        }
    }

    /// Whether nothing ran.
    pub fn is_idle(&self) -> bool
        ensures { result ≡ true → self.now ≡ idle_data self.now.xmin self.now.xmax }
    {
        matches!(self.held, Held::Idle { .. })
    }

    /// This. Takes no memory where nothing ran.
    pub fn of(alloc: Global, holds: SnapData) -> Result<SharedSnap, Memory>
        ensures { IfOk result (λ s. s ≡ holds) }
    {
        if holds.xip.items().is_empty() && holds.subxip.items().is_empty() && !holds.overflowed {
            return Ok(SharedSnap::idle(holds.xmin, holds.xmax));
        }
        Ok(SharedSnap {
            held: Held::Lists {
                block: Arc::new(alloc, holds)?,
            },
        })
    }

    pub fn xmin(&self) -> FullXid
        ensures { result ≡ self.now.xmin }
    {
        match &self.held {
            Held::Idle { xmin, .. } => *xmin,
            Held::Lists { block } => block.xmin,
        }
    }

    pub fn xmax(&self) -> FullXid
        ensures { result ≡ self.now.xmax }
    {
        match &self.held {
            Held::Idle { xmax, .. } => *xmax,
            Held::Lists { block } => block.xmax,
        }
    }

    pub fn xip(&self) -> &[FullXid]
        ensures { result.now ≡ self.now.xip }
    {
        match &self.held {
            Held::Idle { .. } => &[],
            Held::Lists { block } => block.xip.items(),
        }
    }

    pub fn subxip(&self) -> &[FullXid]
        ensures { result.now ≡ self.now.subxip }
    {
        match &self.held {
            Held::Idle { .. } => &[],
            Held::Lists { block } => block.subxip.items(),
        }
    }

    pub fn overflowed(&self) -> bool
        ensures { result ≡ self.now.overflowed }
    {
        match &self.held {
            Held::Idle { .. } => false,
            Held::Lists { block } => block.overflowed,
        }
    }

    /// What it shows of an id, of which was read whether it has `committed` (`sight_of`). Where nothing ran, all that was
    /// given had ended.
    pub fn sight_of(&self, x: FullXid, committed: bool) -> Sight
        ensures { Ascending self.now.xip → Ascending self.now.subxip → result ≡ sight_by self.now x committed }
    {
        match &self.held {
            Held::Idle { xmax, .. } => {
                if x >= *xmax || !committed {
                    Sight::Hidden
                } else {
                    Sight::Seen
                }
            }
            Held::Lists { block } => sight_of(block, x, committed),
        }
    }

    /// Whether it shows an id of this topmost parent (`sight_of_top`).
    pub fn shows_top(&self, topmost: FullXid) -> bool
        ensures { Ascending self.now.xip → result ≡ top_sight_by self.now topmost }
    {
        match &self.held {
            Held::Idle { .. } => true,
            Held::Lists { block } => sight_of_top(block, topmost),
        }
    }
}

impl Copied for SharedSnap {
    fn copy(&self) -> Result<Self, Memory> {
        Ok(self.clone()?)
    }
}

impl Clone for SharedSnap {
    ghost is_clone = { λ x y. y ≡ x };

    fn clone(&self) -> Result<Self, AllocError> {
        let held = match &self.held {
            Held::Idle { xmin, xmax } => Held::Idle {
                xmin: *xmin,
                xmax: *xmax,
            },
            Held::Lists { block } => Held::Lists {
                block: Arc::try_clone(block)?,
            },
        };
        Ok(SharedSnap { held })
    }
}
