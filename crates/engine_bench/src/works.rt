//! What a session does turn after turn.
use crate::calls::{Call, Stretch};

/// What a session does in a turn.
#[derive(Clone, Copy)]
pub enum Work {
    /// A transaction with one id.
    Transaction,
    /// A transaction with so many savepoints inside one another, each with an id.
    Nested { savepoints: u32 },
    /// A transaction that stays open, with so many savepoints behind one another, each with an id.
    Open { savepoints: u32 },
    /// In the open transaction a savepoint with an id is rolled back.
    Undone,
    /// The open transaction commits.
    Commit,
    /// A snapshot is taken and dropped.
    Snapshot,
    /// One is taken and kept.
    Keep,
    /// The snapshot is asked for an id: in turn for so many, each by such a step behind the one before.
    Look { first: u32, step: u32, ids: u32 },
}

const TRANSACTION: [Stretch; 1] = [Stretch {
    calls: &[Call::Begin, Call::Write, Call::Commit],
    each_savepoint: false,
}];

const NESTED: [Stretch; 3] = [
    Stretch {
        calls: &[Call::Begin, Call::Write],
        each_savepoint: false,
    },
    Stretch {
        calls: &[Call::Save, Call::Write],
        each_savepoint: true,
    },
    Stretch {
        calls: &[Call::Commit],
        each_savepoint: false,
    },
];

const OPEN: [Stretch; 2] = [
    Stretch {
        calls: &[Call::Begin, Call::Write],
        each_savepoint: false,
    },
    Stretch {
        calls: &[Call::Save, Call::Write, Call::Release],
        each_savepoint: true,
    },
];

const UNDONE: [Stretch; 1] = [Stretch {
    calls: &[Call::Save, Call::Write, Call::Undo],
    each_savepoint: false,
}];

const COMMIT: [Stretch; 1] = [Stretch {
    calls: &[Call::Commit],
    each_savepoint: false,
}];

const SNAPSHOT: [Stretch; 1] = [Stretch {
    calls: &[Call::Snap, Call::DropSnap],
    each_savepoint: false,
}];

const KEEP: [Stretch; 1] = [Stretch {
    calls: &[Call::Snap],
    each_savepoint: false,
}];

const LOOK: [Stretch; 1] = [Stretch {
    calls: &[Call::See],
    each_savepoint: false,
}];

/// The calls of a turn.
pub fn steps_of(work: Work) -> &'static [Stretch] {
    match work {
        Work::Transaction => &TRANSACTION,
        Work::Nested { .. } => &NESTED,
        Work::Open { .. } => &OPEN,
        Work::Undone => &UNDONE,
        Work::Commit => &COMMIT,
        Work::Snapshot => &SNAPSHOT,
        Work::Keep => &KEEP,
        Work::Look { .. } => &LOOK,
    }
}

/// How many savepoints a turn has.
pub fn savepoints_of(work: Work) -> u32 {
    match work {
        Work::Nested { savepoints } => savepoints,
        Work::Open { savepoints } => savepoints,
        _ => 0,
    }
}

/// The id that is asked for in a turn.
pub fn asked_in(work: Work, turn: u32) -> u32 {
    match work {
        Work::Look { first, step, ids } => {
            let place = turn % ids.max(1);
            first.wrapping_add(place.wrapping_mul(step))
        }
        _ => 0,
    }
}
