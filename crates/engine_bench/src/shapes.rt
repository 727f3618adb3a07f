//! The shapes that are measured.
use crate::works::Work;

/// Sessions by their numbers.
#[derive(Clone, Copy)]
pub enum Who {
    Only(u32),
    Below(u32),
    From(u32),
}

/// What sessions do, so many turns each.
#[derive(Clone, Copy)]
pub struct Plan {
    pub who: Who,
    pub work: Work,
    pub turns: u32,
}

/// How many sessions are timed, and what a PostgreSQL 15 server did a second on four such processors.
#[derive(Clone, Copy)]
pub struct Run {
    pub sessions: u32,
    pub target: &'static str,
}

/// Which runs of the program have a shape.
#[derive(Clone, Copy)]
pub enum Told {
    Always,
    Counts,
    Times,
}

/// Sessions of a new cluster do by the plans, one after another, and then those that are timed do their work.
#[derive(Clone, Copy)]
pub struct Shape {
    pub name: &'static str,
    pub told: Told,
    pub runs: &'static [Run],
    /// How many sessions there are beside those that are timed.
    pub aside: u32,
    pub before: &'static [Plan],
    pub who: Who,
    pub work: Work,
}

const ONE: [Run; 1] = [Run {
    sessions: 1,
    target: "-",
}];

const ONE_AND_FOUR: [Run; 2] = [
    Run {
        sessions: 1,
        target: "-",
    },
    Run {
        sessions: 4,
        target: "-",
    },
];

const SAVEPOINTS: [Run; 1] = [Run {
    sessions: 1,
    target: "83,000 to 320,000",
}];

const TRANSACTIONS: Shape = Shape {
    name: "transactions",
    told: Told::Always,
    runs: &[
        Run {
            sessions: 1,
            target: "82,600",
        },
        Run {
            sessions: 2,
            target: "-",
        },
        Run {
            sessions: 4,
            target: "212,000",
        },
        Run {
            sessions: 16,
            target: "250,000",
        },
        Run {
            sessions: 64,
            target: "-",
        },
    ],
    aside: 0,
    before: &[],
    who: Who::From(0),
    work: Work::Transaction,
};

const SNAPSHOTS: Shape = Shape {
    name: "snapshots beside no top",
    told: Told::Always,
    runs: &[Run {
        sessions: 1,
        target: "19,000,000",
    }],
    aside: 0,
    before: &[],
    who: Who::Only(0),
    work: Work::Snapshot,
};

// The last session rolls a savepoint back, whose id is behind those of all tops: so the snapshots list them.
const UNDONE: Plan = Plan {
    who: Who::Only(63),
    work: Work::Undone,
    turns: 1,
};

const BESIDE_TOPS: Shape = Shape {
    name: "snapshots beside 64 tops",
    told: Told::Always,
    runs: &[Run {
        sessions: 1,
        target: "2,600,000",
    }],
    aside: 63,
    before: &[
        Plan {
            who: Who::From(0),
            work: Work::Open { savepoints: 0 },
            turns: 1,
        },
        UNDONE,
    ],
    who: Who::Only(0),
    work: Work::Snapshot,
};

const BESIDE_TREES: Shape = Shape {
    name: "snapshots beside 64 tops of 64 subtransactions",
    told: Told::Always,
    runs: &[Run {
        sessions: 1,
        target: "460,000",
    }],
    aside: 63,
    before: &[
        Plan {
            who: Who::Below(63),
            work: Work::Open { savepoints: 64 },
            turns: 1,
        },
        Plan {
            who: Who::Only(63),
            work: Work::Open { savepoints: 63 },
            turns: 1,
        },
        UNDONE,
    ],
    who: Who::Only(0),
    work: Work::Snapshot,
};

const BESIDE_OVERFLOWED: Shape = Shape {
    name: "snapshots beside 64 tops of 65 subtransactions",
    told: Told::Always,
    runs: &ONE,
    aside: 63,
    before: &[
        Plan {
            who: Who::Below(63),
            work: Work::Open { savepoints: 65 },
            turns: 1,
        },
        Plan {
            who: Who::Only(63),
            work: Work::Open { savepoints: 64 },
            turns: 1,
        },
        UNDONE,
    ],
    who: Who::Only(0),
    work: Work::Snapshot,
};

const KEEP: Plan = Plan {
    who: Who::From(0),
    work: Work::Keep,
    turns: 1,
};

const NEAR: Shape = Shape {
    name: "looks at ids of one page",
    told: Told::Always,
    runs: &[
        Run {
            sessions: 1,
            target: "14,600,000",
        },
        Run {
            sessions: 4,
            target: "9,400,000",
        },
    ],
    aside: 0,
    before: &[
        Plan {
            who: Who::Only(0),
            work: Work::Transaction,
            turns: 1_000,
        },
        KEEP,
    ],
    who: Who::From(0),
    work: Work::Look {
        first: 3,
        step: 1,
        ids: 1_000,
    },
};

const FAR_COUNTED: Shape = Shape {
    name: "looks at ids of many pages",
    told: Told::Counts,
    runs: &ONE_AND_FOUR,
    aside: 0,
    before: &[
        Plan {
            who: Who::Only(0),
            work: Work::Nested { savepoints: 1_000 },
            turns: 2,
        },
        KEEP,
    ],
    who: Who::From(0),
    work: Work::Look {
        first: 3,
        step: 1_000,
        ids: 2,
    },
};

// More pages than there are buffers.
const FAR_TIMED: Shape = Shape {
    name: "looks at ids of many pages",
    told: Told::Times,
    runs: &ONE_AND_FOUR,
    aside: 0,
    before: &[
        Plan {
            who: Who::Only(0),
            work: Work::Nested { savepoints: 1_000 },
            turns: 2_300,
        },
        KEEP,
    ],
    who: Who::From(0),
    work: Work::Look {
        first: 3,
        step: 32_768,
        ids: 70,
    },
};

// The ids are of a transaction that committed behind a snapshot that overflowed.
const OVERFLOWED: Shape = Shape {
    name: "looks of an overflowed snapshot",
    told: Told::Always,
    runs: &ONE_AND_FOUR,
    aside: 2,
    before: &[
        Plan {
            who: Who::Only(0),
            work: Work::Open { savepoints: 65 },
            turns: 1,
        },
        Plan {
            who: Who::Only(1),
            work: Work::Transaction,
            turns: 1,
        },
        Plan {
            who: Who::From(2),
            work: Work::Keep,
            turns: 1,
        },
        Plan {
            who: Who::Only(0),
            work: Work::Commit,
            turns: 1,
        },
    ],
    who: Who::From(2),
    work: Work::Look {
        first: 4,
        step: 1,
        ids: 65,
    },
};

const NESTED_1: Shape = Shape {
    name: "savepoints, 1 a transaction",
    told: Told::Always,
    runs: &SAVEPOINTS,
    aside: 0,
    before: &[],
    who: Who::Only(0),
    work: Work::Nested { savepoints: 1 },
};

const NESTED_64: Shape = Shape {
    name: "savepoints, 64 a transaction",
    told: Told::Always,
    runs: &SAVEPOINTS,
    aside: 0,
    before: &[],
    who: Who::Only(0),
    work: Work::Nested { savepoints: 64 },
};

const NESTED_65: Shape = Shape {
    name: "savepoints, 65 a transaction",
    told: Told::Always,
    runs: &SAVEPOINTS,
    aside: 0,
    before: &[],
    who: Who::Only(0),
    work: Work::Nested { savepoints: 65 },
};

const NESTED_1_000: Shape = Shape {
    name: "savepoints, 1000 a transaction",
    told: Told::Always,
    runs: &SAVEPOINTS,
    aside: 0,
    before: &[],
    who: Who::Only(0),
    work: Work::Nested { savepoints: 1_000 },
};

pub const SHAPES: [Shape; 13] = [
    TRANSACTIONS,
    SNAPSHOTS,
    BESIDE_TOPS,
    BESIDE_TREES,
    BESIDE_OVERFLOWED,
    NEAR,
    FAR_COUNTED,
    FAR_TIMED,
    OVERFLOWED,
    NESTED_1,
    NESTED_64,
    NESTED_65,
    NESTED_1_000,
];
