// Ids, multixacts and refusals by their numbers, as tables say them.
use std::process::Abort;
use tx_events::{FullMulti, FullXid, Refusal};

pub fn id(rt: &impl Abort, number: u64) -> FullXid {
    FullXid::new(number).expect(rt, "a full id")
}

pub fn multi(rt: &impl Abort, number: u64) -> FullMulti {
    FullMulti::new(number).expect(rt, "a full multixact")
}

/// Why something is refused.
#[derive(Clone, Copy)]
pub enum Why {
    /// The next id and the limit; the same of multixacts, and of their members.
    Stop(u64, u64),
    MultiStop(u64, u64),
    MemberStop(u64, u64),
    /// The oldest multixact, and the next one.
    MultiTooOld(u64),
    MultiFuture(u64),
    /// The oldest id or multixact that there is, and the limits of both.
    Backward(u64),
    TooNew(u64),
    Held(u64),
}

pub fn refusal(rt: &impl Abort, why: Why) -> Refusal {
    match why {
        Why::Stop(next, stop) => Refusal::Stop {
            next: id(rt, next),
            stop: id(rt, stop),
        },
        Why::MultiStop(next, stop) => Refusal::MultiStop {
            next: multi(rt, next),
            stop: multi(rt, stop),
        },
        Why::MemberStop(next, stop) => Refusal::MemberStop { next, stop },
        Why::MultiTooOld(oldest) => Refusal::MultiTooOld {
            oldest: multi(rt, oldest),
        },
        Why::MultiFuture(next) => Refusal::MultiFuture {
            next: multi(rt, next),
        },
        Why::Backward(now) => Refusal::Backward { now },
        Why::TooNew(limit) => Refusal::TooNew {
            limit: id(rt, limit),
        },
        Why::Held(limit) => Refusal::Held {
            limit: multi(rt, limit),
        },
    }
}

/// The answer to the announcement of an oldest one.
pub fn raised(rt: &impl Abort, wanted: Result<(), Why>) -> Result<(), Refusal> {
    match wanted {
        Ok(()) => Ok(()),
        Err(why) => Err(refusal(rt, why)),
    }
}
