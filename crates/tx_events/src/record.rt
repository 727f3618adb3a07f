//! The log's records, and the counters that they carry.
ghost use Rattle.std.specs.Prelude.{◌≡◌, ◌^◌, ◌<◌, ℕ, List};
ghost use Rattle.tx_events.specs.declared.multi.Member.{Member};
ghost use Rattle.tx_events.specs.declared.record.Rec.TheVariants as records;
ghost use Rattle.tx_events.specs.Ids.{IsFullMulti, IsXidNumber};
ghost use Rattle.tx_events.specs.RecordNumber.{own_number};
ghost use Rattle.tx_events.specs.RecordSize.{record_size};
ghost use Rattle.tx_events.specs.Base.{first_base};

use crate::multi::MemberList;
use crate::sequence::{Copied, IdList, Memory, Sequence};
use crate::shared_counters::SharedCounters;
use crate::{FullMulti, FullXid};

/// The counters that a life starts from and that a checkpoint keeps: what comes next and what is oldest, of ids,
/// multixacts and member offsets. Offsets are counted in full.
#[derive(Clone, Copy, Debug, PartialEq, Eq)]
pub struct Counters {
    pub next: FullXid,
    pub oldest: FullXid,
    pub multi: FullMulti,
    pub offset: u64,
    pub oldest_multi: FullMulti,
    pub oldest_offset: u64,
}

impl Counters {
    /// The counters of a new log: nothing was given yet.
    #[tactic(auto, unfolding(crate::specs::Base::first_base))]
    pub fn of_new_log() -> Counters
        ensures { result ≡ first_base }
    {
        let id = FullXid::new(3).unwrap();
        let multi = FullMulti::new(1).unwrap();
        Counters {
            next: id,
            oldest: id,
            multi,
            offset: 1,
            oldest_multi: multi,
            oldest_offset: 1,
        }
    }

    /// The same counters once more.
    pub fn same(&self) -> Counters
        ensures { result ≡ self.now }
    {
        Counters {
            next: self.next,
            oldest: self.oldest,
            multi: self.multi,
            offset: self.offset,
            oldest_multi: self.oldest_multi,
            oldest_offset: self.oldest_offset,
        }
    }
}

/// A record of the log.
#[derive(Clone, Drop)]
pub enum Rec {
    /// The transaction committed, with these subtransactions, ascending.
    Commit {
        top: FullXid,
        subs: IdList,
    },
    /// It aborted.
    Abort {
        top: FullXid,
        subs: IdList,
    },
    /// A multixact with its members.
    Multi {
        multi: FullMulti,
        offset: u64,
        members: MemberList,
    },
    /// The counters at a checkpoint, and this record's own number through all lives.
    Checkpoint {
        number: u64,
        counters: SharedCounters,
    },
    /// The oldest numbers, logged before anything older is cut.
    Truncate {
        oldest: FullXid,
        multi: FullMulti,
        offset: u64,
    },
}

const _: () = prove!(size_of::<Rec>() == 40);

impl Rec {
    /// The number through all lives that the record itself carries. None exactly where it is no checkpoint.
    pub fn own_number(&self) -> Option<u64>
        ensures { result ≡ own_number self.now }
    {
        match self {
            Rec::Checkpoint { number, .. } => Some(*number),
            _ => None,
        }
    }

    /// How many bytes it takes in the log: a tag, its fields, and where it has a list, a count and its items.
    pub fn size(&self) -> u64
        requires { record_size self.now < 2 ^ 64 }
        ensures { result ≡ record_size self.now }
    {
        match self {
            Rec::Commit { subs, .. } => 13 + 8 * subs.items().len() as u64,
            Rec::Abort { subs, .. } => 13 + 8 * subs.items().len() as u64,
            Rec::Multi { members, .. } => 21 + 9 * members.items().len() as u64,
            Rec::Checkpoint { .. } => 57,
            Rec::Truncate { .. } => 25,
        }
    }

    /// Tells a proof what the numbers that a truncation or a multixact names are.
    pub fn tell_forms(&self)
        ensures truncation { (oldest : ℕ) → (multi : ℕ) → (offset : ℕ)
            → self.now ≡ records.Truncate oldest multi offset → IsXidNumber oldest × IsFullMulti multi }
        ensures multi { (multi : ℕ) → (offset : ℕ) → (members : List Member)
            → self.now ≡ records.Multi multi offset members → IsFullMulti multi }
    {
        match self {
            Rec::Truncate { oldest, multi, .. } => {
                let _oldest = oldest.number();
                let _multi = multi.number();
            }
            Rec::Multi { multi, .. } => {
                let _multi = multi.number();
            }
            _ => {}
        }
    }
}

impl Copied for Rec {
    fn copy(&self) -> Result<Self, Memory> {
        Ok(self.clone()?)
    }
}

/// Records in their order.
pub type RecList = Sequence<Rec>;
