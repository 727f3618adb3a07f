//! Transaction ids and multixact ids in full and as the 32 bits that are stored: their order around the ring, their
//! successors, the full id that 32 bits mean, their limits, and whether the next one may still be given; above them the
//! types of events, records and what a snapshot holds, what it shows of an id (`XidInMVCCSnapshot`), and the definitions
//! and laws of histories and of what a life starts from. After PostgreSQL's `src/include/access/transam.h`,
//! `src/backend/access/transam/transam.c`, `varsup.c`, `multixact.c` and `src/backend/utils/time/snapmgr.c`.
//! See docs/IDS-AND-LIMITS.md, docs/HISTORY.md and docs/FIT.md.
#![tactic(auto)]

mod base;
mod by_words;
mod event;
mod full_multi;
mod full_xid;
pub mod laws;
mod limits;
mod listed;
mod members;
mod multi;
mod multi_limits;
mod name;
mod next_id;
mod next_multi;
mod order;
mod parent_page;
mod record;
mod refusal;
mod room;
mod rounding;
mod said;
mod sequence;
mod shared;
mod shared_counters;
mod shared_snap;
mod sight;
mod snapshot;
mod xact_end;

pub use base::is_base;
pub use by_words::ByWords;
pub use event::{By, Event, EventList};
pub use full_multi::{FullMulti, MultiId, near_multi};
pub use full_xid::{FullXid, near};
pub use limits::Limits;
pub use listed::is_listed;
pub use members::member_stop;
pub use multi::{Member, MemberList, Mode, MultiEvent, MultiEventList, same_members};
pub use multi_limits::MultiLimits;
pub use name::{Name, is_name};
pub use next_id::check_id;
pub use next_multi::check_multi;
pub use order::{Xid, multi_precedes, offset_precedes, precedes};
pub use parent_page::{PARENTS_PER_PAGE, subtrans_page_in_full};
pub use record::{Counters, Rec, RecList};
pub use refusal::{Lock, Refusal};
pub use room::{make_one_room, make_room};
pub use sequence::{Copied, IdList, Memory, Sequence};
pub use shared::Shared;
pub use shared_counters::SharedCounters;
pub use shared_snap::SharedSnap;
pub use sight::{Sight, sight_of, sight_of_top};
pub use snapshot::SnapData;
pub use xact_end::XactEnd;
