//! The rules of replies that go by no place of a history: want of memory, faults, what the log has room for and what it
//! holds, the replies that how a session stands alone brings, and what is told of an id below 3. See docs/CHECKER.md.
#![tactic(auto)]

mod answers;
mod faults;
mod in_turn;
mod logged;
mod plain;
mod refusals;
mod room;
mod stray;
mod tops;
mod which;

pub use answers::{can_append, can_ask, can_flush, can_lack_memory};
pub use faults::are_log_faults;
pub use logged::{Logs, is_logged, is_ok_trim, truncations};
pub use plain::is_plain_reply;
pub use refusals::{LogEnd, is_lawful_full_commit, is_lawful_refusal};
pub use room::{Room, room_of};
pub use stray::is_any_stray;
pub use tops::{commit_tops, recorded_multis};
pub use which::{goes_by_places, is_by_log};
