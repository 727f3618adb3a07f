//! The parts of an engine behind the locks of a lock table, what each stands for by its lock's list of entries, and
//! how a session stands that enters and leaves them. See `docs/ENGINE.md`.
#![tactic(auto)]

mod fault_notes;
mod gate;
mod hold;
mod in_place;
mod law;
/// What holds of the promises of all calls. The functions do nothing; their contracts are the laws.
pub mod laws;
mod log_hold;
mod members_hold;
mod multi_hold;
mod offsets_hold;
mod oldest_word;
mod part;
mod proc_hold;
mod quiet;
mod session;
mod subtrans_hold;
mod xact_hold;

pub use fault_notes::{fault_note, flush_fault_note};
pub use gate::{Gate, Gated, OpenGate, Passing};
pub use hold::{enter, leave};
pub use in_place::InPlace;
pub use law::EngineLaw;
pub use log_hold::{enter_log, leave_log};
pub use members_hold::enter_members;
pub use multi_hold::{enter_multi, leave_multi};
pub use offsets_hold::enter_offsets;
pub use oldest_word::read_oldest_word;
pub use part::Part;
pub use proc_hold::{enter_proc, leave_proc};
pub use quiet::{leave_looked, leave_quiet};
pub use session::{Caller, Making, Session, Stage, Unlinked, command_of, count};
pub use subtrans_hold::enter_subtrans;
pub use xact_hold::enter_xact;
