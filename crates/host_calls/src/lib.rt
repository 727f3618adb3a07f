//! What the host does between two rounds: it makes a checkpoint (`CreateCheckPoint` of
//! `src/backend/access/transam/xlog.c`), or shows a page of a store, or the log. See `docs/ENGINE.md`.
#![tactic(auto)]

mod answering;
mod checkpoints;
mod clusters;
mod committing;
mod images;
mod log;
mod making;
mod pages;
mod replies;
mod syncs;
mod writing;

pub use answering::show;
pub use checkpoints::checkpoint;
pub use clusters::same_cluster;
pub use images::{has_64_bits, pages_read_an_image, reads_an_image};
pub use log::dump_log;
pub use pages::{dump_members, dump_offsets, dump_subtrans, dump_xact};
pub use replies::{done, judged, known, seen, snapped, told};
