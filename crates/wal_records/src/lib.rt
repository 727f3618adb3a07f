//! The records of the log: which are lawful, and their bytes, exact both ways. They carry what PostgreSQL's records of
//! `src/include/access/xact.h`, `src/include/access/multixact.h` and `src/include/catalog/pg_control.h` say of ids.
//! `docs/LOG.md` has their layout.
#![tactic(auto)]

mod lawful;
mod reading;
mod stop;
mod writing;

pub use lawful::is_lawful;
pub use reading::{ReadRec, read_rec, take_rec};
pub use stop::Stop;
pub use writing::{rec_length, write_rec};
