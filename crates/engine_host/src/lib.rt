//! The lock table of an engine: its parts made over the volumes of a new cluster or of one that was recovered, the
//! table over them, and the passes of its sessions. See `docs/ENGINE.md`.
#![tactic(auto)]

mod banks;
mod begun_parts;
mod building;
mod cluster;
mod first_log;
mod first_parts;
mod host;
mod pairs;
mod refusal;
mod rooms;
mod volumes;

pub use begun_parts::open_begun;
pub use cluster::{BankVolumes, Cluster, Parts};
pub use first_parts::open_new;
pub use host::{Host, admit, close, dismiss, make_table, new_session};
pub use refusal::OpenRefusal;
pub use rooms::LifeRooms;
pub use volumes::{TakenApart, take_apart};
