//! Medias over another one, of which one volume fails calls without doing them: each from a chosen one on, until the first
//! crash, or one call alone (docs/DISKS.md, "Calls that fail").
#![tactic(auto)]

mod fails;
mod fuse;
mod fused_banks;
mod fused_log;
mod fused_pages;
mod fused_volumes;

pub use fails::Fails;
pub use fuse::Fuse;
pub use fused_log::FusedLog;
pub use fused_pages::FusedPages;
