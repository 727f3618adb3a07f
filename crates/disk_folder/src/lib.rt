//! A media over a folder of files. It tells nothing of what its volumes hold, and keeps their counts of faults
//! (docs/DISKS.md).
#![tactic(auto)]

mod file_calls;
mod folder;
mod folder_banks;
mod folder_log;
mod folder_media;
mod folder_pages;

pub use folder_log::FolderLog;
pub use folder_media::FolderMedia;
pub use folder_pages::FolderPages;
