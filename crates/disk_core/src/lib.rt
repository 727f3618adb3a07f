//! Volumes of bytes and of pages: what they read, what a crash may leave of them, and how often they
//! failed (docs/DISKS.md).
#![tactic(auto)]

mod boxed_log;
mod boxed_pages;
mod log_disk;
mod media;
mod mem_banks;
mod mem_log;
mod mem_media;
mod mem_pages;
mod page_bytes;
mod page_disk;

pub use log_disk::{Extent, Failed, LogDisk, Memory};
pub use media::{Crash, Media, MountRefusal, Volumes, Which};
pub use mem_log::MemLog;
pub use mem_media::MemMedia;
pub use mem_pages::MemPages;
pub use page_disk::PageDisk;
