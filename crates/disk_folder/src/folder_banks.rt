//! The volumes of a folder.
ghost use Rattle.std.specs.Prelude.{◌≡◌, ◌≤◌, length, All, IfOk};
ghost use Rattle.disk_folder.specs.FolderViews.{IsFirstOfSome, IsNewBank};

use crate::folder::prepare;
use crate::{FolderLog, FolderPages};
use disk_core::Volumes;
use std::alloc::{AllocError, Global};
use std::fs::Files;
use std::io;

fn open_banks<R: Files + Clone + Drop>(
    rt: &R,
    alloc: Global,
    folder: &str,
    store: &str,
    banks: u32,
) -> Result<Vec<FolderPages<R>>, AllocError>
    ensures count { IfOk result (λ volumes. length volumes.items ≡ banks) }
    ensures new { IfOk result (λ volumes. All IsNewBank volumes.items) }
{
    let mut volumes = Vec::new(alloc);
    for bank in 0..banks {
        volumes.push(FolderPages::open(rt, alloc, folder, store, bank)?)?;
    }
    Ok(volumes)
}

/// Opens a folder, with the banks that it has, or makes one of so many.
pub(crate) fn open_volumes<R: Files + Clone + Drop>(
    rt: &R,
    alloc: Global,
    folder: &str,
    banks: u32,
) -> io::Result<Volumes<FolderLog<R>, FolderPages<R>>>
    requires some { 1 ≤ banks }
    requires few { banks ≤ 16 }
    ensures first { IfOk result IsFirstOfSome }
{
    let banks = prepare(rt, alloc, folder, banks)?;
    let log = FolderLog::open(rt, alloc, folder)?;
    let xact = open_banks(rt, alloc, folder, "xact", banks)?;
    let subtrans = open_banks(rt, alloc, folder, "subtrans", banks)?;
    let offsets = open_banks(rt, alloc, folder, "offsets", banks)?;
    let members = open_banks(rt, alloc, folder, "members", banks)?;
    Ok(Volumes {
        log,
        xact,
        subtrans,
        offsets,
        members,
    })
}
