//! A folder as a whole: how it is made, and how one that was made before is taken.
ghost use Rattle.std.specs.Prelude.{◌≡◌, ◌≤◌, IfOk};

use crate::file_calls::{entries_of, path_in, put_number, read_number, sync_at};
use std::alloc::Global;
use std::fs::{self, Files, OpenFile, OpenOptions};
use std::io;

/// Makes the folder, where it isn't there. An earlier making may have been cut short right behind that, so its own name
/// is synced either way.
fn make_folder<R: Files>(rt: &R, alloc: Global, folder: &str) -> io::Result<()> {
    match fs::create_dir(rt, folder) {
        Err(error) if error.kind() != io::ErrorKind::AlreadyExists => Err(error),
        _ => sync_at(rt, path_in(alloc, folder, "..")?.as_str()),
    }
}

// What a making leaves that is cut short.
fn may_be_there(name: &str) -> bool {
    ["log", "start", "start.new", "banks.new"].contains(&name)
}

/// Fails where a folder holds something else, which isn't ours.
fn check_names<R: Files + Clone + Drop>(rt: &R, alloc: Global, folder: &str) -> io::Result<()> {
    for entry in entries_of(rt, alloc, folder)? {
        if !may_be_there(entry?.file_name()) {
            return Err(io::ErrorKind::AlreadyExists.into());
        }
    }
    Ok(())
}

/// Makes an empty log. One that holds something isn't taken.
fn make_log<R: Files>(rt: &R, alloc: Global, folder: &str) -> io::Result<()> {
    let path = path_in(alloc, folder, "log")?;
    let log = OpenOptions::new()
        .write(true)
        .create(true)
        .open(rt, path.as_str())?;
    if log.metadata()?.len() != 0 {
        return Err(io::ErrorKind::AlreadyExists.into());
    }
    log.sync_all()
}

/// Makes a folder of empty volumes. The number of banks comes last, so that a making that was cut short begins anew.
fn make<R: Files + Clone + Drop>(
    rt: &R,
    alloc: Global,
    folder: &str,
    banks: u32,
) -> io::Result<()> {
    make_folder(rt, alloc, folder)?;
    check_names(rt, alloc, folder)?;
    make_log(rt, alloc, folder)?;
    put_number(rt, alloc, folder, "start", 0)?;
    put_number(rt, alloc, folder, "banks", u64::from(banks))?;
    sync_at(rt, folder)
}

/// Syncs every file of a folder, and its names. An earlier program may have ended with something unsynced, which is read
/// now and not written again.
fn settle<R: Files + Clone + Drop>(rt: &R, alloc: Global, folder: &str) -> io::Result<()> {
    for entry in entries_of(rt, alloc, folder)? {
        sync_at(rt, entry?.path().as_str())?;
    }
    sync_at(rt, folder)
}

/// Takes the folder that is there, or makes one of so many banks, and answers how many it has.
pub(crate) fn prepare<R: Files + Clone + Drop>(
    rt: &R,
    alloc: Global,
    folder: &str,
    banks: u32,
) -> io::Result<u32>
    requires some { 1 ≤ banks }
    requires few { banks ≤ 16 }
    ensures banks { IfOk result (λ n. (1 ≤ n) × (n ≤ 16)) }
{
    match read_number(rt, alloc, folder, "banks") {
        Ok(found) if 1 <= found && found <= 16 => {
            settle(rt, alloc, folder)?;
            Ok(found as u32)
        }
        Ok(_) => Err(io::ErrorKind::InvalidData.into()),
        Err(error) if error.kind() == io::ErrorKind::NotFound => {
            make(rt, alloc, folder, banks)?;
            Ok(banks)
        }
        Err(error) => Err(error),
    }
}
