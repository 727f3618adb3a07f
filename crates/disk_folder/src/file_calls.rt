//! Calls on files.
ghost use Rattle.std.specs.Prelude.{◌≡◌, ◌≤◌, length, Ok, IfOk};
ghost use Rattle.disk_core.specs.Faults.{CountsFault, counted_by};

use disk_core::Failed;
use std::alloc::{AllocError, Global};
use std::fs::{self, File, Files, OpenFile, ReadDir};
use std::io::{self, Read, Seek, SeekFrom, Write};

/// Reads at a place, fewer bytes than asked for only at the end.
pub(crate) fn read_at<F: Read + Seek + OpenFile>(
    file: &mut F,
    at: u64,
    into: &mut [u8],
) -> io::Result<usize>
    ensures { IfOk result (λ n. n ≤ length into.old) }
{
    let length = file.metadata()?.len();
    if length <= at {
        return Ok(0);
    }
    let count = into.len().min((length - at) as usize);
    file.seek(SeekFrom::Start(at))?;
    file.read_exact(&mut into[..count])?;
    Ok(count)
}

/// Writes at a place. Past the end it leaves zeros between.
pub(crate) fn write_at<F: Write + Seek>(file: &mut F, at: u64, from: &[u8]) -> io::Result<()> {
    file.seek(SeekFrom::Start(at))?;
    file.write_all(from)
}

/// The path of a file in a folder.
pub(crate) fn path_in(alloc: Global, folder: &str, name: &str) -> Result<String, AllocError> {
    let mut path = String::from_str(alloc, folder)?;
    path.push('/')?;
    path.push_str(name)?;
    Ok(path)
}

// The number in a file of 8 bytes.
fn read_number_at<R: Files>(rt: &R, path: &str) -> io::Result<u64> {
    let mut file = File::open(rt, path)?;
    if file.metadata()?.len() != 8 {
        return Err(io::ErrorKind::InvalidData.into());
    }
    let mut bytes = [0; 8];
    file.read_exact(&mut bytes)?;
    Ok(u64::from_le_bytes(bytes))
}

/// The number in a file of 8 bytes of a folder.
pub(crate) fn read_number<R: Files>(
    rt: &R,
    alloc: Global,
    folder: &str,
    name: &str,
) -> io::Result<u64> {
    let path = path_in(alloc, folder, name)?;
    read_number_at(rt, path.as_str())
}

// Makes a file that holds the number.
fn write_number<R: Files>(rt: &R, path: &str, number: u64) -> io::Result<()> {
    let mut file = File::create(rt, path)?;
    file.write_all(&number.to_le_bytes())?;
    file.sync_all()
}

/// Puts a number into a file of a folder, which a crash leaves as it was or with the number. Until the folder's names are
/// synced it may do either.
pub(crate) fn put_number<R: Files>(
    rt: &R,
    alloc: Global,
    folder: &str,
    name: &str,
    number: u64,
) -> io::Result<()> {
    let path = path_in(alloc, folder, name)?;
    let mut draft = path.clone()?;
    draft.push_str(".new")?;
    write_number(rt, draft.as_str(), number)?;
    fs::rename(rt, draft.as_str(), path.as_str())
}

/// What a folder has.
pub(crate) fn entries_of<R: Files + Clone + Drop>(
    rt: &R,
    alloc: Global,
    folder: &str,
) -> io::Result<ReadDir<(R, Global), Global>> {
    fs::read_dir(&(rt.clone()?, alloc), folder)
}

/// Syncs what a file holds, or which names a folder has.
pub(crate) fn sync_at<R: Files>(rt: &R, path: &str) -> io::Result<()> {
    File::open(rt, path)?.sync_all()
}

/// Every error is a fault.
pub(crate) fn count<T: Drop>(outcome: io::Result<T>, faults: &mut u64) -> Result<T, Failed>
    ensures value { IfOk result (λ value. outcome ≡ Ok value) }
    ensures cause { CountsFault result faults.old faults.new }
    ensures counted { faults.new ≡ counted_by result faults.old }
{
    match outcome {
        Ok(value) => Ok(value),
        Err(_) => {
            *faults = faults.saturating_add(1);
            Err(Failed)
        }
    }
}
