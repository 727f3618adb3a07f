//! A log volume in a folder.
ghost use Rattle.std.specs.Prelude.{◌≡◌, ◌≤◌, length, IfOk};

use crate::file_calls::{count, path_in, put_number, read_at, read_number, sync_at, write_at};
use disk_core::{Extent, Failed, LogDisk};
use std::alloc::Global;
use std::fs::{Files, OpenFile, OpenOptions};
use std::io;

/// A log volume of two files: its bytes in `log`, and its start in `start`, 8 bytes, the lowest first.
#[derive(Drop)]
pub struct FolderLog<R: Files + Drop> {
    rt: R,
    alloc: Global,
    folder: String,
    file: R::File,
    start: u64,
    // The start's file was replaced since the names in the folder were synced.
    is_moved: bool,
    // A sync failed. What was written before it may be lost, and no later one can tell: the system forgets that.
    is_broken: bool,
    faults: u64,
}

/// The log's file, which doesn't end before this start.
fn open_file<R: Files>(rt: &R, alloc: Global, folder: &str, start: u64) -> io::Result<R::File> {
    let path = path_in(alloc, folder, "log")?;
    let file = OpenOptions::new()
        .read(true)
        .write(true)
        .open(rt, path.as_str())?;
    if file.metadata()?.len() < start {
        return Err(io::ErrorKind::UnexpectedEof.into());
    }
    Ok(file)
}

impl<R: Files + Clone + Drop> FolderLog<R> {
    /// Fails where a file is missing, or the log ends before its start.
    pub(crate) fn open(rt: &R, alloc: Global, folder: &str) -> io::Result<FolderLog<R>>
        ensures { IfOk result (λ log. log.faults ≡ 0) }
    {
        let start = read_number(rt, alloc, folder, "start")?;
        let file = open_file(rt, alloc, folder, start)?;
        Ok(FolderLog {
            rt: rt.clone()?,
            alloc,
            folder: String::from_str(alloc, folder)?,
            file,
            start,
            is_moved: false,
            is_broken: false,
            faults: 0,
        })
    }
}

impl<R: Files + Drop> FolderLog<R> {
    fn sync_files(&mut self) -> io::Result<()>
        ensures faults { self.new.faults ≡ self.old.faults }
    {
        if self.is_broken {
            return Err(io::ErrorKind::Other.into());
        }
        self.is_broken = true;
        self.file.sync_all()?;
        if self.is_moved {
            sync_at(&self.rt, self.folder.as_str())?;
            self.is_moved = false;
        }
        self.is_broken = false;
        Ok(())
    }

    fn raise_start(&mut self, upto: u64) -> io::Result<()>
        ensures faults { self.new.faults ≡ self.old.faults }
    {
        if upto <= self.start {
            return Ok(());
        }
        self.is_moved = true;
        put_number(&self.rt, self.alloc, self.folder.as_str(), "start", upto)?;
        self.start = upto;
        Ok(())
    }

    fn measure(&self) -> io::Result<Extent> {
        Ok(Extent {
            start: self.start,
            length: self.file.metadata()?.len(),
        })
    }
}

impl<R: Files + Drop> LogDisk for FolderLog<R> {
    ghost use Rattle.std.specs.Prelude.{◌≡◌, ◌≤◌, [], false, length, IfOk};
    ghost use Rattle.disk_core.specs.Faults.{CountsFault, counted_by};

    ghost tells = { false };

    ghost reads = { λ log. record { start = 0; bytes = [] } };

    ghost images = { λ log volume. Unit {0} };

    ghost moment = { λ log. 0 };

    ghost left_at = { λ log moment volume. Unit {0} };

    ghost faults = { λ log. log.faults };

    ghost reads_image = { λ log told. tt };

    ghost counts_now = { λ log volume told left. tt };

    ghost only_now = { λ log volume told left. tt };

    fn read(&mut self, at: u64, into: &mut [u8]) -> Result<usize, Failed>
        ensures count { IfOk result (λ n. n ≤ length into.old) }
        ensures cause { CountsFault result self.old.faults self.new.faults }
        ensures counted { self.new.faults ≡ counted_by result self.old.faults }
    {
        count(read_at(&mut self.file, at, into), &mut self.faults)
    }

    fn write_at(&mut self, at: u64, from: &[u8]) -> Result<(), Failed>
        ensures cause { CountsFault result self.old.faults self.new.faults }
        ensures counted { self.new.faults ≡ counted_by result self.old.faults }
    {
        count(write_at(&mut self.file, at, from), &mut self.faults)
    }

    fn sync(&mut self) -> Result<(), Failed>
        ensures cause { CountsFault result self.old.faults self.new.faults }
        ensures counted { self.new.faults ≡ counted_by result self.old.faults }
    {
        let outcome = self.sync_files();
        count(outcome, &mut self.faults)
    }

    fn forget(&mut self, upto: u64) -> Result<(), Failed>
        ensures cause { CountsFault result self.old.faults self.new.faults }
        ensures counted { self.new.faults ≡ counted_by result self.old.faults }
    {
        let outcome = self.raise_start(upto);
        count(outcome, &mut self.faults)
    }

    fn extent(&mut self) -> Result<Extent, Failed>
        ensures cause { CountsFault result self.old.faults self.new.faults }
        ensures counted { self.new.faults ≡ counted_by result self.old.faults }
    {
        count(self.measure(), &mut self.faults)
    }
}
