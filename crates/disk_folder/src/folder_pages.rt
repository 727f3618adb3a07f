//! A page volume in a folder.
ghost use Rattle.std.specs.Prelude.{◌≡◌, ◌≤◌, IfOk, IfSome};
ghost use Rattle.disk_core.specs.Pages.{IsAfter};

use crate::file_calls::{count, entries_of, read_at, sync_at};
use disk_core::{Failed, PageDisk};
use std::alloc::{AllocError, Global};
use std::collections::BTreeSet;
use std::fs::{self, File, Files, OpenOptions};
use std::io::{self, Write};

/// A page volume of a file for each page, `NAME.PAGE` by the volume's name and the page's number.
#[derive(Drop)]
pub struct FolderPages<R: Files + Drop> {
    rt: R,
    alloc: Global,
    folder: String,
    name: String,
    // The pages that were written since the last sync, and are there.
    written: BTreeSet<u32>,
    // A file may have been made or removed since.
    is_changed: bool,
    // A sync failed. What was written before it may be lost, and no later one can tell: the system forgets that.
    is_broken: bool,
    faults: u64,
}

impl<R: Files + Clone + Drop> FolderPages<R> {
    pub(crate) fn open(
        rt: &R,
        alloc: Global,
        folder: &str,
        store: &str,
        bank: u32,
    ) -> Result<FolderPages<R>, AllocError>
        ensures { IfOk result (λ pages. pages.faults ≡ 0) }
    {
        Ok(FolderPages {
            rt: rt.clone()?,
            alloc,
            folder: String::from_str(alloc, folder)?,
            name: format!(in alloc; "{store}.{bank}")?,
            written: BTreeSet::new(alloc),
            is_changed: false,
            is_broken: false,
            faults: 0,
        })
    }

    // The least of the volume's pages above the given one.
    fn next_page(&self, page: Option<u32>) -> io::Result<Option<u32>>
        ensures { IfOk result (λ next. IfSome next (IsAfter page)) }
    {
        let mut next = None;
        for entry in entries_of(&self.rt, self.alloc, self.folder.as_str())? {
            let entry = entry?;
            if let Some(found) = page_of(self.name.as_str(), entry.file_name()) {
                next = nearer(page, next, found);
            }
        }
        Ok(next)
    }
}

/// The page whose file has this name, if it is one of the volume.
fn page_of(volume: &str, name: &str) -> Option<u32> {
    name.strip_prefix(volume)?
        .strip_prefix('.')?
        .parse::<u32>()
        .ok()
}

/// The lesser one of two pages, where the second is above the given one.
fn nearer(page: Option<u32>, next: Option<u32>, found: u32) -> Option<u32>
    requires { IfSome next (IsAfter page) }
    ensures { IfSome result (IsAfter page) }
{
    if page.is_some_and(|page| found <= page) {
        return next;
    }
    match next {
        Some(next) if next <= found => Some(next),
        _ => Some(found),
    }
}

impl<R: Files + Drop> FolderPages<R> {
    fn path(&self, page: u32) -> Result<String, AllocError> {
        format!(in self.alloc; "{}/{}.{}", self.folder, self.name, page)
    }

    // What a crash cut off a page are zeros.
    fn read_file(&self, page: u32, into: &mut [u8; 8192]) -> io::Result<bool> {
        *into = [0; 8192];
        match File::open(&self.rt, self.path(page)?.as_str()) {
            Ok(mut file) => {
                read_at(&mut file, 0, into)?;
                Ok(true)
            }
            Err(error) if error.kind() == io::ErrorKind::NotFound => Ok(false),
            Err(error) => Err(error),
        }
    }

    fn write_file(&mut self, page: u32, from: &[u8; 8192]) -> io::Result<()>
        ensures faults { self.new.faults ≡ self.old.faults }
    {
        let path = self.path(page)?;
        self.is_changed = true;
        let mut file = OpenOptions::new()
            .write(true)
            .create(true)
            .open(&self.rt, path.as_str())?;
        self.written.insert(page)?;
        file.write_all(from)
    }

    fn remove_file(&mut self, page: u32) -> io::Result<()>
        ensures faults { self.new.faults ≡ self.old.faults }
    {
        let path = self.path(page)?;
        self.is_changed = true;
        match fs::remove_file(&self.rt, path.as_str()) {
            Err(error) if error.kind() != io::ErrorKind::NotFound => Err(error),
            _ => {
                self.written.remove(&page);
                Ok(())
            }
        }
    }

    fn sync_written(&self) -> io::Result<()> {
        for &page in &self.written {
            sync_at(&self.rt, self.path(page)?.as_str())?;
        }
        Ok(())
    }

    fn sync_files(&mut self) -> io::Result<()>
        ensures faults { self.new.faults ≡ self.old.faults }
    {
        if self.is_broken {
            return Err(io::ErrorKind::Other.into());
        }
        self.is_broken = true;
        self.sync_written()?;
        if self.is_changed {
            sync_at(&self.rt, self.folder.as_str())?;
        }
        self.written.clear();
        self.is_changed = false;
        self.is_broken = false;
        Ok(())
    }
}

impl<R: Files + Clone + Drop> PageDisk for FolderPages<R> {
    ghost use Rattle.std.specs.Prelude.{◌≡◌, ◌≤◌, None, false, IfOk, IfSome};
    ghost use Rattle.disk_core.specs.Faults.{CountsFault, counted_by};
    ghost use Rattle.disk_core.specs.Pages.{IsAfter};

    ghost tells = { false };

    ghost pages = { λ volume page. None };

    ghost images = { λ volume pages. Unit {0} };

    ghost moment = { λ volume. 0 };

    ghost left_at = { λ volume moment pages. Unit {0} };

    ghost faults = { λ volume. volume.faults };

    ghost reads_image = { λ volume told. tt };

    ghost counts_now = { λ volume pages told left. tt };

    ghost only_now = { λ volume pages told left. tt };

    fn read_page(&mut self, page: u32, into: &mut [u8; 8192]) -> Result<bool, Failed>
        ensures cause { CountsFault result self.old.faults self.new.faults }
        ensures counted { self.new.faults ≡ counted_by result self.old.faults }
    {
        count(self.read_file(page, into), &mut self.faults)
    }

    fn write_page(&mut self, page: u32, from: &[u8; 8192]) -> Result<(), Failed>
        ensures cause { CountsFault result self.old.faults self.new.faults }
        ensures counted { self.new.faults ≡ counted_by result self.old.faults }
    {
        let outcome = self.write_file(page, from);
        count(outcome, &mut self.faults)
    }

    fn remove(&mut self, page: u32) -> Result<(), Failed>
        ensures cause { CountsFault result self.old.faults self.new.faults }
        ensures counted { self.new.faults ≡ counted_by result self.old.faults }
    {
        let outcome = self.remove_file(page);
        count(outcome, &mut self.faults)
    }

    fn after(&mut self, page: Option<u32>) -> Result<Option<u32>, Failed>
        ensures above { IfOk result (λ next. IfSome next (IsAfter page)) }
        ensures cause { CountsFault result self.old.faults self.new.faults }
        ensures counted { self.new.faults ≡ counted_by result self.old.faults }
    {
        count(self.next_page(page), &mut self.faults)
    }

    fn sync(&mut self) -> Result<(), Failed>
        ensures cause { CountsFault result self.old.faults self.new.faults }
        ensures counted { self.new.faults ≡ counted_by result self.old.faults }
    {
        let outcome = self.sync_files();
        count(outcome, &mut self.faults)
    }
}
