//! A media over a folder.
ghost use Rattle.std.specs.Prelude.{◌≡◌, ◌≤◌};
ghost use Rattle.disk_folder.specs.FolderViews.{counted_by_refusal};

use crate::folder_banks::open_volumes;
use crate::{FolderLog, FolderPages};
use disk_core::{Crash, Failed, Media, MountRefusal, Volumes};
use std::alloc::Global;
use std::fs::Files;
use std::io;

/// A media over a folder, which is made where it isn't there.
#[derive(Drop)]
pub struct FolderMedia<R: Files + Drop> {
    rt: R,
    alloc: Global,
    path: String,
    held: Option<Volumes<FolderLog<R>, FolderPages<R>>>,
    is_mounted: bool,
    faults: u64,
}

impl<R: Files + Drop> FolderMedia<R> {
    ghost use Rattle.std.specs.Prelude.{◌≡◌, IsTrue, None};
    ghost use Rattle.disk_folder.specs.FolderViews.{is_idle};

    /// A media over the folder at this path. It touches no file.
    pub fn new(rt: R, alloc: Global, path: String) -> FolderMedia<R>
        ensures idle { IsTrue (is_idle result) }
        ensures first { result.held ≡ None }
        ensures faults { result.faults ≡ 0 }
    {
        FolderMedia {
            rt,
            alloc,
            path,
            held: None,
            is_mounted: false,
            faults: 0,
        }
    }
}

/// Want of memory is told as such. Every other error is a fault.
fn refuse(error: io::Error, faults: &mut u64) -> MountRefusal
    ensures counted { faults.new ≡ counted_by_refusal result faults.old }
    ensures later { faults.old ≤ faults.new }
{
    if error.kind() == io::ErrorKind::OutOfMemory {
        return MountRefusal::Memory;
    }
    *faults = faults.saturating_add(1);
    MountRefusal::Failed
}

impl<R: Files + Clone + Drop + Send> Media for FolderMedia<R>
where
    R::File: Send,
{
    type Log = FolderLog<R>;

    type Pages = FolderPages<R>;

    ghost use Rattle.std.specs.Prelude.{◌≡◌, ◌≤◌, IsOk, IsTrue, IfOk, OnOk, OnErr, false};
    ghost use Rattle.disk_core.specs.Faults.{CountsFault};
    ghost use Rattle.disk_core.specs.Images.{NoMore, Only};
    ghost use Rattle.disk_core.specs.Media.{HaveSameBanks, CountsMount};
    ghost use Rattle.disk_core.specs.declared.media.Volumes.{Volumes};
    ghost use Rattle.disk_folder.specs.declared.folder_log.FolderLog.{FolderLog};
    ghost use Rattle.disk_folder.specs.declared.folder_pages.FolderPages.{FolderPages};
    ghost use Rattle.disk_folder.specs.FolderViews.{is_idle, gives, IsFirst, counted_by_mount};

    ghost is_idle = { λ m. is_idle m };

    // An earlier program may have run over the folder.
    ghost is_new = { λ m. false };

    ghost begins = { λ m banks. IsFirst banks };

    ghost gives = { λ m. gives m };

    // A crash leaves the files as they are.
    ghost falls = { λ how old new. new ≡ old };

    ghost faults = { λ m. m.faults };

    /// Takes what was given back. Otherwise it takes the folder that is there, with the banks that this has, if it has all of
    /// its files; or it makes one of so many banks.
    fn mount(&mut self, banks: u32) -> Result<Volumes<FolderLog<R>, FolderPages<R>>, MountRefusal>
        requires idle { IsTrue (is_idle self.old) }
        requires some { 1 ≤ banks }
        requires few { banks ≤ 16 }
        ensures given { IfOk result (gives self.old) }
        ensures mounted { OnOk result (is_idle self.new ≡ false) }
        ensures idle { OnErr result (IsTrue (is_idle self.new)) }
        ensures kept { OnErr result (NoMore (gives self.old) (gives self.new)) }
        ensures cause { CountsMount result self.old.faults self.new.faults }
        ensures counted { self.new.faults ≡ counted_by_mount result self.old.faults }
    {
        if let Some(volumes) = self.held.take() {
            self.is_mounted = true;
            return Ok(volumes);
        }
        match open_volumes(&self.rt, self.alloc, self.path.as_str(), banks) {
            Ok(volumes) => {
                self.is_mounted = true;
                Ok(volumes)
            }
            Err(error) => Err(refuse(error, &mut self.faults)),
        }
    }

    /// Leaves the files as they are.
    fn crash(
        &mut self,
        volumes: Volumes<FolderLog<R>, FolderPages<R>>,
        _how: Crash,
    ) -> Result<(), Failed>
        ensures idle { IsTrue (is_idle self.new) }
        ensures fell { Only volumes (gives self.new) }
        ensures banks { (next : Volumes (FolderLog R R.File R.Dir) (FolderPages R R.File R.Dir)) → gives self.new next → HaveSameBanks volumes next }
        ensures done { IsOk result }
        ensures cause { CountsFault result self.old.faults self.new.faults }
        ensures faults { self.new.faults ≡ self.old.faults }
    {
        self.rest(volumes);
        Ok(())
    }

    fn rest(&mut self, volumes: Volumes<FolderLog<R>, FolderPages<R>>)
        ensures idle { IsTrue (is_idle self.new) }
        ensures same { Only volumes (gives self.new) }
        ensures faults { self.new.faults ≡ self.old.faults }
    {
        self.held = Some(volumes);
        self.is_mounted = false;
    }
}
