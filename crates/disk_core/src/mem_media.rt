//! A media in memory.
ghost use Rattle.std.specs.Prelude.{◌≡◌, ◌≤◌, IfOk, OnOk, OnErr};
ghost use Rattle.disk_core.specs.Faults.{CountsFault, counted_by};
ghost use Rattle.disk_core.specs.Media.{AllCrashed, HaveSameBanks};
ghost use Rattle.disk_core.specs.MemMediaViews.{BankFell, BoxedLogFell, IsFirst, IsFirstLog, bank_crashed, boxed_log_crashed};

use crate::mem_banks::{crash_banks, new_banks};
use crate::{Crash, Failed, Media, MemLog, MemPages, MountRefusal, Volumes};
use std::alloc::{AllocError, Global};
use std::mem;

#[derive(Drop)]
pub struct MemMedia {
    alloc: Global,
    // The log's bytes before the first mount.
    log: Vec<u8>,
    held: Option<Volumes<Box<MemLog>, Box<MemPages>>>,
    is_mounted: bool,
    faults: u64,
}

impl MemMedia {
    ghost use Rattle.std.specs.Prelude.{◌≡◌, [], IsTrue};
    ghost use Rattle.disk_core.specs.MemMediaViews.{is_new, first_log, is_idle};

    /// A media on which nothing was written.
    pub fn new(alloc: Global) -> MemMedia
        ensures idle { IsTrue (is_idle result) }
        ensures new { IsTrue (is_new result) }
        ensures log { first_log result ≡ [] }
        ensures faults { result.faults ≡ 0 }
    {
        MemMedia::of_log(alloc, Vec::new(alloc))
    }

    /// A media with this log, all of it synced, and no pages.
    pub fn of_log(alloc: Global, bytes: Vec<u8>) -> MemMedia
        ensures idle { IsTrue (is_idle result) }
        ensures new { IsTrue (is_new result) }
        ensures log { first_log result ≡ bytes.items }
        ensures faults { result.faults ≡ 0 }
    {
        MemMedia {
            alloc,
            log: bytes,
            held: None,
            is_mounted: false,
            faults: 0,
        }
    }
}

// The log of a first mount, and the bytes go into it.
fn log_of(alloc: Global, bytes: &mut Vec<u8>) -> Result<Box<MemLog>, AllocError>
    ensures first { IfOk result (IsFirstLog bytes.old.items) }
    ensures err { OnErr result (bytes.new.items ≡ bytes.old.items) }
{
    let mut log = Box::new(alloc, MemLog::of(alloc, Vec::new(alloc)))?;
    *log = MemLog::of(alloc, mem::replace(bytes, Vec::new(alloc)));
    Ok(log)
}

// The first volumes, and the log's bytes go into them.
fn first_volumes(
    alloc: Global,
    log: &mut Vec<u8>,
    banks: u32,
) -> Result<Volumes<Box<MemLog>, Box<MemPages>>, AllocError>
    requires some { 1 ≤ banks }
    requires few { banks ≤ 16 }
    ensures first { IfOk result (IsFirst log.old.items banks) }
    ensures err { OnErr result (log.new.items ≡ log.old.items) }
{
    let xact = new_banks(alloc, banks)?;
    let subtrans = new_banks(alloc, banks)?;
    let offsets = new_banks(alloc, banks)?;
    let members = new_banks(alloc, banks)?;
    let log = log_of(alloc, log)?;
    Ok(Volumes {
        log,
        xact,
        subtrans,
        offsets,
        members,
    })
}

fn crash_all(volumes: &mut Volumes<Box<MemLog>, Box<MemPages>>, how: Crash) -> Result<(), Failed>
    ensures crashed { OnOk result (AllCrashed boxed_log_crashed bank_crashed volumes.old volumes.new) }
    ensures fell { OnOk result (AllCrashed (BoxedLogFell how) (BankFell how) volumes.old volumes.new) }
    ensures banks { HaveSameBanks volumes.old volumes.new }
{
    volumes.log.crash(how);
    crash_banks(&mut volumes.xact, how)?;
    crash_banks(&mut volumes.subtrans, how)?;
    crash_banks(&mut volumes.offsets, how)?;
    crash_banks(&mut volumes.members, how)
}

impl Media for MemMedia {
    type Log = Box<MemLog>;

    type Pages = Box<MemPages>;

    ghost use Rattle.std.specs.Global.{Box};
    ghost use Rattle.std.specs.Prelude.{◌≡◌, ◌≤◌, IsTrue, IfOk, OnOk, OnErr, false};
    ghost use Rattle.disk_core.specs.Images.{NoMore, Only};
    ghost use Rattle.disk_core.specs.Media.{HasBanks, HaveSameBanks, CountsMount, AllCrashed};
    ghost use Rattle.disk_core.specs.declared.media.Volumes.{Volumes};
    ghost use Rattle.disk_core.specs.MemMediaViews.{BankFell, BoxedLogFell, IsFirst, bank_crashed, boxed_log_crashed, first_log, gives, is_idle, is_new};

    ghost is_idle = { λ m. is_idle m };

    ghost is_new = { λ m. is_new m };

    ghost begins = { λ m banks. IsFirst (first_log m) banks };

    ghost gives = { λ m. gives m };

    ghost falls = { λ how. AllCrashed (BoxedLogFell how) (BankFell how) };

    ghost faults = { λ m. m.faults };

    fn mount(&mut self, banks: u32) -> Result<Volumes<Box<MemLog>, Box<MemPages>>, MountRefusal>
        requires idle { IsTrue (is_idle self.old) }
        requires some { 1 ≤ banks }
        requires few { banks ≤ 16 }
        ensures again { is_new self.old ≡ false → IfOk result (gives self.old) }
        ensures first { IsTrue (is_new self.old) → IfOk result (HasBanks banks) }
        ensures begins { IsTrue (is_new self.old) → IfOk result (IsFirst (first_log self.old) banks) }
        ensures mounted { OnOk result (is_idle self.new ≡ false) }
        ensures idle { OnErr result (IsTrue (is_idle self.new)) }
        ensures kept { OnErr result (is_new self.old ≡ false → (is_new self.new ≡ false) × NoMore (gives self.old) (gives self.new)) }
        ensures still_new { OnErr result (is_new self.new ≡ is_new self.old) }
        ensures same { OnErr result (first_log self.new ≡ first_log self.old) }
        ensures cause { CountsMount result self.old.faults self.new.faults }
        ensures faults { self.new.faults ≡ self.old.faults }
    {
        if let Some(volumes) = self.held.take() {
            self.is_mounted = true;
            return Ok(volumes);
        }
        let Ok(volumes) = first_volumes(self.alloc, &mut self.log, banks) else {
            return Err(MountRefusal::Memory);
        };
        self.is_mounted = true;
        Ok(volumes)
    }

    fn crash(
        &mut self,
        volumes: Volumes<Box<MemLog>, Box<MemPages>>,
        how: Crash,
    ) -> Result<(), Failed>
        ensures idle { IsTrue (is_idle self.new) }
        ensures old { is_new self.new ≡ false }
        ensures left { OnOk result ((next : Volumes (Box MemLog) (Box MemPages)) → gives self.new next → AllCrashed boxed_log_crashed bank_crashed volumes next) }
        ensures fell { OnOk result ((next : Volumes (Box MemLog) (Box MemPages)) → gives self.new next → AllCrashed (BoxedLogFell how) (BankFell how) volumes next) }
        ensures banks { (next : Volumes (Box MemLog) (Box MemPages)) → gives self.new next → HaveSameBanks volumes next }
        ensures cause { CountsFault result self.old.faults self.new.faults }
        ensures counted { self.new.faults ≡ counted_by result self.old.faults }
    {
        let mut volumes = volumes;
        let outcome = crash_all(&mut volumes, how);
        self.held = Some(volumes);
        self.is_mounted = false;
        count_failed(outcome, &mut self.faults)
    }

    fn rest(&mut self, volumes: Volumes<Box<MemLog>, Box<MemPages>>)
        ensures idle { IsTrue (is_idle self.new) }
        ensures old { is_new self.new ≡ false }
        ensures same { Only volumes (gives self.new) }
        ensures faults { self.new.faults ≡ self.old.faults }
    {
        self.held = Some(volumes);
        self.is_mounted = false;
    }
}

// A volume's failure is one of the media too.
fn count_failed(outcome: Result<(), Failed>, faults: &mut u64) -> Result<(), Failed>
    ensures same { result ≡ outcome }
    ensures cause { CountsFault result faults.old faults.new }
    ensures counted { faults.new ≡ counted_by result faults.old }
{
    if outcome.is_err() {
        *faults = faults.saturating_add(1);
    }
    outcome
}
