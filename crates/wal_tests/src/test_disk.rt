// The volume of these tests.
ghost use Rattle.std.specs.Prelude.{◌≡◌};
ghost use Rattle.disk_core.specs.Faults.{CountsFault};

use disk_core::{Crash, Extent, Failed, LogDisk, MemLog};
use std::alloc::Global;

/// A volume in memory, kept from the place `from` on, which passes so many calls and fails each later one without doing it.
#[derive(Drop)]
pub struct TestDisk {
    bytes: MemLog,
    from: u64,
    passes: u64,
    faults: u64,
}

impl TestDisk {
    /// A volume with these bytes from a place on, which passes so many calls.
    pub fn of(alloc: Global, from: u64, bytes: Vec<u8>, passes: u64) -> TestDisk {
        TestDisk {
            bytes: MemLog::of(alloc, bytes),
            from,
            passes,
            faults: 0,
        }
    }

    /// What a crash leaves of it. It passes each call from then on.
    pub fn after_crash(self, how: Crash) -> TestDisk {
        let mut disk = self;
        disk.bytes.crash(how);
        disk.passes = u64::MAX;
        disk
    }
}

fn pass(passes: &mut u64, faults: &mut u64) -> Result<(), Failed>
    ensures { CountsFault result faults.old faults.new }
{
    match passes.checked_sub(1) {
        Some(left) => {
            *passes = left;
            Ok(())
        }
        None => {
            *faults = faults.saturating_add(1);
            Err(Failed)
        }
    }
}

// A failure in memory is one of this volume.
fn counted<T>(outcome: Result<T, Failed>, faults: &mut u64) -> Result<T, Failed>
    ensures same { result ≡ outcome }
    ensures cause { CountsFault result faults.old faults.new }
{
    if outcome.is_err() {
        *faults = faults.saturating_add(1);
    }
    outcome
}

// It tells the proofs nothing of its bytes.
impl LogDisk for TestDisk {
    ghost use Rattle.std.specs.Prelude.{ℕ, [], false};

    ghost tells = { false };

    ghost reads = { λ d. record { start = 0; bytes = [] } };

    ghost images = { λ d c. Unit {0} };

    ghost moment = { λ d. 0 };

    ghost left_at = { λ d t c. Unit {0} };

    ghost faults = { λ d. d.faults };

    ghost reads_image = { λ d told. tt };

    ghost counts_now = { λ d c told now. tt };

    ghost only_now = { λ d c told now. tt };

    fn read(&mut self, at: u64, into: &mut [u8]) -> Result<usize, Failed> {
        pass(&mut self.passes, &mut self.faults)?;
        let read = self.bytes.read(at.saturating_sub(self.from), into);
        counted(read, &mut self.faults)
    }

    fn write_at(&mut self, at: u64, from: &[u8]) -> Result<(), Failed> {
        pass(&mut self.passes, &mut self.faults)?;
        let written = self.bytes.write_at(at.saturating_sub(self.from), from);
        counted(written, &mut self.faults)
    }

    fn sync(&mut self) -> Result<(), Failed> {
        pass(&mut self.passes, &mut self.faults)?;
        let synced = self.bytes.sync();
        counted(synced, &mut self.faults)
    }

    fn forget(&mut self, upto: u64) -> Result<(), Failed> {
        pass(&mut self.passes, &mut self.faults)?;
        let forgotten = self.bytes.forget(upto.saturating_sub(self.from));
        counted(forgotten, &mut self.faults)
    }

    fn extent(&mut self) -> Result<Extent, Failed> {
        pass(&mut self.passes, &mut self.faults)?;
        let extent = self.bytes.extent();
        let Extent { start, length } = counted(extent, &mut self.faults)?;
        Ok(Extent {
            start: self.from.saturating_add(start),
            length: self.from.saturating_add(length),
        })
    }
}
