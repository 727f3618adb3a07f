// A rule of pages as wide as those of the commit log, and a volume that counts its calls.
ghost use Rattle.std.specs.Prelude.{◌≡◌, ◌+◌, ◌*◌, ◌%◌, ◌^◌, ◌<◌};
ghost use Rattle.tx_events.specs.PageOrder.{Ids};

use disk_core::{Failed, PageDisk};
use slru_bank::{PageSpan, SlruBank};
use std::process::Abort;
use store_pages::PageRule;
use tx_events::{Xid, precedes};

pub struct IdPages;

fn number_of(p: u32, more: u32) -> Xid
    requires { more < 2 ^ 16 }
    ensures { result.number ≡ (p * 32768 + more) % 2 ^ 32 }
{
    Xid {
        number: p.wrapping_mul(32768).wrapping_add(more),
    }
}

impl PageRule for IdPages {
    ghost shape = { Ids };

    ghost per_page = { 32768 };

    fn precedes(p: u32, q: u32) -> bool {
        precedes(number_of(p, 4), number_of(q, 4)) && precedes(number_of(p, 4), number_of(q, 32771))
    }
}

impl PageSpan for IdPages {
    fn per_page() -> u32 {
        32768
    }
}

// A volume of zeros that tells nothing: it counts reads, and fails them from some point on.
#[derive(Drop)]
pub struct Counted {
    reads: u32,
    fails_after: u32,
    faults: u64,
}

impl PageDisk for Counted {
    ghost use Rattle.std.specs.Prelude.{ℕ, false, None};
    ghost use Rattle.disk_core.specs.Pages.{Pages};

    ghost tells = { false };

    ghost pages = { λ d q. None };

    ghost images = { λ d c. Unit {0} };

    ghost moment = { λ d. 0 };

    ghost left_at = { λ d t c. Unit {0} };

    ghost faults = { λ d. d.faults };

    ghost reads_image = { λ d told. tt };

    ghost counts_now = { λ d c told now. tt };

    ghost only_now = { λ d c told now. tt };

    fn read_page(&mut self, _page: u32, into: &mut [u8; 8192]) -> Result<bool, Failed> {
        if self.reads >= self.fails_after {
            self.faults = self.faults.saturating_add(1);
            return Err(Failed);
        }
        self.reads = self.reads.saturating_add(1);
        *into = [0; 8192];
        Ok(false)
    }

    fn write_page(&mut self, _page: u32, _from: &[u8; 8192]) -> Result<(), Failed> {
        Ok(())
    }

    fn remove(&mut self, _page: u32) -> Result<(), Failed> {
        Ok(())
    }

    fn after(&mut self, _page: Option<u32>) -> Result<Option<u32>, Failed> {
        Ok(None)
    }

    fn sync(&mut self) -> Result<(), Failed> {
        Ok(())
    }
}

/// An empty bank over such a volume.
pub fn counted_bank(
    rt: &(impl Abort + AllocGlobal),
    fails_after: u32,
) -> SlruBank<Counted, IdPages> {
    let disk = Counted {
        reads: 0,
        fails_after,
        faults: 0,
    };
    let bank = SlruBank::new(rt.alloc(), disk, 0, 0);
    bank.ok().expect(rt, "memory")
}

/// How often it was read, and how often it failed.
pub fn counts(bank: SlruBank<Counted, IdPages>) -> (u32, u64) {
    let disk = bank.into_disk();
    (disk.reads, disk.faults)
}
