ghost use Rattle.std.specs.Prelude.{◌≡◌, ℕ, ◌%◌, ◌<◌};
ghost use Rattle.tx_events.specs.Ids.{low_half};
ghost use Rattle.tx_events.specs.declared.refusal.Lock.TheVariants as locks;
ghost use Rattle.tx_events.specs.Pages.{member_page, offset_page, subtrans_page, xact_page};
ghost use Rattle.tx_core.specs.Locks.{number_of};

use store_pages::{bank_of, member_page, offset_page, subtrans_page, xact_page};
use tx_events::{FullMulti, FullXid, Lock};

/// The number of a lock: the log's, the ProcArray's and the multixacts' first, then bank by bank those of the four
/// stores.
pub fn lock_number(lock: Lock) -> u64
    ensures { result ≡ number_of lock }
{
    match lock {
        Lock::Log => 0,
        Lock::Proc => 1,
        Lock::Multi => 2,
        Lock::Xact(bank) => 3 + 4 * u64::from(bank),
        Lock::Subtrans(bank) => 4 + 4 * u64::from(bank),
        Lock::Offsets(bank) => 5 + 4 * u64::from(bank),
        Lock::Members(bank) => 6 + 4 * u64::from(bank),
    }
}

/// The lock under which the state of `id` lies, where each store has this many banks (`SimpleLruGetBankLock`).
pub fn state_lock(id: FullXid, banks: u32) -> Lock
    requires { 0 < banks }
    ensures { result ≡ locks.Xact (xact_page (low_half id) % banks) }
{
    Lock::Xact(bank_of(xact_page(id.low()), banks))
}

/// The lock under which its parent lies.
pub fn parent_lock(id: FullXid, banks: u32) -> Lock
    requires { 0 < banks }
    ensures { result ≡ locks.Subtrans (subtrans_page (low_half id) % banks) }
{
    Lock::Subtrans(bank_of(subtrans_page(id.low()), banks))
}

/// The lock under which the offset of `multi` lies.
pub fn offset_lock(multi: FullMulti, banks: u32) -> Lock
    requires { 0 < banks }
    ensures { result ≡ locks.Offsets (offset_page (low_half multi) % banks) }
{
    Lock::Offsets(bank_of(offset_page(multi.low()), banks))
}

/// The lock under which the member at `offset` lies, counted in full.
pub fn member_lock(offset: u64, banks: u32) -> Lock
    requires { 0 < banks }
    ensures { result ≡ locks.Members (member_page (low_half offset) % banks) }
{
    let low = (offset & 0xffff_ffff) as u32;
    Lock::Members(bank_of(member_page(low), banks))
}
