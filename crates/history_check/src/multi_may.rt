//! What an event of multixacts is judged by.
ghost use Rattle.std.specs.Prelude.{◌≡◌, ◌+◌, ◌^◌, ◌<◌, ◌≤◌, ◌↔◌, IsTrue, Some, length};
ghost use Rattle.tx_events.specs.Ids.{low_half};
ghost use Rattle.tx_events.specs.Multis.{AreMembers, IsKnown, IsNextMade, first_member};
ghost use Rattle.tx_events.specs.Nearest.{near_id};

use multi_store::{MultiGen, check_members};
use tx_events::{FullMulti, MemberList, MultiLimits, member_stop, near_multi};

/// Where members begin: at the next free offset, or one later where the stored half of that is 0.
fn first_member(free: u64) -> u64
    requires { free < 2 ^ 63 }
    ensures { result ≡ first_member free }
{
    if free & 0xffff_ffff == 0 {
        free + 1
    } else {
        free
    }
}

/// Whether these may be the members of a multixact.
fn are_members(members: &MemberList) -> bool
    ensures { IsTrue result ↔ AreMembers members.now }
{
    check_members(members).is_ok()
}

/// Whether the members end below their limit.
fn do_members_fit(stop: u64, offset: u64, members: &MemberList) -> bool
    ensures { IsTrue result ↔ (offset + length members.now < stop) }
{
    let count = members.items().len() as u64;
    offset < stop && count < stop - offset
}

/// Whether a multixact of this number, this offset and these members may be given next.
pub fn may_give(multis: &MultiGen, multi: FullMulti, offset: u64, members: &MemberList) -> bool
    ensures { IsTrue result ↔ IsNextMade multis.now.base multis.now.events multi offset members.now }
{
    let counters = multis.counters();
    multi == counters.multi
        && multi < MultiLimits::of(counters.oldest_multi).stop
        && offset == first_member(counters.offset)
        && are_members(members)
        && do_members_fit(member_stop(counters.oldest_offset), offset, members)
}

/// Whether the multixact is one from the oldest to below the next.
pub fn is_known(multis: &MultiGen, multi: FullMulti) -> bool
    ensures { IsTrue result ↔ IsKnown multis.now.base multis.now.events multi }
{
    let counters = multis.counters();
    counters.oldest_multi <= multi && multi < counters.multi
}

/// A multixact that is below the next one, and not 2^31 before it, is what its stored half means.
#[tactic(auto, using(crate::proofs::Nearby::near_by))]
pub fn means_itself(next: FullMulti, multi: FullMulti)
    requires to { next < 2 ^ 63 }
    requires low { next ≤ multi + 2 ^ 31 }
    requires below { multi < next }
    ensures itself { near_id next (low_half multi) ≡ Some multi }
    ensures normal { 1 ≤ low_half multi }
{
    let _near = near_multi(next, multi.low());
}
