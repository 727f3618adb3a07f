//! Which ids a member may mean that is written in a round.
ghost use Rattle.std.specs.Prelude.{◌≡◌, ℕ, ◌≤◌, ◌↔◌, IsTrue, length};
ghost use Rattle.std.specs.List.{AllByRecursion, AllZip};
ghost use Rattle.place_columns.specs.Counted.{AreCounts};
ghost use Rattle.command_events.specs.Reached.{IsMeant, IsMember, IsReach, Lists, MayBeMember, span};

use place_columns::GivenCounts;
use tx_events::{FullXid, Member, Xid};
use tx_model::Pair;

/// The ids from `least` to below `end`: those that a stored half may mean near the next id, where they were given, at some
/// place of a round.
#[derive(Clone, Copy, Debug, PartialEq, Eq)]
pub struct Reach {
    pub least: u64,
    pub end: u64,
}

/// The reach of a round that stands from `from` to `to` among the events.
pub fn reach_of(counts: &GivenCounts, from: u64, to: u64) -> Reach
    ghost lists: { Lists }
    requires counts { AreCounts lists.base lists.events lists.multis counts.now }
    requires forward { from ≤ to }
    requires within { to ≤ length lists.events }
    ensures { IsReach lists.base lists.events (span from to) result }
{
    Reach {
        least: counts.given[from as usize].saturating_sub(1 << 31),
        end: counts.given[to as usize],
    }
}

impl Reach {
    /// Whether one of the ids has this stored half.
    fn means(self, x: Xid) -> bool
        ensures { IsTrue result ↔ ((id : ℕ) × IsMeant self x.number id) }
    {
        let low = (self.least % (1 << 32)) as u32;
        let gap = u64::from(x.number.wrapping_sub(low));
        gap < self.end.saturating_sub(self.least)
    }

    /// Whether the pair may be a member.
    fn may_be_member(self, pair: Pair) -> bool
        ensures { IsTrue result ↔ MayBeMember self pair }
    {
        pair.x.number >= 3 && self.means(pair.x)
    }

    /// Whether the id is one of them, with this stored half.
    fn has(self, x: Xid, id: FullXid) -> bool
        ensures { IsTrue result ↔ IsMeant self x.number id }
    {
        id.low() == x && self.least <= id.number() && id.number() < self.end
    }

    /// Whether the pair is this member.
    fn is_member(self, pair: Pair, member: Member) -> bool
        ensures { IsTrue result ↔ IsMember self pair member }
    {
        pair.x.number >= 3 && member.mode == pair.mode && self.has(pair.x, member.id)
    }

    /// Whether each of the pairs may be a member.
    pub fn may_be_members(self, pairs: &[Pair]) -> bool
        ensures { IsTrue result ↔ AllByRecursion (MayBeMember self) pairs.now }
    {
        for pair in pairs {
            if !self.may_be_member(*pair) {
                return false;
            }
        }
        true
    }

    /// Whether these are the members that the pairs are.
    pub fn are_members(self, pairs: &[Pair], members: &[Member]) -> bool
        ensures { IsTrue result ↔ AllZip (IsMember self) pairs.now members.now }
    {
        if pairs.len() != members.len() {
            return false;
        }
        for (place, pair) in pairs.iter().enumerate() {
            if !self.is_member(*pair, members[place]) {
                return false;
            }
        }
        true
    }
}
