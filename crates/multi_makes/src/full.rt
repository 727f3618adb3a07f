//! The full ids of the members that a script wrote.
ghost use Rattle.std.specs.Prelude.{◌^◌, ◌<◌, ◌≤◌, MatchResult};
ghost use Rattle.multi_makes.specs.Full.{AreFullOf, AreNotFull, IsGivenNear, IsNotMember};

use proc_sections::Horizons;
use std::alloc::Global;
use tx_events::{FullXid, Member, MemberList, Memory, Refusal, Sequence, Xid, near};
use tx_model::Pair;

/// The full id that a stored half means near the next one. `NotGiven` where it is a special one or wasn't given,
/// `TooOld` where it means none or one before the oldest.
fn full_id(found: &Horizons, x: Xid) -> Result<FullXid, Refusal>
    requires from { 3 ≤ found.now.next }
    requires to { found.now.next < 2 ^ 63 }
    ensures { MatchResult result (IsGivenNear found.now.next x.number) (IsNotMember found.now.next found.now.oldest x.number) }
{
    if x.number < 3 {
        return Err(Refusal::NotGiven { x });
    }
    match near(found.next, x) {
        Some(id) => {
            if found.next <= id {
                return Err(Refusal::NotGiven { x });
            }
            if id < found.oldest {
                return Err(Refusal::TooOld {
                    oldest: found.oldest,
                });
            }
            Ok(id)
        }
        None => Err(Refusal::TooOld {
            oldest: found.oldest,
        }),
    }
}

/// The members in full, by the next and the oldest id that were found. They are walked in order: the first one that
/// wasn't given, or is too old, is told.
pub(crate) fn full_members(
    alloc: Global,
    found: &Horizons,
    pairs: &[Pair],
) -> Result<MemberList, Refusal>
    requires from { 3 ≤ found.now.next }
    requires to { found.now.next < 2 ^ 63 }
    ensures { MatchResult result (AreFullOf found.now.next pairs.now) (AreNotFull found.now.next found.now.oldest pairs.now) }
{
    let mut members = Sequence::with_room(alloc, pairs.len())?;
    for pair in pairs {
        match full_id(found, pair.x) {
            Ok(id) => {
                let member = Member {
                    id,
                    mode: pair.mode,
                };
                match members.push(member) {
                    Ok(()) => {}
                    Err(Memory) => return Err(Refusal::Memory),
                }
            }
            Err(refusal) => return Err(refusal),
        }
    }
    Ok(MemberList::of(alloc, members)?)
}
