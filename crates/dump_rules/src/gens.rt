//! The multixacts that a life gave, in order.
ghost use Rattle.std.specs.Prelude.{◌≡◌, ◌+◌, ◌≤◌, ◌<◌, ◌++◌, ℕ, Bool, IfNone, IfOk, IfSome, OnOk, Some, length, map, slice_get, take};
ghost use Rattle.std.specs.List.{AllByRecursion};
ghost use Rattle.tx_events.specs.IdLists.{Ascending};
ghost use Rattle.tx_events.specs.declared.multi.MultiEvent.{MultiEvent};
ghost use Rattle.tx_events.specs.Multis.{multi_by};
ghost use Rattle.dump_rules.specs.declared.gens.GenMark.{GenMark};
ghost use Rattle.dump_rules.specs.Gens.{AreGens, Gave, IsMissing, IsPlaceOf, Rise, marked};

use history_places::MultiPlaces;
use std::alloc::Global;
use tx_events::{Memory, MultiEvent};

/// A multixact that the life gave.
#[derive(Clone, Copy, Debug, PartialEq, Eq)]
pub struct GenMark {
    pub multi: u64,
    /// The offset at which its members begin.
    pub offset: u64,
    /// The offset behind its last member.
    pub end: u64,
    /// The place of the event that gave it.
    pub place: u64,
    /// Whether its command was answered with a multixact.
    pub ok: bool,
}

/// Notes the multixact that the event at this place gives.
fn note_gen(gens: &mut Vec<GenMark>, place: u64, ok: bool, event: &MultiEvent) -> Result<(), Memory>
    ensures { OnOk result (gens.new.items ≡ gens.old.items ++ marked place ok event.now) }
{
    match event {
        MultiEvent::Gen {
            multi,
            offset,
            members,
            ..
        } => match offset.checked_add(members.items().len() as u64) {
            Some(end) => {
                gens.push(GenMark {
                    multi: multi.number(),
                    offset: *offset,
                    end,
                    place,
                    ok,
                })?;
                Ok(())
            }
            None => Err(Memory),
        },
        MultiEvent::Hold { .. } => Ok(()),
        MultiEvent::Unhold { .. } => Ok(()),
        MultiEvent::Raise { .. } => Ok(()),
    }
}

/// The multixacts that a legal history gave, in their order. Of each event of the life it is told whether its command was
/// answered with a multixact.
pub fn gens_of(alloc: Global, multis: &MultiPlaces, oks: &[bool]) -> Result<Vec<GenMark>, Memory>
    ghost of: { Gave }
    requires oks { oks.now ≡ map (λ (e : MultiEvent). of.ok (multi_by e)) of.all }
    requires front { multis.now.events ≡ take (length multis.now.events) of.all }
    ensures { IfOk result (λ gens. AreGens of.ok multis.now.events gens.items) }
{
    let events = multis.events();
    let mut gens = Vec::new(alloc);
    for (place, event) in events.iter().enumerate() {
        note_gen(&mut gens, place as u64, oks[place], event)?;
    }
    Ok(gens)
}

/// Where the multixact stands among these. None where it doesn't.
pub fn place_of(gens: &[GenMark], multi: u64) -> Option<usize>
    requires { Ascending (map (λ (g : GenMark). g.multi) gens.now) }
    ensures some { IfSome result (IsPlaceOf gens.now multi) }
    ensures none { IfNone result (IsMissing gens.now multi) }
{
    gens.binary_search_by_key(&multi, |g| g.multi).ok()
}

/// How many of these begin at this offset or before it. Only the last of them can have a member there.
pub fn count_upto(gens: &[GenMark], offset: u64) -> usize
    requires rise { Rise gens.now }
    requires ends { AllByRecursion (λ (g : GenMark). g.offset ≤ g.end) gens.now }
    ensures bound { result ≤ length gens.now }
    ensures last { (k : ℕ) (g : GenMark) → slice_get gens.now k ≡ Some g → g.offset ≤ offset → offset < g.end → k + 1 ≡ result }
{
    gens.partition_point(|g| g.offset <= offset)
}
