//! The oldest numbers that a life announces.
ghost use Rattle.std.specs.Prelude.{◌≡◌, ◌↔◌, ◌∷◌, ◌++◌, [], ℕ, List, IfOk, IsTrue, OnOk, Contains, cond, true};
ghost use Rattle.std.specs.BTreeSet.{contains};
ghost use Rattle.std.specs.Ordering.{is_eq, nat_cmp};
ghost use Rattle.tx_events.specs.declared.event.By.{By};
ghost use Rattle.tx_events.specs.declared.event.Event.{Event};
ghost use Rattle.tx_events.specs.declared.event.Event.TheVariants as events;
ghost use Rattle.tx_events.specs.declared.multi.MultiEvent.{MultiEvent};
ghost use Rattle.tx_events.specs.declared.multi.MultiEvent.TheVariants as multis;
ghost use Rattle.life_law.specs.LifeLog.{IsAnnounced};
ghost use Rattle.report_law.specs.Records.{IsAnnouncedMulti};
ghost use Rattle.record_rules.specs.declared.announced.StartKey.{StartKey};
ghost use Rattle.record_rules.specs.Firsts.{AreAnnounced, HasKeys, announces, raises, start_cmp};

use crate::either::either;
use std::alloc::Global;
use std::collections::BTreeSet;
use tx_events::{Counters, Event, FullMulti, FullXid, Memory, MultiEvent};

/// A multixact, and the offset at which its members begin.
#[derive(Clone, Copy, PartialEq, Eq, PartialOrd, Ord, Drop)]
pub struct StartKey {
    pub multi: FullMulti,
    pub offset: u64,
}

/// The oldest ids that a life announces, and the oldest multixacts with their offsets.
#[derive(Drop)]
pub struct Announced {
    pub ids: BTreeSet<FullXid>,
    pub starts: BTreeSet<StartKey>,
}

fn put_id(ids: &mut BTreeSet<FullXid>, id: FullXid) -> Result<(), Memory>
    ensures { OnOk result ((k : ℕ) → contains nat_cmp ids.new k ≡ cond (is_eq (nat_cmp id k)) true (contains nat_cmp ids.old k)) }
{
    ids.insert(id)?;
    Ok(())
}

fn note_id(ids: &mut BTreeSet<FullXid>, event: &Event) -> Result<(), Memory>
    ensures { OnOk result ((h : List Event) → HasKeys nat_cmp announces h ids.old → HasKeys nat_cmp announces (h ++ event.now ∷ []) ids.new) }
{
    match event {
        Event::Id { .. } => Ok(()),
        Event::Sub { .. } => Ok(()),
        Event::Undo { .. } => Ok(()),
        Event::Commit { .. } => Ok(()),
        Event::Abort { .. } => Ok(()),
        Event::Snap { .. } => Ok(()),
        Event::SnapDrop { .. } => Ok(()),
        Event::Oldest { oldest, .. } => put_id(ids, *oldest),
        Event::Ask { .. } => Ok(()),
    }
}

fn put_start(starts: &mut BTreeSet<StartKey>, start: StartKey) -> Result<(), Memory>
    ensures { OnOk result ((k : StartKey) → contains start_cmp starts.new k ≡ cond (is_eq (start_cmp start k)) true (contains start_cmp starts.old k)) }
{
    starts.insert(start)?;
    Ok(())
}

fn note_start(starts: &mut BTreeSet<StartKey>, event: &MultiEvent) -> Result<(), Memory>
    ensures { OnOk result ((h : List MultiEvent) → HasKeys start_cmp raises h starts.old → HasKeys start_cmp raises (h ++ event.now ∷ []) starts.new) }
{
    match event {
        MultiEvent::Gen { .. } => Ok(()),
        MultiEvent::Hold { .. } => Ok(()),
        MultiEvent::Unhold { .. } => Ok(()),
        MultiEvent::Raise { multi, offset, .. } => {
            let start = StartKey {
                multi: *multi,
                offset: *offset,
            };
            put_start(starts, start)
        }
    }
}

fn ids_of(alloc: Global, events: &[Event]) -> Result<BTreeSet<FullXid>, Memory>
    ensures { IfOk result (λ ids. HasKeys nat_cmp announces events.now ids) }
{
    let mut ids = BTreeSet::new(alloc);
    for event in events {
        note_id(&mut ids, event)?;
    }
    Ok(ids)
}

fn starts_of(alloc: Global, events: &[MultiEvent]) -> Result<BTreeSet<StartKey>, Memory>
    ensures { IfOk result (λ starts. HasKeys start_cmp raises events.now starts) }
{
    let mut starts = BTreeSet::new(alloc);
    for event in events {
        note_start(&mut starts, event)?;
    }
    Ok(starts)
}

/// The oldest numbers that these histories announce.
pub fn announced_of(
    alloc: Global,
    events: &[Event],
    multis: &[MultiEvent],
) -> Result<Announced, Memory>
    ensures { IfOk result (λ a. AreAnnounced events.now multis.now a) }
{
    let ids = ids_of(alloc, events)?;
    let starts = starts_of(alloc, multis)?;
    Ok(Announced { ids, starts })
}

fn is_announced_id(ids: &BTreeSet<FullXid>, oldest: FullXid) -> bool
    ensures { (h : List Event) → HasKeys nat_cmp announces h ids.now → IsTrue result ↔ ((by : By) × Contains h (events.Oldest by oldest)) }
{
    ids.contains(&oldest)
}

fn is_raised(starts: &BTreeSet<StartKey>, start: StartKey) -> bool
    ensures { (m : List MultiEvent) → HasKeys start_cmp raises m starts.now → IsTrue result ↔ ((by : By) × Contains m (multis.Raise by start.multi start.offset)) }
{
    starts.contains(&start)
}

fn is_first_start(base: &Counters, multi: FullMulti, offset: u64) -> bool
    ensures { IsTrue result ↔ ((multi ≡ base.now.oldest_multi) × (offset ≡ base.now.oldest_offset)) }
{
    multi == base.oldest_multi && offset == base.oldest_offset
}

/// Whether the id is the life's first oldest one, or is announced.
pub fn is_announced(announced: &Announced, base: &Counters, oldest: FullXid) -> bool
    ensures { (h : List Event) (m : List MultiEvent) → AreAnnounced h m announced.now → IsTrue result ↔ IsAnnounced base.now h oldest }
{
    let first = oldest == base.oldest;
    let later = is_announced_id(&announced.ids, oldest);
    either(first, later)
}

/// Whether the multixact and its offset are the life's first oldest ones, or are announced.
pub fn is_announced_multi(
    announced: &Announced,
    base: &Counters,
    multi: FullMulti,
    offset: u64,
) -> bool
    ensures { (h : List Event) (m : List MultiEvent) → AreAnnounced h m announced.now → IsTrue result ↔ IsAnnouncedMulti base.now m multi offset }
{
    let first = is_first_start(base, multi, offset);
    let later = is_raised(&announced.starts, StartKey { multi, offset });
    either(first, later)
}
