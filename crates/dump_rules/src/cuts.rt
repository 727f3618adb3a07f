//! By which cutoffs pages may be cut.
ghost use Rattle.std.specs.Prelude.{◌≡◌, ◌+◌, ◌∷◌, ◌++◌, [], ℕ, IfOk, List, OnOk, cond, length, true};
ghost use Rattle.std.specs.BTreeSet.{contains};
ghost use Rattle.std.specs.Ordering.{is_eq, nat_cmp};
ghost use Rattle.tx_events.specs.declared.event.Event.{Event};
ghost use Rattle.tx_events.specs.declared.record.Counters.{Counters};
ghost use Rattle.tx_events.specs.declared.record.Rec.{Rec};
ghost use Rattle.store_pages.specs.Layouts.{member_cutoff, offset_cutoff, subtrans_cutoff, xact_cutoff};
ghost use Rattle.record_rules.specs.Firsts.{HasKeys};
ghost use Rattle.dump_rules.specs.Cutting.{AreCuts, HasFirsts, cutoff_at, cuts_member, cuts_offset, cuts_xact, first_cut};

use history_places::HistoryPlaces;
use std::alloc::Global;
use std::collections::{BTreeMap, BTreeSet};
use store_pages::{member_page, offset_page, subtrans_cut_page, xact_cut_page};
use tx_events::{Counters, FullMulti, FullXid, Memory, MultiId, Rec};

/// The cutoffs that the stores may have in a life: of pg_xact and of multixacts those of the oldest numbers that truncations
/// tell, or with which the life begins; of pg_subtrans each with the first place of the history at which it was the oldest
/// xmin's.
#[derive(Drop)]
pub struct Cuts {
    pub xacts: BTreeSet<u32>,
    pub parents: BTreeMap<u32, u64>,
    pub offsets: BTreeSet<u32>,
    pub members: BTreeSet<u32>,
}

/// The page by which a life that began with the first one cuts pg_xact to this oldest id.
fn xact_cutoff(first: FullXid, oldest: FullXid) -> u32
    ensures { result ≡ xact_cutoff first oldest }
{
    (xact_cut_page(first, oldest) % 131_072) as u32
}

/// The page by which it cuts pg_subtrans to this oldest xmin.
fn subtrans_cutoff(first: FullXid, xmin: FullXid) -> u32
    ensures { result ≡ subtrans_cutoff first xmin }
{
    if xmin.number() == 0 {
        return 0;
    }
    (subtrans_cut_page(first, xmin) % 2_097_152) as u32
}

/// The page of the multixact before the oldest one, page 0 where there is none.
fn offset_cutoff(oldest: FullMulti) -> u32
    ensures { result ≡ offset_cutoff oldest }
{
    let before = oldest.number() - 1;
    let kept = if before & 0xffff_ffff == 0 {
        before.saturating_sub(1)
    } else {
        before
    };
    offset_page(MultiId {
        number: (kept & 0xffff_ffff) as u32,
    })
}

/// The page of the oldest member.
fn member_cutoff(oldest: u64) -> u32
    ensures { result ≡ member_cutoff oldest }
{
    member_page((oldest & 0xffff_ffff) as u32)
}

fn put(cutoffs: &mut BTreeSet<u32>, cutoff: u32) -> Result<(), Memory>
    ensures { OnOk result ((k : ℕ) → contains nat_cmp cutoffs.new k ≡ cond (is_eq (nat_cmp cutoff k)) true (contains nat_cmp cutoffs.old k)) }
{
    cutoffs.insert(cutoff)?;
    Ok(())
}

fn note_xact(xacts: &mut BTreeSet<u32>, first: FullXid, rec: &Rec) -> Result<(), Memory>
    ensures { OnOk result ((recs : List Rec) → HasKeys nat_cmp (cuts_xact first) recs xacts.old → HasKeys nat_cmp (cuts_xact first) (recs ++ rec.now ∷ []) xacts.new) }
{
    match rec {
        Rec::Commit { .. } => Ok(()),
        Rec::Abort { .. } => Ok(()),
        Rec::Multi { .. } => Ok(()),
        Rec::Checkpoint { .. } => Ok(()),
        Rec::Truncate { oldest, .. } => put(xacts, xact_cutoff(first, *oldest)),
    }
}

fn note_offset(offsets: &mut BTreeSet<u32>, rec: &Rec) -> Result<(), Memory>
    ensures { OnOk result ((recs : List Rec) → HasKeys nat_cmp cuts_offset recs offsets.old → HasKeys nat_cmp cuts_offset (recs ++ rec.now ∷ []) offsets.new) }
{
    match rec {
        Rec::Commit { .. } => Ok(()),
        Rec::Abort { .. } => Ok(()),
        Rec::Multi { .. } => Ok(()),
        Rec::Checkpoint { .. } => Ok(()),
        Rec::Truncate { multi, .. } => put(offsets, offset_cutoff(*multi)),
    }
}

fn note_member(members: &mut BTreeSet<u32>, rec: &Rec) -> Result<(), Memory>
    ensures { OnOk result ((recs : List Rec) → HasKeys nat_cmp cuts_member recs members.old → HasKeys nat_cmp cuts_member (recs ++ rec.now ∷ []) members.new) }
{
    match rec {
        Rec::Commit { .. } => Ok(()),
        Rec::Abort { .. } => Ok(()),
        Rec::Multi { .. } => Ok(()),
        Rec::Checkpoint { .. } => Ok(()),
        Rec::Truncate { offset, .. } => put(members, member_cutoff(*offset)),
    }
}

fn xacts_of(alloc: Global, base: &Counters, recs: &[Rec]) -> Result<BTreeSet<u32>, Memory>
    ensures { IfOk result (λ xacts. HasKeys nat_cmp (cuts_xact base.now.oldest) (first_cut base.now ∷ recs.now) xacts) }
{
    let mut xacts = BTreeSet::new(alloc);
    put(&mut xacts, xact_cutoff(base.oldest, base.oldest))?;
    for rec in recs {
        note_xact(&mut xacts, base.oldest, rec)?;
    }
    Ok(xacts)
}

fn offsets_of(alloc: Global, base: &Counters, recs: &[Rec]) -> Result<BTreeSet<u32>, Memory>
    ensures { IfOk result (λ offsets. HasKeys nat_cmp cuts_offset (first_cut base.now ∷ recs.now) offsets) }
{
    let mut offsets = BTreeSet::new(alloc);
    put(&mut offsets, offset_cutoff(base.oldest_multi))?;
    for rec in recs {
        note_offset(&mut offsets, rec)?;
    }
    Ok(offsets)
}

fn members_of(alloc: Global, base: &Counters, recs: &[Rec]) -> Result<BTreeSet<u32>, Memory>
    ensures { IfOk result (λ members. HasKeys nat_cmp cuts_member (first_cut base.now ∷ recs.now) members) }
{
    let mut members = BTreeSet::new(alloc);
    put(&mut members, member_cutoff(base.oldest_offset))?;
    for rec in recs {
        note_member(&mut members, rec)?;
    }
    Ok(members)
}

/// Notes the cutoff of the next place, where it isn't noted yet.
fn note_first(firsts: &mut BTreeMap<u32, u64>, cutoff: u32, place: u64) -> Result<(), Memory>
    ensures { OnOk result ((base : Counters) (h : List Event) → cutoff ≡ cutoff_at base h place → HasFirsts base h place firsts.old → HasFirsts base h (place + 1) firsts.new) }
{
    if firsts.contains_key(&cutoff) {
        return Ok(());
    }
    firsts.insert(cutoff, place)?;
    Ok(())
}

fn firsts_of(
    alloc: Global,
    base: &Counters,
    places: &HistoryPlaces,
) -> Result<BTreeMap<u32, u64>, Memory>
    requires { base.now ≡ places.now.base }
    ensures { IfOk result (λ firsts. HasFirsts places.now.base places.now.events (length places.now.events + 1) firsts) }
{
    let mut firsts = BTreeMap::new(alloc);
    let last = places.replay().events().len() as u64;
    for place in 0..last {
        note_first(
            &mut firsts,
            subtrans_cutoff(base.oldest, places.xmin_at(place)),
            place,
        )?;
    }
    note_first(
        &mut firsts,
        subtrans_cutoff(base.oldest, places.xmin_at(last)),
        last,
    )?;
    Ok(firsts)
}

/// The cutoffs of a life of this base, with these records and this legal front of its history. Takes the number of the
/// records and the events, times the logarithm of that of the cutoffs.
pub fn cuts_of(
    alloc: Global,
    base: &Counters,
    recs: &[Rec],
    places: &HistoryPlaces,
) -> Result<Cuts, Memory>
    requires { base.now ≡ places.now.base }
    ensures { IfOk result (λ cuts. AreCuts base.now recs.now places.now.events cuts) }
{
    let xacts = xacts_of(alloc, base, recs)?;
    let parents = firsts_of(alloc, base, places)?;
    let offsets = offsets_of(alloc, base, recs)?;
    let members = members_of(alloc, base, recs)?;
    Ok(Cuts {
        xacts,
        parents,
        offsets,
        members,
    })
}
