//! The rule of a record's line.
ghost use Rattle.std.specs.Prelude.{◌≡◌, ◌↔◌, ◌≤◌, ◌<◌, [], ℕ, IfNone, IfOk, IfSome, IsTrue, Contains, length, slice_get, take};
ghost use Rattle.std.specs.List.{All};
ghost use Rattle.tx_events.specs.declared.event.By.{By};
ghost use Rattle.tx_events.specs.declared.multi.MultiEvent.TheVariants as multi_events;
ghost use Rattle.tx_events.specs.declared.record.Rec.{Rec};
ghost use Rattle.tx_events.specs.declared.record.Rec.TheVariants as records;
ghost use Rattle.tx_events.specs.Base.{IsBase};
ghost use Rattle.tx_events.specs.Events.{by_of};
ghost use Rattle.tx_events.specs.History.{IsLegal};
ghost use Rattle.record_rules.specs.Behind.{AreBases, IsFirstNoBase};
ghost use Rattle.report_law.specs.Records.{IsLawfulRecord, IsRecordAt, IsTrueRecord};
ghost use Rattle.report_law.specs.Steps.{Judged};
ghost use Rattle.record_rules.specs.AskedFor.{asked_checkpoints};
ghost use Rattle.record_rules.specs.Counts.{AreCounted};
ghost use Rattle.record_rules.specs.Firsts.{AreSeen};
ghost use Rattle.record_rules.specs.Judging.{IsBrokenAt, IsFirstUnlawful, IsJudging, IsKnownWhole};

use crate::{
    Announced, CounterCounts, Seen, Transactions, announced_of, first_no_base, is_abort_recorded,
    is_announced, is_announced_multi, is_asked, is_commit_recorded, is_first, none_seen,
    note_record, transactions_of,
};
use history_places::MultiPlaces;
use std::alloc::Global;
use tx_events::{Counters, FullMulti, Member, Memory, MultiEvent, Rec, same_members};
use tx_model::LifeReport;

/// What the records of a life are judged by: what it begins from, its transactions and what it announces, and the record
/// behind which the counters aren't a base.
#[derive(Drop)]
struct Judging {
    base: Counters,
    from: u64,
    xacts: Transactions,
    announced: Announced,
    broken: Option<usize>,
}

/// Whether the event gives this multixact, with its members from this offset on.
fn is_gen_of(event: &MultiEvent, multi: FullMulti, offset: u64, members: &[Member]) -> bool
    ensures { IsTrue result ↔ ((by : By) × (event.now ≡ multi_events.Gen by multi offset members.now)) }
{
    match event {
        MultiEvent::Gen {
            multi: given,
            offset: at,
            members: its,
            ..
        } => *given == multi && *at == offset && same_members(its.items(), members),
        _ => false,
    }
}

/// Whether the life gave this multixact with these members. Takes the logarithm of the history's length.
fn is_given(multis: &MultiPlaces, multi: FullMulti, offset: u64, members: &[Member]) -> bool
    ensures { IsTrue result ↔ ((by : By) × Contains multis.now.events (multi_events.Gen by multi offset members.now)) }
{
    let events = multis.events();
    let end = multis.where_next(multi.number()).end as usize;
    if end == 0 {
        return false;
    }
    if end > events.len() {
        return false;
    }
    is_gen_of(&events[end - 1], multi, offset, members)
}

fn both(one: bool, other: bool) -> bool
    ensures { IsTrue result ↔ (IsTrue one × IsTrue other) }
{
    one && other
}

/// Whether a record behind the first one says what is so.
fn is_true_record(judging: &Judging, multis: &MultiPlaces, asked: &CounterCounts, rec: &Rec) -> bool
    ghost j: { Judged }
    requires { IsJudging j judging.now multis.now asked.now }
    ensures { IsTrue result ↔ IsTrueRecord j rec.now }
{
    match rec {
        Rec::Commit { top, subs } => is_commit_recorded(&judging.xacts, *top, subs.items()),
        Rec::Abort { top, subs } => is_abort_recorded(&judging.xacts, *top, subs.items()),
        Rec::Multi {
            multi,
            offset,
            members,
        } => is_given(multis, *multi, *offset, members.items()),
        Rec::Checkpoint { counters, .. } => is_asked(asked, counters.get()),
        Rec::Truncate {
            oldest,
            multi,
            offset,
        } => {
            let announced = &judging.announced;
            let base = &judging.base;
            let id = is_announced(announced, base, *oldest);
            let start = is_announced_multi(announced, base, *multi, *offset);
            both(id, start)
        }
    }
}

fn are_same(a: &Counters, b: &Counters) -> bool
    ensures { IsTrue result ↔ (a.now ≡ b.now) }
{
    a.next == b.next
        && a.oldest == b.oldest
        && a.multi == b.multi
        && a.offset == b.offset
        && a.oldest_multi == b.oldest_multi
        && a.oldest_offset == b.oldest_offset
}

/// Whether the record is the checkpoint of this number and these counters.
fn is_checkpoint_of(rec: &Rec, from: u64, base: &Counters) -> bool
    ensures { IsTrue result ↔ (rec.now ≡ records.Checkpoint from base.now) }
{
    match rec {
        Rec::Checkpoint { number, counters } => *number == from && are_same(counters.get(), base),
        _ => false,
    }
}

/// Whether the record at this place of the life's says what is so.
fn is_record_at(
    judging: &Judging,
    multis: &MultiPlaces,
    asked: &CounterCounts,
    place: usize,
    rec: &Rec,
) -> bool
    ghost j: { Judged }
    requires { IsJudging j judging.now multis.now asked.now }
    ensures { IsTrue result ↔ IsRecordAt j place rec.now }
{
    if place == 0 {
        return is_checkpoint_of(rec, judging.from, &judging.base);
    }
    is_true_record(judging, multis, asked, rec)
}

/// Whether the counters behind the record at this place are a base.
fn is_sound_at(broken: Option<usize>, place: usize) -> bool
    ensures { IsTrue result ↔ (IsBrokenAt broken place → ⊥) }
{
    match broken {
        Some(at) => at != place,
        None => true,
    }
}

/// Whether the record at this place is lawful, where those before have named these.
fn is_lawful_record(
    judging: &Judging,
    multis: &MultiPlaces,
    asked: &CounterCounts,
    seen: &Seen,
    place: usize,
    rec: &Rec,
) -> bool
    ghost j: { Judged }
    requires judging { IsJudging j judging.now multis.now asked.now }
    requires seen { AreSeen (take place j.life.recs) seen.now }
    requires within { place < length j.life.recs }
    requires upto { IfSome judging.now.broken (λ p. place ≤ p) }
    ensures { IsTrue result ↔ IsLawfulRecord j place rec.now }
{
    let says = is_record_at(judging, multis, asked, place, rec);
    let first = is_first(seen, rec);
    let sound = is_sound_at(judging.broken, place);
    both(both(says, first), sound)
}

/// What the records of a life are judged by, where it begins from these counters.
fn judging_of(alloc: Global, base: &Counters, report: &LifeReport) -> Result<Judging, Memory>
    ghost j: { Judged }
    requires begun { base.now ≡ j.begun.counters }
    requires life { report.now.life ≡ j.life }
    requires steps { report.now.steps ≡ j.steps }
    requires base { IsBase j.begun.counters }
    requires legal { IsLegal j.begun.counters j.life.events }
    requires each { All (λ e. (by_of e).session < 64) j.life.events }
    ensures { IfOk result (IsKnownWhole j) }
{
    let life = &report.life;
    let events = life.events.items();
    let multis = life.multis.items();
    let xacts = transactions_of(alloc, base, events, report.steps.items())?;
    let announced = announced_of(alloc, events, multis)?;
    let broken = first_no_base(base, life.recs.items());
    Ok(Judging {
        base: base.same(),
        from: life.from,
        xacts,
        announced,
        broken,
    })
}

/// The place of the first record of a life that isn't lawful, where both its histories are lawful to their ends. None
/// where all are.
pub fn first_unlawful_record(
    alloc: Global,
    base: &Counters,
    report: &LifeReport,
    multis: &MultiPlaces,
    asked: &CounterCounts,
) -> Result<Option<usize>, Memory>
    ghost j: { Judged }
    requires begun { base.now ≡ j.begun.counters }
    requires life { report.now.life ≡ j.life }
    requires steps { report.now.steps ≡ j.steps }
    requires base { IsBase j.begun.counters }
    requires legal { IsLegal j.begun.counters j.life.events }
    requires each { All (λ e. (by_of e).session < 64) j.life.events }
    requires multi_base { multis.now.base ≡ j.begun.counters }
    requires multis { multis.now.events ≡ j.life.multis }
    requires asked { AreCounted (λ k. asked_checkpoints j k [] j.steps) asked.now }
    ensures none { IfOk result (λ o. IfNone o ((p : ℕ) (rec : Rec) → slice_get j.life.recs p ≡ Some rec → IsLawfulRecord j p rec)) }
    ensures some { IfOk result (λ o. IfSome o (IsFirstUnlawful j)) }
{
    let judging = judging_of(alloc, base, report)?;
    let mut seen = none_seen(alloc, base.next, report.life.events.items().len())?;
    for (place, rec) in report.life.recs.items().iter().enumerate() {
        if !is_lawful_record(&judging, multis, asked, &seen, place, rec) {
            return Ok(Some(place));
        }
        note_record(&mut seen, rec)?;
    }
    Ok(None)
}
