//! What the lives before have left to the next one.
ghost use Rattle.std.specs.Prelude.{◌≡◌, ◌++◌, ◌∷◌, ◌↔◌, [], List, IfOk, IsTrue, OnOk};
ghost use Rattle.std.specs.List.{AllByRecursion, cons_option, filter_map};
ghost use Rattle.tx_events.specs.declared.record.Rec.{Rec};
ghost use Rattle.tx_model.specs.declared.report.LifeReport.{LifeReport};
ghost use Rattle.record_rules.specs.Behind.{AreBases};
ghost use Rattle.report_law.specs.Begun.{IsLawfulStart, begun_from};
ghost use Rattle.report_law.specs.ReportLines.{IsLawfulAt, lives_lines};
ghost use Rattle.reply_rules.specs.Logs.{AreRecordedMultis};
ghost use Rattle.report_check.specs.Keeping.{HasGrown, IsLeft, IsLeftBefore, IsNothingKept, kept_home, kept_homes, kept_start};

use history_places::Start;
use life_tables::add_all_committed;
use multi_rules::Home;
use record_rules::{begins_behind, begins_log, starts_go_by_the_last};
use reply_lines::Kept;
use reply_rules::recorded_multis;
use std::alloc::Global;
use std::collections::BTreeSet;
use tx_events::{Memory, MultiEvent, Rec};
use tx_model::{Life, LifeReport};

/// What the first life begins from.
pub fn nothing_kept(alloc: Global) -> Kept
    ensures { IsNothingKept result }
{
    Kept {
        committed: BTreeSet::new(alloc),
        starts: Vec::new(alloc),
        homes: Vec::new(alloc),
    }
}

/// Where the multixact begins that the event gives, and where it was given, if it is one of these recorded ones.
fn home_of(recorded: &BTreeSet<u64>, life: u64, place: u64, event: &MultiEvent) -> Option<Home>
    ensures { (recs : List Rec) → AreRecordedMultis recs recorded.now → result ≡ kept_home recs life place event.now }
{
    match event {
        MultiEvent::Gen { multi, offset, .. } => {
            if recorded.contains(&multi.number()) {
                Some(Home {
                    multi: *multi,
                    offset: *offset,
                    life,
                    event: place,
                })
            } else {
                None
            }
        }
        _ => None,
    }
}

fn add_multi(
    starts: &mut Vec<Start>,
    homes: &mut Vec<Home>,
    recorded: &BTreeSet<u64>,
    life: u64,
    place: u64,
    event: &MultiEvent,
) -> Result<(), Memory>
    ensures starts { OnOk result ((recs : List Rec) → AreRecordedMultis recs recorded.now → starts.new.items ≡ starts.old.items ++ cons_option (kept_start recs event.now) []) }
    ensures homes { OnOk result ((recs : List Rec) → AreRecordedMultis recs recorded.now → homes.new.items ≡ homes.old.items ++ cons_option (kept_home recs life place event.now) []) }
{
    match home_of(recorded, life, place, event) {
        Some(home) => {
            starts.push(Start {
                multi: home.multi,
                offset: home.offset,
            })?;
            homes.push(home)?;
            Ok(())
        }
        None => Ok(()),
    }
}

/// Adds where the multixacts begin, and where they were given, that these events of a life give and that are recorded.
pub fn add_multis(
    starts: &mut Vec<Start>,
    homes: &mut Vec<Home>,
    recorded: &BTreeSet<u64>,
    life: u64,
    events: &[MultiEvent],
) -> Result<(), Memory>
    ensures starts { OnOk result ((recs : List Rec) → AreRecordedMultis recs recorded.now → starts.new.items ≡ starts.old.items ++ filter_map (kept_start recs) events.now) }
    ensures homes { OnOk result ((recs : List Rec) → AreRecordedMultis recs recorded.now → homes.new.items ≡ homes.old.items ++ kept_homes recs life 0 events.now) }
{
    for (place, event) in events.iter().enumerate() {
        add_multi(starts, homes, recorded, life, place as u64, event)?;
    }
    Ok(())
}

/// Adds what these records of a life leave, and the multixacts that it gave. After want of memory nothing is known of `kept`.
fn grow(
    alloc: Global,
    kept: &mut Kept,
    life: u64,
    recs: &[Rec],
    events: &[MultiEvent],
) -> Result<(), Memory>
    ensures { OnOk result (HasGrown kept.old kept.new life recs.now events.now) }
{
    let recorded = recorded_multis(alloc, recs)?;
    add_all_committed(&mut kept.committed, recs)?;
    add_multis(&mut kept.starts, &mut kept.homes, &recorded, life, events)
}

/// Whether the life may begin so behind these.
fn begins_right(before: &[LifeReport], life: &Life) -> bool
    requires { (earlier : List LifeReport) (last : LifeReport) → before.now ≡ earlier ++ last ∷ [] → IsLawfulStart earlier last.life × AreBases last.life.base last.life.recs }
    ensures { IsTrue result ↔ IsLawfulStart before.now life.now }
{
    starts_go_by_the_last();
    if before.len() == 0 {
        return begins_log(life);
    }
    begins_behind(&before[before.len() - 1].life, life)
}

/// What the life begins from that comes behind these, where it may.
fn keep_last(
    alloc: Global,
    kept: &mut Kept,
    before: &[LifeReport],
    life: &Life,
) -> Result<(), Memory>
    requires lawful { AllByRecursion IsLawfulAt (lives_lines [] before.now) }
    requires kept { IsLeftBefore before.now kept.old }
    requires start { IsLawfulStart before.now life.now }
    ensures { OnOk result (IsLeft (begun_from before.now life.now) before.now kept.new) }
{
    if before.len() == 0 {
        return Ok(());
    }
    let number = before.len() - 1;
    let last = &before[number].life;
    let recs = last.recs.items();
    let count = life.from.saturating_sub(last.from) as usize;
    grow(
        alloc,
        kept,
        number as u64,
        &recs[..count],
        last.multis.items(),
    )
}

/// Whether the life may begin so behind these, which are lawful, and then what it begins from. After want of memory nothing
/// is known of `kept`.
pub fn keep_on(
    alloc: Global,
    kept: &mut Kept,
    before: &[LifeReport],
    life: &Life,
) -> Result<bool, Memory>
    requires lawful { AllByRecursion IsLawfulAt (lives_lines [] before.now) }
    requires kept { IsLeftBefore before.now kept.old }
    ensures start { IfOk result (λ b. IsTrue b ↔ IsLawfulStart before.now life.now) }
    ensures left { IfOk result (λ b. IsTrue b → IsLeft (begun_from before.now life.now) before.now kept.new) }
{
    if !begins_right(before, life) {
        return Ok(false);
    }
    keep_last(alloc, kept, before, life)?;
    Ok(true)
}
