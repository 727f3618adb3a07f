//! What is known of a life before its lines are judged.
ghost use Rattle.std.specs.Prelude.{◌≡◌, ℕ, ◌↔◌, List, Contains, IfOk};
ghost use Rattle.tx_events.specs.declared.multi.Member.{Member};
ghost use Rattle.tx_events.specs.Base.{IsBase};
ghost use Rattle.history_places.specs.Starts.{FitsBase, start_of};
ghost use Rattle.life_tables.specs.Numbered.{IsNumbered};
ghost use Rattle.reply_lines.specs.Known.{IsKnown};
ghost use Rattle.life_tables.specs.Lives.{LifeAt, judged_life};

use history_places::{Start, id_marks};
use life_tables::{
    counts_in, front_of, gave_by_lines, late_of, lists_by_lines, log_end_of, logs_of,
    multi_front_of, oks_of, owned, recorded_in, table_of, taken_of, turns_of,
};
use multi_rules::held_limits;
use reply_lines::Known;
use reply_rules::commit_tops;
use std::alloc::Global;
use turn_links::links_of_all;
use tx_events::Memory;
use tx_model::LifeReport;

/// What is known of the life, whose own counters are those that it begins from; the multixacts that the log has recorded
/// before it begin so. Takes a sort of the multixact events.
pub fn known_of(alloc: Global, report: &LifeReport, starts: &[Start]) -> Result<Known, Memory>
    ghost at: { LifeAt }
    requires report { report.now ≡ at.report }
    requires numbered { IsNumbered report.now }
    requires base { (at.begun.counters ≡ report.now.life.base) × IsBase report.now.life.base }
    requires starts { FitsBase report.now.life.base starts.now }
    requires offsets { (multi offset : ℕ) → Contains starts.now (start_of multi offset) ↔ ((members : List Member) × Contains at.begun.recorded (multi, offset, members)) }
    ensures { IfOk result (λ known. IsKnown (judged_life at) known) }
{
    let life = &report.life;
    let events = life.events.items();
    let multis = life.multis.items();
    let recs = life.recs.items();
    let table = table_of(alloc, report)?;
    let own = owned(alloc, &table, events)?;
    let multi_own = owned(alloc, &table, multis)?;
    let counts = counts_in(alloc, life)?;
    let lists = lists_by_lines(alloc, report.steps.items())?;
    let front = front_of(alloc, report, &own, lists.as_slice())?;
    drop(lists);
    let turns = turns_of(alloc, front.places.replay().events())?;
    let marks = id_marks(alloc, front.places.replay())?;
    let taken = taken_of(alloc, &table, &own, front.snaps.as_slice())?;
    let multi_places = multi_front_of(alloc, life, starts)?;
    let multi_turns = turns_of(alloc, multi_places.events())?;
    let multi_links = links_of_all(alloc, multi_turns.as_slice())?;
    let held = held_limits(alloc, &multi_places)?;
    let gave = gave_by_lines(alloc, report.steps.items())?;
    let oks = oks_of(alloc, &multi_own, multis.len() as u64, gave.as_slice())?;
    let late = late_of(alloc, multis, &multi_places, oks.as_slice())?;
    let tops = commit_tops(alloc, recs)?;
    let recorded = recorded_in(alloc, recs)?;
    let logs = logs_of(alloc, life)?;
    let end = log_end_of(report);
    Ok(Known {
        table,
        events: own,
        multis: multi_own,
        counts,
        places: front.places,
        snaps: front.snaps,
        turns,
        marks,
        opened: front.opened,
        taken,
        multi_places,
        multi_turns,
        multi_links,
        held,
        oks,
        late,
        tops,
        recorded,
        logs,
        end,
    })
}
