//! The lines of a life's records.
ghost use Rattle.std.specs.Prelude.{◌≡◌, ◌<◌, IfOk};
ghost use Rattle.std.specs.List.{All};
ghost use Rattle.tx_events.specs.Events.{by_of};
ghost use Rattle.tx_events.specs.History.{IsLegal};
ghost use Rattle.tx_events.specs.Multis.{AreLegalMultis};
ghost use Rattle.checkpoint_rules.specs.Behind.{AreCheckpoints};
ghost use Rattle.report_law.specs.MultiLines.{of_records};
ghost use Rattle.report_law.specs.ReportLines.{logged, placed};
ghost use Rattle.reply_lines.specs.At.{IsReportOf};
ghost use Rattle.reply_lines.specs.Known.{IsKnown};
ghost use Rattle.report_check.specs.Stepping.{KnownLife};
ghost use Rattle.report_check.specs.Walked.{IsWalked};

use crate::walked::Walked;
use checkpoint_rules::Checkpoints;
use history_places::MultiPlaces;
use record_rules::first_unlawful_record;
use std::alloc::Global;
use tx_events::Memory;
use tx_model::LifeReport;

/// The lines of the log's records, where those of both histories are lawful.
pub fn walk_records(
    alloc: Global,
    report: &LifeReport,
    multis: &MultiPlaces,
    checkpoints: &Checkpoints,
) -> Result<Walked, Memory>
    ghost at: { KnownLife }
    requires report { IsReportOf at.j report.now }
    requires known { IsKnown at.j at.known × (multis.now ≡ at.known.multi_places) }
    requires base { at.j.begun.counters ≡ report.now.life.base }
    requires few { All (λ e. (by_of e).session < 64) at.j.life.events }
    requires legal { IsLegal at.j.begun.counters at.j.life.events }
    requires legal_multis { AreLegalMultis at.j.begun.counters (of_records at.j.begun.counters at.j.begun.recorded) at.j.life.multis }
    requires checkpoints { AreCheckpoints at.j at.j.steps checkpoints.now }
    ensures { IfOk result (IsWalked (placed (logged at.j) 0 at.j.life.recs)) }
{
    let first = first_unlawful_record(
        alloc,
        &report.life.base,
        report,
        multis,
        &checkpoints.asked,
    )?;
    match first {
        Some(place) => Ok(Walked::Broken {
            lines: place as u64,
        }),
        None => Ok(Walked::Lawful {
            lines: report.life.recs.items().len() as u64,
        }),
    }
}
