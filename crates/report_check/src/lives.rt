//! The lines of all lives of a report.
ghost use Rattle.std.specs.Prelude.{◌≡◌, [], IfOk};
ghost use Rattle.std.specs.List.{AllByRecursion};
ghost use Rattle.report_law.specs.Begun.{begun_from};
ghost use Rattle.report_law.specs.ReportLines.{IsLawfulAt, life_lines, lives_lines};
ghost use Rattle.life_tables.specs.Numbered.{IsNumbered};
ghost use Rattle.report_check.specs.Walk.{IsFound};
ghost use Rattle.report_check.specs.Keeping.{IsLeft, IsLeftBefore};
ghost use Rattle.report_check.specs.Walked.{IfLawful, IsWalked};

use crate::keep::{keep_on, nothing_kept};
use crate::life::walk_life;
use crate::walked::{Walked, plus};
use reply_lines::Kept;
use std::alloc::Global;
use tx_model::{LifeReport, Memory};

/// The lines of the life that comes behind these, which are lawful, and what it began from. After want of memory nothing is
/// known of `kept`.
fn next_life(
    alloc: Global,
    kept: &mut Kept,
    before: &[LifeReport],
    report: &LifeReport,
) -> Result<Walked, Memory>
    requires numbered { IsNumbered report.now }
    requires lawful { AllByRecursion IsLawfulAt (lives_lines [] before.now) }
    requires left { IsLeftBefore before.now kept.old }
    ensures walked { IfOk result (IsWalked (life_lines before.now report.now)) }
    ensures left { IfOk result (λ w. IfLawful w (IsLeft (begun_from before.now report.now.life) before.now kept.new)) }
{
    if !keep_on(alloc, kept, before, &report.life)? {
        return Ok(Walked::Broken { lines: 0 });
    }
    walk_life(alloc, before, report, kept)
}

/// The first line of these lives that breaks its rule, by how many stand before it.
pub fn first_in_lives(alloc: Global, lives: &[LifeReport]) -> Result<Option<u64>, Memory>
    requires { AllByRecursion IsNumbered lives.now }
    ensures { IfOk result (λ o. IsFound (lives_lines [] lives.now) o) }
{
    let mut kept = nothing_kept(alloc);
    let mut count: u64 = 0;
    for (place, report) in lives.iter().enumerate() {
        match next_life(alloc, &mut kept, &lives[..place], report)? {
            Walked::Lawful { lines } => count = plus(count, lines)?,
            Walked::Broken { lines } => return Ok(Some(plus(count, lines)?)),
        }
    }
    Ok(None)
}
