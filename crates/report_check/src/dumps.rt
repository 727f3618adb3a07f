//! The lines of dumps.
ghost use Rattle.std.specs.Prelude.{◌≡◌, ◌↔◌, [], IfOk, IsTrue, true};
ghost use Rattle.std.specs.List.{flat_map, list_any};
ghost use Rattle.tx_model.specs.Rounds.{lines_in};
ghost use Rattle.checkpoint_rules.specs.Behind.{Walked};
ghost use Rattle.report_law.specs.Dumps.{MayDump, is_faulty_step};
ghost use Rattle.report_law.specs.Steps.{Judged, gave_multi, lines_of};
ghost use Rattle.dump_rules.specs.Cutting.{AreCuts};
ghost use Rattle.dump_rules.specs.Gens.{AreGens};
ghost use Rattle.reply_lines.specs.At.{IsReportOf, IsRoundAt};
ghost use Rattle.reply_lines.specs.Known.{IsKnown};
ghost use Rattle.report_check.specs.Dumped.{IsDumping, is_dump};

use dump_rules::{Cuts, GenMark, cuts_of, gens_of, is_any_fault, may_dump};
use reply_lines::{Known, RoundAt};
use std::alloc::Global;
use std::collections::{BTreeMap, BTreeSet};
use tx_events::{Counters, Memory, Rec};
use tx_model::{DumpOf, LifeReport, Reply, Step};

/// What a life's dumps are held against, if it has one: the cutoffs that its stores may have, and the multixacts that it
/// gave.
#[derive(Drop)]
pub struct Dumping {
    pub cuts: Cuts,
    pub gens: Vec<GenMark>,
    /// Some volume is told to have failed in the life.
    pub faulty: bool,
}

fn is_dump(step: &Step) -> bool
    ensures { result ≡ is_dump step.now }
{
    matches!(step, Step::Dump { .. })
}

/// Whether a dump is among the steps.
fn has_dump(steps: &[Step]) -> bool
    ensures { result ≡ list_any is_dump steps.now }
{
    steps.iter().any(|step| is_dump(step))
}

/// The cutoffs that the life's stores may have, where they are asked for; else none.
fn cuts_if(
    alloc: Global,
    base: &Counters,
    recs: &[Rec],
    known: &Known,
    asked: bool,
) -> Result<Cuts, Memory>
    requires { base.now ≡ known.now.places.base }
    ensures { IfOk result (λ cuts. asked ≡ true → AreCuts base.now recs.now known.now.places.events cuts) }
{
    if !asked {
        return Ok(Cuts {
            xacts: BTreeSet::new(alloc),
            parents: BTreeMap::new(alloc),
            offsets: BTreeSet::new(alloc),
            members: BTreeSet::new(alloc),
        });
    }
    cuts_of(alloc, base, recs, &known.places)
}

/// The multixacts that the life gave, where they are asked for; else none.
fn gens_if(alloc: Global, known: &Known, asked: bool) -> Result<Vec<GenMark>, Memory>
    ghost j: { Judged }
    requires known { IsKnown j known.now }
    ensures { IfOk result (λ gens. asked ≡ true → AreGens (gave_multi (lines_of j)) known.now.multi_places.events gens.items) }
{
    if !asked {
        return Ok(Vec::new(alloc));
    }
    gens_of(alloc, &known.multi_places, known.oks.as_slice())
}

/// What the dumps of a life are held against, if it has one, which begins with these counters. Takes the logarithm of the
/// life an event and a record.
pub fn dumping_of(
    alloc: Global,
    report: &LifeReport,
    known: &Known,
    base: &Counters,
) -> Result<Dumping, Memory>
    ghost j: { Judged }
    requires report { IsReportOf j report.now }
    requires known { IsKnown j known.now }
    requires base { base.now ≡ j.begun.counters }
    ensures { IfOk result (λ d. IsDumping j known.now d) }
{
    let steps = report.steps.items();
    let asked = has_dump(steps);
    let cuts = cuts_if(alloc, base, report.life.recs.items(), known, asked)?;
    let gens = gens_if(alloc, known, asked)?;
    Ok(Dumping {
        cuts,
        gens,
        faulty: is_faulty_if(steps, asked),
    })
}

/// Whether some volume is told to have failed in these steps, where it is asked for.
fn is_faulty_if(steps: &[Step], asked: bool) -> bool
    ensures { asked ≡ true → result ≡ list_any is_faulty_step steps.now }
{
    asked && is_any_fault(steps)
}

/// Whether a dump may be answered so behind these steps, where `round` is the place of no line behind them.
pub fn is_lawful_dump(
    dumping: &Dumping,
    known: &Known,
    round: RoundAt,
    what: DumpOf,
    at: u64,
    size: u32,
    reply: &Reply,
) -> bool
    ghost walked: { Walked }
    requires known { IsKnown walked.j known.now }
    requires dumping { IsDumping walked.j known.now dumping.now }
    requires round { IsRoundAt walked.j (flat_map lines_in walked.before) [] known.now round }
    requires dump { list_any is_dump walked.j.steps ≡ true }
    ensures { IsTrue result ↔ MayDump walked.j (flat_map lines_in walked.before) what at size reply.now }
{
    may_dump(
        &dumping.cuts,
        dumping.gens.as_slice(),
        &known.places,
        known.marks.as_slice(),
        round.from,
        &known.multi_places,
        round.multi_from,
        round.judged,
        dumping.faulty,
        what,
        at,
        size,
        reply,
    )
}
