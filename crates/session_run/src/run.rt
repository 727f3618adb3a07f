//! Runs a script over a media, life by life, and writes the text of its report; or tells the counts of what it did.
ghost use Rattle.std.specs.Prelude.{◌≡◌, ◌≤◌, ℕ, List, None, Some, IfErr, IfOk, IsTrue, OnErr, OnOk, false, length};
ghost use Rattle.std.specs.Io.KnownBytes.{Appends};
ghost use Rattle.disk_core.specs.Media.{HasBanks};
ghost use Rattle.disk_core.specs.declared.media.Volumes.{Volumes as Mounted};
ghost use Rattle.tx_model.specs.declared.report.LifeReport.{LifeReport};
ghost use Rattle.tx_model.specs.declared.report.Report.{Report};
ghost use Rattle.report_text.specs.ReportText.{report_text};
ghost use Rattle.recoverable.specs.Fit.{KeptLog};
ghost use Rattle.session_lang.specs.declared.script.Item.{Item};
ghost use Rattle.run_law.specs.Lives.{RunStart};
ghost use Rattle.run_law.specs.Tool.{IsReportOf};
ghost use Rattle.script_gen.specs.Summaries.{IsSummaryOf};
ghost use Rattle.engine_host.specs.declared.cluster.Cluster.{Cluster as Clustered};
ghost use Rattle.engine_host.specs.Opening.{Beginning, IsCluster};
ghost use Rattle.engine_life.specs.FirstLives.{MayBeginOver, MayMount};
ghost use Rattle.engine_life.specs.Lives.{FitsLog, volumes_left};
ghost use Rattle.engine_life.specs.Refusals.{IsOfVolumes};
ghost use Rattle.session_run.specs.Fits.{FitWhereTold};
ghost use Rattle.session_run.specs.OneLife.{IsOpened, MayRunIn, life_over};
ghost use Rattle.session_run.specs.Parts.{IsTakenPart};
ghost use Rattle.session_run.specs.Going.{HasGoneOn, HasRunPart, IsCrashed, IsLived, IsWritten, LastWent, NextWent, StopsPart};
ghost use Rattle.session_run.specs.Lives.{HasFallen};
ghost use Rattle.session_run.specs.Leaves.{LeavesVolumes};
ghost use Rattle.session_run.specs.Runs.{IsTaken, IsTakenAlone, cluster_of};
ghost use Rattle.session_run.specs.Starts.{BeginsOver};
ghost use Rattle.session_run.specs.Stops.{IsStopped, IsUnopenedFirst, MountsFirst, StayFitBehind};

use crate::ended::{Ended, FittedLog, crash_of, log_left};
use crate::life::run_life;
use crate::stop::Stopped;
use disk_core::{LogDisk, Media, PageDisk, Volumes};
use engine_host::{Cluster, LifeRooms};
use engine_life::laws::crash_goes_on;
use engine_life::{EndText, NoLife, OpenLife, end_life, open_life};
use engine_parts::Gate;
use host_calls::same_cluster;
use notes::Note;
use script_gen::Summary;
use script_rounds::{
    LineKeeper, RoundThreads, SparePlan, Steps, Tally, have_full_multis, next_part, put_life,
    whole_text,
};
use session_lang::{Items, Script};
use std::alloc::Global;
use std::sync::Wait;
use std::thread::Threads;
use tx_io::{Failed, Sink};
use tx_model::{Counters, How, Memory, NameList};

/// The cluster that a script's header tells of.
fn cluster_of(script: &Script) -> Cluster
    requires { IsTaken script.now }
    ensures is { result ≡ cluster_of script.now }
    ensures cluster { IsCluster result }
{
    Cluster {
        base: script.base.same(),
        banks: script.banks,
        sessions: script.names.items().len() as u32,
    }
}

/// A life that ran a part of a script and is over, its base, and the text of its steps.
struct Lived<L: LogDisk, P> {
    ended: Ended<L, P>,
    base: Counters,
    steps: Result<Steps, Memory>,
}

/// Runs a part of a script in a life that is open, and closes it.
fn run_part<L: LogDisk + Send + Sync + Drop, P: PageDisk + Send + Sync + Drop>(
    rt: &(impl Threads + Wait + Sync),
    alloc: Global,
    life: Box<OpenLife<L, P>>,
    rooms: &mut LifeRooms<P>,
    spare: &mut SparePlan,
    names: &NameList,
    part: Items,
    threads: RoundThreads,
    gate: &(impl Gate + Sync),
) -> Lived<L, P>
    requires taken { IsTakenPart (length names.now) part }
    requires may { MayRunIn (length names.now) life.value }
    ensures lived { (c : Clustered) (b : Beginning) (faults : List ℕ) (mounted : Mounted L P)
        → IsOpened c b faults mounted life.value
        → IsLived L.LogDisk P.PageDisk names.now part.entry c b faults mounted result }
{
    let life = Box::into_inner(life);
    let start = Note::by(&life.host.start);
    let base = life.host.cluster.base.same();
    let mut text = Steps::none(alloc);
    let (closed, ran) = run_life(
        rt, alloc, life, rooms, spare, names, part, &mut text, threads, gate,
    );
    let ended = Ended { start, closed };
    let steps = match ran {
        Ok(()) => Ok(text),
        Err(Memory) => Err(Memory),
    };
    Lived { ended, base, steps }
}

/// Writes the text of a part that was run in the life of this number, and the crash that ends it. Gives the volumes back,
/// and a note of the log that they fit.
#[inline(always)]
fn tell_part<R: Threads + Sync, K: Sink, L: LogDisk + Drop, P: PageDisk + Drop>(
    rt: &R,
    alloc: Global,
    names: &NameList,
    lived: Lived<L, P>,
    number: u64,
    crash: Option<How>,
    threads: RoundThreads,
    sink: &mut K,
) -> (Volumes<L, P>, Result<Note<FittedLog>, Stopped>)
    requires lived { (its : List Item) × (c : Clustered) × (b : Beginning) × (faults : List ℕ) × (mounted : Mounted L P)
        × IsLived L.LogDisk P.PageDisk names.now its c b faults mounted lived }
    ensures volumes { result.0 ≡ volumes_left lived.ended.closed }
    ensures fits { IfOk result.1 (λ log. FitWhereTold L.LogDisk P.PageDisk (life_over lived.ended.start.value lived.ended.closed)
        (volumes_left lived.ended.closed) log.value.kept) }
    ensures told { (its : List Item) (c : Clustered) (b : Beginning) (faults : List ℕ) (mounted : Mounted L P)
        → IsLived L.LogDisk P.PageDisk names.now its c b faults mounted lived
        → IsWritten L.LogDisk P.PageDisk names.now its number crash c b mounted lived.ended.closed
        (K.held sink.old) (K.held sink.new) (K.faults sink.old) (K.faults sink.new) result.1 }
    ensures sink { K.faults sink.old ≤ K.faults sink.new }
{
    let Lived { ended, base, steps } = lived;
    let Ok(steps) = steps else {
        let Ended { start: _, closed } = ended;
        return (closed.into_volumes(), Err(Stopped::NoLife(NoLife::Memory)));
    };
    let left = log_left(&ended);
    let Ended { start: _, closed } = ended;
    let from = closed.number();
    let count = threads.count_to_print();
    let (volumes, ended) = end_life(rt, alloc, closed, names, crash, count);
    let Ok(end) = ended else {
        return (volumes, Err(Stopped::NoLife(NoLife::Memory)));
    };
    let EndText { histories, log } = end;
    let Ok(text) = whole_text(alloc, number, from, &base, steps, histories, log, crash) else {
        return (volumes, Err(Stopped::NoLife(NoLife::Memory)));
    };
    match put_life(alloc, sink, &text) {
        Ok(()) => (volumes, Ok(left)),
        Err(Failed) => (volumes, Err(Stopped::Sink)),
    }
}

/// Crashes the volumes of a closed life, which fit this log, and opens the next one over what that left. A caller picks the
/// log from its note. The cluster is the script's: over volumes that tell nothing a log may have lost all records.
fn go_on<M: Media>(
    alloc: Global,
    rooms: &mut LifeRooms<M::Pages>,
    media: &mut M,
    volumes: Volumes<M::Log, M::Pages>,
    _log: &Note<FittedLog>,
    how: How,
    cluster: Cluster,
) -> Result<Box<OpenLife<M::Log, M::Pages>>, NoLife>
    ghost kept: { KeptLog }
    requires cluster { IsCluster cluster }
    requires banks { HasBanks (length volumes.xact.items) volumes }
    requires fit { IsTrue M.Pages.tells → IsTrue M.Log.tells → FitsLog M.Log.LogDisk M.Pages.PageDisk kept volumes }
    ensures next { IfOk result (λ life. HasGoneOn M.Log.LogDisk M.Pages.PageDisk M.falls how kept cluster
        (length volumes.xact.items) volumes life.value) }
    ensures mounted { OnOk result (M.is_idle media.new ≡ false) }
    ensures idle { OnErr result (IsTrue (M.is_idle media.new)) }
    ensures count { M.faults media.old ≤ M.faults media.new }
    ensures used { OnErr result (M.is_new media.new ≡ false) }
    ensures refused { IfErr result (IsCrashed M.Log.LogDisk M.Pages.PageDisk cluster M.falls how
        (M.faults media.old) (M.faults media.new) volumes (M.gives media.new)) }
    ensures still { IsTrue M.Pages.tells → IsTrue M.Log.tells → IfErr result (StayFitBehind M.Log.LogDisk M.Pages.PageDisk kept
        (HasFallen M.Log.LogDisk M.Pages.PageDisk M.falls how volumes) (M.faults media.old) (M.faults media.new) (M.gives media.new)) }
{
    match media.crash(volumes, crash_of(how)) {
        Ok(()) => crash_goes_on::<M::Log, M::Pages>(),
        Err(_) => return Err(NoLife::Device),
    }
    open_life(alloc, rooms, media, cluster)
}

/// Ends the last part of a script: writes its text.
fn end_run<R: Threads + Sync, K: Sink, M: Media>(
    rt: &R,
    alloc: Global,
    names: &NameList,
    lived: Lived<M::Log, M::Pages>,
    number: u64,
    threads: RoundThreads,
    sink: &mut K,
    media: &mut M,
) -> Result<(), Stopped>
    requires ran { HasRunPart M.Log.LogDisk M.Pages.PageDisk M.falls names.now number lived }
    ensures last { (ran : HasRunPart M.Log.LogDisk M.Pages.PageDisk M.falls names.now number lived)
        → OnOk result (LastWent M.Log.LogDisk M.Pages.PageDisk ran (K.held sink.old) (K.held sink.new) (M.gives media.new)) }
    ensures stopped { (ran : HasRunPart M.Log.LogDisk M.Pages.PageDisk M.falls names.now number lived)
        → IfErr result (StopsPart M.Log.LogDisk M.Pages.PageDisk ran None
        (K.held sink.old) (K.held sink.new) (K.faults sink.old) (K.faults sink.new)
        (M.faults media.old) (M.faults media.new) (M.gives media.new)) }
    ensures idle { IsTrue (M.is_idle media.new) }
    ensures used { M.is_new media.new ≡ false }
    ensures count { M.faults media.old ≤ M.faults media.new }
    ensures sink { K.faults sink.old ≤ K.faults sink.new }
{
    let (volumes, told) = tell_part(rt, alloc, names, lived, number, None, threads, sink);
    media.rest(volumes);
    match told {
        Ok(_) => Ok(()),
        Err(stop) => Err(stop),
    }
}

/// Ends a part of a script that a crash ends: writes its text, makes the crash, and opens the next life.
fn end_part<R: Threads + Sync, K: Sink, M: Media>(
    rt: &R,
    alloc: Global,
    rooms: &mut LifeRooms<M::Pages>,
    names: &NameList,
    cluster: &Cluster,
    lived: Lived<M::Log, M::Pages>,
    number: u64,
    how: How,
    threads: RoundThreads,
    sink: &mut K,
    media: &mut M,
) -> Result<Box<OpenLife<M::Log, M::Pages>>, Stopped>
    requires cluster { IsCluster cluster.now }
    requires ran { HasRunPart M.Log.LogDisk M.Pages.PageDisk M.falls names.now number lived }
    ensures next { (ran : HasRunPart M.Log.LogDisk M.Pages.PageDisk M.falls names.now number lived)
        → cluster.now ≡ cluster_of ran.script
        → IfOk result (λ life. NextWent M.Log.LogDisk M.Pages.PageDisk ran how (K.held sink.old) (K.held sink.new) life.value) }
    ensures stopped { (ran : HasRunPart M.Log.LogDisk M.Pages.PageDisk M.falls names.now number lived)
        → cluster.now ≡ cluster_of ran.script
        → IfErr result (StopsPart M.Log.LogDisk M.Pages.PageDisk ran (Some how)
        (K.held sink.old) (K.held sink.new) (K.faults sink.old) (K.faults sink.new)
        (M.faults media.old) (M.faults media.new) (M.gives media.new)) }
    ensures idle { OnErr result (IsTrue (M.is_idle media.new)) }
    ensures used { OnErr result (M.is_new media.new ≡ false) }
    ensures count { M.faults media.old ≤ M.faults media.new }
    ensures sink { K.faults sink.old ≤ K.faults sink.new }
{
    let (volumes, told) = tell_part(rt, alloc, names, lived, number, Some(how), threads, sink);
    let log = match told {
        Ok(log) => log,
        Err(stop) => {
            media.rest(volumes);
            return Err(stop);
        }
    };
    match go_on(
        alloc,
        rooms,
        media,
        volumes,
        &log,
        how,
        same_cluster(cluster),
    ) {
        Ok(life) => Ok(life),
        Err(refusal) => Err(Stopped::NoLife(refusal)),
    }
}

/// Runs a script over a media, life by life, from the script's counters or behind the records of an old log, and writes the
/// text of its report: that of a life before its crash. The media holds its volumes again then, and also after an error.
pub fn run_script<R: Threads + Wait + Sync, K: Sink, M: Media, G: Gate + Sync>(
    rt: &R,
    alloc: Global,
    script: Script,
    sink: &mut K,
    media: &mut M,
    threads: RoundThreads,
    gate: &G,
) -> Result<(), Stopped>
where
    M::Log: Sync,
    M::Pages: Sync,
    ghost kept: { KeptLog }
    requires taken { IsTaken script }
    requires idle { IsTrue (M.is_idle media.old) }
    requires may { (volumes : Mounted M.Log M.Pages)
        → MayMount (M.is_new media.old) (M.begins media.old) (M.gives media.old) script.banks volumes
        → MayBeginOver M.Log.LogDisk M.Pages.PageDisk kept volumes }
    ensures report { OnOk result ((banks : ℕ) × (start : RunStart) × (r : Report)
        × (is : IsReportOf M.Pages.tells banks start script r) × Appends (K.held sink.old) (K.held sink.new) (report_text r)
        × LeavesVolumes M.Log.LogDisk M.Pages.PageDisk (BeginsOver M.Log.LogDisk M.Pages.PageDisk
        (MayMount (M.is_new media.old) (M.begins media.old) (M.gives media.old)) kept script banks start) M.falls
        (M.gives media.new) r.lives) }
    ensures idle { IsTrue (M.is_idle media.new) }
    ensures count { M.faults media.old ≤ M.faults media.new }
    ensures used { OnOk result (M.is_new media.new ≡ false) }
    ensures used_so { IfErr result (λ stop. MountsFirst stop → M.is_new media.new ≡ false) }
    ensures stopped { IfErr result (IsStopped M.Log.LogDisk M.Pages.PageDisk
        (MayMount (M.is_new media.old) (M.begins media.old) (M.gives media.old)) kept (M.is_new media.old ≡ false) M.falls
        (M.faults media.old) (M.faults media.new) (M.gives media.new) script (K.held sink.old) (K.held sink.new)
        (K.faults sink.old) (K.faults sink.new)) }
    ensures sink { K.faults sink.old ≤ K.faults sink.new }
{
    let cluster = cluster_of(&script);
    let mut rooms = LifeRooms::new(alloc);
    let mut spare = SparePlan::none(alloc);
    let mut life = match open_life(alloc, &mut rooms, media, same_cluster(&cluster)) {
        Ok(life) => life,
        Err(refusal) => return Err(Stopped::NoLife(refusal)),
    };
    let Script {
        names,
        items: list,
        ..
    } = script;
    let mut items = list.items();
    let mut number = 1;
    'lives: loop {
        let (part, crash, behind) = next_part(&items);
        let lived = run_part(
            rt, alloc, life, &mut rooms, &mut spare, &names, part, threads, gate,
        );
        let how = match crash {
            Some(how) => how,
            None => {
                // Before the text of what it left the last life needs no list of commands any more, and no plan.
                drop(list);
                drop(spare);
                return end_run(rt, alloc, &names, lived, number, threads, sink, media);
            }
        };
        life = end_part(
            rt, alloc, &mut rooms, &names, &cluster, lived, number, how, threads, sink, media,
        )?;
        items = behind;
        number += 1;
    }
}

/// Runs a script without a crash over a media, in one life, and answers the line that tells the counts of what it did in
/// place of the report.
pub fn count_script<R: Threads + Wait + Sync, M: Media, G: Gate + Sync>(
    rt: &R,
    alloc: Global,
    script: &Script,
    media: &mut M,
    threads: RoundThreads,
    gate: &G,
) -> Result<Vec<u8>, NoLife>
where
    M::Log: Sync,
    M::Pages: Sync,
    ghost kept: { KeptLog }
    requires taken { IsTakenAlone script.now }
    requires idle { IsTrue (M.is_idle media.old) }
    requires may { (volumes : Mounted M.Log M.Pages)
        → MayMount (M.is_new media.old) (M.begins media.old) (M.gives media.old) script.now.banks volumes
        → MayBeginOver M.Log.LogDisk M.Pages.PageDisk kept volumes }
    ensures counts { IfOk result (λ text. (counts : IsSummaryOf M.Pages.tells script.now text.items)
        × LeavesVolumes M.Log.LogDisk M.Pages.PageDisk (BeginsOver M.Log.LogDisk M.Pages.PageDisk
        (MayMount (M.is_new media.old) (M.begins media.old) (M.gives media.old)) kept script.now counts.banks counts.start)
        M.falls (M.gives media.new) counts.report.lives) }
    ensures idle { IsTrue (M.is_idle media.new) }
    ensures count { M.faults media.old ≤ M.faults media.new }
    ensures used { OnOk result (M.is_new media.new ≡ false) }
    ensures used_so { IfErr result (λ refusal. IsOfVolumes refusal → M.is_new media.new ≡ false) }
    ensures refused { IfErr result (IsUnopenedFirst M.Log.LogDisk M.Pages.PageDisk
        (MayMount (M.is_new media.old) (M.begins media.old) (M.gives media.old)) kept (M.is_new media.old ≡ false) M.falls
        (M.faults media.old) (M.faults media.new) (M.gives media.new) script.now) }
{
    let mut rooms = LifeRooms::new(alloc);
    let mut spare = SparePlan::none(alloc);
    let life = Box::into_inner(open_life(alloc, &mut rooms, media, cluster_of(script))?);
    have_full_multis(&life.host.cluster.base);
    let mut tally = Tally::none(alloc);
    let names = &script.names;
    let items = script.items.items();
    let (closed, ran) = run_life(
        rt, alloc, life, &mut rooms, &mut spare, names, items, &mut tally, threads, gate,
    );
    let summary = Summary::of(closed.events.items(), tally.commands(), tally.verdicts());
    media.rest(closed.into_volumes());
    match ran {
        Ok(()) => match summary.text(alloc) {
            Ok(text) => Ok(text),
            Err(Memory) => Err(NoLife::Memory),
        },
        Err(Memory) => Err(NoLife::Memory),
    }
}
