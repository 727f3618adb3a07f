//! The text of what a life leaves.
ghost use Rattle.std.specs.Prelude.{◌≡◌, ◌++◌, ℕ, List, IfOk, OnOk};
ghost use Rattle.tx_events.specs.declared.event.Event.{Event};
ghost use Rattle.tx_events.specs.declared.multi.MultiEvent.{MultiEvent};
ghost use Rattle.tx_events.specs.declared.record.Counters.{Counters};
ghost use Rattle.tx_events.specs.declared.record.Rec.{Rec};
ghost use Rattle.report_text.specs.ReportText.{crash_text, history_text, log_text, multis_text, rest_text};
ghost use Rattle.engine_life.specs.Lives.{life_told, number_of, volumes_left};

use crate::closed::ClosedLife;
use disk_core::{LogDisk, PageDisk, Volumes};
use std::alloc::Global;
use std::thread::Threads;
use text_pieces::Pieces;
use tx_events::{EventList, MultiEvent};
use tx_model::{How, Memory, NameList};
use wal_core::WalLog;

#[tactic(auto, unfolding(report_text::specs::ReportText::log_text))]
fn put_log<R: Threads + Sync, L: LogDisk>(
    rt: &R,
    out: &mut Pieces,
    from: u64,
    log: &WalLog<L>,
    threads: usize,
) -> Result<(), Memory>
    ensures ok { OnOk result ((base : Counters) (committed : List ℕ) (recorded : List Rec) (events : List Event)
        (multis : List MultiEvent)
        → out.new ≡ out.old ++ log_text (life_told from base committed recorded events multis log.now)) }
{
    out.put_log_line(log.flushed(), log.end())?;
    out.put_records(rt, from, log.recs(), threads)
}

// The log of a life that began with the checkpoint of this number, 0 over a new log, and the crash that ends it, if one
// does.
fn log_end<R: Threads + Sync, L: LogDisk>(
    rt: &R,
    alloc: Global,
    from: u64,
    log: &WalLog<L>,
    crash: Option<How>,
    threads: usize,
) -> Result<Pieces, Memory>
    ensures { IfOk result (λ text. (base : Counters) (committed : List ℕ) (recorded : List Rec) (events : List Event)
        (multis : List MultiEvent)
        → text ≡ log_text (life_told from base committed recorded events multis log.now) ++ crash_text crash) }
{
    let mut out = Pieces::new(alloc);
    put_log(rt, &mut out, from, log, threads)?;
    out.put_crash(crash)?;
    Ok(out)
}

// The events go as they are printed, before those of multixacts are.
fn put_histories<R: Threads + Sync>(
    rt: &R,
    out: &mut Pieces,
    names: &NameList,
    events: EventList,
    multis: &[MultiEvent],
    threads: usize,
) -> Result<(), Memory>
    ensures ok { OnOk result (out.new ≡ out.old ++ (history_text names.now events ++ multis_text names.now multis.now)) }
{
    out.put_history(rt, names, events.into_vec(), threads)?;
    out.put_multis(rt, names, multis, threads)
}

/// What stands behind the steps of a life: its histories, and its log with the crash that ends it.
#[derive(Drop)]
pub struct EndText {
    pub histories: Pieces,
    pub log: Pieces,
}

/// The text of a closed life behind its steps, with the crash that ends it, if one does: each long list of it on so
/// many threads. The log is printed first, and its records go before the histories are printed. Gives the volumes back.
pub fn end_life<R: Threads + Sync, L: LogDisk + Drop, P: PageDisk + Drop>(
    rt: &R,
    alloc: Global,
    closed: ClosedLife<L, P>,
    names: &NameList,
    crash: Option<How>,
    threads: usize,
) -> (Volumes<L, P>, Result<EndText, Memory>)
    ensures volumes { result.0 ≡ volumes_left closed }
    ensures text { IfOk result.1 (λ end. (base : Counters) (committed : List ℕ) (recorded : List Rec)
        → end.histories ++ end.log ≡ rest_text names.now (life_told (number_of closed) base committed recorded
        closed.events closed.multis.value.events closed.log) crash) }
{
    let log = log_end(rt, alloc, closed.number(), &closed.log, crash, threads);
    let (volumes, history, multis) = closed.into_histories();
    let Ok(log) = log else {
        return (volumes, Err(Memory));
    };
    let mut histories = Pieces::new(alloc);
    match put_histories(rt, &mut histories, names, history, multis.events(), threads) {
        Ok(()) => (volumes, Ok(EndText { histories, log })),
        Err(Memory) => (volumes, Err(Memory)),
    }
}
