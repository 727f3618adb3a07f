//! The tool's top call, with the main guarantee (`docs/GUARANTEES.md`).
ghost use Rattle.std.specs.Prelude.{◌≡◌, ◌≤◌, ◌⊎◌, ℕ, List, Option, [], IsTrue, false, map, string_bytes, take};
ghost use Rattle.std.specs.Io.KnownBytes.{Appends};
ghost use Rattle.recoverable.specs.Fit.{KeptLog};
ghost use Rattle.tx_io.specs.Amounts.{ReadsUpTo, most_read};
ghost use Rattle.tx_io.specs.Causes.{Rose};
ghost use Rattle.engine_life.specs.FirstLives.{MayMount};
ghost use Rattle.script_gen.specs.Laws.{most_transactions};
ghost use Rattle.script_gen.specs.declared.task.Task.TheVariants as tasks;
ghost use Rattle.session_run.specs.Guarantee.{MayRunOver, RunsTool};
ghost use Rattle.session_run.specs.Unknown.{no_log};
ghost use Rattle.session_run.specs.Tool.{Ends, HasMounted, HasWritten, IsSized, IsUnread, WritesLast, status_of, text_of};

use crate::ending::{Ending, stopped, unopened, unread};
use crate::run::{count_script, run_script};
use disk_core::Media;
use engine_parts::Gate;
use script_gen::laws::generated_scripts_run;
use script_gen::{Task, generate, task_of};
use script_rounds::{RoundThreads, finish};
use script_source::take_script;
use std::alloc::Global;
use std::sync::Wait;
use std::thread::Threads;
use tx_io::{Sink, Source};
use tx_model::Memory;

/// Reads the source, runs its script over the media, and makes the report.
fn run_source<R: Threads + Wait + Sync, S: Source, K: Sink, M: Media, G: Gate + Sync>(
    rt: &R,
    alloc: Global,
    source: &mut S,
    sink: &mut K,
    media: &mut M,
    threads: RoundThreads,
    gate: &G,
) -> Ending
where
    M::Log: Sync,
    M::Pages: Sync,
    ghost kept: { KeptLog }
    requires idle { IsTrue (M.is_idle media.old) }
    requires may { MayRunOver M.Media M.Log.LogDisk M.Pages.PageDisk kept media.old }
    ensures ends { (written : List ℕ) × Ends M.Log.LogDisk M.Pages.PageDisk tasks.Run (S.left source.old) (S.left source.new)
        (S.faults source.old) (S.faults source.new)
        (MayMount (M.is_new media.old) (M.begins media.old) (M.gives media.old)) kept (M.is_new media.old ≡ false) M.falls
        (M.faults media.old) (M.faults media.new) (M.gives media.new) written result
        × HasWritten (K.held sink.old) (K.held sink.new) (K.faults sink.old) (K.faults sink.new) written result }
    ensures sink { K.faults sink.old ≤ K.faults sink.new }
    ensures later { S.faults source.old ≤ S.faults source.new }
    ensures amount { ReadsUpTo most_read (S.left source.old) (S.left source.new) }
    ensures idle { IsTrue (M.is_idle media.new) }
    ensures unmounted { IsUnread result → media.new ≡ media.old }
    ensures count { M.faults media.old ≤ M.faults media.new }
    ensures used { HasMounted result → M.is_new media.new ≡ false }
{
    let script = match take_script(alloc, source) {
        Ok(script) => script,
        Err(refusal) => return unread(refusal),
    };
    match run_script(rt, alloc, script, sink, media, threads, gate) {
        Ok(()) => Ending::Report,
        Err(stop) => stopped(alloc, stop),
    }
}

/// Runs the script of a seed and a size over the media, and makes its summary. Reads no source.
fn run_generated<R: Threads + Wait + Sync, M: Media, G: Gate + Sync>(
    rt: &R,
    alloc: Global,
    seed: u32,
    size: u32,
    media: &mut M,
    threads: RoundThreads,
    gate: &G,
) -> Ending
where
    M::Log: Sync,
    M::Pages: Sync,
    ghost kept: { KeptLog }
    requires few { size ≤ most_transactions }
    requires idle { IsTrue (M.is_idle media.old) }
    requires may { MayRunOver M.Media M.Log.LogDisk M.Pages.PageDisk kept media.old }
    ensures ends { (left : Option (List ℕ)) (faults : ℕ) → Ends M.Log.LogDisk M.Pages.PageDisk (tasks.Gen seed size)
        left left faults faults (MayMount (M.is_new media.old) (M.begins media.old) (M.gives media.old)) kept (M.is_new media.old ≡ false) M.falls
        (M.faults media.old) (M.faults media.new) (M.gives media.new) [] result }
    ensures written { WritesLast result }
    ensures idle { IsTrue (M.is_idle media.new) }
    ensures count { M.faults media.old ≤ M.faults media.new }
    ensures used { HasMounted result → M.is_new media.new ≡ false }
{
    generated_scripts_run();
    let script = match generate(alloc, seed, size) {
        Ok(script) => script,
        Err(Memory) => return Ending::Memory,
    };
    match count_script(rt, alloc, &script, media, threads, gate) {
        Ok(text) => Ending::Summary(text),
        Err(refusal) => unopened(alloc, refusal),
    }
}

/// Does what is asked for.
fn work<R: Threads + Wait + Sync, S: Source, K: Sink, M: Media, G: Gate + Sync>(
    rt: &R,
    alloc: Global,
    task: Task,
    source: &mut S,
    sink: &mut K,
    media: &mut M,
    threads: RoundThreads,
    gate: &G,
) -> Ending
where
    M::Log: Sync,
    M::Pages: Sync,
    ghost kept: { KeptLog }
    requires sized { IsSized task }
    requires idle { IsTrue (M.is_idle media.old) }
    requires may { MayRunOver M.Media M.Log.LogDisk M.Pages.PageDisk kept media.old }
    ensures ends { (written : List ℕ) × Ends M.Log.LogDisk M.Pages.PageDisk task (S.left source.old) (S.left source.new)
        (S.faults source.old) (S.faults source.new)
        (MayMount (M.is_new media.old) (M.begins media.old) (M.gives media.old)) kept (M.is_new media.old ≡ false) M.falls
        (M.faults media.old) (M.faults media.new) (M.gives media.new) written result
        × HasWritten (K.held sink.old) (K.held sink.new) (K.faults sink.old) (K.faults sink.new) written result }
    ensures sink { K.faults sink.old ≤ K.faults sink.new }
    ensures later { S.faults source.old ≤ S.faults source.new }
    ensures amount { ReadsUpTo most_read (S.left source.old) (S.left source.new) }
    ensures untouched { (task ≡ tasks.Run → ⊥) → source.new ≡ source.old }
    ensures idle { IsTrue (M.is_idle media.new) }
    ensures unmounted { IsUnread result → media.new ≡ media.old }
    ensures count { M.faults media.old ≤ M.faults media.new }
    ensures used { HasMounted result → M.is_new media.new ≡ false }
{
    match task {
        Task::Run => run_source(rt, alloc, source, sink, media, threads, gate),
        Task::Gen { seed, size } => run_generated(rt, alloc, seed, size, media, threads, gate),
    }
}

/// Writes the text of an ending, and answers its status, or 4 where the sink fails.
fn put_ending<K: Sink>(sink: &mut K, ending: Ending) -> u8
    ensures ends { ((result ≡ status_of ending) × Appends (K.held sink.old) (K.held sink.new) (text_of ending))
        ⊎ ((result ≡ 4) × Rose (K.faults sink.old) (K.faults sink.new)) }
    ensures front { (n : ℕ) × Appends (K.held sink.old) (K.held sink.new) (take n (text_of ending)) }
    ensures later { K.faults sink.old ≤ K.faults sink.new }
{
    finish(sink, ending.text(), ending.status())
}

/// As `run_tool`, over a media whose volumes fit a log that is known (`kept`, which contracts alone see), as those do that
/// a run left: a log that has records is recovered, and the first life begins behind the last of them.
pub fn run_tool_behind<R: Threads + Wait + Sync, S: Source, K: Sink, M: Media, G: Gate + Sync>(
    rt: &R,
    alloc: Global,
    words: &[String],
    source: &mut S,
    sink: &mut K,
    media: &mut M,
    threads: RoundThreads,
    gate: &G,
) -> u8
where
    M::Log: Sync,
    M::Pages: Sync,
    ghost kept: { KeptLog }
    requires idle { IsTrue (M.is_idle media.old) }
    requires may { MayRunOver M.Media M.Log.LogDisk M.Pages.PageDisk kept media.old }

    // What each status tells, and what stands then.
    ensures runs { RunsTool S.Source K.Sink M.Media M.Log.LogDisk M.Pages.PageDisk kept
        (map string_bytes words.now) source.old source.new sink.old sink.new media.old media.new result }
{
    match task_of(words) {
        Some(task) => {
            let ending = work(rt, alloc, task, source, sink, media, threads, gate);
            put_ending(sink, ending)
        }
        None => finish(sink, b"words\n", 2),
    }
}

/// Runs the tool over the words of its command line, and answers its status: 0 done, 1 the source's bytes are no
/// script that sessions can run, and the line `script LINE KIND` is written, 2 the words are refused, 3 the source failed,
/// 4 the sink failed, 5 the media or a volume failed before a life began, or at a crash, 6 out of memory, 7 the log is
/// damaged, and the line `damaged AT` is written, 9 the log has no room for a life's first checkpoint. Before the last line
/// of 5, 6, 7 and 9 the text of the lives before may stand.
///
/// A log that has records is gone on from: it is recovered, and the first life begins behind the last of them. Of no media
/// whose pages tell what they hold is a log known here (`no_log`); of one that a run left `run_tool_behind` knows it.
///
/// The words are `run`, or `gen SEED SIZE`, SEED being 1 to 10 decimal digits, from 1 to 2147483646, and SIZE as many,
/// from 1 to 100,000. `run` reads at most 16,777,217 bytes of the source; for other words none is read.
///
/// Each session of a round passes the gate before each critical section of a command, and may be held there. Where a gate
/// waits for another session of the round, each needs a thread of its own. What is promised holds for every gate.
pub fn run_tool<R: Threads + Wait + Sync, S: Source, K: Sink, M: Media, G: Gate + Sync>(
    rt: &R,
    alloc: Global,
    words: &[String],
    source: &mut S,
    sink: &mut K,
    media: &mut M,
    threads: RoundThreads,
    gate: &G,
) -> u8
where
    M::Log: Sync,
    M::Pages: Sync,
    requires idle { IsTrue (M.is_idle media.old) }
    requires may { MayRunOver M.Media M.Log.LogDisk M.Pages.PageDisk no_log media.old }

    // The main guarantee is its `done`.
    ensures runs { RunsTool S.Source K.Sink M.Media M.Log.LogDisk M.Pages.PageDisk no_log
        (map string_bytes words.now) source.old source.new sink.old sink.new media.old media.new result }
{
    run_tool_behind(rt, alloc, words, source, sink, media, threads, gate)
}
