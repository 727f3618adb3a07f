//! Runs of the tool on a script in memory, and the checker over a report.
ghost use Rattle.std.specs.Prelude.{IsTrue};
ghost use Rattle.session_run.specs.Guarantee.{MayRunOver};
ghost use Rattle.session_run.specs.Unknown.{no_log};

use crate::gates::TestGate;
use disk_core::{Media, MemMedia};
use report_check::check_tool;
use script_rounds::RoundThreads;
use session_run::run_tool;
use std::alloc::AllocGlobal;
use std::process::Abort;
use std::sync::Wait;
use std::thread::Threads;
use tx_io::{MemSink, MemSource, Sink, Source};

/// The status of a run, and what it wrote.
#[derive(Drop)]
pub struct Ran {
    pub status: u8,
    pub written: String,
}

/// The tool over a media, without its promises, so that a test proves no more than that it is safe.
fn status_over<S: Source, K: Sink, M: Media>(
    rt: &(impl AllocGlobal + Threads + Wait + Sync),
    words: &[String],
    source: &mut S,
    sink: &mut K,
    media: &mut M,
    threads: RoundThreads,
    gate: &TestGate<'_>,
) -> u8
where
    M::Log: Sync,
    M::Pages: Sync,
    requires idle { IsTrue (M.is_idle media.old) }
    requires may { MayRunOver M.Media M.Log.LogDisk M.Pages.PageDisk no_log media.old }
{
    let alloc = rt.alloc();
    run_tool(rt, alloc, words, source, sink, media, threads, gate)
}

/// The same over a new media in memory.
fn status_past<S: Source>(
    rt: &(impl AllocGlobal + Threads + Wait + Sync),
    words: &[String],
    source: &mut S,
    sink: &mut MemSink,
    threads: RoundThreads,
    gate: &TestGate<'_>,
) -> u8 {
    let mut media = MemMedia::new(rt.alloc());
    status_over(rt, words, source, sink, &mut media, threads, gate)
}

/// The words of a command line.
fn words_of(rt: &(impl Abort + AllocGlobal), words: &[&str]) -> Vec<String> {
    let mut all = Vec::new(rt.alloc());
    for word in words {
        let word = String::from_str(rt.alloc(), word).expect(rt, "memory");
        all.push(word).expect(rt, "memory");
    }
    all
}

/// A source of these bytes, whose reads of these numbers fail. The first one is 1.
pub fn source_of(rt: &(impl Abort + AllocGlobal), script: &str, failing: &[u64]) -> MemSource {
    let bytes = Vec::from_slice(rt.alloc(), script.as_bytes()).expect(rt, "memory");
    let failing = Vec::from_slice(rt.alloc(), failing).expect(rt, "memory");
    MemSource::new(bytes, failing)
}

/// A sink with so much room.
fn sink_of(rt: &(impl Abort + AllocGlobal), room: u64) -> MemSink {
    let alloc = rt.alloc();
    MemSink::new(alloc, room, Vec::new(alloc)).expect(rt, "memory")
}

/// What a sink holds, as text.
fn text_of(rt: &(impl Abort + AllocGlobal), sink: &MemSink) -> String {
    let held = Vec::from_slice(rt.alloc(), sink.held()).expect(rt, "memory");
    String::from_utf8(held).ok().expect(rt, "text is written")
}

/// Runs the tool with these words on such threads and past this gate, with so much room for what it writes.
pub fn run_past<S: Source>(
    rt: &(impl Abort + AllocGlobal + Threads + Wait + Sync),
    words: &[&str],
    source: &mut S,
    room: u64,
    threads: RoundThreads,
    gate: &TestGate<'_>,
) -> Ran {
    let words = words_of(rt, words);
    let mut sink = sink_of(rt, room);
    let status = status_past(rt, words.as_slice(), source, &mut sink, threads, gate);
    let written = text_of(rt, &sink);
    Ran { status, written }
}

/// The checker over a report, without its promises.
fn check_status<S: Source, K: Sink>(rt: &impl AllocGlobal, source: &mut S, sink: &mut K) -> u8 {
    check_tool(rt.alloc(), source, sink)
}

/// Whether the checker calls the report lawful.
pub fn is_lawful(rt: &(impl Abort + AllocGlobal), report: &str) -> bool {
    let mut source = source_of(rt, report, &[]);
    let mut sink = sink_of(rt, 100);
    let status = check_status(rt, &mut source, &mut sink);
    status == 0 && sink.held() == b"lawful\n".as_slice()
}
