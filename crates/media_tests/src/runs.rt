//! Runs of the tool on a script in memory, over a media of which calls fail or over a folder.
ghost use Rattle.std.specs.Prelude.{IsTrue};
ghost use Rattle.session_run.specs.Guarantee.{MayRunOver};
ghost use Rattle.session_run.specs.Unknown.{no_log};

use disk_core::{Media, MemMedia, Which};
use disk_folder::FolderMedia;
use disk_fuse::{Fails, Fuse};
use engine_parts::OpenGate;
use report_check::check_tool;
use script_rounds::RoundThreads;
use session_run::run_tool;
use std::alloc::AllocGlobal;
use std::process::Abort;
use std::sync::Wait;
use std::thread::Threads;
use tx_io::{MemSink, MemSource, Sink, Source};

/// The status of a run, and what it wrote.
#[derive(Drop)]
pub struct Ran {
    pub status: u8,
    pub written: String,
}

/// What a run has room for.
const ROOM: u64 = 4_000_000;

/// The tool over a media, without its promises, so that a test proves no more than that it is safe.
fn status_over<S: Source, K: Sink, M: Media>(
    rt: &(impl AllocGlobal + Threads + Wait + Sync),
    words: &[String],
    source: &mut S,
    sink: &mut K,
    media: &mut M,
    threads: RoundThreads,
) -> u8
where
    M::Log: Sync,
    M::Pages: Sync,
    requires idle { IsTrue (M.is_idle media.old) }
    requires may { MayRunOver M.Media M.Log.LogDisk M.Pages.PageDisk no_log media.old }
{
    let alloc = rt.alloc();
    run_tool(rt, alloc, words, source, sink, media, threads, &OpenGate)
}

/// The same over a new media in memory of which this volume fails such calls.
fn status_fused(
    rt: &(impl AllocGlobal + Threads + Wait + Sync),
    words: &[String],
    source: &mut MemSource,
    sink: &mut MemSink,
    at: Which,
    fails: Fails,
    threads: RoundThreads,
) -> u8 {
    let alloc = rt.alloc();
    let inner = MemMedia::new(alloc);
    let mut media = Fuse::of(alloc, inner, at, fails);
    status_over(rt, words, source, sink, &mut media, threads)
}

/// The same over a folder.
fn status_in(
    rt: &(impl AllocGlobal + Threads + Wait + Sync),
    files: HostRuntime,
    folder: String,
    words: &[String],
    source: &mut MemSource,
    sink: &mut MemSink,
    threads: RoundThreads,
) -> u8 {
    let mut media = FolderMedia::new(files, rt.alloc(), folder);
    status_over(rt, words, source, sink, &mut media, threads)
}

/// A source of these bytes.
fn source_of(rt: &(impl Abort + AllocGlobal), script: &str) -> MemSource {
    let bytes = Vec::from_slice(rt.alloc(), script.as_bytes()).expect(rt, "memory");
    MemSource::new(bytes, Vec::new(rt.alloc()))
}

/// A sink with so much room.
fn sink_of(rt: &(impl Abort + AllocGlobal), room: u64) -> MemSink {
    let alloc = rt.alloc();
    MemSink::new(alloc, room, Vec::new(alloc)).expect(rt, "memory")
}

/// What a sink holds, as text.
fn text_of(rt: &(impl Abort + AllocGlobal), sink: &MemSink) -> String {
    let held = Vec::from_slice(rt.alloc(), sink.held()).expect(rt, "memory");
    String::from_utf8(held).ok().expect(rt, "text is written")
}

pub fn text_from(rt: &(impl Abort + AllocGlobal), text: &str) -> String {
    String::from_str(rt.alloc(), text).expect(rt, "memory")
}

/// Runs the tool with these words over a media of which this volume fails such calls, the sessions of a round on such
/// threads.
pub fn run_words(
    rt: &(impl Abort + AllocGlobal + Threads + Wait + Sync),
    words: &[String],
    script: &str,
    at: Which,
    fails: Fails,
    threads: RoundThreads,
) -> Ran {
    let mut source = source_of(rt, script);
    let mut sink = sink_of(rt, ROOM);
    let status = status_fused(rt, words, &mut source, &mut sink, at, fails, threads);
    let written = text_of(rt, &sink);
    Ran { status, written }
}

/// Runs a script so.
pub fn run_over(
    rt: &(impl Abort + AllocGlobal + Threads + Wait + Sync),
    script: &str,
    at: Which,
    fails: Fails,
    threads: RoundThreads,
) -> Ran {
    run_words(rt, &[text_from(rt, "run")], script, at, fails, threads)
}

/// Runs a script over a folder.
pub fn run_in(
    rt: &(impl Abort + AllocGlobal + Threads + Wait + Sync),
    files: HostRuntime,
    folder: &str,
    script: &str,
) -> Ran {
    let words = [text_from(rt, "run")];
    let mut source = source_of(rt, script);
    let mut sink = sink_of(rt, ROOM);
    let threads = RoundThreads::AtMost(2);
    let folder = text_from(rt, folder);
    let status = status_in(rt, files, folder, &words, &mut source, &mut sink, threads);
    let written = text_of(rt, &sink);
    Ran { status, written }
}

/// The checker over a report, without its promises.
fn check_status<S: Source, K: Sink>(rt: &impl AllocGlobal, source: &mut S, sink: &mut K) -> u8 {
    check_tool(rt.alloc(), source, sink)
}

/// Whether the checker calls the report lawful.
pub fn is_lawful(rt: &(impl Abort + AllocGlobal), report: &str) -> bool {
    let mut source = source_of(rt, report);
    let mut sink = sink_of(rt, 100);
    let status = check_status(rt, &mut source, &mut sink);
    status == 0 && sink.held() == b"lawful\n".as_slice()
}
