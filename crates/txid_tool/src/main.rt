//! `txid_tool run`: reads a script from standard input and writes its report to standard output. `txid_tool gen SEED
//! SIZE`: runs a generated script and writes its counts. `--folder NAME` before these words puts the volumes into a
//! folder. `txid_tool check`: reads a report, and writes whether it is lawful. See `docs/SCRIPT-AND-REPORT.md`.
#![tactic(auto)]

ghost use Rattle.std.specs.Prelude.{◌≡◌, ◌↔◌, ◌∷◌, ℕ, List, [], IfNone, IfSome, IsTrue, codes, map, string_bytes};
ghost use Rattle.session_run.specs.Guarantee.{MayRunOver, RunsTool};
ghost use Rattle.session_run.specs.Unknown.{no_log};

use disk_core::{Media, MemMedia};
use disk_folder::FolderMedia;
use engine_parts::OpenGate;
use report_check::check_tool;
use script_rounds::{RoundThreads, say_out_of_memory};
use session_run::run_tool;
use std::alloc::AllocGlobal;
use std::process::ExitCode;
use std::sync::Wait;
use std::thread::{Threads, available_parallelism};
use std::{env, io};
use tx_io::{Sink, Source, StdSink, StdSource};

/// The sessions of a round share at most one thread for each processor.
fn threads(rt: &impl Threads) -> RoundThreads {
    match available_parallelism(rt) {
        Ok(count) => RoundThreads::AtMost(count.get()),
        Err(_) => RoundThreads::AtMost(1),
    }
}

/// The words of the command line behind the program's name.
fn words(rt: &HostRuntime) -> io::Result<Vec<String>> {
    let mut words = Vec::new(rt.alloc());
    for word in env::args(rt)?.skip(1) {
        words.push(word)?;
    }
    Ok(words)
}

/// The folder that the first two words name, which are taken away. Other words stay.
fn take_folder(words: &mut Vec<String>) -> Option<String>
    ensures named { IfSome result (λ folder. map string_bytes words.old.items
        ≡ codes "--folder" ∷ string_bytes folder ∷ map string_bytes words.new.items) }
    ensures unnamed { IfNone result ((folder : List ℕ) (others : List (List ℕ))
        → map string_bytes words.old.items ≡ codes "--folder" ∷ folder ∷ others → ⊥) }
    ensures stay { IfNone result (words.new ≡ words.old) }
{
    if words.len() < 2 || words[0].as_str() != "--folder" {
        return None;
    }
    words.remove(0);
    Some(words.remove(0))
}

/// Whether the word is `check`.
fn is_check_word(word: &String) -> bool
    ensures { IsTrue result ↔ (string_bytes word.now ≡ codes "check") }
{
    word.as_str() == "check"
}

/// Whether the words ask for a report's judgement.
fn is_check(words: &[String]) -> bool
    ensures { IsTrue result ↔ (map string_bytes words.now ≡ codes "check" ∷ []) }
{
    match words {
        [word] => is_check_word(word),
        _ => false,
    }
}

/// Runs the tool over this media.
fn run_over<S: Source, K: Sink, M: Media>(
    rt: &(impl AllocGlobal + Threads + Wait + Sync),
    words: &[String],
    source: &mut S,
    sink: &mut K,
    media: &mut M,
) -> u8
where
    M::Log: Sync,
    M::Pages: Sync,
    requires idle { IsTrue (M.is_idle media.old) }
    requires may { MayRunOver M.Media M.Log.LogDisk M.Pages.PageDisk no_log media.old }
    ensures runs { RunsTool S.Source K.Sink M.Media M.Log.LogDisk M.Pages.PageDisk no_log
        (map string_bytes words.now) source.old source.new sink.old sink.new media.old media.new result }
{
    let threads = threads(rt);
    run_tool(
        rt,
        rt.alloc(),
        words,
        source,
        sink,
        media,
        threads,
        &OpenGate,
    )
}

fn main(rt: HostRuntime) -> ExitCode {
    let mut sink = StdSink::new(rt.stdout());
    let mut words = match words(&rt) {
        Ok(words) => words,
        Err(error) if error.kind() == io::ErrorKind::OutOfMemory => {
            return ExitCode::from(say_out_of_memory(&mut sink));
        }
        // Words that aren't text are refused as any other wrong words are.
        Err(_) => Vec::new(rt.alloc()),
    };
    let mut source = StdSource::new(rt.stdin());
    if is_check(words.as_slice()) {
        return ExitCode::from(check_tool(rt.alloc(), &mut source, &mut sink));
    }
    let status = match take_folder(&mut words) {
        Some(path) => {
            let mut folder = FolderMedia::new(rt, rt.alloc(), path);
            run_over(&rt, words.as_slice(), &mut source, &mut sink, &mut folder)
        }
        None => {
            let mut memory = MemMedia::new(rt.alloc());
            run_over(&rt, words.as_slice(), &mut source, &mut sink, &mut memory)
        }
    };
    ExitCode::from(status)
}
