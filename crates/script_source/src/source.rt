//! Takes a script from a source, piece by piece.
ghost use Rattle.std.specs.Prelude.{◌≡◌, ℕ, ◌+◌, ◌-◌, ◌^◌, ◌<◌, ◌≤◌, ◌++◌, List, Err, IfErr, IfOk, IsErrOf, Ok, OnOk, length};
ghost use Rattle.std.specs.Io.KnownBytes.{Consumes, IsAtEnd};
ghost use Rattle.session_lang.specs.Answers.{ReadsAs};
ghost use Rattle.session_lang.specs.Lines.{lines_of};
ghost use Rattle.session_lang.specs.Pieces.{IsReading, read_behind};
ghost use Rattle.session_lang.specs.Script.{no_front, read_lines, read_script};
ghost use Rattle.run_law.specs.Refusals.{refusal_text};
ghost use Rattle.run_law.specs.Turns.{HasFewTakers, IsRunnable};
ghost use Rattle.tx_io.specs.Amounts.{ReadsUpTo, most_bytes, most_read};
ghost use Rattle.tx_io.specs.Causes.{Rose};
ghost use Rattle.script_source.specs.Sources.{HasScript, IsNoScriptOf, IsRefusedSo, Refuses, TellsFault};

use crate::reader::ScriptReader;
use crate::script::NoScript;
use report_text::Text;
use session_lang::{Kind, ParseRefusal, Script};
use std::alloc::Global;
use tx_io::{ReadStop, Source};
use tx_model::Memory;

/// The bytes that a script may have.
const LIMIT: usize = 16_777_216;

/// So many bytes are read at once.
const PIECE: usize = 16_384;

/// The line that tells at which line of a script a fault is, and its kind.
#[tactic(auto, unfolding(run_law::specs::Refusals::refusal_text, report_text::specs::Words::line_text, report_text::specs::Words::more))]
fn refusal_text(alloc: Global, line: u64, kind: Kind) -> Result<Vec<u8>, Memory>
    ensures { IfOk result (λ text. text.items ≡ refusal_text (line, kind)) }
{
    let mut text = Text::new(alloc);
    text.put(b"script")?;
    text.number(line)?;
    text.word(kind.word())?;
    text.end_line()?;
    Ok(text.into_bytes())
}

/// A script with this fault is refused.
fn refused(alloc: Global, line: u64, kind: Kind) -> NoScript
    ensures { TellsFault (line, kind) result }
{
    match refusal_text(alloc, line, kind) {
        Ok(text) => NoScript::Refused(text),
        Err(Memory) => NoScript::Memory,
    }
}

/// The script whose last bytes these are. Sessions can run each.
fn script_of(alloc: Global, reader: ScriptReader, last: &[u8]) -> Result<Script, NoScript>
    requires so_far { IsReading reader.reading }
    requires numbers { reader.number + length last.now < 2 ^ 64 }
    requires few { length reader.reading.front.items + length last.now ≤ 16777216 }
    ensures script { (text : List ℕ) → length text ≤ 16777216
        → read_lines no_front 1 (lines_of text) ≡ read_behind reader.reading reader.number last.now
        → IfOk result (λ s. (read_script text ≡ Ok s) × IsRunnable s) }
    ensures banks { (text : List ℕ) → length text ≤ 16777216
        → read_lines no_front 1 (lines_of text) ≡ read_behind reader.reading reader.number last.now
        → IfOk result (λ s. (1 ≤ s.banks) × (s.banks ≤ 16)) }
    ensures few { (text : List ℕ) → length text ≤ 16777216
        → read_lines no_front 1 (lines_of text) ≡ read_behind reader.reading reader.number last.now
        → IfOk result (λ s. HasFewTakers s.items) }
    ensures refused { (text : List ℕ) → length text ≤ 16777216
        → read_lines no_front 1 (lines_of text) ≡ read_behind reader.reading reader.number last.now
        → IfErr result (Refuses text) }
{
    match reader.finish(alloc, last) {
        Ok(script) => Ok(script),
        Err(ParseRefusal::Fault { line, kind }) => Err(refused(alloc, line, kind)),
        Err(ParseRefusal::Memory) => Err(NoScript::Memory),
    }
}

/// Reads the next piece of a script of which so many bytes came, behind what was kept, up to one byte past the limit.
fn read_piece<S: Source>(source: &mut S, kept: &mut Vec<u8>, came: usize) -> Result<usize, ReadStop>
    requires { came ≤ most_bytes }
    ensures bytes { IfOk result (λ n. (piece : List ℕ)
        × Consumes (S.left source.old) (S.left source.new) piece
        × (kept.new.items ≡ kept.old.items ++ piece)
        × (length piece ≡ n)) }
    ensures end { IfOk result (λ n. n ≡ 0 → IsAtEnd (S.left source.new)) }
    ensures limit { IfOk result (λ n. came + n ≤ most_read) }
    ensures later { S.faults source.old ≤ S.faults source.new }
    ensures fault { IsErrOf result ReadStop.Fault → Rose (S.faults source.old) (S.faults source.new) }
    ensures short { IsErrOf result ReadStop.TooLong → ⊥ }
    ensures amount { ReadsUpTo (most_read - came) (S.left source.old) (S.left source.new) }
{
    let mut piece = [0u8; PIECE];
    let room = (LIMIT + 1 - came).min(PIECE);
    let Ok(count) = source.read(&mut piece[..room]) else {
        return Err(ReadStop::Fault);
    };
    if kept.extend_from_slice(&piece[..count]).is_err() {
        return Err(ReadStop::Memory);
    }
    Ok(count)
}

/// Reads the source to its end, behind so many bytes.
fn pass_rest<S: Source>(alloc: Global, source: &mut S, came: usize) -> Result<(), ReadStop>
    requires { came ≤ most_read }
    ensures ok { OnOk result ((rest : List ℕ) × Consumes (S.left source.old) (S.left source.new) rest
        × IsAtEnd (S.left source.new)
        × (came + length rest ≤ most_bytes)) }
    ensures long { IsErrOf result ReadStop.TooLong → (rest : List ℕ)
        × Consumes (S.left source.old) (S.left source.new) rest
        × (most_bytes < came + length rest) }
    ensures later { S.faults source.old ≤ S.faults source.new }
    ensures fault { IsErrOf result ReadStop.Fault → Rose (S.faults source.old) (S.faults source.new) }
    ensures amount { ReadsUpTo (most_read - came) (S.left source.old) (S.left source.new) }
{
    let mut all = came;
    while all <= LIMIT {
        let mut passed = Vec::new(alloc);
        let count = match read_piece(source, &mut passed, all) {
            Ok(count) => count,
            Err(stop) => return Err(stop),
        };
        if count == 0 {
            return Ok(());
        }
        all += count;
    }
    Err(ReadStop::TooLong)
}

/// A script is refused of which so many bytes came, of which these have this fault, whatever comes behind them. It is
/// read to its end, which may be past the limit.
fn refused_behind<S: Source>(
    alloc: Global,
    source: &mut S,
    came: usize,
    line: u64,
    kind: Kind,
) -> NoScript
    requires { came ≤ most_read }
    ensures refused { (front : List ℕ) → length front ≡ came
        → ((more : List ℕ) → read_lines no_front 1 (lines_of (front ++ more)) ≡ Err (line, kind))
        → IsRefusedSo front (S.left source.old) (S.left source.new) (S.faults source.old) (S.faults source.new) result }
    ensures later { S.faults source.old ≤ S.faults source.new }
    ensures amount { ReadsUpTo (most_read - came) (S.left source.old) (S.left source.new) }
{
    match pass_rest(alloc, source, came) {
        Ok(()) => refused(alloc, line, kind),
        Err(ReadStop::TooLong) => refused(alloc, 0, Kind::Size),
        Err(ReadStop::Fault) => NoScript::ReadFault,
        Err(ReadStop::Memory) => NoScript::Memory,
    }
}

/// Reads the lines that end in what was kept, and keeps what stands behind them.
fn read_kept(
    alloc: Global,
    reader: &mut ScriptReader,
    kept: &mut Vec<u8>,
) -> Result<(), ParseRefusal>
    requires so_far { IsReading reader.old.reading }
    requires numbers { reader.old.number + length kept.old.items < 2 ^ 64 }
    ensures so_far { OnOk result (IsReading reader.new.reading) }
    ensures numbers { OnOk result (reader.new.number + length kept.new.items
        ≤ reader.old.number + length kept.old.items) }
    ensures few { OnOk result (length reader.new.reading.front.items + length kept.new.items
        ≤ length reader.old.reading.front.items + length kept.old.items) }
    ensures on { OnOk result ((more : List ℕ)
        → read_behind reader.old.reading reader.old.number (kept.old.items ++ more)
        ≡ read_behind reader.new.reading reader.new.number (kept.new.items ++ more)) }
    ensures refused { IfErr result (λ refusal. (more : List ℕ)
        → ReadsAs {X = Unit {0}} (λ _. no_front) (Err refusal)
        (read_behind reader.old.reading reader.old.number (kept.old.items ++ more))) }
{
    let rest = match reader.read_ended(alloc, kept.as_slice()) {
        Ok(rest) => rest,
        Err(refusal) => return Err(refusal),
    };
    let mut begun = Vec::new(alloc);
    if begun.extend_from_slice(rest).is_err() {
        return Err(ParseRefusal::Memory);
    }
    *kept = begun;
    Ok(())
}

/// Takes a script from a source, and says why where it gives none. Reads at most 16,777,217 bytes. A script has from 1 to
/// 16 banks, and fewer than 2,900,000 of its commands make a level or a multixact, as their lines would not fit in so many bytes.
pub fn take_script<S: Source>(alloc: Global, source: &mut S) -> Result<Script, NoScript>
    ensures script { IfOk result (HasScript (S.left source.old) (S.left source.new)) }
    ensures banks { IfOk result (λ s. (1 ≤ s.banks) × (s.banks ≤ 16)) }
    ensures few { IfOk result (λ s. HasFewTakers s.items) }
    ensures refused { IfErr result (IsNoScriptOf (S.left source.old) (S.left source.new)
        (S.faults source.old) (S.faults source.new)) }
    ensures later { S.faults source.old ≤ S.faults source.new }
    ensures amount { ReadsUpTo most_read (S.left source.old) (S.left source.new) }
{
    let mut reader = ScriptReader::new(alloc);
    let mut kept = Vec::new(alloc);
    let mut begun = 0;
    let mut came = 0;
    while came <= LIMIT {
        let count = match read_piece(source, &mut kept, came) {
            Ok(count) => count,
            Err(ReadStop::Fault) => return Err(NoScript::ReadFault),
            Err(_) => return Err(NoScript::Memory),
        };
        if count == 0 {
            return script_of(alloc, reader, kept.as_slice());
        }
        came += count;
        // A long line that goes on is looked through again only once it's twice as long.
        if kept.len() / 2 >= begun {
            match read_kept(alloc, &mut reader, &mut kept) {
                Ok(()) => begun = kept.len(),
                Err(ParseRefusal::Fault { line, kind }) => {
                    return Err(refused_behind(alloc, source, came, line, kind));
                }
                Err(ParseRefusal::Memory) => return Err(NoScript::Memory),
            }
        }
    }
    Err(refused(alloc, 0, Kind::Size))
}
