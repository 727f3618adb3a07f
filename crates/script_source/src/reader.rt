//! A script that comes piece by piece is read line by line.
ghost use Rattle.std.specs.Prelude.{◌≡◌, ℕ, ◌+◌, ◌<◌, ◌≤◌, ◌^◌, List, [], ◌∷◌, ◌++◌, Err, IfErr, IfOk, Ok, OnOk, length};
ghost use Rattle.std.specs.List.{AllByRecursion};
ghost use Rattle.session_lang.specs.Answers.{ReadsAs};
ghost use Rattle.session_lang.specs.Lines.{lines_of};
ghost use Rattle.session_lang.specs.Pieces.{IsReading, read_behind};
ghost use Rattle.session_lang.specs.Plain.{IsItem};
ghost use Rattle.session_lang.specs.Reading.{HasRead, IsSound};
ghost use Rattle.session_lang.specs.Script.{no_front, read_lines, read_script};

use session_lang::{Front, Kind, ParseRefusal, Reading, Script, next_line};
use std::alloc::Global;

/// The ended lines of a script that comes piece by piece.
#[derive(Drop)]
pub(crate) struct ScriptReader {
    pub reading: Reading,
    /// The number of the next line.
    pub number: u64,
}

/// The script of all lines. Refused where its header gives counters that no cluster has.
fn whole_script(front: Front) -> Result<Script, ParseRefusal>
    ensures reads { (text : List ℕ) → length text ≤ 16777216 → read_lines no_front 1 (lines_of text) ≡ Ok front
        → ReadsAs (λ script. script) result (read_script text) }
    ensures ranges { (text : List ℕ) → read_lines no_front 1 (lines_of text) ≡ Ok front
        → IfOk result (λ script. AllByRecursion IsItem script.items) }
    ensures sound { (counts : List ℕ) → HasRead front.names counts front.items → length front.items ≤ 16777216
        → IfOk result IsSound }
{
    let Front {
        header,
        header_end,
        names,
        items,
        ..
    } = front;
    if !header.has_base() {
        return Err(ParseRefusal::Fault {
            line: header_end,
            kind: Kind::Base,
        });
    }
    Ok(Script {
        base: header.base(),
        banks: header.banks(),
        names,
        items,
    })
}

impl ScriptReader {
    /// No lines yet.
    pub fn new(alloc: Global) -> ScriptReader
        ensures on { (bytes : List ℕ) → read_behind result.reading result.number bytes
            ≡ read_lines no_front 1 (lines_of bytes) }
        ensures so_far { IsReading result.reading }
        ensures number { result.number ≡ 1 }
        ensures none { length result.reading.front.items ≡ 0 }
    {
        ScriptReader {
            reading: Reading::new(alloc),
            number: 1,
        }
    }

    /// Reads the lines that end in these bytes, and gives what stands behind the last end.
    pub fn read_ended<'a>(
        &mut self,
        alloc: Global,
        bytes: &'a [u8],
    ) -> Result<&'a [u8], ParseRefusal>
        requires so_far { IsReading self.old.reading }
        requires numbers { self.old.number + length bytes.now < 2 ^ 64 }
        ensures so_far { OnOk result (IsReading self.new.reading) }
        ensures numbers { IfOk result (λ rest. self.new.number + length rest.now
            ≤ self.old.number + length bytes.now) }
        ensures few { IfOk result (λ rest. length self.new.reading.front.items + length rest.now
            ≤ length self.old.reading.front.items + length bytes.now) }
        // Whatever comes behind these bytes, it's read on from there.
        ensures on { IfOk result (λ rest. (more : List ℕ)
            → read_behind self.old.reading self.old.number (bytes.now ++ more)
            ≡ read_behind self.new.reading self.new.number (rest.now ++ more)) }
        ensures last { IfOk result (λ rest. lines_of rest.now ≡ rest.now ∷ []) }
        ensures refused { IfErr result (λ refusal. (more : List ℕ)
            → ReadsAs {X = Unit {0}} (λ _. no_front) (Err refusal)
            (read_behind self.old.reading self.old.number (bytes.now ++ more))) }
    {
        let mut rest = bytes;
        let mut more = true;
        while more {
            let (line, behind, ended, plain) = next_line(rest);
            if ended {
                match self.reading.read_line(alloc, self.number, plain, line) {
                    Ok(()) => {}
                    Err(refusal) => return Err(refusal),
                }
                self.number += 1;
                rest = behind;
            }
            more = ended;
        }
        Ok(rest)
    }

    /// Reads what is left, and gives the script.
    pub fn finish(self, alloc: Global, bytes: &[u8]) -> Result<Script, ParseRefusal>
        requires so_far { IsReading self.reading }
        requires numbers { self.number + length bytes.now < 2 ^ 64 }
        requires few { length self.reading.front.items + length bytes.now ≤ 16777216 }
        ensures reads { (text : List ℕ) → length text ≤ 16777216
            → read_lines no_front 1 (lines_of text) ≡ read_behind self.reading self.number bytes.now
            → ReadsAs (λ script. script) result (read_script text) }
        ensures sound { IfOk result IsSound }
        ensures ranges { (text : List ℕ)
            → read_lines no_front 1 (lines_of text) ≡ read_behind self.reading self.number bytes.now
            → IfOk result (λ script. AllByRecursion IsItem script.items) }
    {
        let mut reader = self;
        let last = match reader.read_ended(alloc, bytes) {
            Ok(last) => last,
            Err(refusal) => return Err(refusal),
        };
        let (line, _behind, _ended, plain) = next_line(last);
        let ScriptReader {
            mut reading,
            number,
        } = reader;
        match reading.read_line(alloc, number, plain, line) {
            Ok(()) => whole_script(reading.front),
            Err(refusal) => Err(refusal),
        }
    }
}
