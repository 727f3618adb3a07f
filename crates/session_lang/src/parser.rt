//! Bytes to a script.

ghost use Rattle.std.specs.Prelude.{◌≡◌, ℕ, ◌+◌, ◌<◌, ◌≤◌, List, [], ◌∷◌, true, not, cond, IfOk, length};
ghost use Rattle.std.specs.List.{prefix_len, AllByRecursion};
ghost use Rattle.session_lang.specs.Answers.{ReadsAs};
ghost use Rattle.session_lang.specs.Lines.{is_line_end, lines_of, without_cr};
ghost use Rattle.session_lang.specs.Plain.{IsItem};
ghost use Rattle.session_lang.specs.Reading.{HasRead, IsSound};
ghost use Rattle.session_lang.specs.Script.{no_front, read_lines, read_script};

mod reading;

use crate::lines::next_line;
pub use crate::parser::reading::{Front, Reading};
use crate::script::{ParseRefusal, Script};
use script_lines::Kind;
use std::alloc::Global;

/// The bytes that a script may have.
const MAX_BYTES: usize = 16_777_216;

/// Reads all lines.
fn read_lines(alloc: Global, bytes: &[u8]) -> Result<Reading, ParseRefusal>
    requires { length bytes.now ≤ 16777216 }
    ensures reads { ReadsAs (λ r. r.front) result (read_lines no_front 1 (lines_of bytes.now)) }
    ensures so_far { IfOk result (λ r. HasRead r.front.names r.commands.items r.front.items) }
    ensures few { IfOk result (λ r. length r.front.items ≤ 16777216) }
{
    let mut reading = Reading::new(alloc);
    let mut rest = bytes;
    let mut number: u64 = 1;
    let mut more = true;
    while more {
        let (line, behind, ended, plain) = next_line(rest);
        reading.read_line(alloc, number, plain, line)?;
        number += 1;
        rest = behind;
        more = ended;
    }
    Ok(reading)
}

/// Reads bytes as a script: at most 16,777,216 bytes, 64 sessions, and in each round 100,000 commands of each.
///
/// A fault is that of the first line that has one, and of the kinds that hold of this line the first one; so it comes exactly
/// where the bytes are no script. Want of memory may come at any time.
pub fn parse(alloc: Global, bytes: &[u8]) -> Result<Script, ParseRefusal>
    ensures reads { ReadsAs (λ script. script) result (read_script bytes.now) }
    ensures sound { IfOk result IsSound }
    ensures ranges { IfOk result (λ script. AllByRecursion IsItem script.items) }
{
    if bytes.len() > MAX_BYTES {
        return Err(ParseRefusal::Fault {
            line: 0,
            kind: Kind::Size,
        });
    }
    let Reading { front, .. } = read_lines(alloc, bytes)?;
    let Front {
        header,
        header_end,
        names,
        items,
        ..
    } = front;
    if !header.has_base() {
        return Err(ParseRefusal::Fault {
            line: header_end,
            kind: Kind::Base,
        });
    }
    Ok(Script {
        base: header.base(),
        banks: header.banks(),
        names,
        items,
    })
}
