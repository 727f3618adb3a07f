//! The lines of a text, and on which of them a script's items stand.

ghost use Rattle.std.specs.Prelude.{◌≡◌, ℕ, ◌+◌, ◌<◌, ◌≤◌, List, [], ◌∷◌, ◌++◌, ◌&&◌, nat_le, true, false, not, cond, get_or, length, take};
ghost use Rattle.std.specs.List.{prefix_len};
ghost use Rattle.script_lines.specs.LineWords.{is_plain, words_in};
ghost use Rattle.session_lang.specs.Lines.{ArePrintable, first_set, is_line_end, is_printable, lines_of, without_cr};
ghost use Rattle.session_lang.specs.Places.{is_item_line, item_lines};

use script_lines::{is_header_word, is_plain, next_word};
use std::simd::prelude::*;

/// The bytes of one load.
const LANES: usize = 16;

/// Whether a byte is printable ASCII.
fn is_printable(b: u8) -> bool
    ensures { result ≡ is_printable b }
{
    b' ' <= b && b <= b'~'
}

/// The place of the lowest bit that is set, or the number of lanes.
#[inline(always)]
fn first_set(mask: u64) -> usize
    ensures { result ≡ first_set mask 16 }
{
    if mask == 0 {
        LANES
    } else {
        mask.trailing_zeros() as usize
    }
}

/// How many bytes from this place on are printable, of those of one load.
#[inline(always)]
fn printable_run(bytes: &[u8], at: usize) -> usize
    requires { at + 16 ≤ length bytes.now }
    ensures few { result ≤ 16 }
    ensures printable { ArePrintable bytes.now at (at + result) }
{
    let v = u8x16::from_slice(&bytes[at..]);
    let stops = v.simd_lt(u8x16::splat(b' ')) | v.simd_ge(u8x16::splat(0x7f));
    first_set(stops.to_bitmask())
}

/// How many bytes at the front are printable, load by load; fewer than a load are left behind them, or one comes next that
/// isn't.
fn printable_front(bytes: &[u8]) -> usize
    ensures within { result ≤ length bytes.now }
    ensures printable { ArePrintable bytes.now 0 result }
{
    let mut end = 0;
    'loads: while bytes.len() - end >= LANES {
        let run = printable_run(bytes, end);
        end += run;
        if run < LANES {
            return end;
        }
    }
    end
}

/// How many bytes stand before the first LF, or in all, and whether all of them may stand in a line.
#[tactic(auto, using(std::proofs::lemmas::List::Sums::prefix_len_is))]
fn line_len(bytes: &[u8]) -> (usize, bool)
    ensures within { result.0 ≤ length bytes.now }
    ensures value { result.0 ≡ prefix_len (λ b. not (is_line_end b)) bytes.now }
    ensures plain { result.1 ≡ is_plain (take result.0 bytes.now) }
{
    let mut end = printable_front(bytes);
    let mut plain = true;
    while end < bytes.len() {
        let b = bytes[end];
        if !is_printable(b) {
            if b == b'\n' {
                return (end, plain);
            }
            plain = plain && b == b'\t';
        }
        end += 1;
    }
    (end, plain)
}

/// A line without the CR that may stand before its end, and whether its bytes may stand in a line.
fn without_cr(raw: &[u8], plain: bool) -> (&[u8], bool)
    requires { plain ≡ is_plain raw.now }
    ensures line { result.0.now ≡ without_cr raw.now }
    ensures shorter { length result.0.now ≤ length raw.now }
    ensures plain { result.1 ≡ is_plain result.0.now }
{
    if raw.is_empty() || raw[raw.len() - 1] != b'\r' {
        return (raw, plain);
    }
    let line = &raw[..raw.len() - 1];
    (line, is_plain(line))
}

/// The first line without its end, the bytes behind the end, whether there is one, and whether the line's bytes may stand
/// there.
pub fn next_line(bytes: &[u8]) -> (&[u8], &[u8], bool, bool)
    ensures lines { lines_of bytes.now ≡ result.0.now ∷ cond result.2 (lines_of result.1.now) [] }
    ensures on { result.2 ≡ true → (more : List ℕ)
        → lines_of (bytes.now ++ more) ≡ result.0.now ∷ lines_of (result.1.now ++ more) }
    ensures whole { result.2 ≡ false → result.0.now ≡ bytes.now }
    ensures within { length result.0.now + length result.1.now ≤ length bytes.now }
    ensures shorter { result.2 ≡ true → length result.0.now + length result.1.now < length bytes.now }
    ensures plain { result.3 ≡ is_plain result.0.now }
{
    let (count, plain) = line_len(bytes);
    let (raw, behind) = bytes.split_at(count);
    if behind.is_empty() {
        return (raw, behind, false, plain);
    }
    let (_end, rest) = behind.split_at(1);
    let (line, tested) = without_cr(raw, plain);
    (line, rest, true, tested)
}

/// Whether a line holds an item: it has words, and is neither a comment nor of the header.
fn is_item_line(line: &[u8]) -> bool
    ensures { result ≡ is_item_line (words_in line.now) }
{
    match next_word(line) {
        Some((word, _rest)) => word[0] != b'#' && !is_header_word(word),
        None => false,
    }
}

/// The number of the line of a script on which its item at this place stands, counted from 1; 0 where it has none. Takes time
/// in proportion to the bytes before it.
pub fn line_of(bytes: &[u8], place: usize) -> u64
    requires { length bytes.now ≤ 16777216 }
    ensures { result ≡ get_or (item_lines 1 (lines_of bytes.now)) place 0 }
{
    let mut rest = bytes;
    let mut number: u64 = 1;
    let mut left = place;
    let mut more = true;
    while more {
        let (line, behind, ended, _plain) = next_line(rest);
        if is_item_line(line) {
            if left == 0 {
                return number;
            }
            left -= 1;
        }
        number += 1;
        rest = behind;
        more = ended;
    }
    0
}
