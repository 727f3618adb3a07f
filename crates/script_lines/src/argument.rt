//! The words behind a command or a directive: how many, and the names and numbers in them.
ghost use Rattle.std.specs.Prelude.{◌≡◌, ◌≤◌, ◌^◌, ◌-◌, IfOk, length};
ghost use Rattle.script_lines.specs.LineWords.{words_in};
ghost use Rattle.script_lines.specs.Kinds.{seen};
ghost use Rattle.script_lines.specs.Arguments.{none_of, one_of, two_of, three_of, name_in, number_in, id_in, asked_id_in, multi_in, stored_in};

use crate::kind::Kind;
use crate::word::{next_word, number_of};
use tx_events::{FullMulti, FullXid};
use tx_model::is_name;

/// The greatest full id, multixact id or member offset that a script may name.
pub const GREATEST: u64 = 1 << 62;

/// No word.
pub fn none_of(rest: &[u8]) -> Result<(), Kind>
    ensures { seen (λ _. tt) result ≡ none_of (words_in rest.now) }
{
    match next_word(rest) {
        Some(_more) => Err(Kind::Arguments),
        None => Ok(()),
    }
}

/// One word and no more.
#[inline(always)]
pub fn one_of(rest: &[u8]) -> Result<&[u8], Kind>
    ensures { seen (λ w. w.now) result ≡ one_of (words_in rest.now) }
{
    let Some((word, rest)) = next_word(rest) else {
        return Err(Kind::Arguments);
    };
    match next_word(rest) {
        Some(_more) => Err(Kind::Arguments),
        None => Ok(word),
    }
}

/// Two words and no more.
pub fn two_of(rest: &[u8]) -> Result<(&[u8], &[u8]), Kind>
    ensures { seen (λ w. (w.0.now, w.1.now)) result ≡ two_of (words_in rest.now) }
{
    let Some((first, rest)) = next_word(rest) else {
        return Err(Kind::Arguments);
    };
    let Some((second, rest)) = next_word(rest) else {
        return Err(Kind::Arguments);
    };
    match next_word(rest) {
        Some(_more) => Err(Kind::Arguments),
        None => Ok((first, second)),
    }
}

/// Three words and no more.
pub fn three_of(rest: &[u8]) -> Result<(&[u8], &[u8], &[u8]), Kind>
    ensures { seen (λ w. (w.0.now, w.1.now, w.2.now)) result ≡ three_of (words_in rest.now) }
{
    let Some((first, rest)) = next_word(rest) else {
        return Err(Kind::Arguments);
    };
    let Some((second, rest)) = next_word(rest) else {
        return Err(Kind::Arguments);
    };
    let Some((third, rest)) = next_word(rest) else {
        return Err(Kind::Arguments);
    };
    match next_word(rest) {
        Some(_more) => Err(Kind::Arguments),
        None => Ok((first, second, third)),
    }
}

/// A NAME. It is copied where it is to stand.
#[inline(always)]
pub fn name_in(word: &[u8]) -> Result<&[u8], Kind>
    ensures name { seen (λ w. w.now) result ≡ name_in word.now }
    ensures short { IfOk result (λ w. length w.now ≤ 16) }
{
    if is_name(word) {
        Ok(word)
    } else {
        Err(Kind::Name)
    }
}

/// A number of this range, both ends counted.
pub fn number_in(low: u64, high: u64, word: &[u8]) -> Result<u64, Kind>
    ensures { result ≡ number_in low high word.now }
{
    match number_of(word) {
        Some(n) if low <= n && n <= high => Ok(n),
        _ => Err(Kind::Number),
    }
}

/// A number of 32 bits, from `low` on.
pub fn stored_in(low: u64, word: &[u8]) -> Result<u32, Kind>
    ensures { result ≡ stored_in low word.now }
{
    let n = number_in(low, 4_294_967_295, word)?;
    Ok(n as u32)
}

/// A full transaction id from 3 to 2^62.
#[tactic(auto, unfolding(crate::specs::Arguments::id_in))]
pub fn id_in(word: &[u8]) -> Result<FullXid, Kind>
    ensures { result ≡ id_in word.now }
{
    let n = number_in(3, GREATEST, word)?;
    match FullXid::new(n) {
        Some(id) => Ok(id),
        None => Err(Kind::Number),
    }
}

/// An id that may be asked for: 0, 1, 2 or a full one up to 2^62.
#[tactic(auto, unfolding(crate::specs::Arguments::asked_id_in))]
pub fn asked_id_in(word: &[u8]) -> Result<FullXid, Kind>
    ensures { result ≡ asked_id_in word.now }
{
    let n = number_in(0, GREATEST, word)?;
    match FullXid::new(n) {
        Some(id) => Ok(id),
        None => Err(Kind::Number),
    }
}

/// A full multixact id from 1 to 2^62.
#[tactic(auto, unfolding(crate::specs::Arguments::multi_in))]
pub fn multi_in(word: &[u8]) -> Result<FullMulti, Kind>
    ensures { result ≡ multi_in word.now }
{
    let n = number_in(1, GREATEST, word)?;
    match FullMulti::new(n) {
        Some(multi) => Ok(multi),
        None => Err(Kind::Number),
    }
}
