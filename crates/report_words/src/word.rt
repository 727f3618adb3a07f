//! Words and numbers.
ghost use Rattle.std.specs.Prelude.{◌≡◌, ◌≤◌, ◌∷◌, [], length, not, IfErr};
ghost use Rattle.std.specs.List.{prefix_len};
ghost use Rattle.std.specs.Str.{bytes_eq};
ghost use Rattle.report_words.specs.Words.{behind, is_space};
ghost use Rattle.report_words.specs.Reading.{Gives, word_at, number_of, number_at, full_id, name_of, next};

use crate::unread::Unread;
use tx_events::FullXid;
use tx_model::{Name, is_name};

/// Whether the words are the same.
pub fn is_word(word: &[u8], known: &[u8]) -> bool
    ensures { result ≡ bytes_eq word.now known.now }
{
    word == known
}

/// How many bytes stand before the first space, or in all.
#[tactic(auto, using(std::proofs::lemmas::List::Sums::prefix_len_is))]
fn word_len(bytes: &[u8]) -> usize
    ensures within { result ≤ length bytes.now }
    ensures value { result ≡ prefix_len (λ b. not (is_space b)) bytes.now }
{
    for (i, b) in bytes.iter().enumerate() {
        if *b == b' ' {
            return i;
        }
    }
    bytes.len()
}

/// The next word, and the place behind it.
#[tactic(auto, using(crate::proofs::Splits::split_first_word))]
pub fn word_at(rest: &[u8]) -> Result<(&[u8], &[u8]), Unread>
    ensures value { Gives (λ x. (x.0.now, behind x.1.now)) result (word_at (behind rest.now)) }
    ensures form { IfErr result (λ s. s ≡ Unread.Form) }
{
    match rest {
        [] => Err(Unread::Form),
        [_, tail @ ..] => Ok(tail.split_at(word_len(tail))),
    }
}

/// What the digits say.
pub fn number_of(word: &[u8]) -> Result<u64, Unread>
    ensures value { Gives (λ n. n) result (number_of word.now) }
    ensures form { IfErr result (λ s. s ≡ Unread.Form) }
{
    let mut n: u64 = 0;
    for b in word {
        let digit = u64::from(b.wrapping_sub(b'0'));
        match next(n, digit) {
            Some(more) => n = more,
            None => return Err(Unread::Form),
        }
    }
    Ok(n)
}

fn next(n: u64, digit: u64) -> Option<u64>
    ensures { result ≡ next n digit }
{
    if digit > 9 {
        return None;
    }
    n.checked_mul(10)?.checked_add(digit)
}

/// The number that is the next word.
#[tactic(auto, unfolding(crate::specs::Reading::number_at))]
pub fn number_at(rest: &[u8]) -> Result<(u64, &[u8]), Unread>
    ensures value { Gives (λ x. (x.0, behind x.1.now)) result (number_at (behind rest.now)) }
    ensures form { IfErr result (λ s. s ≡ Unread.Form) }
{
    let (word, rest) = word_at(rest)?;
    let number = number_of(word)?;
    Ok((number, rest))
}

/// The id of this number.
pub fn full_id(number: u64) -> Result<FullXid, Unread>
    ensures value { Gives (λ x. x) result (full_id number) }
    ensures form { IfErr result (λ s. s ≡ Unread.Form) }
{
    match FullXid::new(number) {
        Some(id) => Ok(id),
        None => Err(Unread::Form),
    }
}

/// The name that the word is.
pub fn name_of(word: &[u8]) -> Result<Name, Unread>
    ensures value { Gives (λ name. name) result (name_of word.now) }
    ensures form { IfErr result (λ s. s ≡ Unread.Form) }
{
    if is_name(word) {
        Ok(Name::of(word))
    } else {
        Err(Unread::Form)
    }
}
