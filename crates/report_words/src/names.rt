//! Sessions by their names.
ghost use Rattle.std.specs.Prelude.{◌≡◌, ◌<◌, ◌^◌, IfOk, length};
ghost use Rattle.std.specs.Str.{bytes_eq};
ghost use Rattle.report_words.specs.Words.{behind};
ghost use Rattle.report_words.specs.Fits.{AreNames};
ghost use Rattle.report_words.specs.Reading.{Gives, by_at, name_place};

use crate::unread::Unread;
use crate::word::{number_at, word_at};
use tx_model::{By, Name, NameList};

// Two names mostly differ in their last byte, so that one is compared first.
fn are_same(a: &[u8], b: &[u8]) -> bool
    ensures { result ≡ bytes_eq a.now b.now }
{
    let count = a.len();
    if count != b.len() {
        return false;
    }
    if count > 0 && a[count - 1] != b[count - 1] {
        return false;
    }
    a == b
}

/// The session of this name.
#[tactic(auto, using(crate::proofs::Places::place_none, crate::proofs::Places::place_here, crate::proofs::Places::place_step))]
pub fn name_place(names: &[Name], name: &[u8]) -> Result<usize, Unread>
    ensures place { Gives (λ k. k) result (name_place names.now name.now) }
    ensures within { IfOk result (λ k. k < length names.now) }
{
    for (i, other) in names.iter().enumerate() {
        if are_same(other.items(), name) {
            return Ok(i);
        }
    }
    Err(Unread::Form)
}

/// The same, where the name at the place `near` is tried first: a session's lines mostly stand one after another.
pub fn name_place_near(names: &[Name], near: usize, name: &[u8]) -> Result<usize, Unread>
    requires { AreNames names.now }
    ensures place { Gives (λ k. k) result (name_place names.now name.now) }
    ensures within { IfOk result (λ k. k < length names.now) }
{
    if let Some(other) = names.get(near) {
        if are_same(other.items(), name) {
            return Ok(near);
        }
    }
    name_place(names, name)
}

/// The session and the number of a command, and the place behind them. The session `near` is tried first.
#[tactic(auto, unfolding(crate::specs::Reading::by_at))]
pub fn by_at<'a>(names: &NameList, near: usize, rest: &'a [u8]) -> Result<(By, &'a [u8]), Unread>
    requires few { length names.now < 2 ^ 32 }
    requires names { AreNames names.now }
    ensures { Gives (λ x. (x.0, behind x.1.now)) result (by_at names.now (behind rest.now)) }
{
    let (name, rest) = word_at(rest)?;
    let session = name_place_near(names.items(), near, name)?;
    let (command, rest) = number_at(rest)?;
    Ok((
        By {
            session: session as u32,
            command,
        },
        rest,
    ))
}
