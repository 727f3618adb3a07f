//! Lists of ids, and numbers behind words.
ghost use Rattle.std.specs.Prelude.{◌≡◌, ◌++◌, IfOk, OnOk};
ghost use Rattle.report_words.specs.Words.{behind};
ghost use Rattle.report_words.specs.Reading.{Gives, named_at, full_multi, id_of, front_ids, behind_ids, list_ids, behind_list};

use crate::unread::Unread;
use crate::word::{full_id, number_at, word_at};
use tx_events::{FullMulti, FullXid};
use tx_model::{IdList, Memory};

/// The number behind a word, whichever it is.
#[tactic(auto, unfolding(crate::specs::Reading::named_at))]
pub fn named_at(rest: &[u8]) -> Result<(u64, &[u8]), Unread>
    ensures { Gives (λ x. (x.0, behind x.1.now)) result (named_at (behind rest.now)) }
{
    let (_word, rest) = word_at(rest)?;
    number_at(rest)
}

/// The multixact of this number.
pub fn full_multi(number: u64) -> Result<FullMulti, Unread>
    ensures { Gives (λ x. x) result (full_multi number) }
{
    match FullMulti::new(number) {
        Some(id) => Ok(id),
        None => Err(Unread::Form),
    }
}

/// How often the byte stands in these words, so that a list of what it stands before takes no more room than it needs.
pub fn count_of(rest: &[u8], byte: u8) -> usize {
    rest.iter().filter(|b| **b == byte).count()
}

/// The ids at the front are added. What is returned begins behind them.
#[tactic(auto, using(crate::proofs::Ids::number_none, crate::proofs::Ids::id_none, crate::proofs::Ids::id_some, crate::proofs::Ids::shorter))]
pub fn read_ids<'a>(ids: &mut IdList, rest: &'a [u8]) -> Result<&'a [u8], Memory>
    ensures ids { OnOk result (ids.new ≡ ids.old ++ front_ids (behind rest.now)) }
    ensures rest { IfOk result (λ r. behind r.now ≡ behind_ids (behind rest.now)) }
{
    let mut rest = rest;
    while let Ok((number, tail)) = number_at(rest) {
        match full_id(number) {
            Ok(id) => ids.push(id)?,
            Err(_unread) => return Ok(rest),
        }
        rest = tail;
    }
    Ok(rest)
}

/// The same, where a dash stands for none.
pub fn read_list<'a>(ids: &mut IdList, rest: &'a [u8]) -> Result<&'a [u8], Memory>
    ensures ids { OnOk result (ids.new ≡ ids.old ++ list_ids (behind rest.now)) }
    ensures rest { IfOk result (λ r. behind r.now ≡ behind_list (behind rest.now)) }
{
    if let Ok((word, tail)) = word_at(rest) {
        if word == b"-".as_slice() {
            return Ok(tail);
        }
    }
    read_ids(ids, rest)
}
