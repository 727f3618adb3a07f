//! Members of multixacts.
ghost use Rattle.std.specs.Prelude.{◌≡◌, List, ℕ, IfOk, OnOk, [], IfErr};
ghost use Rattle.report_words.specs.Words.{behind};
ghost use Rattle.report_words.specs.Reading.{Gives};
ghost use Rattle.report_words.specs.Members.{pieces, beyond, mode_of, verdict_in, moded_at, pair_of, member_of, verdict_of, is_arrow, until_arrow};

use crate::piece::{first_piece, piece_at, small};
use crate::unread::Unread;
use crate::word::{full_id, is_word, number_of, word_at};
use std::alloc::Global;
use tx_events::Xid;
use tx_model::{Member, MemberVerdict, Mode, Pair, PairList, Sequence, Verdict, VerdictList};

#[tactic(auto, unfolding(crate::specs::Members::mode_of))]
fn mode_of(word: &[u8]) -> Result<Mode, Unread>
    ensures { Gives (λ x. x) result (mode_of word.now) }
{
    if is_word(word, b"keysh") {
        return Ok(Mode::KeySh);
    }
    if is_word(word, b"sh") {
        return Ok(Mode::Sh);
    }
    if is_word(word, b"fornokeyupd") {
        return Ok(Mode::ForNoKeyUpd);
    }
    if is_word(word, b"forupd") {
        return Ok(Mode::ForUpd);
    }
    if is_word(word, b"nokeyupd") {
        return Ok(Mode::NoKeyUpd);
    }
    if is_word(word, b"upd") {
        return Ok(Mode::Upd);
    }
    Err(Unread::Form)
}

#[tactic(auto, unfolding(crate::specs::Members::verdict_in))]
fn verdict_in(word: &[u8]) -> Result<Verdict, Unread>
    ensures { Gives (λ x. x) result (verdict_in word.now) }
{
    if is_word(word, b"visible") {
        return Ok(Verdict::Visible);
    }
    if is_word(word, b"hidden") {
        return Ok(Verdict::Hidden);
    }
    if is_word(word, b"too-old") {
        return Ok(Verdict::TooOld);
    }
    Err(Unread::Form)
}

/// A number and a mode, and the place behind them.
#[tactic(auto, unfolding(crate::specs::Members::moded_at))]
fn moded_at(word: &[u8]) -> Result<(u64, Mode, &[u8]), Unread>
    ensures { Gives (λ x. (x.0, x.1, beyond x.2.now)) result (moded_at (pieces word.now)) }
{
    let (digits, rest) = first_piece(word);
    let number = number_of(digits)?;
    let (mode, rest) = piece_at(rest)?;
    let mode = mode_of(mode)?;
    Ok((number, mode, rest))
}

#[tactic(auto, unfolding(crate::specs::Members::pair_of))]
fn pair_of(word: &[u8]) -> Result<Pair, Unread>
    ensures { Gives (λ x. x) result (pair_of word.now) }
{
    let (number, mode, _rest) = moded_at(word)?;
    let number = small(number)?;
    Ok(Pair {
        x: Xid { number },
        mode,
    })
}

#[tactic(auto, unfolding(crate::specs::Members::member_of))]
fn member_of(word: &[u8]) -> Result<Member, Unread>
    ensures { Gives (λ x. x) result (member_of word.now) }
{
    let (number, mode, _rest) = moded_at(word)?;
    let id = full_id(number)?;
    Ok(Member { id, mode })
}

#[tactic(auto, unfolding(crate::specs::Members::verdict_of))]
fn verdict_of(word: &[u8]) -> Result<MemberVerdict, Unread>
    ensures { Gives (λ x. x) result (verdict_of word.now) }
{
    let (number, mode, rest) = moded_at(word)?;
    let id = full_id(number)?;
    let (verdict, _rest) = piece_at(rest)?;
    let verdict = verdict_in(verdict)?;
    Ok(MemberVerdict { id, mode, verdict })
}

/// The members up to an arrow, as a script writes them, and the place behind them.
#[tactic(auto, using(crate::proofs::Items::item_step, crate::proofs::Items::item_end, crate::proofs::Items::word_shorter))]
pub fn read_pairs<'a>(pairs: &mut PairList, rest: &'a [u8]) -> Result<&'a [u8], Unread>
    ensures { Gives (λ r. (pairs.new, behind r.now)) result (until_arrow pair_of pairs.old (behind rest.now)) }
{
    let mut rest = rest;
    while let Ok((word, tail)) = word_at(rest) {
        if word == b"->".as_slice() {
            return Ok(rest);
        }
        pairs.push(pair_of(word)?)?;
        rest = tail;
    }
    Ok(rest)
}

/// The members up to an arrow, and the place behind them.
#[tactic(auto, using(crate::proofs::Items::item_step, crate::proofs::Items::item_end, crate::proofs::Items::word_shorter))]
pub fn read_members<'a>(members: &mut Sequence<Member>, rest: &'a [u8]) -> Result<&'a [u8], Unread>
    ensures { Gives (λ r. (members.new, behind r.now)) result (until_arrow member_of members.old (behind rest.now)) }
{
    let mut rest = rest;
    while let Ok((word, tail)) = word_at(rest) {
        if word == b"->".as_slice() {
            return Ok(rest);
        }
        members.push(member_of(word)?)?;
        rest = tail;
    }
    Ok(rest)
}

/// The verdicts up to an arrow, and the place behind them.
#[tactic(auto, using(crate::proofs::Items::item_step, crate::proofs::Items::item_end, crate::proofs::Items::word_shorter))]
pub fn read_verdicts<'a>(verdicts: &mut VerdictList, rest: &'a [u8]) -> Result<&'a [u8], Unread>
    ensures { Gives (λ r. (verdicts.new, behind r.now)) result (until_arrow verdict_of verdicts.old (behind rest.now)) }
{
    let mut rest = rest;
    while let Ok((word, tail)) = word_at(rest) {
        if word == b"->".as_slice() {
            return Ok(rest);
        }
        verdicts.push(verdict_of(word)?)?;
        rest = tail;
    }
    Ok(rest)
}
