//! Refusals.
ghost use Rattle.std.specs.Prelude.{◌≡◌};
ghost use Rattle.report_words.specs.Words.{behind};
ghost use Rattle.report_words.specs.Reading.{Gives};
ghost use Rattle.report_words.specs.Refusals.{own_refusal, other_refusal, bank_lock, lock_at, id_refusal, multi_refusal, number_refusal, stop_refusal, one_refusal, counted_refusal, refusal_at};

use crate::list::full_multi;
use crate::piece::small;
use crate::unread::Unread;
use crate::word::{full_id, is_word, number_at, word_at};
use tx_events::{FullMulti, FullXid, Xid};
use tx_model::{Lock, Refusal};

#[tactic(auto, unfolding(crate::specs::Refusals::own_refusal))]
fn own_refusal(word: &[u8]) -> Option<Refusal>
    ensures { result ≡ own_refusal word.now }
{
    if is_word(word, b"already-open") {
        return Some(Refusal::AlreadyOpen);
    }
    if is_word(word, b"no-transaction") {
        return Some(Refusal::NoTransaction);
    }
    if is_word(word, b"no-savepoint") {
        return Some(Refusal::NoSavepoint);
    }
    if is_word(word, b"depth-limit") {
        return Some(Refusal::DepthLimit);
    }
    if is_word(word, b"commit-pending") {
        return Some(Refusal::CommitPending);
    }
    if is_word(word, b"abort-pending") {
        return Some(Refusal::AbortPending);
    }
    if is_word(word, b"undo-pending") {
        return Some(Refusal::UndoPending);
    }
    None
}

#[tactic(auto, unfolding(crate::specs::Refusals::other_refusal))]
fn other_refusal(word: &[u8]) -> Option<Refusal>
    ensures { result ≡ other_refusal word.now }
{
    if is_word(word, b"log-fault") {
        return Some(Refusal::LogFault);
    }
    if is_word(word, b"log-full") {
        return Some(Refusal::Full);
    }
    if is_word(word, b"name-taken") {
        return Some(Refusal::NameTaken);
    }
    if is_word(word, b"snap-limit") {
        return Some(Refusal::SnapLimit);
    }
    if is_word(word, b"no-snapshot") {
        return Some(Refusal::NoSnapshot);
    }
    if is_word(word, b"two-updaters") {
        return Some(Refusal::TwoUpdaters);
    }
    if is_word(word, b"member-count") {
        return Some(Refusal::MemberCount);
    }
    if is_word(word, b"multi-pending") {
        return Some(Refusal::MultiPending);
    }
    if is_word(word, b"memory") {
        return Some(Refusal::Memory);
    }
    None
}

#[tactic(auto, unfolding(crate::specs::Refusals::bank_lock))]
fn bank_lock(word: &[u8], bank: u32) -> Result<Lock, Unread>
    ensures { Gives (λ x. x) result (bank_lock word.now bank) }
{
    if is_word(word, b"xact") {
        return Ok(Lock::Xact(bank));
    }
    if is_word(word, b"subtrans") {
        return Ok(Lock::Subtrans(bank));
    }
    if is_word(word, b"offsets") {
        return Ok(Lock::Offsets(bank));
    }
    if is_word(word, b"members") {
        return Ok(Lock::Members(bank));
    }
    Err(Unread::Form)
}

#[tactic(auto, unfolding(crate::specs::Refusals::lock_at))]
fn lock_at(rest: &[u8]) -> Result<Lock, Unread>
    ensures { Gives (λ x. x) result (lock_at (behind rest.now)) }
{
    let (word, rest) = word_at(rest)?;
    if is_word(word, b"log") {
        return Ok(Lock::Log);
    }
    let (bank, _rest) = number_at(rest)?;
    let bank = small(bank)?;
    bank_lock(word, bank)
}

#[tactic(auto, unfolding(crate::specs::Refusals::id_refusal))]
fn id_refusal(word: &[u8], id: FullXid) -> Option<Refusal>
    ensures { result ≡ id_refusal word.now id }
{
    if is_word(word, b"too-old") {
        return Some(Refusal::TooOld { oldest: id });
    }
    if is_word(word, b"future") {
        return Some(Refusal::Future { next: id });
    }
    if is_word(word, b"too-new") {
        return Some(Refusal::TooNew { limit: id });
    }
    None
}

#[tactic(auto, unfolding(crate::specs::Refusals::multi_refusal))]
fn multi_refusal(word: &[u8], multi: FullMulti) -> Option<Refusal>
    ensures { result ≡ multi_refusal word.now multi }
{
    if is_word(word, b"not-yet") {
        return Some(Refusal::NotYet { multi });
    }
    if is_word(word, b"multi-too-old") {
        return Some(Refusal::MultiTooOld { oldest: multi });
    }
    if is_word(word, b"multi-future") {
        return Some(Refusal::MultiFuture { next: multi });
    }
    if is_word(word, b"held") {
        return Some(Refusal::Held { limit: multi });
    }
    None
}

#[tactic(auto, unfolding(crate::specs::Refusals::number_refusal))]
fn number_refusal(word: &[u8], number: u64) -> Option<Refusal>
    ensures { result ≡ number_refusal word.now number }
{
    if is_word(word, b"log-down") {
        return Some(Refusal::LogDown { at: number });
    }
    if is_word(word, b"backward") {
        return Some(Refusal::Backward { now: number });
    }
    if is_word(word, b"not-given") {
        return match u32::try_from(number) {
            Ok(number) => Some(Refusal::NotGiven { x: Xid { number } }),
            Err(_e) => None,
        };
    }
    None
}

#[tactic(auto, unfolding(crate::specs::Refusals::stop_refusal))]
fn stop_refusal(word: &[u8], next: u64, stop: u64) -> Result<Refusal, Unread>
    ensures { Gives (λ x. x) result (stop_refusal word.now next stop) }
{
    if is_word(word, b"stop") {
        let next = full_id(next)?;
        let stop = full_id(stop)?;
        return Ok(Refusal::Stop { next, stop });
    }
    if is_word(word, b"multi-stop") {
        let next = full_multi(next)?;
        let stop = full_multi(stop)?;
        return Ok(Refusal::MultiStop { next, stop });
    }
    if is_word(word, b"member-stop") {
        return Ok(Refusal::MemberStop { next, stop });
    }
    Err(Unread::Form)
}

/// A refusal with one number.
#[tactic(auto, unfolding(crate::specs::Refusals::one_refusal))]
fn one_refusal(word: &[u8], number: u64) -> Option<Refusal>
    ensures { result ≡ one_refusal word.now number }
{
    if let Some(refusal) = number_refusal(word, number) {
        return Some(refusal);
    }
    if let Some(id) = FullXid::new(number) {
        if let Some(refusal) = id_refusal(word, id) {
            return Some(refusal);
        }
    }
    match FullMulti::new(number) {
        Some(multi) => multi_refusal(word, multi),
        None => None,
    }
}

#[tactic(auto, unfolding(crate::specs::Refusals::counted_refusal))]
fn counted_refusal(word: &[u8], rest: &[u8]) -> Result<Refusal, Unread>
    ensures { Gives (λ x. x) result (counted_refusal word.now (behind rest.now)) }
{
    let (number, rest) = number_at(rest)?;
    if let Some(refusal) = one_refusal(word, number) {
        return Ok(refusal);
    }
    let (second, _rest) = number_at(rest)?;
    stop_refusal(word, number, second)
}

/// A refusal behind its first word.
#[tactic(auto, unfolding(crate::specs::Refusals::refusal_at))]
pub fn refusal_at(word: &[u8], rest: &[u8]) -> Result<Refusal, Unread>
    ensures { Gives (λ x. x) result (refusal_at word.now (behind rest.now)) }
{
    if let Some(refusal) = own_refusal(word) {
        return Ok(refusal);
    }
    if let Some(refusal) = other_refusal(word) {
        return Ok(refusal);
    }
    if is_word(word, b"disk-fault") {
        let lock = lock_at(rest)?;
        return Ok(Refusal::DiskFault { lock });
    }
    counted_refusal(word, rest)
}
