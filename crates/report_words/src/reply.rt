//! Replies, by what was asked.
ghost use Rattle.std.specs.Prelude.{◌≡◌, ◌<◌, ◌^◌, [], length};
ghost use Rattle.report_words.specs.Words.{behind};
ghost use Rattle.report_words.specs.Reading.{Gives};
ghost use Rattle.report_words.specs.Members.{until_arrow};
ghost use Rattle.report_words.specs.Replies.{kind_of, warn_at, wrote_at, multi_reply_at, horizon_at, ok_at, is_answer, look_in, status_in, did_in, answer_in, reply_at, pending_at, checkpoint_reply_at, byte_of, hex_value, bytes_at, cut_at, dump_reply_at};

use crate::life::snap_at;
use crate::list::{count_of, full_multi, read_list};
use crate::member::read_verdicts;
use crate::names::name_place;
use crate::piece::small;
use crate::refusal::refusal_at;
use crate::unread::Unread;
use crate::word::{full_id, is_word, number_at, word_at};
use std::alloc::Global;
use tx_model::{
    ByteList, Command, GivenIds, IdList, NameList, Refusal, Reply, SharedSnap, Status, VerdictList,
};

/// What the reply to a command can say, but for refusals.
#[derive(Clone, Copy, PartialEq, Eq)]
pub enum Kind {
    /// The plain `ok`.
    Plain,
    /// `ok` and the ids given.
    Ids,
    /// `ok` and what the snapshot holds.
    Snapshot,
    /// `visible` or `hidden`.
    Look,
    /// `in-progress`, `committed` or `aborted`.
    Status,
    /// `yes` or `no`.
    Did,
    /// `ok`, the multixact and its offset.
    Multi,
    /// `ok` and the members with their verdicts.
    Members,
    /// `ok` and the oldest xmin.
    Horizon,
}

/// The kind of this command's reply.
pub fn kind_of(command: &Command) -> Kind
    ensures { result ≡ kind_of command.now }
{
    match command {
        Command::Write => Kind::Ids,
        Command::Horizon => Kind::Horizon,
        Command::Snap { .. } => Kind::Snapshot,
        Command::See { .. } => Kind::Look,
        Command::Status { .. } => Kind::Status,
        Command::Did { .. } => Kind::Did,
        Command::Multi { .. } => Kind::Multi,
        Command::SeeMulti { .. } => Kind::Members,
        _ => Kind::Plain,
    }
}

fn warn_at(rest: &[u8]) -> bool
    ensures { result ≡ warn_at (behind rest.now) }
{
    match word_at(rest) {
        Ok(_word) => true,
        Err(_unread) => false,
    }
}

#[tactic(auto, unfolding(crate::specs::Replies::wrote_at))]
fn wrote_at(alloc: Global, rest: &[u8]) -> Result<Reply, Unread>
    ensures { Gives (λ x. x) result (wrote_at (behind rest.now)) }
{
    let mut ids = IdList::with_room(alloc, count_of(rest, b' '))?;
    let rest = read_list(&mut ids, rest)?;
    let warn = warn_at(rest);
    Ok(Reply::Wrote {
        warn,
        ids: GivenIds::of(ids),
    })
}

#[tactic(auto, unfolding(crate::specs::Replies::multi_reply_at))]
fn multi_reply_at(rest: &[u8]) -> Result<Reply, Unread>
    ensures { Gives (λ x. x) result (multi_reply_at (behind rest.now)) }
{
    let (multi, rest) = number_at(rest)?;
    let multi = full_multi(multi)?;
    let (offset, rest) = number_at(rest)?;
    let warn = warn_at(rest);
    Ok(Reply::Multi {
        multi,
        offset,
        warn,
    })
}

#[tactic(auto, unfolding(crate::specs::Replies::horizon_at))]
fn horizon_at(rest: &[u8]) -> Result<Reply, Unread>
    ensures { Gives (λ x. x) result (horizon_at (behind rest.now)) }
{
    let (id, _rest) = number_at(rest)?;
    let oldest_xmin = full_id(id)?;
    Ok(Reply::Horizon { oldest_xmin })
}

/// Behind `ok`.
fn ok_at(alloc: Global, kind: Kind, rest: &[u8]) -> Result<Reply, Unread>
    ensures { Gives (λ x. x) result (ok_at kind (behind rest.now)) }
{
    match kind {
        Kind::Plain => Ok(Reply::Done),
        Kind::Ids => wrote_at(alloc, rest),
        Kind::Snapshot => {
            let holds = snap_at(alloc, rest)?;
            let lists = SharedSnap::of(alloc, holds)?;
            Ok(Reply::Snapped { lists })
        }
        Kind::Multi => multi_reply_at(rest),
        Kind::Members => {
            let mut verdicts = VerdictList::with_room(alloc, count_of(rest, b':') / 2)?;
            let _rest = read_verdicts(&mut verdicts, rest)?;
            Ok(Reply::Verdicts { verdicts })
        }
        Kind::Horizon => horizon_at(rest),
        _ => Err(Unread::Form),
    }
}

#[tactic(auto, unfolding(crate::specs::Replies::is_answer))]
fn is_answer(word: &[u8]) -> bool
    ensures { result ≡ is_answer word.now }
{
    is_word(word, b"visible")
        || is_word(word, b"hidden")
        || is_word(word, b"in-progress")
        || is_word(word, b"committed")
        || is_word(word, b"aborted")
        || is_word(word, b"yes")
        || is_word(word, b"no")
}

#[tactic(auto, unfolding(crate::specs::Replies::status_in))]
fn status_in(word: &[u8]) -> Result<Reply, Unread>
    ensures { Gives (λ x. x) result (status_in word.now) }
{
    if is_word(word, b"in-progress") {
        return Ok(Reply::Known {
            status: Status::InProgress,
        });
    }
    if is_word(word, b"committed") {
        return Ok(Reply::Known {
            status: Status::Committed,
        });
    }
    if is_word(word, b"aborted") {
        return Ok(Reply::Known {
            status: Status::Aborted,
        });
    }
    Err(Unread::Form)
}

#[tactic(auto, unfolding(crate::specs::Replies::look_in, crate::specs::Replies::did_in))]
fn answer_in(kind: Kind, word: &[u8]) -> Result<Reply, Unread>
    ensures { Gives (λ x. x) result (answer_in kind word.now) }
{
    match kind {
        Kind::Look => {
            let visible = is_word(word, b"visible");
            Ok(Reply::Seen { visible })
        }
        Kind::Status => status_in(word),
        Kind::Did => {
            let yes = is_word(word, b"yes");
            Ok(Reply::Did { yes })
        }
        _ => Err(Unread::Form),
    }
}

/// The reply to a command whose replies are of this kind.
#[tactic(auto, unfolding(crate::specs::Replies::reply_at))]
pub fn reply_at(alloc: Global, kind: Kind, rest: &[u8]) -> Result<Reply, Unread>
    ensures { Gives (λ x. x) result (reply_at kind (behind rest.now)) }
{
    let (word, rest) = word_at(rest)?;
    if is_word(word, b"ok") {
        return ok_at(alloc, kind, rest);
    }
    if is_answer(word) {
        return answer_in(kind, word);
    }
    let refusal = refusal_at(word, rest)?;
    Ok(Reply::Refused { refusal })
}

#[tactic(auto, unfolding(crate::specs::Replies::pending_at))]
fn pending_at(names: &NameList, refusal: Refusal, rest: &[u8]) -> Result<Reply, Unread>
    requires { length names.now < 2 ^ 32 }
    ensures { Gives (λ x. x) result (pending_at names.now refusal (behind rest.now)) }
{
    let (name, _rest) = word_at(rest)?;
    let session = name_place(names.items(), name)?;
    Ok(Reply::Pending {
        session: session as u32,
        refusal,
    })
}

/// The reply to a checkpoint.
#[tactic(auto, unfolding(crate::specs::Replies::checkpoint_reply_at))]
pub fn checkpoint_reply_at(names: &NameList, rest: &[u8]) -> Result<Reply, Unread>
    requires { length names.now < 2 ^ 32 }
    ensures { Gives (λ x. x) result (checkpoint_reply_at names.now (behind rest.now)) }
{
    let (word, rest) = word_at(rest)?;
    if is_word(word, b"ok") {
        return Ok(Reply::Done);
    }
    if is_word(word, b"commit-pending") {
        return pending_at(names, Refusal::CommitPending, rest);
    }
    if is_word(word, b"multi-pending") {
        return pending_at(names, Refusal::MultiPending, rest);
    }
    let refusal = refusal_at(word, rest)?;
    Ok(Reply::Refused { refusal })
}

fn hex_value(b: u8) -> u8
    ensures { result ≡ hex_value b }
{
    if b < b':' {
        b.wrapping_sub(b'0')
    } else {
        b.wrapping_sub(b'a' - 10)
    }
}

fn byte_of(word: &[u8]) -> Result<u8, Unread>
    ensures { Gives (λ x. x) result (byte_of word.now) }
{
    match word {
        [a, b] => Ok(hex_value(*a).wrapping_mul(16).wrapping_add(hex_value(*b))),
        _ => Err(Unread::Form),
    }
}

/// The bytes up to an arrow, and the place behind them.
#[tactic(auto, using(crate::proofs::Items::item_step, crate::proofs::Items::item_end, crate::proofs::Items::word_shorter))]
fn read_bytes<'a>(bytes: &mut ByteList, rest: &'a [u8]) -> Result<&'a [u8], Unread>
    ensures { Gives (λ r. (bytes.new, behind r.now)) result (until_arrow byte_of bytes.old (behind rest.now)) }
{
    let mut rest = rest;
    while let Ok((word, tail)) = word_at(rest) {
        if word == b"->".as_slice() {
            return Ok(rest);
        }
        bytes.push(byte_of(word)?)?;
        rest = tail;
    }
    Ok(rest)
}

fn bytes_at(alloc: Global, rest: &[u8]) -> Result<Reply, Unread>
    ensures { Gives (λ x. x) result (bytes_at (behind rest.now)) }
{
    let mut bytes = ByteList::new(alloc);
    let _rest = read_bytes(&mut bytes, rest)?;
    Ok(Reply::Bytes { bytes })
}

#[tactic(auto, unfolding(crate::specs::Replies::cut_at))]
fn cut_at(rest: &[u8]) -> Result<Reply, Unread>
    ensures { Gives (λ x. x) result (cut_at (behind rest.now)) }
{
    let (page, _rest) = number_at(rest)?;
    let cutoff = small(page)?;
    Ok(Reply::Cut { cutoff })
}

/// The reply to a dump.
#[tactic(auto, unfolding(crate::specs::Replies::dump_reply_at))]
pub fn dump_reply_at(alloc: Global, rest: &[u8]) -> Result<Reply, Unread>
    ensures { Gives (λ x. x) result (dump_reply_at (behind rest.now)) }
{
    let (word, tail) = word_at(rest)?;
    if word.len() < 2 {
        return Ok(Reply::Bytes {
            bytes: ByteList::new(alloc),
        });
    }
    if word.len() < 3 {
        return bytes_at(alloc, rest);
    }
    if is_word(word, b"cut") {
        return cut_at(tail);
    }
    let refusal = refusal_at(word, tail)?;
    Ok(Reply::Refused { refusal })
}
