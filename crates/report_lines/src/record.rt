//! The lines of the log's records.
ghost use Rattle.std.specs.Prelude.{◌≡◌, ◌↔◌, ◌≤◌, [], IfOk, IsTrue, drop, length};
ghost use Rattle.tx_events.specs.declared.record.Rec.{Rec};
ghost use Rattle.report_words.specs.Words.{behind};
ghost use Rattle.report_words.specs.Reading.{Gives, IsOnly};
ghost use Rattle.report_lines.specs.Records.{ended_at, multi_record_at, truncate_at, record_at, record_line_at};
ghost use Rattle.report_words.specs.Fits.{FitsRecord};
ghost use Rattle.report_words.specs.Texts.{IsLineOf, record_line};

use report_text::{Text, put_record_line};
use report_words::{
    Unread, count_of, counters_at, counters_fit, full_id, full_multi, id_fits, ids_fit, is_word,
    members_fit, multi_fits, number_at, read_ids, read_members, word_at,
};
use std::alloc::Global;
use tx_events::SharedCounters;
use tx_model::{IdList, MemberList, Memory, Rec, Sequence};

/// The record of a transaction's end, behind its number.
#[tactic(auto, unfolding(crate::specs::Records::ended_at))]
fn ended_at(alloc: Global, rest: &[u8]) -> Result<Rec, Unread>
    ensures { Gives (λ x. x) result (ended_at (behind rest.now)) }
{
    let (word, rest) = word_at(rest)?;
    let (top, rest) = number_at(rest)?;
    let top = full_id(top)?;
    let mut subs = IdList::with_room(alloc, count_of(rest, b' '))?;
    let _rest = read_ids(&mut subs, rest)?;
    if is_word(word, b"commit") {
        return Ok(Rec::Commit { top, subs });
    }
    if is_word(word, b"abort") {
        return Ok(Rec::Abort { top, subs });
    }
    Err(Unread::Form)
}

#[tactic(auto, unfolding(crate::specs::Records::multi_record_at))]
fn multi_record_at(alloc: Global, rest: &[u8]) -> Result<Rec, Unread>
    ensures { Gives (λ x. x) result (multi_record_at (behind rest.now)) }
{
    let (multi, rest) = number_at(rest)?;
    let multi = full_multi(multi)?;
    let (offset, rest) = number_at(rest)?;
    let mut members = Sequence::with_room(alloc, count_of(rest, b':'))?;
    let _rest = read_members(&mut members, rest)?;
    Ok(Rec::Multi {
        multi,
        offset,
        members: MemberList::of(alloc, members)?,
    })
}

#[tactic(auto, unfolding(crate::specs::Records::truncate_at))]
fn truncate_at(rest: &[u8]) -> Result<Rec, Unread>
    ensures { Gives (λ x. x) result (truncate_at (behind rest.now)) }
{
    let (oldest, rest) = number_at(rest)?;
    let oldest = full_id(oldest)?;
    let (multi, rest) = number_at(rest)?;
    let multi = full_multi(multi)?;
    let (offset, _rest) = number_at(rest)?;
    Ok(Rec::Truncate {
        oldest,
        multi,
        offset,
    })
}

#[tactic(auto, unfolding(crate::specs::Records::record_at))]
fn record_at(alloc: Global, number: u64, rest: &[u8]) -> Result<Rec, Unread>
    ensures { Gives (λ x. x) result (record_at number (behind rest.now)) }
{
    let (word, tail) = word_at(rest)?;
    if is_word(word, b"multi") {
        return multi_record_at(alloc, tail);
    }
    if is_word(word, b"checkpoint") {
        let counters = SharedCounters::of(alloc, counters_at(tail)?)?;
        return Ok(Rec::Checkpoint { number, counters });
    }
    if is_word(word, b"truncate") {
        return truncate_at(tail);
    }
    ended_at(alloc, rest)
}

#[tactic(auto, unfolding(crate::specs::Records::record_line_at))]
fn record_line_at(alloc: Global, number: u64, rest: &[u8]) -> Result<Rec, Unread>
    ensures { Gives (λ x. x) result (record_line_at number (behind rest.now)) }
{
    let (_number, rest) = word_at(rest)?;
    record_at(alloc, number, rest)
}

/// Whether the record can have this number.
fn fits_record(number: u64, rec: &Rec) -> bool
    ensures { IsTrue result ↔ FitsRecord number rec.now }
{
    match rec {
        Rec::Commit { top, subs } => {
            id_fits(*top);
            ids_fit(subs.items());
            true
        }
        Rec::Abort { top, subs } => {
            id_fits(*top);
            ids_fit(subs.items());
            true
        }
        Rec::Multi {
            multi,
            offset,
            members,
        } => {
            multi_fits(*multi);
            members_fit(members);
            let _offset = *offset;
            true
        }
        Rec::Checkpoint {
            number: own,
            counters,
        } => {
            counters_fit(counters.get());
            *own == number
        }
        Rec::Truncate {
            oldest,
            multi,
            offset,
        } => {
            id_fits(*oldest);
            multi_fits(*multi);
            let _offset = *offset;
            true
        }
    }
}

/// Whether this is the line of the record, and it can have this number.
fn is_record_line(out: &mut Text, number: u64, rec: &Rec, line: &[u8]) -> Result<bool, Memory>
    ensures { IfOk result (λ b. IsTrue b ↔ IsLineOf (FitsRecord number) (record_line number) line.now rec.now) }
{
    if !fits_record(number, rec) {
        return Ok(false);
    }
    out.clear();
    put_record_line(out, u128::from(number), rec)?;
    Ok(out.bytes() == line)
}

/// Reads the line of the record of this number. The bytes begin with the one before the line, and end with the line's end.
pub fn read_record(alloc: Global, out: &mut Text, number: u64, bytes: &[u8]) -> Result<Rec, Unread>
    requires { 1 ≤ length bytes.now }
    ensures found { IfOk result (λ x. IsLineOf (FitsRecord number) (record_line number) (drop 1 bytes.now) x) }
    ensures only { (x : Rec) → IsLineOf (FitsRecord number) (record_line number) (drop 1 bytes.now) x → IsOnly result x }
{
    let rec = match record_line_at(alloc, number, &bytes[..bytes.len() - 1]) {
        Ok(rec) => rec,
        Err(unread) => return Err(unread),
    };
    match is_record_line(out, number, &rec, &bytes[1..]) {
        Ok(true) => Ok(rec),
        Ok(false) => Err(Unread::Form),
        Err(Memory) => Err(Unread::Memory),
    }
}
