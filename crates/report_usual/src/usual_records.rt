//! The commonest lines of the log: the records of commits and of multixacts.
ghost use Rattle.std.specs.Prelude.{◌≡◌, ◌++◌, IfOk, IfSome, codes};
ghost use Rattle.std.specs.Fmt.{decimal};
ghost use Rattle.report_words.specs.Fits.{FitsRecord};
ghost use Rattle.report_words.specs.Texts.{IsLineOf, record_line};

use crate::lists::{ids_behind, members_behind};
use crate::spelled::{behind_piece, id_of, is_end, multi_of, next_number, spelled_number};
use report_words::count_of;
use std::alloc::Global;
use tx_model::{IdList, MemberList, Memory, Rec, Sequence};

/// The record of a commit, behind its word.
fn committed(alloc: Global, number: u64, bytes: &[u8]) -> Result<Option<Rec>, Memory>
    ensures { IfOk result (λ found. IfSome found (λ x. IsLineOf (FitsRecord number) (record_line number) (decimal number ++ (codes " commit" ++ bytes.now)) x)) }
{
    let Some((id, rest)) = next_number(bytes) else {
        return Ok(None);
    };
    let Some(top) = id_of(id) else {
        return Ok(None);
    };
    let mut subs = IdList::with_room(alloc, count_of(rest, b' '))?;
    let rest = ids_behind(&mut subs, rest)?;
    if is_end(rest) {
        return Ok(Some(Rec::Commit { top, subs }));
    }
    Ok(None)
}

/// The record of a multixact, behind its word.
fn generated(alloc: Global, number: u64, bytes: &[u8]) -> Result<Option<Rec>, Memory>
    ensures { IfOk result (λ found. IfSome found (λ x. IsLineOf (FitsRecord number) (record_line number) (decimal number ++ (codes " multi" ++ bytes.now)) x)) }
{
    let Some((id, rest)) = next_number(bytes) else {
        return Ok(None);
    };
    let Some(multi) = multi_of(id) else {
        return Ok(None);
    };
    let Some((offset, rest)) = next_number(rest) else {
        return Ok(None);
    };
    let mut list = Sequence::with_room(alloc, count_of(rest, b':'))?;
    let rest = members_behind(&mut list, rest)?;
    if !is_end(rest) {
        return Ok(None);
    }
    let members = MemberList::of(alloc, list)?;
    Ok(Some(Rec::Multi {
        multi,
        offset,
        members,
    }))
}

/// The record that the line tells, where this is its number and it is one of the commonest.
pub fn usual_record(alloc: Global, number: u64, line: &[u8]) -> Result<Option<Rec>, Memory>
    ensures { IfOk result (λ found. IfSome found (λ x. IsLineOf (FitsRecord number) (record_line number) line.now x)) }
{
    let Some((told, rest)) = spelled_number(line) else {
        return Ok(None);
    };
    if told != number {
        return Ok(None);
    }
    if let Some(tail) = behind_piece(rest, b" commit") {
        return committed(alloc, number, tail);
    }
    if let Some(tail) = behind_piece(rest, b" multi") {
        return generated(alloc, number, tail);
    }
    Ok(None)
}
