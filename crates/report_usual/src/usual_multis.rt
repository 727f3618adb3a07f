//! The commonest lines of multixact events.
ghost use Rattle.std.specs.Prelude.{◌≡◌, ◌<◌, ◌^◌, [], ◌∷◌, ◌++◌, IfOk, IfSome, codes};
ghost use Rattle.std.specs.Fmt.{decimal};
ghost use Rattle.report_words.specs.Fits.{FitsBy, FitsMulti, FitsMultiEvent};
ghost use Rattle.report_words.specs.Texts.{IsLineOf, multi_line};
ghost use Rattle.report_usual.specs.Usual.{by_front};

use crate::lists::members_behind;
use crate::spelled::{behind_piece, is_end, multi_of, next_number};
use crate::usual_events::by_and_number;
use report_words::count_of;
use std::alloc::Global;
use tx_events::{ByWords, FullMulti};
use tx_model::{By, MemberList, Memory, MultiEvent, NameList, Sequence};

/// A command of this session and a multixact, up to the line's end.
#[inline(always)]
fn by_and_multi(names: &NameList, session: usize, bytes: &[u8]) -> Option<(By, FullMulti)>
    requires { session < 2 ^ 32 }
    ensures text { IfSome result (λ x. bytes.now ≡ by_front names.now x.0 (32 ∷ decimal x.1 ++ 10 ∷ [])) }
    ensures fits { IfSome result (λ x. FitsBy names.now x.0) }
    ensures multi { IfSome result (λ x. FitsMulti x.1) }
{
    let (by, number, rest) = by_and_number(names, session, bytes)?;
    let multi = multi_of(number)?;
    if is_end(rest) {
        Some((by, multi))
    } else {
        None
    }
}

/// A multixact that was pinned, behind the first word.
#[tactic(auto, using(crate::proofs::Multis::is_held))]
fn held(names: &NameList, session: usize, rest: &[u8]) -> Option<MultiEvent>
    requires { session < 2 ^ 32 }
    ensures { IfSome result (λ x. IsLineOf (FitsMultiEvent names.now) (multi_line names.now) (codes "hold " ++ rest.now) x) }
{
    let (by, multi) = by_and_multi(names, session, rest)?;
    Some(MultiEvent::Hold {
        by: ByWords::of(by),
        multi,
    })
}

/// A multixact that was let go.
#[tactic(auto, using(crate::proofs::Multis::is_unheld))]
fn unheld(names: &NameList, session: usize, rest: &[u8]) -> Option<MultiEvent>
    requires { session < 2 ^ 32 }
    ensures { IfSome result (λ x. IsLineOf (FitsMultiEvent names.now) (multi_line names.now) (codes "unhold " ++ rest.now) x) }
{
    let (by, multi) = by_and_multi(names, session, rest)?;
    Some(MultiEvent::Unhold {
        by: ByWords::of(by),
        multi,
    })
}

/// A multixact that was given, with its members.
fn generated(
    alloc: Global,
    names: &NameList,
    session: usize,
    bytes: &[u8],
) -> Result<Option<MultiEvent>, Memory>
    requires { session < 2 ^ 32 }
    ensures { IfOk result (λ found. IfSome found (λ x. IsLineOf (FitsMultiEvent names.now) (multi_line names.now) (codes "gen " ++ bytes.now) x)) }
{
    let Some((by, number, rest)) = by_and_number(names, session, bytes) else {
        return Ok(None);
    };
    let Some(multi) = multi_of(number) else {
        return Ok(None);
    };
    let Some((offset, rest)) = next_number(rest) else {
        return Ok(None);
    };
    let mut list = Sequence::with_room(alloc, count_of(rest, b':'))?;
    let rest = members_behind(&mut list, rest)?;
    if !is_end(rest) {
        return Ok(None);
    }
    let members = MemberList::of(alloc, list)?;
    Ok(Some(MultiEvent::Gen {
        by: ByWords::of(by),
        multi,
        offset,
        members,
    }))
}

/// The multixact event of this session that the line tells, where it is one of the commonest.
#[tactic(auto, using(crate::proofs::Multis::event_behind, crate::proofs::Multis::given_behind))]
pub fn usual_multi_event(
    alloc: Global,
    names: &NameList,
    session: usize,
    line: &[u8],
) -> Result<Option<MultiEvent>, Memory>
    requires { session < 2 ^ 32 }
    ensures { IfOk result (λ found. IfSome found (λ x. IsLineOf (FitsMultiEvent names.now) (multi_line names.now) line.now x)) }
{
    if let Some(rest) = behind_piece(line, b"gen ") {
        return generated(alloc, names, session, rest);
    }
    if let Some(rest) = behind_piece(line, b"hold ") {
        return Ok(held(names, session, rest));
    }
    if let Some(rest) = behind_piece(line, b"unhold ") {
        return Ok(unheld(names, session, rest));
    }
    Ok(None)
}
