//! The commonest lines of commands that have a list: writes, snapshots, multixacts made and looked at.
ghost use Rattle.std.specs.Prelude.{◌≡◌, ◌<◌, ◌^◌, [], ◌∷◌, ◌++◌, IfOk, IfSome, codes};
ghost use Rattle.std.specs.Fmt.{decimal};
ghost use Rattle.tx_events.specs.Names.{IsName};
ghost use Rattle.report_usual.specs.Usual.{IsExchange, look_front, snap_front};

use crate::lists::{list_behind, pairs_behind, verdicts_behind};
use crate::spelled::{
    behind_piece, id_of, is_end, is_piece, multi_of, named_number, next_number, spelled_name,
    spelled_number,
};
use report_words::count_of;
use std::alloc::Global;
use tx_events::{MultiId, SharedSnap, SnapData};
use tx_model::{Command, GivenIds, IdList, Memory, Name, PairList, Reply, VerdictList};

/// A write, with the ids that were given.
fn wrote_many(alloc: Global, bytes: &[u8]) -> Result<Option<(Command, Reply)>, Memory>
    ensures { IfOk result (λ found. IfSome found (λ x. IsExchange bytes.now x.0 x.1)) }
{
    let Some(rest) = behind_piece(bytes, b" write -> ok") else {
        return Ok(None);
    };
    let mut ids = IdList::with_room(alloc, count_of(rest, b' '))?;
    let Some(rest) = list_behind(&mut ids, rest)? else {
        return Ok(None);
    };
    if is_end(rest) {
        let ids = GivenIds::of(ids);
        return Ok(Some((Command::Write, Reply::Wrote { warn: false, ids })));
    }
    Ok(None)
}

/// A snapshot's name and its limits, and what is behind them.
fn snap_front(bytes: &[u8]) -> Option<(Name, u64, u64, &[u8])>
    ensures text { IfSome result (λ x. bytes.now ≡ snap_front x.0 x.1 x.2 x.3.now) }
    ensures name { IfSome result (λ x. IsName x.0) }
{
    let (name, rest) = spelled_name(bytes, b' ')?;
    let (xmin, rest) = named_number(rest, b"-> ok xmin ")?;
    let (xmax, rest) = named_number(rest, b" xmax ")?;
    let rest = behind_piece(rest, b" xip")?;
    Some((name, xmin, xmax, rest))
}

/// A snapshot that was taken, behind the first word.
fn snapped(alloc: Global, bytes: &[u8]) -> Result<Option<(Command, Reply)>, Memory>
    ensures { IfOk result (λ found. IfSome found (λ x. IsExchange (codes " snap " ++ bytes.now) x.0 x.1)) }
{
    let Some((name, from, to, rest)) = snap_front(bytes) else {
        return Ok(None);
    };
    let Some(xmin) = id_of(from) else {
        return Ok(None);
    };
    let Some(xmax) = id_of(to) else {
        return Ok(None);
    };
    let mut xip = IdList::new(alloc);
    let Some(rest) = list_behind(&mut xip, rest)? else {
        return Ok(None);
    };
    let Some(rest) = behind_piece(rest, b" sub") else {
        return Ok(None);
    };
    let mut subxip = IdList::new(alloc);
    let Some(rest) = list_behind(&mut subxip, rest)? else {
        return Ok(None);
    };
    if !is_piece(rest, b" overflow no\n") {
        return Ok(None);
    }
    let holds = SnapData {
        xmin,
        xmax,
        xip,
        subxip,
        overflowed: false,
    };
    let lists = SharedSnap::of(alloc, holds)?;
    Ok(Some((Command::Snap { name }, Reply::Snapped { lists })))
}

/// The number of the multixact and the offset that were given, up to the line's end.
fn given_numbers(bytes: &[u8]) -> Option<(u64, u64)>
    ensures text { IfSome result (λ x. bytes.now ≡ codes " -> ok " ++ (decimal x.0 ++ 32 ∷ (decimal x.1 ++ 10 ∷ []))) }
    ensures offset { IfSome result (λ x. x.1 < 2 ^ 64) }
{
    let (number, rest) = named_number(bytes, b" -> ok ")?;
    let (offset, rest) = next_number(rest)?;
    if is_end(rest) {
        Some((number, offset))
    } else {
        None
    }
}

/// A multixact that was made, behind the first word.
fn made(alloc: Global, bytes: &[u8]) -> Result<Option<(Command, Reply)>, Memory>
    ensures { IfOk result (λ found. IfSome found (λ x. IsExchange (codes " multi" ++ bytes.now) x.0 x.1)) }
{
    let mut members = PairList::with_room(alloc, count_of(bytes, b':'))?;
    let rest = pairs_behind(&mut members, bytes)?;
    let Some((number, offset)) = given_numbers(rest) else {
        return Ok(None);
    };
    let Some(multi) = multi_of(number) else {
        return Ok(None);
    };
    let reply = Reply::Multi {
        multi,
        offset,
        warn: false,
    };
    Ok(Some((Command::Multi { members }, reply)))
}

/// A snapshot's name and a multixact's number, and what is behind `ok`.
fn look_front(bytes: &[u8]) -> Option<(Name, u64, &[u8])>
    ensures text { IfSome result (λ x. bytes.now ≡ look_front x.0 x.1 x.2.now) }
    ensures name { IfSome result (λ x. IsName x.0) }
{
    let (name, rest) = spelled_name(bytes, b' ')?;
    let (number, rest) = spelled_number(rest)?;
    let rest = behind_piece(rest, b" -> ok")?;
    Some((name, number, rest))
}

/// A look at a multixact, behind the first word.
fn saw(alloc: Global, bytes: &[u8]) -> Result<Option<(Command, Reply)>, Memory>
    ensures { IfOk result (λ found. IfSome found (λ x. IsExchange (codes " seemulti " ++ bytes.now) x.0 x.1)) }
{
    let Some((name, number, rest)) = look_front(bytes) else {
        return Ok(None);
    };
    if number == 0 || number >= 1 << 32 {
        return Ok(None);
    }
    let mut verdicts = VerdictList::with_room(alloc, count_of(rest, b':') / 2)?;
    let rest = verdicts_behind(&mut verdicts, rest)?;
    if !is_end(rest) {
        return Ok(None);
    }
    let multi = MultiId {
        number: number as u32,
    };
    Ok(Some((
        Command::SeeMulti { name, multi },
        Reply::Verdicts { verdicts },
    )))
}

/// A command that has a list with its reply, behind the command's number.
#[tactic(auto, using(crate::proofs::Told::told_behind))]
pub fn listed_exchange(alloc: Global, rest: &[u8]) -> Result<Option<(Command, Reply)>, Memory>
    ensures { IfOk result (λ found. IfSome found (λ x. IsExchange rest.now x.0 x.1)) }
{
    if let Some(tail) = behind_piece(rest, b" snap ") {
        return snapped(alloc, tail);
    }
    if let Some(tail) = behind_piece(rest, b" seemulti ") {
        return saw(alloc, tail);
    }
    if let Some(tail) = behind_piece(rest, b" multi") {
        return made(alloc, tail);
    }
    wrote_many(alloc, rest)
}
