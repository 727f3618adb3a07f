//! The commonest lines of events.
ghost use Rattle.std.specs.Prelude.{◌≡◌, ◌<◌, ◌^◌, [], ◌∷◌, ◌++◌, IfSome, codes};
ghost use Rattle.std.specs.Fmt.{decimal};
ghost use Rattle.report_words.specs.Fits.{FitsBy, FitsId, FitsEvent};
ghost use Rattle.report_words.specs.Texts.{IsLineOf, event_line};
ghost use Rattle.report_usual.specs.Usual.{by_front};
ghost use Rattle.tx_events.specs.Names.{IsName};

use crate::spelled::{behind_byte, behind_piece, id_of, is_end, spelled_name, spelled_number};
use crate::usual::behind_by;
use tx_events::{ByWords, FullXid, Name};
use tx_model::{By, Event, NameList};

/// A command of this session and a number, and what is behind them.
#[inline(always)]
pub fn by_and_number<'a>(
    names: &NameList,
    session: usize,
    bytes: &'a [u8],
) -> Option<(By, u64, &'a [u8])>
    requires { session < 2 ^ 32 }
    ensures text { IfSome result (λ x. bytes.now ≡ by_front names.now x.0 (32 ∷ decimal x.1 ++ x.2.now)) }
    ensures fits { IfSome result (λ x. FitsBy names.now x.0) }
{
    let (by, rest) = behind_by(names, session, bytes)?;
    let rest = behind_byte(rest, b' ')?;
    let (number, rest) = spelled_number(rest)?;
    Some((by, number, rest))
}

/// A command of this session and an id, up to the line's end.
#[inline(always)]
fn by_and_id(names: &NameList, session: usize, bytes: &[u8]) -> Option<(By, FullXid)>
    requires { session < 2 ^ 32 }
    ensures text { IfSome result (λ x. bytes.now ≡ by_front names.now x.0 (32 ∷ decimal x.1 ++ 10 ∷ [])) }
    ensures fits { IfSome result (λ x. FitsBy names.now x.0) }
    ensures id { IfSome result (λ x. FitsId x.1) }
{
    let (by, number, rest) = by_and_number(names, session, bytes)?;
    let id = id_of(number)?;
    if is_end(rest) { Some((by, id)) } else { None }
}

/// A command of this session and a name, up to the line's end.
#[inline(always)]
fn by_and_name(names: &NameList, session: usize, bytes: &[u8]) -> Option<(By, Name)>
    requires { session < 2 ^ 32 }
    ensures text { IfSome result (λ x. bytes.now ≡ by_front names.now x.0 (32 ∷ x.1 ++ 10 ∷ [])) }
    ensures fits { IfSome result (λ x. FitsBy names.now x.0) }
    ensures name { IfSome result (λ x. IsName x.1) }
{
    let (by, rest) = behind_by(names, session, bytes)?;
    let rest = behind_byte(rest, b' ')?;
    let (name, rest) = spelled_name(rest, b'\n')?;
    if rest.is_empty() {
        Some((by, name))
    } else {
        None
    }
}

/// An id that was given, behind the first word.
#[tactic(auto, using(crate::proofs::Exchanges::is_given))]
fn given(names: &NameList, session: usize, rest: &[u8]) -> Option<Event>
    requires { session < 2 ^ 32 }
    ensures { IfSome result (λ x. IsLineOf (FitsEvent names.now) (event_line names.now) (codes "id " ++ rest.now) x) }
{
    let (by, id) = by_and_id(names, session, rest)?;
    Some(Event::Id {
        by: ByWords::of(by),
        id,
    })
}

/// A commit.
#[tactic(auto, using(crate::proofs::Exchanges::is_committed))]
fn committed(names: &NameList, session: usize, rest: &[u8]) -> Option<Event>
    requires { session < 2 ^ 32 }
    ensures { IfSome result (λ x. IsLineOf (FitsEvent names.now) (event_line names.now) (codes "commit " ++ rest.now) x) }
{
    let (by, top) = by_and_id(names, session, rest)?;
    Some(Event::Commit {
        by: ByWords::of(by),
        top,
    })
}

/// A subtransaction's id.
fn given_below(names: &NameList, session: usize, rest: &[u8]) -> Option<Event>
    requires { session < 2 ^ 32 }
    ensures { IfSome result (λ x. IsLineOf (FitsEvent names.now) (event_line names.now) (codes "sub " ++ rest.now) x) }
{
    let (by, number, rest) = by_and_number(names, session, rest)?;
    let parent = id_of(number)?;
    let rest = behind_byte(rest, b' ')?;
    let (below, rest) = spelled_number(rest)?;
    let id = id_of(below)?;
    if is_end(rest) {
        return Some(Event::Sub {
            by: ByWords::of(by),
            parent,
            id,
        });
    }
    None
}

/// A snapshot that was taken.
fn taken(names: &NameList, session: usize, rest: &[u8]) -> Option<Event>
    requires { session < 2 ^ 32 }
    ensures { IfSome result (λ x. IsLineOf (FitsEvent names.now) (event_line names.now) (codes "snap " ++ rest.now) x) }
{
    let (by, name) = by_and_name(names, session, rest)?;
    Some(Event::Snap {
        by: ByWords::of(by),
        name,
    })
}

/// A snapshot that was dropped.
fn dropped(names: &NameList, session: usize, rest: &[u8]) -> Option<Event>
    requires { session < 2 ^ 32 }
    ensures { IfSome result (λ x. IsLineOf (FitsEvent names.now) (event_line names.now) (codes "drop " ++ rest.now) x) }
{
    let (by, name) = by_and_name(names, session, rest)?;
    Some(Event::SnapDrop {
        by: ByWords::of(by),
        name,
    })
}

/// The event of this session that the line tells, where it is one of the commonest.
#[tactic(auto, using(crate::proofs::Exchanges::event_behind))]
pub fn usual_event(names: &NameList, session: usize, line: &[u8]) -> Option<Event>
    requires { session < 2 ^ 32 }
    ensures { IfSome result (λ x. IsLineOf (FitsEvent names.now) (event_line names.now) line.now x) }
{
    if let Some(rest) = behind_piece(line, b"id ") {
        return given(names, session, rest);
    }
    if let Some(rest) = behind_piece(line, b"commit ") {
        return committed(names, session, rest);
    }
    if let Some(rest) = behind_piece(line, b"sub ") {
        return given_below(names, session, rest);
    }
    if let Some(rest) = behind_piece(line, b"snap ") {
        return taken(names, session, rest);
    }
    if let Some(rest) = behind_piece(line, b"drop ") {
        return dropped(names, session, rest);
    }
    None
}
