//! The commonest lines of commands. They are compared as they are read, so that what is found needn't be printed again.
ghost use Rattle.std.specs.Prelude.{◌≡◌, ◌<◌, ◌^◌, [], ◌∷◌, ◌++◌, IfOk, IfSome, codes};
ghost use Rattle.report_text.specs.Words.{more};
ghost use Rattle.report_text.specs.CommandText.{command_words};
ghost use Rattle.report_text.specs.ReportText.{command_line};
ghost use Rattle.tx_model.specs.declared.reply.Reply.TheVariants as replies;
ghost use Rattle.report_words.specs.Fits.{FitsBy, FitsCommand, FitsLine};
ghost use Rattle.report_words.specs.Replies.{kind_of};
ghost use Rattle.report_words.specs.declared.reply.Kind.TheVariants as kinds;
ghost use Rattle.report_words.specs.Texts.{IsLineOf};
ghost use Rattle.report_usual.specs.Usual.{IsExchange, by_front, seen_end};

use crate::lists_told::listed_exchange;
use crate::spelled::{
    behind_byte, behind_piece, id_of, is_end, is_piece, spelled_name, spelled_number,
};
use std::alloc::Global;
use tx_events::Xid;
use tx_model::{By, Command, GivenIds, Line, Memory, NameList, Reply};

/// A command of this session, whose name stands at the front, and what is behind the command's number.
#[inline(always)]
pub fn behind_by<'a>(names: &NameList, session: usize, bytes: &'a [u8]) -> Option<(By, &'a [u8])>
    requires { session < 2 ^ 32 }
    ensures text { IfSome result (λ x. bytes.now ≡ by_front names.now x.0 x.1.now) }
    ensures fits { IfSome result (λ x. FitsBy names.now x.0) }
{
    let name = names.items().get(session)?;
    let rest = behind_piece(bytes, name.items())?;
    let rest = behind_byte(rest, b' ')?;
    let (command, rest) = spelled_number(rest)?;
    let by = By {
        session: session as u32,
        command,
    };
    Some((by, rest))
}

/// This command, where the line ends as if it was answered `ok`.
#[tactic(auto, using(crate::proofs::Exchanges::is_done))]
#[inline(always)]
fn done(rest: &[u8], end: &[u8], command: Command) -> Option<Command>
    requires text { end.now ≡ more (command_words command ++ codes "->" ∷ codes "ok" ∷ []) ++ 10 ∷ [] }
    requires plain { kind_of command ≡ kinds.Plain }
    requires fits { FitsCommand command }
    ensures { IfSome result (λ c. IsExchange rest.now c replies.Done) }
{
    if is_piece(rest, end) {
        Some(command)
    } else {
        None
    }
}

/// A command of one word that was answered `ok`.
#[tactic(auto, unfolding(report_text::specs::Words::more, report_text::specs::CommandText::command_word))]
#[inline(always)]
fn plain_done(rest: &[u8]) -> Option<Command>
    ensures { IfSome result (λ c. IsExchange rest.now c replies.Done) }
{
    match rest {
        [_, b'b', ..] => done(rest, b" begin -> ok\n", Command::Begin),
        [_, b's', ..] => done(rest, b" save -> ok\n", Command::Save),
        [_, b'c', ..] => done(rest, b" commit -> ok\n", Command::Commit),
        [_, b'a', ..] => done(rest, b" abort -> ok\n", Command::Abort),
        [_, b'u', ..] => done(rest, b" undo -> ok\n", Command::Undo),
        [_, b'r', ..] => done(rest, b" release -> ok\n", Command::Release),
        _ => None,
    }
}

/// A write that was given one id or two, behind `ok`.
fn wrote(rest: &[u8]) -> Option<(Command, Reply)>
    ensures { IfSome result (λ x. IsExchange (codes " write -> ok " ++ rest.now) x.0 x.1) }
{
    let (number, rest) = spelled_number(rest)?;
    let id = id_of(number)?;
    if is_end(rest) {
        let ids = GivenIds::one(id);
        return Some((Command::Write, Reply::Wrote { warn: false, ids }));
    }
    let rest = behind_byte(rest, b' ')?;
    let (number, rest) = spelled_number(rest)?;
    let second = id_of(number)?;
    if is_end(rest) {
        let ids = GivenIds::two([id, second]);
        return Some((Command::Write, Reply::Wrote { warn: false, ids }));
    }
    None
}

/// Whether an id is visible, up to the line's end.
#[inline(always)]
fn seen(rest: &[u8]) -> Option<bool>
    ensures { IfSome result (λ visible. rest.now ≡ seen_end visible) }
{
    if rest == b" -> visible\n".as_slice() {
        return Some(true);
    }
    if rest == b" -> hidden\n".as_slice() {
        return Some(false);
    }
    None
}

/// A look at an id, behind the first word.
fn look(rest: &[u8]) -> Option<(Command, Reply)>
    ensures { IfSome result (λ x. IsExchange (codes " see " ++ rest.now) x.0 x.1) }
{
    let (name, rest) = spelled_name(rest, b' ')?;
    let (number, rest) = spelled_number(rest)?;
    if number >= 1 << 32 {
        return None;
    }
    let visible = seen(rest)?;
    let x = Xid {
        number: number as u32,
    };
    Some((Command::See { name, x }, Reply::Seen { visible }))
}

/// A snapshot that was dropped, behind the first word.
fn dropped(rest: &[u8]) -> Option<(Command, Reply)>
    ensures { IfSome result (λ x. IsExchange (codes " drop " ++ rest.now) x.0 x.1) }
{
    let (name, rest) = spelled_name(rest, b' ')?;
    if is_piece(rest, b"-> ok\n") {
        return Some((Command::DropSnap { name }, Reply::Done));
    }
    None
}

/// A command with its reply that have no list, behind the command's number.
#[tactic(auto, using(crate::proofs::Exchanges::exchange_behind))]
#[inline(always)]
fn brief_exchange(rest: &[u8]) -> Option<(Command, Reply)>
    ensures { IfSome result (λ x. IsExchange rest.now x.0 x.1) }
{
    if let Some(command) = plain_done(rest) {
        return Some((command, Reply::Done));
    }
    if let Some(tail) = behind_piece(rest, b" write -> ok ") {
        return wrote(tail);
    }
    if let Some(tail) = behind_piece(rest, b" see ") {
        return look(tail);
    }
    if let Some(tail) = behind_piece(rest, b" drop ") {
        return dropped(tail);
    }
    None
}

/// A command with its reply, behind the command's number.
fn exchange(alloc: Global, rest: &[u8]) -> Result<Option<(Command, Reply)>, Memory>
    ensures { IfOk result (λ found. IfSome found (λ x. IsExchange rest.now x.0 x.1)) }
{
    match brief_exchange(rest) {
        Some(found) => Ok(Some(found)),
        None => listed_exchange(alloc, rest),
    }
}

/// The command with its reply that the line of this session tells, where it is one of the commonest.
pub fn usual_line(
    alloc: Global,
    names: &NameList,
    session: usize,
    line: &[u8],
) -> Result<Option<Line>, Memory>
    requires { session < 2 ^ 32 }
    ensures { IfOk result (λ found. IfSome found (λ x. IsLineOf (FitsLine names.now) (command_line names.now) line.now x)) }
{
    let Some((by, rest)) = behind_by(names, session, line) else {
        return Ok(None);
    };
    let Some((command, reply)) = exchange(alloc, rest)? else {
        return Ok(None);
    };
    Ok(Some(Line { by, command, reply }))
}
