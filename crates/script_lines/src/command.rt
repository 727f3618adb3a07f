//! A command.
ghost use Rattle.std.specs.Prelude.{◌≡◌, ◌≤◌, IfOk, length};
ghost use Rattle.script_lines.specs.LineWords.{words_in};
ghost use Rattle.script_lines.specs.Kinds.{Gives, seen};
ghost use Rattle.script_lines.specs.Said.{plain_command, said};
ghost use Rattle.script_lines.specs.Commands.{alone, only_name, see_in, see_multi_in, snap_in, drop_in, status_in, did_in, members_in, freeze_in, multi_freeze_in};
ghost use Rattle.script_lines.specs.Commands.{long_command, command_in, command_at};

use crate::argument::{asked_id_in, id_in, multi_in, name_in, none_of, one_of, stored_in, two_of};
use crate::kind::{Kind, Stop};
use crate::member::pairs_in;
use crate::said::{IdCommand, NamedCommand, PlainCommand, Said};
use crate::word::{is_same, next_word};
use std::alloc::Global;
use tx_events::Xid;

/// The command, where no word is behind it.
fn alone<'a>(command: PlainCommand, rest: &[u8]) -> Result<Said<'a>, Stop>
    ensures { Gives said result (alone (plain_command command) (words_in rest.now)) }
{
    match none_of(rest) {
        Ok(()) => Ok(Said::Plain { command }),
        Err(kind) => Err(Stop::Fault(kind)),
    }
}

/// A snapshot's name, where no other word is there.
#[inline(always)]
fn only_name(rest: &[u8]) -> Result<&[u8], Kind>
    ensures name { seen (λ w. w.now) result ≡ only_name (words_in rest.now) }
    ensures short { IfOk result (λ w. length w.now ≤ 16) }
{
    name_in(one_of(rest)?)
}

#[tactic(auto, unfolding(crate::specs::Commands::see_in))]
fn see_in(rest: &[u8]) -> Result<Said<'_>, Stop>
    ensures { Gives said result (see_in (words_in rest.now)) }
{
    let (name, number) = two_of(rest)?;
    let name = name_in(name)?;
    let number = stored_in(0, number)?;
    Ok(Said::Named {
        command: NamedCommand::See,
        number,
        name,
    })
}

#[tactic(auto, unfolding(crate::specs::Commands::see_multi_in))]
fn see_multi_in(rest: &[u8]) -> Result<Said<'_>, Stop>
    ensures { Gives said result (see_multi_in (words_in rest.now)) }
{
    let (name, number) = two_of(rest)?;
    let name = name_in(name)?;
    let number = stored_in(1, number)?;
    Ok(Said::Named {
        command: NamedCommand::SeeMulti,
        number,
        name,
    })
}

fn snap_in(rest: &[u8]) -> Result<Said<'_>, Stop>
    ensures { Gives said result (snap_in (words_in rest.now)) }
{
    let name = only_name(rest)?;
    Ok(Said::Named {
        command: NamedCommand::Snap,
        number: 0,
        name,
    })
}

fn drop_in(rest: &[u8]) -> Result<Said<'_>, Stop>
    ensures { Gives said result (drop_in (words_in rest.now)) }
{
    let name = only_name(rest)?;
    Ok(Said::Named {
        command: NamedCommand::DropSnap,
        number: 0,
        name,
    })
}

fn status_in<'a>(rest: &[u8]) -> Result<Said<'a>, Stop>
    ensures { Gives said result (status_in (words_in rest.now)) }
{
    let x = asked_id_in(one_of(rest)?)?;
    Ok(Said::OfId {
        command: IdCommand::Status,
        number: x.number(),
    })
}

fn did_in<'a>(rest: &[u8]) -> Result<Said<'a>, Stop>
    ensures { Gives said result (did_in (words_in rest.now)) }
{
    let number = stored_in(0, one_of(rest)?)?;
    Ok(Said::Did { x: Xid { number } })
}

fn members_in<'a>(alloc: Global, rest: &[u8]) -> Result<Said<'a>, Stop>
    ensures { Gives said result (members_in (words_in rest.now)) }
{
    let members = pairs_in(alloc, rest)?;
    Ok(Said::Multi { members })
}

fn freeze_in<'a>(rest: &[u8]) -> Result<Said<'a>, Stop>
    ensures { Gives said result (freeze_in (words_in rest.now)) }
{
    let oldest = id_in(one_of(rest)?)?;
    Ok(Said::OfId {
        command: IdCommand::Freeze,
        number: oldest.number(),
    })
}

fn multi_freeze_in<'a>(rest: &[u8]) -> Result<Said<'a>, Stop>
    ensures { Gives said result (multi_freeze_in (words_in rest.now)) }
{
    let multi = multi_in(one_of(rest)?)?;
    Ok(Said::OfId {
        command: IdCommand::MultiFreeze,
        number: multi.number(),
    })
}

/// A command whose words are names and numbers.
#[tactic(auto, unfolding(crate::specs::Commands::long_command))]
fn long_command<'a>(alloc: Global, word: &[u8], rest: &'a [u8]) -> Result<Said<'a>, Stop>
    ensures { Gives said result (long_command word.now (words_in rest.now)) }
{
    if is_same(word, b"snap") {
        return snap_in(rest);
    }
    if is_same(word, b"drop") {
        return drop_in(rest);
    }
    if is_same(word, b"see") {
        return see_in(rest);
    }
    if is_same(word, b"status") {
        return status_in(rest);
    }
    if is_same(word, b"did") {
        return did_in(rest);
    }
    if is_same(word, b"multi") {
        return members_in(alloc, rest);
    }
    if is_same(word, b"seemulti") {
        return see_multi_in(rest);
    }
    if is_same(word, b"freeze") {
        return freeze_in(rest);
    }
    if is_same(word, b"multifreeze") {
        return multi_freeze_in(rest);
    }
    Err(Stop::Fault(Kind::Command))
}

#[tactic(auto, unfolding(crate::specs::Commands::command_in))]
fn command_in<'a>(alloc: Global, word: &[u8], rest: &'a [u8]) -> Result<Said<'a>, Stop>
    ensures { Gives said result (command_in word.now (words_in rest.now)) }
{
    if is_same(word, b"begin") {
        return alone(PlainCommand::Begin, rest);
    }
    if is_same(word, b"write") {
        return alone(PlainCommand::Write, rest);
    }
    if is_same(word, b"commit") {
        return alone(PlainCommand::Commit, rest);
    }
    if is_same(word, b"abort") {
        return alone(PlainCommand::Abort, rest);
    }
    if is_same(word, b"save") {
        return alone(PlainCommand::Save, rest);
    }
    if is_same(word, b"release") {
        return alone(PlainCommand::Release, rest);
    }
    if is_same(word, b"undo") {
        return alone(PlainCommand::Undo, rest);
    }
    if is_same(word, b"trim") {
        return alone(PlainCommand::Trim, rest);
    }
    if is_same(word, b"horizon") {
        return alone(PlainCommand::Horizon, rest);
    }
    long_command(alloc, word, rest)
}

/// The command that stands behind a session's name, or its first fault: of the kinds `command`, `arguments`, `name`,
/// `mode` and `number`, in this order.
pub fn command_at(alloc: Global, rest: &[u8]) -> Result<Said<'_>, Stop>
    ensures { Gives said result (command_at (words_in rest.now)) }
{
    match next_word(rest) {
        Some((word, rest)) => command_in(alloc, word, rest),
        None => Err(Stop::Fault(Kind::Command)),
    }
}
