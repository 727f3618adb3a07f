//! The lines of commands with their replies.
ghost use Rattle.std.specs.Prelude.{◌≡◌, ◌↔◌, ◌<◌, ◌≤◌, ◌^◌, [], IfOk, IsTrue, drop, length};
ghost use Rattle.report_text.specs.ReportText.{command_line};
ghost use Rattle.tx_model.specs.declared.report.Line.{Line};
ghost use Rattle.report_words.specs.Words.{behind};
ghost use Rattle.report_words.specs.Reading.{Gives, IsOnly};
ghost use Rattle.report_words.specs.Fits.{AreNames, FitsCommand, FitsLine};
ghost use Rattle.report_lines.specs.Commands.{plain_command, named_command, number_command, is_named, long_command, command_at, line_at};
ghost use Rattle.report_words.specs.Texts.{IsLineOf};

use report_text::{Text, put_command_line};
use report_words::{
    Unread, by_at, count_of, fits_by, fits_reply, full_id, full_multi, is_word, kind_of, name_of,
    number_at, pairs_fit, read_pairs, reply_at, small, word_at,
};
use std::alloc::Global;
use tx_events::{MultiId, Xid};
use tx_model::{Command, Line, Memory, NameList, PairList, is_name};

#[tactic(auto, unfolding(crate::specs::Commands::plain_command))]
fn plain_command(word: &[u8]) -> Option<Command>
    ensures { result ≡ plain_command word.now }
{
    if is_word(word, b"begin") {
        return Some(Command::Begin);
    }
    if is_word(word, b"save") {
        return Some(Command::Save);
    }
    if is_word(word, b"write") {
        return Some(Command::Write);
    }
    if is_word(word, b"release") {
        return Some(Command::Release);
    }
    if is_word(word, b"undo") {
        return Some(Command::Undo);
    }
    if is_word(word, b"commit") {
        return Some(Command::Commit);
    }
    if is_word(word, b"abort") {
        return Some(Command::Abort);
    }
    if is_word(word, b"trim") {
        return Some(Command::Trim);
    }
    if is_word(word, b"horizon") {
        return Some(Command::Horizon);
    }
    None
}

/// A command that names a snapshot, and the place behind it.
#[tactic(auto, unfolding(crate::specs::Commands::named_command))]
fn named_command<'a>(
    word: &[u8],
    name: &[u8],
    rest: &'a [u8],
) -> Result<(Command, &'a [u8]), Unread>
    ensures { Gives (λ x. (x.0, behind x.1.now)) result (named_command word.now name.now (behind rest.now)) }
{
    let name = name_of(name)?;
    if is_word(word, b"snap") {
        return Ok((Command::Snap { name }, rest));
    }
    if is_word(word, b"drop") {
        return Ok((Command::DropSnap { name }, rest));
    }
    if is_word(word, b"see") {
        let (number, rest) = number_at(rest)?;
        let number = small(number)?;
        return Ok((
            Command::See {
                name,
                x: Xid { number },
            },
            rest,
        ));
    }
    if is_word(word, b"seemulti") {
        let (number, rest) = number_at(rest)?;
        let number = small(number)?;
        return Ok((
            Command::SeeMulti {
                name,
                multi: MultiId { number },
            },
            rest,
        ));
    }
    Err(Unread::Form)
}

#[tactic(auto, unfolding(crate::specs::Commands::number_command))]
fn number_command(word: &[u8], number: u64) -> Result<Command, Unread>
    ensures { Gives (λ x. x) result (number_command word.now number) }
{
    if is_word(word, b"status") {
        let x = full_id(number)?;
        return Ok(Command::Status { x });
    }
    if is_word(word, b"did") {
        let number = small(number)?;
        return Ok(Command::Did { x: Xid { number } });
    }
    if is_word(word, b"freeze") {
        let oldest = full_id(number)?;
        return Ok(Command::Freeze { oldest });
    }
    if is_word(word, b"multifreeze") {
        let multi = full_multi(number)?;
        return Ok(Command::MultiFreeze { multi });
    }
    Err(Unread::Form)
}

fn is_named(word: &[u8]) -> bool
    ensures { result ≡ is_named word.now }
{
    if is_word(word, b"snap") {
        return true;
    }
    if is_word(word, b"drop") {
        return true;
    }
    if is_word(word, b"see") {
        return true;
    }
    is_word(word, b"seemulti")
}

#[tactic(auto, unfolding(crate::specs::Commands::long_command))]
fn long_command<'a>(
    alloc: Global,
    word: &[u8],
    rest: &'a [u8],
) -> Result<(Command, &'a [u8]), Unread>
    ensures { Gives (λ x. (x.0, behind x.1.now)) result (long_command word.now (behind rest.now)) }
{
    if is_word(word, b"multi") {
        let mut members = PairList::with_room(alloc, count_of(rest, b':'))?;
        let rest = read_pairs(&mut members, rest)?;
        return Ok((Command::Multi { members }, rest));
    }
    if is_named(word) {
        let (name, rest) = word_at(rest)?;
        return named_command(word, name, rest);
    }
    let (number, rest) = number_at(rest)?;
    let command = number_command(word, number)?;
    Ok((command, rest))
}

/// A command, and the place behind it.
#[tactic(auto, unfolding(crate::specs::Commands::command_at))]
fn command_at(alloc: Global, rest: &[u8]) -> Result<(Command, &[u8]), Unread>
    ensures { Gives (λ x. (x.0, behind x.1.now)) result (command_at (behind rest.now)) }
{
    let (word, rest) = word_at(rest)?;
    match plain_command(word) {
        Some(command) => Ok((command, rest)),
        None => long_command(alloc, word, rest),
    }
}

/// What a command's line says; printed again it may differ.
#[tactic(auto, unfolding(crate::specs::Commands::line_at))]
fn line_at(alloc: Global, names: &NameList, near: usize, rest: &[u8]) -> Result<Line, Unread>
    requires few { length names.now < 2 ^ 32 }
    requires names { AreNames names.now }
    ensures { Gives (λ x. x) result (line_at names.now (behind rest.now)) }
{
    let (by, rest) = by_at(names, near, rest)?;
    let (command, rest) = match command_at(alloc, rest) {
        Ok(found) => found,
        Err(unread) => return Err(unread),
    };
    let (_arrow, rest) = word_at(rest)?;
    let reply = reply_at(alloc, kind_of(&command), rest)?;
    Ok(Line { by, command, reply })
}

/// Whether a script can have the command.
fn fits_command(command: &Command) -> bool
    ensures { IsTrue result ↔ FitsCommand command.now }
{
    match command {
        Command::Snap { name } => is_name(name.items()),
        Command::DropSnap { name } => is_name(name.items()),
        Command::See { name, x } => {
            let _number = x.number;
            is_name(name.items())
        }
        Command::Status { x } => x.number() <= 1 << 62,
        Command::Did { x } => {
            let _number = x.number;
            true
        }
        Command::Multi { members } => {
            pairs_fit(members);
            true
        }
        Command::SeeMulti { name, multi } => is_name(name.items()) && multi.number >= 1,
        Command::Freeze { oldest } => oldest.number() >= 3 && oldest.number() <= 1 << 62,
        Command::MultiFreeze { multi } => multi.number() <= 1 << 62,
        _ => true,
    }
}

/// Whether the line can stand in a report with these names.
fn fits_line(names: &NameList, line: &Line) -> bool
    ensures { IsTrue result ↔ FitsLine names.now line.now }
{
    fits_by(names, line.by)
        && fits_command(&line.command)
        && fits_reply(kind_of(&line.command), &line.reply)
}

/// Whether this is the line of the command with its reply, and they fit.
fn is_command_line(
    out: &mut Text,
    names: &NameList,
    said: &Line,
    line: &[u8],
) -> Result<bool, Memory>
    ensures { IfOk result (λ b. IsTrue b ↔ IsLineOf (FitsLine names.now) (command_line names.now) line.now said.now) }
{
    if !fits_line(names, said) {
        return Ok(false);
    }
    out.clear();
    put_command_line(out, names, said.by, &said.command, &said.reply)?;
    Ok(out.bytes() == line)
}

/// Reads the line of a command with its reply. The bytes begin with the one before the line, and end with the line's end.
/// The session `near` is tried first.
pub fn read_line(
    alloc: Global,
    out: &mut Text,
    names: &NameList,
    near: usize,
    bytes: &[u8],
) -> Result<Line, Unread>
    requires few { length names.now < 2 ^ 32 }
    requires names { AreNames names.now }
    requires some { 1 ≤ length bytes.now }
    ensures found { IfOk result (λ x. IsLineOf (FitsLine names.now) (command_line names.now) (drop 1 bytes.now) x) }
    ensures only { (x : Line) → IsLineOf (FitsLine names.now) (command_line names.now) (drop 1 bytes.now) x → IsOnly result x }
{
    let said = match line_at(alloc, names, near, &bytes[..bytes.len() - 1]) {
        Ok(said) => said,
        Err(unread) => return Err(unread),
    };
    match is_command_line(out, names, &said, &bytes[1..]) {
        Ok(true) => Ok(said),
        Ok(false) => Err(Unread::Form),
        Err(Memory) => Err(Unread::Memory),
    }
}
