//! The words of a command.
ghost use Rattle.std.specs.Prelude.{◌≡◌, [], ◌∷◌, ◌++◌, OnOk};
ghost use Rattle.std.specs.Fmt.{decimal};
ghost use Rattle.report_text.specs.Words.{more};
ghost use Rattle.report_text.specs.CommandText.{command_word, command_rest, command_words};

use crate::member::put_pairs;
use crate::text::Text;
use tx_model::{Command, Memory, Name};

/// A command's first word behind a space.
#[tactic(auto, unfolding(crate::specs::CommandText::command_word))]
fn put_spaced(out: &mut Text, command: &Command) -> Result<(), Memory>
    ensures ok { OnOk result (out.new ≡ out.old ++ 32 ∷ command_word command.now) }
{
    match command {
        Command::Begin => out.put(b" begin"),
        Command::Save => out.put(b" save"),
        Command::Write => out.put(b" write"),
        Command::Release => out.put(b" release"),
        Command::Undo => out.put(b" undo"),
        Command::Commit => out.put(b" commit"),
        Command::Abort => out.put(b" abort"),
        Command::Trim => out.put(b" trim"),
        Command::Horizon => out.put(b" horizon"),
        Command::Snap { .. } => out.put(b" snap"),
        Command::DropSnap { .. } => out.put(b" drop"),
        Command::See { .. } => out.put(b" see"),
        Command::Status { .. } => out.put(b" status"),
        Command::Did { .. } => out.put(b" did"),
        Command::Multi { .. } => out.put(b" multi"),
        Command::SeeMulti { .. } => out.put(b" seemulti"),
        Command::Freeze { .. } => out.put(b" freeze"),
        Command::MultiFreeze { .. } => out.put(b" multifreeze"),
    }
}

#[tactic(auto, unfolding(crate::specs::Words::more))]
fn put_command_word(out: &mut Text, command: &Command) -> Result<(), Memory>
    ensures ok { OnOk result (out.new ≡ out.old ++ more (command_word command.now ∷ [])) }
{
    put_spaced(out, command)
}

#[tactic(auto, using(crate::proofs::MoreWords::then_more))]
fn put_name_and_number(out: &mut Text, name: &Name, n: u32) -> Result<(), Memory>
    ensures ok { OnOk result (out.new ≡ out.old ++ more (name.now ∷ decimal n ∷ [])) }
{
    out.name(name.items())?;
    out.number(u64::from(n))
}

#[tactic(auto, using(crate::proofs::MoreWords::then_more, crate::proofs::MoreWords::no_more))]
fn put_command_rest(out: &mut Text, command: &Command) -> Result<(), Memory>
    ensures ok { OnOk result (out.new ≡ out.old ++ more (command_rest command.now)) }
{
    match command {
        Command::Begin => Ok(()),
        Command::Save => Ok(()),
        Command::Write => Ok(()),
        Command::Release => Ok(()),
        Command::Undo => Ok(()),
        Command::Commit => Ok(()),
        Command::Abort => Ok(()),
        Command::Trim => Ok(()),
        Command::Horizon => Ok(()),
        Command::Snap { name } => out.name(name.items()),
        Command::DropSnap { name } => out.name(name.items()),
        Command::See { name, x } => put_name_and_number(out, name, x.number),
        Command::Status { x } => out.number(x.number()),
        Command::Did { x } => out.number(u64::from(x.number)),
        Command::Multi { members } => put_pairs(out, members),
        Command::SeeMulti { name, multi } => put_name_and_number(out, name, multi.number),
        Command::Freeze { oldest } => out.number(oldest.number()),
        Command::MultiFreeze { multi } => out.number(multi.number()),
    }
}

/// The words of a command, each behind a space.
#[tactic(auto, using(crate::proofs::MoreWords::then_more, crate::proofs::MoreWords::no_more))]
pub fn put_command(out: &mut Text, command: &Command) -> Result<(), Memory>
    ensures ok { OnOk result (out.new ≡ out.old ++ more (command_words command.now)) }
{
    put_command_word(out, command)?;
    put_command_rest(out, command)
}
