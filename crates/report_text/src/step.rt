//! The steps of a life.
ghost use Rattle.std.specs.Prelude.{◌≡◌, [], ◌∷◌, ◌++◌, OnOk, codes};
ghost use Rattle.std.specs.List.{flat_map};
ghost use Rattle.std.specs.Fmt.{decimal};
ghost use Rattle.report_text.specs.Words.{more, line_text};
ghost use Rattle.report_text.specs.ReplyText.{reply_words};
ghost use Rattle.report_text.specs.ReportText.{command_line, dump_words, line_front, round_line, snapshot_end, step_text};

use crate::command::put_command;
use crate::reply::{put_answer, put_snapped};
use crate::text::{Text, name_of};
use tx_model::{By, Command, DumpOf, KeptLine, Memory, NameList, Reply, SharedSnap, Step};

/// The line of a command with its reply.
#[tactic(auto, using(crate::proofs::MoreWords::then_more, crate::proofs::MoreWords::then_line))]
pub fn put_command_line(
    out: &mut Text,
    names: &NameList,
    by: By,
    command: &Command,
    reply: &Reply,
) -> Result<(), Memory>
    ensures ok { OnOk result (out.new ≡ out.old ++ command_line names.now (record { by = by; command = command.now; reply = reply.now })) }
{
    out.front(name_of(names, by.session))?;
    out.number(by.command)?;
    put_command(out, command)?;
    put_answer(out, names, reply)?;
    out.end_line()
}

/// The line of a command up to the arrow.
#[tactic(auto, using(crate::proofs::MoreWords::then_front))]
pub fn put_line_front(
    out: &mut Text,
    names: &NameList,
    by: By,
    command: &Command,
) -> Result<(), Memory>
    ensures ok { OnOk result (out.new ≡ out.old ++ line_front names.now by command.now) }
{
    out.front(name_of(names, by.session))?;
    out.number(by.command)?;
    put_command(out, command)
}

/// The end of a line that tells what a snapshot holds, from the arrow on.
pub fn put_snapshot_end(out: &mut Text, lists: &SharedSnap) -> Result<(), Memory>
    ensures ok { OnOk result (out.new ≡ out.old ++ snapshot_end lists.now) }
{
    put_snapped(out, lists)?;
    out.end_line()
}

fn put_line(out: &mut Text, names: &NameList, line: &KeptLine) -> Result<(), Memory>
    ensures ok { OnOk result (out.new ≡ out.old ++ command_line names.now line.now) }
{
    let command = line.command();
    let reply = line.reply();
    put_command_line(out, names, line.by(), command.command(), reply.reply())
}

#[tactic(auto, using(crate::proofs::MoreWords::then_one_item, crate::proofs::MoreWords::no_item))]
fn put_lines(out: &mut Text, names: &NameList, lines: &[KeptLine]) -> Result<(), Memory>
    ensures ok { OnOk result (out.new ≡ out.old ++ flat_map (command_line names.now) lines.now) }
{
    for line in lines {
        put_line(out, names, line)?;
    }
    Ok(())
}

/// The line that begins a round.
#[tactic(auto, using(crate::proofs::MoreWords::then_line))]
pub fn put_round_line(out: &mut Text, number: u64) -> Result<(), Memory>
    ensures ok { OnOk result (out.new ≡ out.old ++ round_line number) }
{
    out.put(b"round")?;
    out.number(number)?;
    out.end_line()
}

fn put_checkpoint_word(out: &mut Text) -> Result<(), Memory>
    ensures ok { OnOk result (out.new ≡ out.old ++ codes "checkpoint") }
{
    out.put(b"checkpoint")
}

#[tactic(auto, using(crate::proofs::MoreWords::then_line))]
fn put_checkpoint(out: &mut Text, names: &NameList, reply: &Reply) -> Result<(), Memory>
    ensures ok { OnOk result (out.new ≡ out.old ++ line_text (codes "checkpoint" ∷ codes "->" ∷ reply_words names.now reply.now)) }
{
    put_checkpoint_word(out)?;
    put_answer(out, names, reply)?;
    out.end_line()
}

fn put_dumped(out: &mut Text, what: &DumpOf) -> Result<(), Memory>
    ensures ok { OnOk result (out.new ≡ out.old ++ more (dump_words what.now)) }
{
    match what {
        DumpOf::Log => out.word(b"log"),
        DumpOf::Xact { page } => out.named(b"xact", u64::from(*page)),
        DumpOf::Subtrans { page } => out.named(b"subtrans", u64::from(*page)),
        DumpOf::Offsets { page } => out.named(b"offsets", u64::from(*page)),
        DumpOf::Members { page } => out.named(b"members", u64::from(*page)),
    }
}

#[tactic(auto, using(crate::proofs::MoreWords::then_more))]
fn put_range(out: &mut Text, what: &DumpOf, at: u64, length: u32) -> Result<(), Memory>
    ensures ok { OnOk result (out.new ≡ out.old ++ more (dump_words what.now ++ decimal at ∷ decimal length ∷ [])) }
{
    put_dumped(out, what)?;
    out.number(at)?;
    out.number(u64::from(length))
}

#[tactic(auto, using(crate::proofs::MoreWords::then_more, crate::proofs::MoreWords::then_line))]
fn put_dump(
    out: &mut Text,
    names: &NameList,
    what: &DumpOf,
    at: u64,
    length: u32,
    reply: &Reply,
) -> Result<(), Memory>
    ensures ok { OnOk result (out.new ≡ out.old
        ++ line_text (codes "dump" ∷ dump_words what.now ++ decimal at ∷ decimal length ∷ codes "->" ∷ reply_words names.now reply.now)) }
{
    out.put(b"dump")?;
    put_range(out, what, at, length)?;
    put_answer(out, names, reply)?;
    out.end_line()
}

/// The lines of a step.
#[tactic(auto, unfolding(crate::specs::ReportText::step_text))]
pub fn put_step(out: &mut Text, names: &NameList, step: &Step) -> Result<(), Memory>
    ensures ok { OnOk result (out.new ≡ out.old ++ step_text names.now step.now) }
{
    match step {
        Step::Round { number, lines } => {
            put_round_line(out, *number)?;
            put_lines(out, names, lines.items())
        }
        Step::Checkpoint { reply } => put_checkpoint(out, names, reply.reply()),
        Step::Dump {
            what,
            at,
            length,
            reply,
        } => put_dump(out, names, what, *at, *length, reply.reply()),
    }
}

/// The lines of each step.
#[tactic(auto, using(crate::proofs::MoreWords::then_one_item, crate::proofs::MoreWords::no_item))]
pub fn put_steps(out: &mut Text, names: &NameList, steps: &[Step]) -> Result<(), Memory>
    ensures ok { OnOk result (out.new ≡ out.old ++ flat_map (step_text names.now) steps.now) }
{
    for step in steps {
        put_step(out, names, step)?;
    }
    Ok(())
}
