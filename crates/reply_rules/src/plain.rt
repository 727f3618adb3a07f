//! The replies that go by no place of a history.
ghost use Rattle.std.specs.Prelude.{◌≡◌, ◌≢◌, ◌↔◌, IsTrue, List, None, false, is_some};
ghost use Rattle.tx_events.specs.declared.event.By.{By};
ghost use Rattle.tx_model.specs.declared.command.Command.TheVariants as commands;
ghost use Rattle.tx_model.specs.declared.reply.Reply.TheVariants as replies;
ghost use Rattle.tx_model.specs.declared.report.Line.{Line};
ghost use Rattle.tx_model.specs.Replies.{RoundSpan, special_status};
ghost use Rattle.tx_model.specs.Stance.{snap_of};
ghost use Rattle.life_law.specs.DidCommit.{special_did};
ghost use Rattle.life_law.specs.Refused.{by_standing};
ghost use Rattle.report_law.specs.Answers.{goes_by_places};
ghost use Rattle.report_law.specs.Steps.{AreJudged, IsLawfulReply, Judged};
ghost use Rattle.reply_rules.specs.Plain.{IsPlain, IsPlainDone, is_by_log};

use line_stances::Standing;
use tx_events::{FullXid, Name, Xid};
use tx_model::{Command, Reply, Status};

/// A transaction has at most so many levels: itself and 1,000 savepoints.
const MOST_LEVELS: u64 = 1001;

fn has_snapshot(name: &Name, standing: &Standing) -> bool
    ensures { result ≡ is_some (snap_of name.now standing.now) }
{
    standing.snaps.command_of(name.items()).is_some()
}

fn can_drop(name: &Name, standing: &Standing) -> bool
    ensures { IsTrue result ↔ (snap_of name.now standing.now ≢ None) }
{
    has_snapshot(name, standing)
}

/// Whether the session stands so that the command is answered `ok`, by which no place of a history is told.
fn is_plain_done(standing: &Standing, command: &Command) -> bool
    ensures { IsTrue result ↔ IsPlainDone standing.now command.now }
{
    let depth = standing.levels.depth();
    match command {
        Command::Begin => depth == 0,
        Command::Save => depth > 0 && depth < MOST_LEVELS,
        Command::Release => depth >= 2,
        Command::Undo => depth >= 2,
        Command::Commit => depth > 0,
        Command::Abort => depth > 0,
        Command::DropSnap { name } => can_drop(name, standing),
        Command::Freeze { .. } => true,
        Command::Trim => true,
        _ => false,
    }
}

/// How a special id stands: 0 never ran, and 1 and 2 count as committed.
fn special_status(x: FullXid) -> Status
    ensures { result ≡ special_status x }
{
    if x.number() == 0 {
        Status::Aborted
    } else {
        Status::Committed
    }
}

fn is_special_status(x: FullXid, status: Status) -> bool
    ensures { IsTrue result ↔ (status ≡ special_status x) }
{
    status == special_status(x)
}

fn is_special_did(x: Xid, yes: bool) -> bool
    ensures { IsTrue result ↔ (yes ≡ special_did x.number) }
{
    yes == (x.number != 0)
}

fn is_plain_status(standing: &Standing, command: &Command, status: Status) -> bool
    ensures { IsTrue result ↔ IsPlain standing.now command.now (replies.Known status) }
{
    match command {
        Command::Status { x } => is_special_status(*x, status),
        _ => false,
    }
}

fn is_plain_did(standing: &Standing, command: &Command, yes: bool) -> bool
    ensures { IsTrue result ↔ IsPlain standing.now command.now (replies.Did yes) }
{
    match command {
        Command::Did { x } => is_special_did(*x, yes),
        _ => false,
    }
}

fn is_plain(standing: &Standing, command: &Command, reply: &Reply) -> bool
    ensures { IsTrue result ↔ IsPlain standing.now command.now reply.now }
{
    match reply {
        Reply::Done => is_plain_done(standing, command),
        Reply::Known { status } => is_plain_status(standing, command, *status),
        Reply::Did { yes } => is_plain_did(standing, command, *yes),
        _ => false,
    }
}

/// Whether a reply is lawful that goes by no place of a history, and is no refusal by how the session stands, for want of
/// memory, for a volume's fault or by the log: an `ok` that the session's standing brings, or what is told of an id below 3.
pub fn is_plain_reply(standing: &Standing, command: &Command, reply: &Reply) -> bool
    requires plain { goes_by_places command.now reply.now ≡ false }
    requires standing { by_standing reply.now ≡ None }
    requires log { is_by_log reply.now ≡ false }
    ensures { (j : Judged) (rounds lines before : List Line) (round multi_round : RoundSpan) (by : By) → IsTrue result ↔ IsLawfulReply (AreJudged j rounds lines) j before round multi_round by standing.now command.now reply.now }
{
    is_plain(standing, command, reply)
}
