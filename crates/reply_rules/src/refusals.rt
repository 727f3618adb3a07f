//! The refusals for want of memory, for faults, and by the log.
ghost use Rattle.std.specs.Prelude.{◌≡◌, ◌↔◌, IsTrue, List, length, take, true};
ghost use Rattle.tx_events.specs.declared.event.By.{By};
ghost use Rattle.tx_events.specs.Running.{open_ids};
ghost use Rattle.tx_model.specs.declared.command.Command.TheVariants as commands;
ghost use Rattle.tx_model.specs.declared.reply.Reply.TheVariants as replies;
ghost use Rattle.tx_events.specs.declared.refusal.Refusal.TheVariants as refusals;
ghost use Rattle.tx_model.specs.declared.report.Line.{Line};
ghost use Rattle.tx_model.specs.Replies.{RoundSpan};
ghost use Rattle.tx_model.specs.Stance.{Stance};
ghost use Rattle.report_law.specs.Answers.{own_before};
ghost use Rattle.report_law.specs.Steps.{AreJudged, IsLawfulReply, Judged};
ghost use Rattle.reply_rules.specs.Ends.{IsLogEnd, commit_size, goes_by_log, multi_size};

use crate::answers::{can_append, can_ask, can_flush, can_lack_memory};
use crate::room::Room;
use tx_events::Refusal;
use tx_model::Command;

/// What of a life's log refusals go by: what room it has, the flushed number, and whether its volume is told to have
/// failed in the life.
#[derive(Clone, Copy, Debug, PartialEq, Eq)]
pub struct LogEnd {
    pub room: Room,
    pub flushed: u64,
    pub failed: bool,
}

/// The length of the longest record of a command that is no commit.
fn longest_record(command: &Command) -> u64
    ensures { result ≡ multi_size command.now }
{
    match command {
        Command::Multi { .. } => 597,
        _ => 25,
    }
}

/// Whether a command that is no commit may be refused since the log is full.
fn is_lawful_full(end: LogEnd, command: &Command) -> bool
    requires { goes_by_log command.now refusals.Full ≡ true }
    ensures { (j : Judged) (rounds lines before : List Line) (round multi_round : RoundSpan) (by : By) (s : Stance) → IsLogEnd j end → IsTrue result ↔ IsLawfulReply (AreJudged j rounds lines) j before round multi_round by s command.now (replies.Refused refusals.Full) }
{
    can_append(command) && end.room.lacks(longest_record(command))
}

/// Whether a refusal of a command is lawful, whatever the histories are: for want of memory, for a volume's fault, and
/// since the log is down or full. That the log is full for a commit goes by the history.
pub fn is_lawful_refusal(end: LogEnd, command: &Command, refusal: &Refusal) -> bool
    requires { goes_by_log command.now refusal.now ≡ true }
    ensures { (j : Judged) (rounds lines before : List Line) (round multi_round : RoundSpan) (by : By) (s : Stance) → IsLogEnd j end → IsTrue result ↔ IsLawfulReply (AreJudged j rounds lines) j before round multi_round by s command.now (replies.Refused refusal.now) }
{
    match refusal {
        Refusal::Memory => can_lack_memory(command),
        Refusal::DiskFault { lock } => can_ask(command, *lock),
        Refusal::LogFault => can_flush(command),
        Refusal::LogDown { at } => can_append(command) && *at == end.flushed && end.failed,
        Refusal::Full => is_lawful_full(end, command),
        _ => false,
    }
}

/// The length of a commit's longest record, where the session has so many ids open.
fn commit_size(ids: u64) -> u64
    ensures { result ≡ commit_size ids }
{
    let subs = ids.saturating_sub(1);
    let size = 13_u64.saturating_add(subs.saturating_mul(8));
    size.max(25)
}

/// Whether a commit may be refused since the log is full: where the round isn't judged, or there is no room for the record
/// of so many ids that the session has open.
pub fn is_lawful_full_commit(end: LogEnd, judged: bool, ids: u64) -> bool
    ensures { (j : Judged) (rounds lines before : List Line) (round multi_round : RoundSpan) (by : By) (s : Stance) → IsLogEnd j end → (IsTrue judged ↔ AreJudged j rounds lines) → (AreJudged j rounds lines → ids ≡ length (open_ids by.session (own_before by (take round.to j.life.events)))) → IsTrue result ↔ IsLawfulReply (AreJudged j rounds lines) j before round multi_round by s commands.Commit (replies.Refused refusals.Full) }
{
    !judged || end.room.lacks(commit_size(ids))
}
