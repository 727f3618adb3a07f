//! What a session's lines leave pending.
ghost use Rattle.std.specs.Prelude.{◌≡◌, List, false};
ghost use Rattle.tx_events.specs.declared.record.Rec.{Rec};
ghost use Rattle.tx_model.specs.Stance.{Stance, top_level};
ghost use Rattle.life_law.specs.Pending.{is_recorded, pending_after};
ghost use Rattle.tx_model.specs.declared.reply.Reply.TheVariants as replies;
ghost use Rattle.report_law.specs.Standing.{still, still_perhaps, unfinished_after, unfinished_behind};
ghost use Rattle.standing_rules.specs.Told.{ended_after, logged_after, told_of};

use tx_events::{Lock, Refusal};
use tx_model::{Command, Reply};

/// Whether a session has a multixact that has a number and isn't recorded.
#[derive(Clone, Copy, Debug, PartialEq, Eq)]
pub enum Unfinished {
    Nothing,
    Perhaps,
    Sure,
}

/// What is pending behind a commit that was answered so. Whether its record stands in the log is `recorded`.
fn after_commit(recorded: bool, old: Option<Refusal>, reply: &Reply) -> Option<Refusal>
    ensures { result ≡ logged_after recorded old reply.now }
{
    match reply {
        Reply::Done => None,
        Reply::Refused { refusal } => match refusal {
            Refusal::LogFault => Some(Refusal::CommitPending),
            Refusal::DiskFault { lock } => match lock {
                Lock::Xact(_bank) => Some(Refusal::CommitPending),
                _ => old,
            },
            Refusal::LogDown { .. } => {
                if recorded {
                    return Some(Refusal::CommitPending);
                }
                old
            }
            _ => old,
        },
        _ => old,
    }
}

/// What is pending behind an abort or an undo that was answered so: this, where a volume failed.
fn after_end(old: Option<Refusal>, failed: Refusal, reply: &Reply) -> Option<Refusal>
    ensures { result ≡ ended_after old failed reply.now }
{
    match reply {
        Reply::Done => None,
        Reply::Refused { refusal } => match refusal {
            Refusal::DiskFault { .. } => Some(failed),
            _ => old,
        },
        _ => old,
    }
}

/// What is pending behind a command that was answered so, told by the refusal that it brings. Whether the log has a commit
/// record of the session's transaction is `recorded`.
pub fn pending_after(
    recorded: bool,
    old: Option<Refusal>,
    command: &Command,
    reply: &Reply,
) -> Option<Refusal>
    ensures { (recs : List Rec) (s : Stance) → recorded ≡ is_recorded recs (top_level s.levels) → result ≡ pending_after recs s old command.now reply.now }
{
    match command {
        Command::Commit => after_commit(recorded, old, reply),
        Command::Abort => after_end(old, Refusal::AbortPending, reply),
        Command::Undo => after_end(old, Refusal::UndoPending, reply),
        _ => old,
    }
}

fn still(old: Unfinished) -> Unfinished
    ensures { told_of result ≡ still (told_of old) }
{
    match old {
        Unfinished::Nothing => Unfinished::Nothing,
        _ => Unfinished::Sure,
    }
}

fn still_perhaps(old: Unfinished) -> Unfinished
    ensures { told_of result ≡ still_perhaps (told_of old) }
{
    match old {
        Unfinished::Nothing => Unfinished::Nothing,
        _ => Unfinished::Perhaps,
    }
}

/// What is unfinished behind a `multi` that gave no number and was refused so.
fn after_refusal(old: Unfinished, refusal: &Refusal) -> Unfinished
    ensures { told_of result ≡ unfinished_after (told_of old) false (replies.Refused refusal.now) }
{
    match refusal {
        Refusal::NotGiven { .. } => Unfinished::Nothing,
        Refusal::TooOld { .. } => Unfinished::Nothing,
        Refusal::MultiStop { .. } => Unfinished::Nothing,
        Refusal::MemberStop { .. } => Unfinished::Nothing,
        Refusal::Memory => still_perhaps(old),
        Refusal::Full => still(old),
        Refusal::LogDown { .. } => still(old),
        Refusal::DiskFault { .. } => still(old),
        _ => old,
    }
}

/// What is unfinished behind a `multi` that was answered so.
fn after_multi(old: Unfinished, gave: bool, reply: &Reply) -> Unfinished
    ensures { told_of result ≡ unfinished_after (told_of old) gave reply.now }
{
    match reply {
        Reply::Multi { .. } => Unfinished::Nothing,
        Reply::Refused { refusal } => {
            if gave {
                return Unfinished::Sure;
            }
            after_refusal(old, refusal)
        }
        _ => old,
    }
}

/// What is unfinished behind a command that was answered so, and gave a multixact its number or not.
pub fn unfinished_behind(
    old: Unfinished,
    gave: bool,
    command: &Command,
    reply: &Reply,
) -> Unfinished
    ensures { told_of result ≡ unfinished_behind (told_of old) gave command.now reply.now }
{
    match command {
        Command::Multi { .. } => after_multi(old, gave, reply),
        _ => old,
    }
}
