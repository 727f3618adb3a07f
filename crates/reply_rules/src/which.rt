//! By what a reply is judged.
ghost use Rattle.std.specs.Prelude.{◌≡◌};
ghost use Rattle.tx_events.specs.declared.refusal.Refusal.TheVariants as refusals;
ghost use Rattle.tx_model.specs.declared.command.Command.TheVariants as commands;
ghost use Rattle.tx_model.specs.declared.reply.Reply.TheVariants as replies;
ghost use Rattle.report_law.specs.Answers.{goes_by_places};
ghost use Rattle.reply_rules.specs.Plain.{is_by_log, is_log_refusal};

use tx_events::{FullMulti, FullXid, MultiId, Name, Refusal, Xid};
use tx_model::{Command, PairList, Reply};

fn is_log_refusal(refusal: &Refusal) -> bool
    ensures { result ≡ is_log_refusal refusal.now }
{
    match refusal {
        Refusal::Memory => true,
        Refusal::DiskFault { .. } => true,
        Refusal::LogFault => true,
        Refusal::LogDown { .. } => true,
        Refusal::Full => true,
        _ => false,
    }
}

/// Whether the reply is a refusal for want of memory, for a volume's fault, or since the log is down or full.
pub fn is_by_log(reply: &Reply) -> bool
    ensures { result ≡ is_by_log reply.now }
{
    match reply {
        Reply::Refused { refusal } => is_log_refusal(refusal),
        _ => false,
    }
}

fn write_refusal_goes(refusal: &Refusal) -> bool
    ensures { result ≡ goes_by_places commands.Write (replies.Refused refusal.now) }
{
    matches!(refusal, Refusal::Stop { .. })
}

fn write_goes(reply: &Reply) -> bool
    ensures { result ≡ goes_by_places commands.Write reply.now }
{
    match reply {
        Reply::Wrote { .. } => true,
        Reply::Refused { refusal } => write_refusal_goes(refusal),
        _ => false,
    }
}

fn snap_goes(name: &Name, reply: &Reply) -> bool
    ensures { result ≡ goes_by_places (commands.Snap name.now) reply.now }
{
    matches!(reply, Reply::Snapped { .. })
}

fn horizon_goes(reply: &Reply) -> bool
    ensures { result ≡ goes_by_places commands.Horizon reply.now }
{
    matches!(reply, Reply::Horizon { .. })
}

fn see_refusal_goes(name: &Name, x: Xid, refusal: &Refusal) -> bool
    ensures { result ≡ goes_by_places (commands.See name.now x) (replies.Refused refusal.now) }
{
    matches!(refusal, Refusal::TooOld { .. })
}

fn see_goes(name: &Name, x: Xid, reply: &Reply) -> bool
    ensures { result ≡ goes_by_places (commands.See name.now x) reply.now }
{
    match reply {
        Reply::Seen { .. } => true,
        Reply::Refused { refusal } => see_refusal_goes(name, x, refusal),
        _ => false,
    }
}

fn status_refusal_goes(x: FullXid, refusal: &Refusal) -> bool
    ensures { result ≡ goes_by_places (commands.Status x) (replies.Refused refusal.now) }
{
    match refusal {
        Refusal::Future { .. } => 2 < x.number(),
        Refusal::TooOld { .. } => 2 < x.number(),
        _ => false,
    }
}

fn status_goes(x: FullXid, reply: &Reply) -> bool
    ensures { result ≡ goes_by_places (commands.Status x) reply.now }
{
    match reply {
        Reply::Known { .. } => 2 < x.number(),
        Reply::Refused { refusal } => status_refusal_goes(x, refusal),
        _ => false,
    }
}

fn did_refusal_goes(x: Xid, refusal: &Refusal) -> bool
    ensures { result ≡ goes_by_places (commands.Did x) (replies.Refused refusal.now) }
{
    match refusal {
        Refusal::TooOld { .. } => 2 < x.number,
        _ => false,
    }
}

fn did_goes(x: Xid, reply: &Reply) -> bool
    ensures { result ≡ goes_by_places (commands.Did x) reply.now }
{
    match reply {
        Reply::Did { .. } => 2 < x.number,
        Reply::Refused { refusal } => did_refusal_goes(x, refusal),
        _ => false,
    }
}

fn freeze_refusal_goes(oldest: FullXid, refusal: &Refusal) -> bool
    ensures { result ≡ goes_by_places (commands.Freeze oldest) (replies.Refused refusal.now) }
{
    matches!(refusal, Refusal::Backward { .. } | Refusal::TooNew { .. })
}

fn freeze_goes(oldest: FullXid, reply: &Reply) -> bool
    ensures { result ≡ goes_by_places (commands.Freeze oldest) reply.now }
{
    match reply {
        Reply::Refused { refusal } => freeze_refusal_goes(oldest, refusal),
        _ => false,
    }
}

fn multi_refusal_goes(pairs: &PairList, refusal: &Refusal) -> bool
    ensures { result ≡ goes_by_places (commands.Multi pairs.now) (replies.Refused refusal.now) }
{
    match refusal {
        Refusal::NotGiven { .. } => true,
        Refusal::TooOld { .. } => true,
        Refusal::MultiStop { .. } => true,
        Refusal::MemberStop { .. } => true,
        _ => false,
    }
}

fn multi_goes(pairs: &PairList, reply: &Reply) -> bool
    ensures { result ≡ goes_by_places (commands.Multi pairs.now) reply.now }
{
    match reply {
        Reply::Multi { .. } => true,
        Reply::Refused { refusal } => multi_refusal_goes(pairs, refusal),
        _ => false,
    }
}

fn see_multi_refusal_goes(name: &Name, m: MultiId, refusal: &Refusal) -> bool
    ensures { result ≡ goes_by_places (commands.SeeMulti name.now m) (replies.Refused refusal.now) }
{
    match refusal {
        Refusal::NotYet { .. } => true,
        Refusal::MultiTooOld { .. } => true,
        Refusal::MultiFuture { .. } => true,
        _ => false,
    }
}

fn see_multi_goes(name: &Name, m: MultiId, reply: &Reply) -> bool
    ensures { result ≡ goes_by_places (commands.SeeMulti name.now m) reply.now }
{
    match reply {
        Reply::Verdicts { .. } => true,
        Reply::Refused { refusal } => see_multi_refusal_goes(name, m, refusal),
        _ => false,
    }
}

fn multi_freeze_refusal_goes(multi: FullMulti, refusal: &Refusal) -> bool
    ensures { result ≡ goes_by_places (commands.MultiFreeze multi) (replies.Refused refusal.now) }
{
    match refusal {
        Refusal::Backward { .. } => true,
        Refusal::Held { .. } => true,
        Refusal::NotYet { .. } => true,
        _ => false,
    }
}

fn multi_freeze_goes(multi: FullMulti, reply: &Reply) -> bool
    ensures { result ≡ goes_by_places (commands.MultiFreeze multi) reply.now }
{
    match reply {
        Reply::Done => true,
        Reply::Refused { refusal } => multi_freeze_refusal_goes(multi, refusal),
        _ => false,
    }
}

/// Whether some place of a history has to bear the reply out.
pub fn goes_by_places(command: &Command, reply: &Reply) -> bool
    ensures { result ≡ goes_by_places command.now reply.now }
{
    match command {
        Command::Write => write_goes(reply),
        Command::Snap { name } => snap_goes(name, reply),
        Command::Horizon => horizon_goes(reply),
        Command::See { name, x } => see_goes(name, *x, reply),
        Command::Status { x } => status_goes(*x, reply),
        Command::Did { x } => did_goes(*x, reply),
        Command::Freeze { oldest } => freeze_goes(*oldest, reply),
        Command::Multi { members } => multi_goes(members, reply),
        Command::SeeMulti { name, multi } => see_multi_goes(name, *multi, reply),
        Command::MultiFreeze { multi } => multi_freeze_goes(*multi, reply),
        _ => false,
    }
}
