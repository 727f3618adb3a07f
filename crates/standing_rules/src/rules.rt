//! Whether a line is refused exactly where it is to be.
ghost use Rattle.std.specs.Prelude.{◌≡◌, ◌↔◌, IfSome, IsTrue, true};
ghost use Rattle.standing_rules.specs.Told.{is_bare};
ghost use Rattle.life_law.specs.Refused.{by_standing, is_by_standing, refused_by};
ghost use Rattle.report_law.specs.Steps.{by_members, refused_by_members, unless_memory};

use crate::members::{by_members, refused_by_members};
use crate::refused::refused_by;
use line_stances::Standing;
use tx_events::Refusal;
use tx_model::{Line, Reply};

fn is_by_standing(refusal: &Refusal) -> bool
    ensures value { result ≡ is_by_standing refusal.now }
    ensures bare { result ≡ true → is_bare refusal.now ≡ true }
{
    match refusal {
        Refusal::AlreadyOpen => true,
        Refusal::NoTransaction => true,
        Refusal::NoSavepoint => true,
        Refusal::DepthLimit => true,
        Refusal::CommitPending => true,
        Refusal::AbortPending => true,
        Refusal::UndoPending => true,
        Refusal::NameTaken => true,
        Refusal::SnapLimit => true,
        Refusal::NoSnapshot => true,
        _ => false,
    }
}

/// The refusal of a reply that goes by how the session stands.
fn by_standing(reply: &Reply) -> Option<Refusal>
    ensures value { result ≡ by_standing reply.now }
    ensures bare { IfSome result (λ r. is_bare r ≡ true) }
{
    match reply {
        Reply::Refused { refusal } => {
            if is_by_standing(refusal) {
                return Some(*refusal);
            }
            None
        }
        _ => None,
    }
}

/// What a reply for want of memory leaves of a refusal: it may come before any other.
fn unless_memory(reply: &Reply, refusal: Option<Refusal>) -> Option<Refusal>
    ensures { result ≡ unless_memory reply.now refusal }
{
    match reply {
        Reply::Refused { refusal: told } => match told {
            Refusal::Memory => None,
            _ => refusal,
        },
        _ => refusal,
    }
}

/// Whether two refusals are the same, of which the first tells no numbers.
fn is_same(a: Refusal, b: Refusal) -> bool
    requires { is_bare a ≡ true }
    ensures { IsTrue result ↔ (a ≡ b) }
{
    match a {
        Refusal::AlreadyOpen => matches!(b, Refusal::AlreadyOpen),
        Refusal::NoTransaction => matches!(b, Refusal::NoTransaction),
        Refusal::NoSavepoint => matches!(b, Refusal::NoSavepoint),
        Refusal::DepthLimit => matches!(b, Refusal::DepthLimit),
        Refusal::CommitPending => matches!(b, Refusal::CommitPending),
        Refusal::AbortPending => matches!(b, Refusal::AbortPending),
        Refusal::UndoPending => matches!(b, Refusal::UndoPending),
        Refusal::NameTaken => matches!(b, Refusal::NameTaken),
        Refusal::SnapLimit => matches!(b, Refusal::SnapLimit),
        Refusal::NoSnapshot => matches!(b, Refusal::NoSnapshot),
        Refusal::MemberCount => matches!(b, Refusal::MemberCount),
        Refusal::TwoUpdaters => matches!(b, Refusal::TwoUpdaters),
        _ => false,
    }
}

fn are_same(a: Option<Refusal>, b: Option<Refusal>) -> bool
    requires { IfSome a (λ r. is_bare r ≡ true) }
    ensures { IsTrue result ↔ (a ≡ b) }
{
    match a {
        Some(a) => match b {
            Some(b) => is_same(a, b),
            None => false,
        },
        None => b.is_none(),
    }
}

/// Whether the line is refused by how its session stood before it, and by the end that was pending, exactly where that
/// stood so; or for want of memory.
pub fn is_refused_by_standing(line: &Line, standing: &Standing, pending: Option<Refusal>) -> bool
    ensures { IsTrue result ↔ (by_standing line.now.reply ≡ unless_memory line.now.reply (refused_by line.now.command standing.now pending)) }
{
    let due = unless_memory(&line.reply, refused_by(&line.command, standing, pending));
    are_same(by_standing(&line.reply), due)
}

/// Whether the line is refused by its multixact's members exactly where they bring that; or for want of memory.
pub fn is_refused_by_members(line: &Line) -> bool
    ensures { IsTrue result ↔ (by_members line.now.reply ≡ unless_memory line.now.reply (refused_by_members line.now.command)) }
{
    let due = unless_memory(&line.reply, refused_by_members(&line.command));
    are_same(by_members(&line.reply), due)
}
