//! The words of a refusal.
ghost use Rattle.std.specs.Prelude.{◌≡◌, [], ◌∷◌, ◌++◌, OnOk};
ghost use Rattle.std.specs.Fmt.{decimal};
ghost use Rattle.report_text.specs.Words.{more};
ghost use Rattle.report_text.specs.ReplyText.{refusal_word, refusal_rest, refusal_words, lock_words};

use crate::text::Text;
use tx_model::{Lock, Memory, Refusal};

#[tactic(auto, unfolding(crate::specs::ReplyText::refusal_word))]
pub fn refusal_word(refusal: &Refusal) -> &'static [u8]
    ensures { result.now ≡ refusal_word refusal.now }
{
    match refusal {
        Refusal::AlreadyOpen => b"already-open",
        Refusal::NoTransaction => b"no-transaction",
        Refusal::NoSavepoint => b"no-savepoint",
        Refusal::DepthLimit => b"depth-limit",
        Refusal::CommitPending => b"commit-pending",
        Refusal::AbortPending => b"abort-pending",
        Refusal::UndoPending => b"undo-pending",
        Refusal::Stop { .. } => b"stop",
        Refusal::DiskFault { .. } => b"disk-fault",
        Refusal::LogFault => b"log-fault",
        Refusal::LogDown { .. } => b"log-down",
        Refusal::Full => b"log-full",
        Refusal::NameTaken => b"name-taken",
        Refusal::SnapLimit => b"snap-limit",
        Refusal::NoSnapshot => b"no-snapshot",
        Refusal::TooOld { .. } => b"too-old",
        Refusal::Future { .. } => b"future",
        Refusal::TwoUpdaters => b"two-updaters",
        Refusal::MemberCount => b"member-count",
        Refusal::NotGiven { .. } => b"not-given",
        Refusal::MultiStop { .. } => b"multi-stop",
        Refusal::MemberStop { .. } => b"member-stop",
        Refusal::NotYet { .. } => b"not-yet",
        Refusal::MultiTooOld { .. } => b"multi-too-old",
        Refusal::MultiFuture { .. } => b"multi-future",
        Refusal::Backward { .. } => b"backward",
        Refusal::TooNew { .. } => b"too-new",
        Refusal::Held { .. } => b"held",
        Refusal::MultiPending => b"multi-pending",
        Refusal::Memory => b"memory",
    }
}

fn put_lock(out: &mut Text, lock: Lock) -> Result<(), Memory>
    ensures ok { OnOk result (out.new ≡ out.old ++ more (lock_words lock)) }
{
    match lock {
        Lock::Log => out.word(b"log"),
        Lock::Proc => out.word(b"proc"),
        Lock::Multi => out.word(b"multi"),
        Lock::Xact(bank) => out.named(b"xact", u64::from(bank)),
        Lock::Subtrans(bank) => out.named(b"subtrans", u64::from(bank)),
        Lock::Offsets(bank) => out.named(b"offsets", u64::from(bank)),
        Lock::Members(bank) => out.named(b"members", u64::from(bank)),
    }
}

#[tactic(auto, using(crate::proofs::MoreWords::then_more))]
fn put_two(out: &mut Text, first: u64, second: u64) -> Result<(), Memory>
    ensures ok { OnOk result (out.new ≡ out.old ++ more (decimal first ∷ decimal second ∷ [])) }
{
    out.number(first)?;
    out.number(second)
}

#[tactic(auto, using(crate::proofs::MoreWords::no_more))]
fn put_refusal_rest(out: &mut Text, refusal: &Refusal) -> Result<(), Memory>
    ensures ok { OnOk result (out.new ≡ out.old ++ more (refusal_rest refusal.now)) }
{
    match refusal {
        Refusal::AlreadyOpen => Ok(()),
        Refusal::NoTransaction => Ok(()),
        Refusal::NoSavepoint => Ok(()),
        Refusal::DepthLimit => Ok(()),
        Refusal::CommitPending => Ok(()),
        Refusal::AbortPending => Ok(()),
        Refusal::UndoPending => Ok(()),
        Refusal::Stop { next, stop } => put_two(out, next.number(), stop.number()),
        Refusal::DiskFault { lock } => put_lock(out, *lock),
        Refusal::LogFault => Ok(()),
        Refusal::LogDown { at } => out.number(*at),
        Refusal::Full => Ok(()),
        Refusal::NameTaken => Ok(()),
        Refusal::SnapLimit => Ok(()),
        Refusal::NoSnapshot => Ok(()),
        Refusal::TooOld { oldest } => out.number(oldest.number()),
        Refusal::Future { next } => out.number(next.number()),
        Refusal::TwoUpdaters => Ok(()),
        Refusal::MemberCount => Ok(()),
        Refusal::NotGiven { x } => out.number(u64::from(x.number)),
        Refusal::MultiStop { next, stop } => put_two(out, next.number(), stop.number()),
        Refusal::MemberStop { next, stop } => put_two(out, *next, *stop),
        Refusal::NotYet { multi } => out.number(multi.number()),
        Refusal::MultiTooOld { oldest } => out.number(oldest.number()),
        Refusal::MultiFuture { next } => out.number(next.number()),
        Refusal::Backward { now } => out.number(*now),
        Refusal::TooNew { limit } => out.number(limit.number()),
        Refusal::Held { limit } => out.number(limit.number()),
        Refusal::MultiPending => Ok(()),
        Refusal::Memory => Ok(()),
    }
}

/// The words of a refusal, each behind a space.
#[tactic(auto, using(crate::proofs::MoreWords::then_more))]
pub fn put_refusal(out: &mut Text, refusal: &Refusal) -> Result<(), Memory>
    ensures ok { OnOk result (out.new ≡ out.old ++ more (refusal_words refusal.now)) }
{
    out.word(refusal_word(refusal))?;
    put_refusal_rest(out, refusal)
}
