//! The replies to what a session's calls answer.
ghost use Rattle.std.specs.Prelude.{◌≡◌};
ghost use Rattle.tx_model.specs.declared.reply.Reply.TheVariants as replies;
ghost use Rattle.engine_parts.specs.Answers.{reply_of};

use tx_model::{Refusal, Reply, SharedSnap, Status, VerdictList};

/// The reply of a command that says no more than that it is done.
pub fn done(answer: Result<(), Refusal>) -> Reply
    ensures { result ≡ reply_of (λ _. replies.Done) answer }
{
    match answer {
        Ok(()) => Reply::Done,
        Err(refusal) => Reply::Refused { refusal },
    }
}

/// That of a snapshot.
pub fn snapped(answer: Result<SharedSnap, Refusal>) -> Reply
    ensures { result ≡ reply_of replies.Snapped answer }
{
    match answer {
        Ok(lists) => Reply::Snapped { lists },
        Err(refusal) => Reply::Refused { refusal },
    }
}

/// That of a look.
pub fn seen(answer: Result<bool, Refusal>) -> Reply
    ensures { result ≡ reply_of replies.Seen answer }
{
    match answer {
        Ok(visible) => Reply::Seen { visible },
        Err(refusal) => Reply::Refused { refusal },
    }
}

/// That of a question for an id's status.
pub fn known(answer: Result<Status, Refusal>) -> Reply
    ensures { result ≡ reply_of replies.Known answer }
{
    match answer {
        Ok(status) => Reply::Known { status },
        Err(refusal) => Reply::Refused { refusal },
    }
}

/// That of a question whether an id has committed.
pub fn told(answer: Result<bool, Refusal>) -> Reply
    ensures { result ≡ reply_of replies.Did answer }
{
    match answer {
        Ok(yes) => Reply::Did { yes },
        Err(refusal) => Reply::Refused { refusal },
    }
}

/// That of a look at a multixact's members.
pub fn judged(answer: Result<VerdictList, Refusal>) -> Reply
    ensures { result ≡ reply_of replies.Verdicts answer }
{
    match answer {
        Ok(verdicts) => Reply::Verdicts { verdicts },
        Err(refusal) => Reply::Refused { refusal },
    }
}
