//! The event of a command that gives no ids.
ghost use Rattle.std.specs.Prelude.{◌≡◌, ◌↔◌, ◌∷◌, [], cond, IsTrue};
ghost use Rattle.tx_model.specs.declared.reply.Reply.TheVariants as replies;
ghost use Rattle.tx_model.specs.CommandEvents.{abort_event, commit_event, is_behind_question, undo_event, was_asked};
ghost use Rattle.line_stances.specs.Settled.{is_snapped};
ghost use Rattle.command_events.specs.Told.{as_list, plain_events};

use line_stances::Standing;
use tx_events::{By, ByWords, Event, FullXid, Refusal};
use tx_model::{Command, Reply};

fn is_done(reply: &Reply) -> bool
    ensures { IsTrue result ↔ (reply.now ≡ replies.Done) }
{
    matches!(reply, Reply::Done)
}

fn is_snapped(reply: &Reply) -> bool
    ensures { result ≡ is_snapped reply.now }
{
    matches!(reply, Reply::Snapped { .. })
}

fn is_behind_question(refusal: &Refusal) -> bool
    ensures { result ≡ is_behind_question refusal.now }
{
    match refusal {
        Refusal::TooOld { .. } => true,
        Refusal::Future { .. } => true,
        Refusal::DiskFault { .. } => true,
        _ => false,
    }
}

/// Whether an id's status was asked for, by the reply.
fn was_asked(reply: &Reply) -> bool
    ensures { result ≡ was_asked reply.now }
{
    match reply {
        Reply::Known { .. } => true,
        Reply::Refused { refusal } => is_behind_question(refusal),
        _ => false,
    }
}

fn some_if(yes: bool, event: Event) -> Option<Event>
    ensures { as_list result ≡ cond yes (event ∷ []) [] }
{
    if yes { Some(event) } else { None }
}

fn undo_of(by: By, innermost: Option<FullXid>) -> Option<Event>
    ensures { as_list result ≡ undo_event by innermost }
{
    match innermost {
        Some(id) => Some(Event::Undo {
            by: ByWords::of(by),
            id,
        }),
        None => None,
    }
}

fn commit_of(by: By, top: Option<FullXid>) -> Option<Event>
    ensures { as_list result ≡ commit_event by top }
{
    match top {
        Some(top) => Some(Event::Commit {
            by: ByWords::of(by),
            top,
        }),
        None => None,
    }
}

fn abort_of(by: By, top: Option<FullXid>) -> Option<Event>
    ensures { as_list result ≡ abort_event by top }
{
    match top {
        Some(top) => Some(Event::Abort {
            by: ByWords::of(by),
            top,
        }),
        None => None,
    }
}

/// The event of a command that was answered plainly.
fn done_event(by: By, standing: &Standing, command: &Command) -> Option<Event>
    ensures { as_list result ≡ plain_events by standing.now command.now replies.Done }
{
    match command {
        Command::Undo => undo_of(by, standing.levels.innermost()),
        Command::Commit => commit_of(by, standing.levels.top()),
        Command::Abort => abort_of(by, standing.levels.top()),
        Command::DropSnap { name } => Some(Event::SnapDrop {
            by: ByWords::of(by),
            name: name.same(),
        }),
        Command::Freeze { oldest } => Some(Event::Oldest {
            by: ByWords::of(by),
            oldest: *oldest,
        }),
        _ => None,
    }
}

/// The event that a command has which was answered so, where it gives no ids.
pub fn plain_event(by: By, standing: &Standing, command: &Command, reply: &Reply) -> Option<Event>
    ensures { as_list result ≡ plain_events by standing.now command.now reply.now }
{
    match command {
        Command::Status { x } => some_if(
            was_asked(reply) && x.number() >= 3,
            Event::Ask {
                by: ByWords::of(by),
                id: *x,
            },
        ),
        Command::Snap { name } => some_if(
            is_snapped(reply),
            Event::Snap {
                by: ByWords::of(by),
                name: name.same(),
            },
        ),
        _ => {
            if !is_done(reply) {
                return None;
            }
            done_event(by, standing, command)
        }
    }
}
