//! Which multixact events a command has, by its reply.
ghost use Rattle.std.specs.Prelude.{◌≡◌, cond};
ghost use Rattle.report_law.specs.MultiLines.{may_have_given};
ghost use Rattle.command_events.specs.Shapes.{freeze_shape, is_memory, may_freeze_none, may_have_none, may_pin, may_pin_near, multi_shape, see_shape, shape_of};
ghost use Rattle.command_events.specs.declared.shape.Shape.TheVariants as shapes;

use tx_events::{FullMulti, MultiId, Refusal};
use tx_model::{Command, Reply};

/// The multixact events of a command.
#[derive(Clone, Copy, Debug, PartialEq, Eq)]
pub enum Shape {
    /// None.
    Nothing,
    /// A multixact of the command's members is given, whichever.
    Gives,
    /// This one is given, and its members begin at this offset.
    GivesThis { multi: FullMulti, offset: u64 },
    /// The multixact that the stored half means where the command pins it is pinned and let go.
    PinsNear { m: MultiId },
    /// This one is pinned and let go.
    Pins { multi: FullMulti },
    /// It is raised to, pinned meanwhile or not.
    Raises { multi: FullMulti },
}

fn may_have_given(refusal: &Refusal) -> bool
    ensures { result ≡ may_have_given refusal.now }
{
    match refusal {
        Refusal::LogDown { .. } => true,
        Refusal::Full => true,
        Refusal::DiskFault { .. } => true,
        Refusal::Memory => true,
        _ => false,
    }
}

fn may_pin_near(refusal: &Refusal) -> bool
    ensures { result ≡ may_pin_near refusal.now }
{
    match refusal {
        Refusal::NotYet { .. } => true,
        Refusal::DiskFault { .. } => true,
        Refusal::Memory => true,
        _ => false,
    }
}

fn may_pin(refusal: &Refusal) -> bool
    ensures { result ≡ may_pin refusal.now }
{
    match refusal {
        Refusal::NotYet { .. } => true,
        Refusal::DiskFault { .. } => true,
        Refusal::Held { .. } => true,
        Refusal::Memory => true,
        _ => false,
    }
}

fn may_freeze_none(refusal: &Refusal) -> bool
    ensures { result ≡ may_freeze_none refusal.now }
{
    match refusal {
        Refusal::Held { .. } => true,
        Refusal::Memory => true,
        _ => false,
    }
}

fn is_memory(refusal: &Refusal) -> bool
    ensures { result ≡ is_memory refusal.now }
{
    matches!(refusal, Refusal::Memory)
}

fn some_if(yes: bool, shape: Shape) -> Shape
    ensures { result ≡ cond yes shape shapes.Nothing }
{
    if yes { shape } else { Shape::Nothing }
}

/// Of a `multi`.
fn multi_shape(reply: &Reply) -> Shape
    ensures { result ≡ multi_shape reply.now }
{
    match reply {
        Reply::Multi { multi, offset, .. } => Shape::GivesThis {
            multi: *multi,
            offset: *offset,
        },
        Reply::Refused { refusal } => some_if(may_have_given(refusal), Shape::Gives),
        _ => Shape::Nothing,
    }
}

/// Of a `seemulti`.
fn see_shape(m: MultiId, reply: &Reply) -> Shape
    ensures { result ≡ see_shape m reply.now }
{
    match reply {
        Reply::Verdicts { .. } => Shape::PinsNear { m },
        Reply::Refused { refusal } => some_if(may_pin_near(refusal), Shape::PinsNear { m }),
        _ => Shape::Nothing,
    }
}

/// Of a `multifreeze`.
fn freeze_shape(multi: FullMulti, reply: &Reply) -> Shape
    ensures { result ≡ freeze_shape multi reply.now }
{
    match reply {
        Reply::Done => Shape::Raises { multi },
        Reply::Refused { refusal } => some_if(may_pin(refusal), Shape::Pins { multi }),
        _ => Shape::Nothing,
    }
}

/// The events that the command's reply tells.
pub fn shape_of(command: &Command, reply: &Reply) -> Shape
    ensures { result ≡ shape_of command.now reply.now }
{
    match command {
        Command::Multi { .. } => multi_shape(reply),
        Command::SeeMulti { multi, .. } => see_shape(*multi, reply),
        Command::MultiFreeze { multi } => freeze_shape(*multi, reply),
        _ => Shape::Nothing,
    }
}

/// Whether the command may have none as well.
pub fn may_have_none(command: &Command, reply: &Reply) -> bool
    ensures { result ≡ may_have_none command.now reply.now }
{
    match reply {
        Reply::Refused { refusal } => match command {
            Command::Multi { .. } => true,
            Command::SeeMulti { .. } => is_memory(refusal),
            Command::MultiFreeze { .. } => may_freeze_none(refusal),
            _ => false,
        },
        _ => false,
    }
}
