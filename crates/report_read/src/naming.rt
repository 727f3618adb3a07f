//! Sessions are numbered as their names come.
ghost use Rattle.std.specs.Prelude.{◌≡◌, ◌≤◌, ◌||◌, Some, not, true, length, set, get_or, IfErr, OnOk, IfOk};
ghost use Rattle.tx_events.specs.IdLists.{has};
ghost use Rattle.report_words.specs.Fits.{AreNames};
ghost use Rattle.report_words.specs.Reading.{name_place};
ghost use Rattle.report_words.specs.declared.unread.Unread.TheVariants as unreads;
ghost use Rattle.report_read.specs.Grammar.{after_turn, is_speaker, may_speak, note};
ghost use Rattle.report_read.specs.Taking.{AreFew, CannotNote};

use report_words::{Unread, name_place_near};
use tx_model::{Memory, Name, NameList, Sequence, is_name};

/// Adds a name where it is new, and answers its place. The place `near` is tried first. At most 64 are kept.
pub fn note(names: &mut NameList, near: usize, name: &[u8]) -> Result<usize, Unread>
    requires { AreFew names.old }
    ensures place { IfOk result (λ k. name_place names.new name.now ≡ Some k) }
    ensures noted { OnOk result (names.new ≡ note names.old name.now) }
    ensures few { OnOk result (AreFew names.new) }
    ensures refused { IfErr result (λ u. CannotNote u names.old name.now) }
{
    match name_place_near(names.items(), near, name) {
        Ok(place) => return Ok(place),
        Err(Unread::Memory) => return Err(Unread::Memory),
        Err(Unread::Form) => (),
    }
    let count = names.items().len();
    if !is_name(name) || count >= 64 {
        return Err(Unread::Form);
    }
    names.push(Name::of(name))?;
    Ok(count)
}

fn is_speaker(speaker: Option<u32>, session: u32) -> bool
    ensures { result ≡ is_speaker speaker session }
{
    match speaker {
        None => false,
        Some(last) => last == session,
    }
}

fn has_spoken(spoken: &[u32], session: u32) -> bool
    ensures { result ≡ has spoken.now session }
{
    spoken.iter().any(|other| session == *other)
}

/// Whether a command of this session may stand next in the round.
pub fn may_speak(speaker: Option<u32>, spoken: &Sequence<u32>, session: u32) -> bool
    ensures { result ≡ may_speak speaker spoken.now session }
{
    is_speaker(speaker, session) || !has_spoken(spoken.items(), session)
}

/// Notes that a command of this session stands there.
pub fn note_turn(
    speaker: Option<u32>,
    spoken: &mut Sequence<u32>,
    session: u32,
) -> Result<(), Memory>
    ensures { OnOk result (spoken.new ≡ after_turn speaker spoken.old session) }
{
    if is_speaker(speaker, session) {
        return Ok(());
    }
    spoken.push(session)
}
