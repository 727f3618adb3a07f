//! The lives of a script, their rounds, and the commands of a session in one.
ghost use Rattle.std.specs.Prelude.{◌≡◌, [], ◌∷◌, IfNone, IfOk, IfSome, Some, slice_get};
ghost use Rattle.session_lang.specs.declared.script.Item.TheVariants as items;
ghost use Rattle.session_lang.specs.Rounds.{turns_of};
ghost use Rattle.script_rounds.specs.Plans.{turns_at};
ghost use Rattle.run_law.specs.Lives.{IsFirstPart};
ghost use Rattle.run_law.specs.Turns.{IsFirstRound, turns_in};

use session_lang::{Item, Items};
use tx_model::{Command, How, Memory};

/// The command, where it is of this session.
#[inline(always)]
fn command_of(number: u32, item: Item) -> Option<Command>
    ensures some { IfSome result (λ command. item ≡ items.Run number command) }
    ensures none { IfNone result (turns_of number (turns_in (item ∷ [])) ≡ []) }
{
    match item {
        Item::Run { session, command } if session == number => Some(command),
        _ => None,
    }
}

/// The session's command at this place of the round.
#[inline(always)]
pub fn command_at(number: u32, round: &Items, place: usize) -> Result<Option<Command>, Memory>
    ensures some { IfOk result (λ found. IfSome found (λ command.
        slice_get round.now place ≡ Some (items.Run number command))) }
    ensures none { IfOk result (λ found. IfNone found (turns_at number round.now (place ∷ []) ≡ [])) }
{
    match round.get(place)? {
        Some(item) => Ok(command_of(number, item)),
        None => Ok(None),
    }
}

/// The commands up to the end of the round, and what stands behind that.
pub fn next_round<'a>(items: &Items<'a>) -> (Items<'a>, Items<'a>)
    ensures { IsFirstRound items.now result.0 result.1 }
{
    let count = items.len();
    for i in 0..count {
        if items.session_at(i).is_none() {
            return (items.front(i), items.behind(i + 1));
        }
    }
    (items.front(count), items.behind(count))
}

/// What the script asks of its first life: the items up to the first crash, that crash if there is one, and what stands
/// behind it.
pub fn next_part<'a>(items: &Items<'a>) -> (Items<'a>, Option<How>, Items<'a>)
    ensures { IsFirstPart items.now result.0 result.1 result.2 }
{
    let count = items.len();
    for i in 0..count {
        let crash = items.crash_at(i);
        if crash.is_some() {
            return (items.front(i), crash, items.behind(i + 1));
        }
    }
    (items.front(count), None, items.behind(count))
}
