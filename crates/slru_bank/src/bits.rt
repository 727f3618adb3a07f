// Two bits of a byte.
ghost use Rattle.std.specs.Prelude.{◌≡◌, ◌<◌};
ghost use Rattle.store_pages.specs.Layouts.{bits_at};
ghost use Rattle.slru_bank.specs.States.{state_number, times_4};

use crate::State;

// The bits of the id at this place of a byte.
fn bits_of(byte: u8, place: u32) -> u8
    requires { place < 4 }
    ensures bits { result ≡ bits_at byte place }
    ensures small { result < 4 }
{
    match place {
        0 => byte % 4,
        1 => byte / 4 % 4,
        2 => byte / 4 / 4 % 4,
        _ => byte / 4 / 4 / 4 % 4,
    }
}

// A number below 4, at the place of its bits.
pub(crate) fn placed_bits(number: u8, place: u32) -> u8
    requires number { number < 4 }
    requires place { place < 4 }
    ensures { result ≡ times_4 number place }
{
    match place {
        0 => number,
        1 => number * 4,
        2 => number * 4 * 4,
        _ => number * 4 * 4 * 4,
    }
}

pub(crate) fn number_of_state(state: State) -> u8
    ensures number { result ≡ state_number state }
    ensures small { result < 4 }
{
    match state {
        State::InProgress => 0,
        State::Committed => 1,
        State::Aborted => 2,
        State::SubCommitted => 3,
    }
}

pub(crate) fn state_of(byte: u8, place: u32) -> State
    requires { place < 4 }
    ensures { state_number result ≡ bits_at byte place }
{
    match bits_of(byte, place) {
        0 => State::InProgress,
        1 => State::Committed,
        2 => State::Aborted,
        _ => State::SubCommitted,
    }
}
