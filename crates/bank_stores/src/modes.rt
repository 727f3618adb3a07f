// What a slot's mode byte and id say.
ghost use Rattle.std.specs.Prelude.{◌≡◌};
ghost use Rattle.bank_stores.specs.Slots.{slot_of};

use crate::Slot;
use tx_events::{Mode, Xid};

pub(crate) fn slot_of_numbers(byte: u8, number: u32) -> Slot
    ensures { result ≡ slot_of byte number }
{
    if number == 0 {
        return Slot::Unused;
    }
    match Mode::of_number(byte) {
        Some(mode) => Slot::Is {
            x: Xid { number },
            mode,
        },
        None => Slot::Odd { byte },
    }
}
