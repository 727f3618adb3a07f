//! What the bytes of a dump have.
ghost use Rattle.std.specs.Prelude.{◌≡◌, ◌↔◌, ◌<◌, ◌/◌, ◌%◌, ◌^◌, IsTrue};
ghost use Rattle.report_law.specs.Dumps.{HasBits, HasByte, HasWord, byte_of};
ghost use Rattle.tx_events.specs.Pages.{xact_place};

use store_pages::xact_place;
use tx_events::Xid;

/// Whether byte `place` of the page is this one, where the dump of the bytes from `at` on has it.
pub fn has_byte(at: u64, bytes: &[u8], place: u64, byte: u8) -> bool
    ensures { IsTrue result ↔ HasByte at bytes.now place byte }
{
    if place < at {
        return true;
    }
    match bytes.get((place - at) as usize) {
        Some(b) => *b == byte,
        None => true,
    }
}

/// Byte `k` of a number, the low one first.
fn byte_of(n: u32, k: u32) -> u8
    requires { k < 4 }
    ensures { result ≡ byte_of n k }
{
    match k {
        0 => (n % 256) as u8,
        1 => (n / 256 % 256) as u8,
        2 => (n / 65_536 % 256) as u8,
        _ => (n / 16_777_216 % 256) as u8,
    }
}

/// Whether the four bytes from `place` on are this number.
pub fn has_word(at: u64, bytes: &[u8], place: u64, n: u32) -> bool
    requires { place < 2 ^ 32 }
    ensures { IsTrue result ↔ HasWord at bytes.now place n }
{
    for k in 0..4_u32 {
        if !has_byte(at, bytes, place + u64::from(k), byte_of(n, k)) {
            return false;
        }
    }
    true
}

/// The two bits of the k-th of the four ids of a byte.
fn bits_of(byte: u8, k: u32) -> u8
    requires { k < 4 }
    ensures { result ≡ byte / 4 ^ k % 4 }
{
    match k {
        0 => byte % 4,
        1 => byte / 4 % 4,
        2 => byte / 16 % 4,
        _ => byte / 64 % 4,
    }
}

/// Whether the two bits of the id are these.
pub fn has_bits(at: u64, bytes: &[u8], x: Xid, state: u8) -> bool
    ensures { IsTrue result ↔ HasBits at bytes.now x.number state }
{
    let place = xact_place(x);
    let byte = u64::from(place / 4);
    if byte < at {
        return true;
    }
    match bytes.get((byte - at) as usize) {
        Some(b) => bits_of(*b, place % 4) == state,
        None => true,
    }
}
