//! Room behind the bytes of a text.
ghost use Rattle.std.specs.Prelude.{◌≡◌, ◌≤◌, length, take};

// What is laid out behind the bytes. Nearly every piece is shorter than the least of it.
static ROOM: [u8; 4096] = [0; 4096];

/// How much room is laid out behind so many bytes: a short text isn't to take much more than its bytes.
pub fn room_behind(length: usize) -> usize
    ensures { result ≤ 4096 }
{
    if length < 32_768 { 512 } else { 4096 }
}

/// Lays out room behind the bytes. Without memory there is none.
pub fn lay_out(bytes: &mut Vec<u8>)
    ensures long { length bytes.old.items ≤ length bytes.new.items }
    ensures same { take (length bytes.old.items) bytes.new.items ≡ bytes.old.items }
{
    let count = room_behind(bytes.len());
    let _ = bytes.extend_from_slice(&ROOM[..count]);
}
