//! Names of sessions and snapshots.
ghost use Rattle.std.specs.Prelude.{◌≡◌, ◌≤◌, true, length, take};
ghost use Rattle.std.specs.List.{list_all};
ghost use Rattle.tx_events.specs.Names.{is_letter, is_name_byte, is_name};

use std::alloc::AllocError;
use std::marker::Model;

fn is_letter(b: u8) -> bool
    ensures { result ≡ is_letter b }
{
    b'a' <= b && b <= b'z'
}

fn is_name_byte(b: u8) -> bool
    ensures { result ≡ is_name_byte b }
{
    is_letter(b) || (b'0' <= b && b <= b'9')
}

fn are_name_bytes(bytes: &[u8]) -> bool
    ensures { result ≡ list_all is_name_byte bytes.now }
{
    bytes.iter().all(|b| is_name_byte(*b))
}

/// Whether a word is a name: 1 to 16 of the letters a to z and the digits, a letter first.
pub fn is_name(word: &[u8]) -> bool
    ensures value { result ≡ is_name word.now }
    ensures short { result ≡ true → length word.now ≤ 16 }
{
    match word {
        [] => false,
        [first, rest @ ..] => is_letter(*first) && are_name_bytes(rest) && rest.len() < 16,
    }
}

/// A name, of at most 16 bytes. It has them in place, so to make or copy one takes no memory. A contract sees the list of
/// them.
#[derive(Drop)]
pub struct Name {
    bytes: [u8; 16],
    count: u8,
}

impl Model for Name {
    ghost use Rattle.std.specs.Prelude.{◌≡◌, ◌≤◌, ℕ, List, length, take};

    ghost Value = { List ℕ };

    ghost view = { λ n. take n.count n.bytes };

    ghost invariant = { λ n. (n.count ≤ 16) × (length n.bytes ≡ 16) };
}

impl Name {
    /// The name of these bytes.
    pub fn of(name: &[u8]) -> Name
        requires { length name.now ≤ 16 }
        ensures { result ≡ name.now }
    {
        let mut bytes = [0; 16];
        bytes[..name.len()].copy_from_slice(name);
        Name {
            bytes,
            count: name.len() as u8,
        }
    }

    /// The name of the first of these bytes.
    pub fn of_padded(bytes: [u8; 16], count: u8) -> Name
        requires { count ≤ 16 }
        ensures { result ≡ take count bytes }
    {
        Name { bytes, count }
    }

    /// How many bytes it has.
    pub fn count(&self) -> u8
        ensures value { result ≡ length self.now }
        ensures short { result ≤ 16 }
    {
        self.count
    }

    /// Its bytes, and what stands behind them up to sixteen.
    pub fn padded(&self) -> &[u8; 16]
        ensures { take (length self.now) result.now ≡ self.now }
    {
        &self.bytes
    }

    /// Its bytes.
    pub fn items(&self) -> &[u8]
        ensures { result.now ≡ self.now }
    {
        &self.bytes[..self.count as usize]
    }

    /// The same name.
    pub fn same(&self) -> Name
        ensures { result ≡ self.now }
    {
        Name {
            bytes: self.bytes,
            count: self.count,
        }
    }
}

impl Clone for Name {
    ghost is_clone = { λ x y. y ≡ x };

    fn clone(&self) -> Result<Self, AllocError> {
        Ok(self.same())
    }
}
