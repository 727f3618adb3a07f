//! Bytes that grow at their end, into room that was laid out ahead.
ghost use Rattle.std.specs.Prelude.{◌≡◌, ℕ, ◌+◌, ◌<◌, ◌≤◌, [], ◌∷◌, ◌++◌, OnOk, drop, length, take};
ghost use Rattle.std.specs.Fmt.{decimal};
ghost use Rattle.text_bytes.specs.Digits.{pair};

use crate::room::{lay_out, room_behind};
use itoa::Buffer;
use std::alloc::Global;
use std::marker::Model;
use tx_events::Memory;

/// Bytes that grow at their end. Behind them lies room, so that a short piece need not ask for it. A contract sees the
/// bytes.
#[derive(Drop)]
pub struct Bytes {
    laid: Vec<u8>,
    /// How many there are; the others are room.
    used: usize,
}

impl Model for Bytes {
    ghost use Rattle.std.specs.Prelude.{◌≤◌, ℕ, List, length, take};

    ghost Value = { List ℕ };

    ghost view = { λ b. take b.used b.laid.items };

    ghost invariant = { λ b. b.used ≤ length b.laid.items };
}

/// Lays a piece over the bytes from a place on.
#[inline(always)]
fn lay(bytes: &mut [u8], at: usize, piece: &[u8])
    requires { at + length piece.now ≤ length bytes.old }
    ensures { bytes.new ≡ take at bytes.old ++ piece.now ++ drop (at + length piece.now) bytes.old }
{
    let end = at + piece.len();
    bytes[at..end].copy_from_slice(piece);
}

/// The two digits of each number below 100.
static PAIRS: [u8; 200] =
    *b"00010203040506070809101112131415161718192021222324252627282930313233343536373839404142434445464748495051525354555657585960616263646566676869707172737475767778798081828384858687888990919293949596979899";

/// Writes a byte over that at a place. Returns the next place, here as below.
#[tactic(auto, using(std::proofs::lemmas::List::take_more_set))]
#[inline(always)]
fn byte_over(bytes: &mut [u8], at: usize, byte: u8) -> usize
    requires { at + 1 ≤ length bytes.old }
    ensures next { result ≡ at + 1 }
    ensures written { take result bytes.new ≡ take at bytes.old ++ byte ∷ [] }
{
    bytes[at] = byte;
    at + 1
}

/// Writes the two digits of a number below 100.
#[inline(always)]
fn pair_over(bytes: &mut [u8], at: usize, n: u64) -> usize
    requires room { at + 2 ≤ length bytes.old }
    requires small { n < 100 }
    ensures next { result ≡ at + 2 }
    ensures written { take result bytes.new ≡ take at bytes.old ++ pair n }
{
    let from = n as usize * 2;
    let (tens, ones) = (PAIRS[from], PAIRS[from + 1]);
    let next = byte_over(bytes, at, tens);
    byte_over(bytes, next, ones)
}

/// Writes the digits of a number below 100.
#[tactic(auto, using(itoa::proofs::Decimal::decimal_two, std::proofs::lemmas::Fmt::decimal_digit))]
#[inline(always)]
fn first_over(bytes: &mut [u8], at: usize, n: u64) -> usize
    requires room { at + 2 ≤ length bytes.old }
    requires small { n < 100 }
    ensures next { result ≤ at + 2 }
    ensures written { take result bytes.new ≡ take at bytes.old ++ decimal n }
{
    if n < 10 {
        byte_over(bytes, at, b'0' + n as u8)
    } else {
        pair_over(bytes, at, n)
    }
}

/// Writes the digits of a number below 10,000.
#[inline(always)]
fn few_over(bytes: &mut [u8], at: usize, n: u64) -> usize
    requires room { at + 4 ≤ length bytes.old }
    requires small { n < 10000 }
    ensures next { result ≤ at + 4 }
    ensures written { take result bytes.new ≡ take at bytes.old ++ decimal n }
{
    if n < 100 {
        return first_over(bytes, at, n);
    }
    let next = first_over(bytes, at, n / 100);
    pair_over(bytes, next, n % 100)
}

/// Writes the digits of a number of up to eight.
#[inline(always)]
fn digits_over(bytes: &mut [u8], at: usize, n: u64) -> usize
    requires room { at + 8 ≤ length bytes.old }
    requires small { n < 100000000 }
    ensures next { result ≤ length bytes.old }
    ensures written { take result bytes.new ≡ take at bytes.old ++ decimal n }
{
    if n < 10_000 {
        return few_over(bytes, at, n);
    }
    let low = n % 10_000;
    let next = few_over(bytes, at, n / 10_000);
    let next = pair_over(bytes, next, low / 100);
    pair_over(bytes, next, low % 100)
}

/// Writes them behind a space.
#[inline(always)]
fn number_over(bytes: &mut [u8], at: usize, n: u64) -> usize
    requires room { at + 9 ≤ length bytes.old }
    requires small { n < 100000000 }
    ensures next { result ≤ length bytes.old }
    ensures written { take result bytes.new ≡ take at bytes.old ++ 32 ∷ decimal n }
{
    let next = byte_over(bytes, at, b' ');
    digits_over(bytes, next, n)
}

/// Writes a name of one to three bytes.
#[inline(always)]
fn short_over(bytes: &mut [u8], at: usize, name: &[u8]) -> usize
    requires room { at + 3 ≤ length bytes.old }
    requires some { 1 ≤ length name.now }
    requires short { length name.now ≤ 3 }
    ensures next { result ≤ length bytes.old }
    ensures written { take result bytes.new ≡ take at bytes.old ++ name.now }
{
    match name {
        [a] => byte_over(bytes, at, *a),
        [a, b] => {
            let next = byte_over(bytes, at, *a);
            byte_over(bytes, next, *b)
        }
        [a, b, c] => {
            let next = byte_over(bytes, at, *a);
            let next = byte_over(bytes, next, *b);
            byte_over(bytes, next, *c)
        }
        _ => at,
    }
}

/// Writes a name of one to three bytes behind a space.
#[inline(always)]
fn name_over(bytes: &mut [u8], at: usize, name: &[u8]) -> usize
    requires room { at + 4 ≤ length bytes.old }
    requires some { 1 ≤ length name.now }
    requires short { length name.now ≤ 3 }
    ensures next { result ≤ length bytes.old }
    ensures written { take result bytes.new ≡ take at bytes.old ++ 32 ∷ name.now }
{
    let next = byte_over(bytes, at, b' ');
    short_over(bytes, next, name)
}

/// Lays the digits of a number of up to eight over the bytes from a place on.
#[inline(always)]
fn lay_digits(bytes: &mut Vec<u8>, at: usize, n: u64) -> usize
    requires room { at + 8 ≤ length bytes.old.items }
    requires small { n < 100000000 }
    ensures within { result ≤ length bytes.new.items }
    ensures written { take result bytes.new.items ≡ take at bytes.old.items ++ decimal n }
{
    digits_over(bytes, at, n)
}

/// Lays them behind a space.
#[inline(always)]
fn lay_number(bytes: &mut Vec<u8>, at: usize, n: u64) -> usize
    requires room { at + 9 ≤ length bytes.old.items }
    requires small { n < 100000000 }
    ensures within { result ≤ length bytes.new.items }
    ensures written { take result bytes.new.items ≡ take at bytes.old.items ++ 32 ∷ decimal n }
{
    number_over(bytes, at, n)
}

/// Lays a name of up to three bytes behind a space over the bytes from a place on.
#[inline(always)]
fn lay_name(bytes: &mut Vec<u8>, at: usize, name: &[u8]) -> usize
    requires room { at + 4 ≤ length bytes.old.items }
    requires some { 1 ≤ length name.now }
    requires short { length name.now ≤ 3 }
    ensures within { result ≤ length bytes.new.items }
    ensures written { take result bytes.new.items ≡ take at bytes.old.items ++ 32 ∷ name.now }
{
    name_over(bytes, at, name)
}

/// Lays a name of up to three bytes over the bytes from a place on.
#[inline(always)]
fn lay_short(bytes: &mut Vec<u8>, at: usize, name: &[u8]) -> usize
    requires room { at + 3 ≤ length bytes.old.items }
    requires some { 1 ≤ length name.now }
    requires short { length name.now ≤ 3 }
    ensures within { result ≤ length bytes.new.items }
    ensures written { take result bytes.new.items ≡ take at bytes.old.items ++ name.now }
{
    short_over(bytes, at, name)
}

impl Bytes {
    /// None. Takes no memory.
    pub fn new(alloc: Global) -> Bytes
        ensures { result ≡ [] }
    {
        Bytes {
            laid: Vec::new(alloc),
            used: 0,
        }
    }

    pub fn len(&self) -> usize
        ensures { result ≡ length self.now }
    {
        self.used
    }

    pub fn items(&self) -> &[u8]
        ensures { result.now ≡ self.now }
    {
        &self.laid[..self.used]
    }

    pub fn clear(&mut self)
        ensures { self.new ≡ [] }
    {
        self.used = 0;
    }

    /// Takes off what stands behind so many bytes.
    #[tactic(auto, using(crate::proofs::Laid::cut_again))]
    pub fn cut(&mut self, count: usize)
        requires { count ≤ length self.old }
        ensures { self.new ≡ take count self.old }
    {
        self.used = count;
    }

    pub fn into_vec(self) -> Vec<u8>
        ensures { result.items ≡ self }
    {
        let mut laid = self.laid;
        laid.truncate(self.used);
        laid
    }

    // Adds a piece for which there is no room, and lays out room behind it.
    #[cold]
    #[inline(never)]
    fn append(&mut self, piece: &[u8]) -> Result<(), Memory>
        ensures ok { OnOk result (self.new ≡ self.old ++ piece.now) }
    {
        self.laid.truncate(self.used);
        // Memory for both is asked for once. Without it there may still be some for the piece.
        let _ = self.laid.reserve(piece.len() + room_behind(self.used));
        self.laid.extend_from_slice(piece)?;
        self.used = self.laid.len();
        lay_out(&mut self.laid);
        Ok(())
    }

    /// Adds a piece.
    #[inline(always)]
    pub fn put(&mut self, piece: &[u8]) -> Result<(), Memory>
        ensures ok { OnOk result (self.new ≡ self.old ++ piece.now) }
    {
        if self.laid.len() - self.used < piece.len() {
            return self.append(piece);
        }
        lay(&mut self.laid, self.used, piece);
        self.used += piece.len();
        Ok(())
    }

    /// Adds a byte.
    #[tactic(auto, using(std::proofs::lemmas::List::take_more_set))]
    #[inline(always)]
    pub fn byte(&mut self, byte: u8) -> Result<(), Memory>
        ensures ok { OnOk result (self.new ≡ self.old ++ byte ∷ []) }
    {
        if self.laid.len() == self.used {
            return self.append(&[byte]);
        }
        self.laid[self.used] = byte;
        self.used += 1;
        Ok(())
    }

    // Adds a number that is long, or for which there is no room.
    #[cold]
    fn long_digits(&mut self, n: u64) -> Result<(), Memory>
        ensures ok { OnOk result (self.new ≡ self.old ++ decimal n) }
    {
        let mut buffer = Buffer::new();
        self.put(buffer.format(n).as_bytes())
    }

    /// Adds a number.
    pub fn digits(&mut self, n: u64) -> Result<(), Memory>
        ensures ok { OnOk result (self.new ≡ self.old ++ decimal n) }
    {
        if n >= 100_000_000 {
            return self.long_digits(n);
        }
        if self.laid.len() - self.used < 8 {
            return self.long_digits(n);
        }
        self.used = lay_digits(&mut self.laid, self.used, n);
        Ok(())
    }

    // The same behind a space.
    #[cold]
    fn long_number(&mut self, n: u64) -> Result<(), Memory>
        ensures ok { OnOk result (self.new ≡ self.old ++ 32 ∷ decimal n) }
    {
        self.byte(b' ')?;
        self.long_digits(n)
    }

    /// Adds a number behind a space.
    pub fn number(&mut self, n: u64) -> Result<(), Memory>
        ensures ok { OnOk result (self.new ≡ self.old ++ 32 ∷ decimal n) }
    {
        if n >= 100_000_000 {
            return self.long_number(n);
        }
        if self.laid.len() - self.used < 9 {
            return self.long_number(n);
        }
        self.used = lay_number(&mut self.laid, self.used, n);
        Ok(())
    }

    // Adds a name that is long, or for which there is no room, behind a space.
    #[cold]
    #[inline(never)]
    fn long_name(&mut self, name: &[u8]) -> Result<(), Memory>
        ensures ok { OnOk result (self.new ≡ self.old ++ 32 ∷ name.now) }
    {
        self.byte(b' ')?;
        self.put(name)
    }

    /// Adds a name behind a space. A short one is copied without a loop.
    pub fn name(&mut self, name: &[u8]) -> Result<(), Memory>
        ensures ok { OnOk result (self.new ≡ self.old ++ 32 ∷ name.now) }
    {
        if name.is_empty() || name.len() > 3 {
            return self.long_name(name);
        }
        if self.laid.len() - self.used < 4 {
            return self.long_name(name);
        }
        self.used = lay_name(&mut self.laid, self.used, name);
        Ok(())
    }

    /// Adds a name. A short one is copied without a loop.
    pub fn short(&mut self, name: &[u8]) -> Result<(), Memory>
        ensures ok { OnOk result (self.new ≡ self.old ++ name.now) }
    {
        if name.is_empty() || name.len() > 3 {
            return self.put(name);
        }
        if self.laid.len() - self.used < 3 {
            return self.put(name);
        }
        self.used = lay_short(&mut self.laid, self.used, name);
        Ok(())
    }
}
