//! Pieces of a line that are spelled as a report spells them.
ghost use Rattle.std.specs.Prelude.{◌≡◌, ◌+◌, ◌≤◌, [], ◌∷◌, ◌++◌, IfSome, true};
ghost use Rattle.std.specs.Fmt.{decimal};
ghost use Rattle.tx_events.specs.Names.{IsName};
ghost use Rattle.report_words.specs.Fits.{FitsId, FitsMulti};

use tx_events::{FullMulti, FullXid};
use tx_model::{Name, is_name};

/// What is behind this piece, where the bytes begin with it.
#[inline(always)]
pub fn behind_piece<'a>(bytes: &'a [u8], piece: &[u8]) -> Option<&'a [u8]>
    ensures { IfSome result (λ rest. bytes.now ≡ piece.now ++ rest.now) }
{
    if bytes.len() < piece.len() {
        return None;
    }
    let (front, rest) = bytes.split_at(piece.len());
    if front == piece { Some(rest) } else { None }
}

/// What is behind this byte, where the bytes begin with it.
#[inline(always)]
pub fn behind_byte(bytes: &[u8], byte: u8) -> Option<&[u8]>
    ensures { IfSome result (λ rest. bytes.now ≡ byte ∷ rest.now) }
{
    match bytes {
        [] => None,
        [first, rest @ ..] => { if *first == byte { Some(rest) } else { None } }
    }
}

/// Whether the bytes are these.
#[inline(always)]
pub fn is_piece(bytes: &[u8], piece: &[u8]) -> bool
    ensures { result ≡ true → bytes.now ≡ piece.now }
{
    bytes == piece
}

/// Whether only the line's end is left.
#[inline(always)]
pub fn is_end(bytes: &[u8]) -> bool
    ensures { result ≡ true → bytes.now ≡ 10 ∷ [] }
{
    match bytes {
        [end] => *end == b'\n',
        _ => false,
    }
}

/// The digit at the front, and what is behind it.
#[tactic(auto, using(crate::proofs::Digits::digit_byte))]
#[inline(always)]
fn digit_at(bytes: &[u8]) -> Option<(u64, &[u8])>
    ensures text { IfSome result (λ x. bytes.now ≡ (48 + x.0) ∷ x.1.now) }
    ensures small { IfSome result (λ x. x.0 ≤ 9) }
{
    match bytes {
        [] => None,
        [first, rest @ ..] => {
            let digit = first.wrapping_sub(b'0');
            if digit > 9 {
                return None;
            }
            Some((u64::from(digit), rest))
        }
    }
}

/// The number at the front, and what is behind it. One of many digits isn't read, nor is 0.
#[tactic(auto, using(crate::proofs::Digits::first_digit, crate::proofs::Digits::next_digit))]
#[inline(always)]
pub fn spelled_number(bytes: &[u8]) -> Option<(u64, &[u8])>
    ensures { IfSome result (λ x. bytes.now ≡ decimal x.0 ++ x.1.now) }
{
    let (first, rest) = digit_at(bytes)?;
    if first == 0 {
        return None;
    }
    let mut number = first;
    let mut rest = rest;
    while let Some((digit, behind)) = digit_at(rest) {
        if number >= 1 << 60 {
            return None;
        }
        number = number * 10 + digit;
        rest = behind;
    }
    Some((number, rest))
}

/// The number behind this piece, and what is behind it.
#[inline(always)]
pub fn named_number<'a>(bytes: &'a [u8], piece: &[u8]) -> Option<(u64, &'a [u8])>
    ensures { IfSome result (λ x. bytes.now ≡ piece.now ++ (decimal x.0 ++ x.1.now)) }
{
    let rest = behind_piece(bytes, piece)?;
    let (number, rest) = spelled_number(rest)?;
    Some((number, rest))
}

/// The number behind a space, and what is behind it.
#[inline(always)]
pub fn next_number(bytes: &[u8]) -> Option<(u64, &[u8])>
    ensures { IfSome result (λ x. bytes.now ≡ 32 ∷ (decimal x.0 ++ x.1.now)) }
{
    let rest = behind_byte(bytes, b' ')?;
    let (number, rest) = spelled_number(rest)?;
    Some((number, rest))
}

/// The id of this number.
#[inline(always)]
pub fn id_of(number: u64) -> Option<FullXid>
    ensures { IfSome result (λ id. (id ≡ number) × FitsId id) }
{
    FullXid::new(number)
}

/// The multixact of this number.
#[inline(always)]
pub fn multi_of(number: u64) -> Option<FullMulti>
    ensures { IfSome result (λ multi. (multi ≡ number) × FitsMulti multi) }
{
    FullMulti::new(number)
}

/// The name at the front, and what is behind the byte that ends it.
#[inline(always)]
pub fn spelled_name(bytes: &[u8], end: u8) -> Option<(Name, &[u8])>
    ensures { IfSome result (λ x. (bytes.now ≡ x.0 ++ end ∷ x.1.now) × IsName x.0) }
{
    for (i, b) in bytes.iter().enumerate() {
        if *b == end {
            let word = &bytes[..i];
            if !is_name(word) {
                return None;
            }
            return Some((Name::of(word), &bytes[i + 1..]));
        }
    }
    None
}
