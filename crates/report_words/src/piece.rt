//! The pieces of a word, with colons between them.
ghost use Rattle.std.specs.Prelude.{◌≡◌, ◌≤◌, ◌∷◌, length, not, take, drop, IfErr};
ghost use Rattle.std.specs.List.{prefix_len};
ghost use Rattle.report_words.specs.Reading.{Gives, word_at};
ghost use Rattle.report_words.specs.Members.{is_colon, pieces, beyond, small};

use crate::unread::Unread;

/// How many bytes stand before the first colon, or in all.
#[tactic(auto, using(std::proofs::lemmas::List::Sums::prefix_len_is))]
fn piece_len(bytes: &[u8]) -> usize
    ensures within { result ≤ length bytes.now }
    ensures value { result ≡ prefix_len (λ b. not (is_colon b)) bytes.now }
{
    for (i, b) in bytes.iter().enumerate() {
        if *b == b':' {
            return i;
        }
    }
    bytes.len()
}

/// The first piece of a word, and the place behind it.
#[tactic(auto, using(crate::proofs::Pieces::split_first_piece))]
pub fn first_piece(word: &[u8]) -> (&[u8], &[u8])
    ensures { pieces word.now ≡ result.0.now ∷ beyond result.1.now }
{
    word.split_at(piece_len(word))
}

/// The next piece, and the place behind it.
pub fn piece_at(rest: &[u8]) -> Result<(&[u8], &[u8]), Unread>
    ensures { Gives (λ x. (x.0.now, beyond x.1.now)) result (word_at (beyond rest.now)) }
{
    match rest {
        [] => Err(Unread::Form),
        [_, tail @ ..] => Ok(first_piece(tail)),
    }
}

/// A number of 32 bits.
pub fn small(number: u64) -> Result<u32, Unread>
    ensures { Gives (λ x. x) result (small number) }
{
    match u32::try_from(number) {
        Ok(n) => Ok(n),
        Err(_e) => Err(Unread::Form),
    }
}
