//! The bytes of a line, its words, names and numbers.
ghost use Rattle.std.specs.Prelude.{◌≡◌, ◌≤◌, ◌<◌, ◌∷◌, [], length, not, IfSome, IfNone, drop};
ghost use Rattle.std.specs.List.{prefix_len, list_all};
ghost use Rattle.std.specs.Str.{bytes_eq};
ghost use Rattle.script_lines.specs.LineWords.{is_blank, is_word, words_in, next, number_from, number_of, is_line_byte, is_plain};

/// Whether a byte is a blank. Most bytes of a line are past both.
fn is_blank(b: u8) -> bool
    ensures { result ≡ is_blank b }
{
    b <= b' ' && (b == b' ' || b == b'\t')
}

/// How many blanks stand at the front.
#[tactic(auto, using(std::proofs::lemmas::List::Sums::prefix_len_is))]
fn blanks(bytes: &[u8]) -> usize
    ensures within { result ≤ length bytes.now }
    ensures value { result ≡ prefix_len is_blank bytes.now }
{
    for (i, b) in bytes.iter().enumerate() {
        if !is_blank(*b) {
            return i;
        }
    }
    bytes.len()
}

/// How many bytes stand before the first blank, or in all.
#[tactic(auto, using(std::proofs::lemmas::List::Sums::prefix_len_is))]
fn word_len(bytes: &[u8]) -> usize
    ensures within { result ≤ length bytes.now }
    ensures value { result ≡ prefix_len (λ b. not (is_blank b)) bytes.now }
{
    for (i, b) in bytes.iter().enumerate() {
        if is_blank(*b) {
            return i;
        }
    }
    bytes.len()
}

/// The next word, and what stands behind it.
pub fn next_word(line: &[u8]) -> Option<(&[u8], &[u8])>
    ensures some { IfSome result (λ r. words_in line.now ≡ r.0.now ∷ words_in r.1.now) }
    ensures word { IfSome result (λ r. 0 < length r.0.now) }
    ensures shorter { IfSome result (λ r. length r.1.now < length line.now) }
    ensures none { IfNone result (words_in line.now ≡ []) }
{
    let (_blanks, rest) = line.split_at(blanks(line));
    if rest.is_empty() {
        return None;
    }
    Some(rest.split_at(word_len(rest)))
}

/// Whether a word is this one. Most that aren't differ in length.
#[tactic(auto, using(crate::proofs::WordLemmas::other_length))]
pub fn is_same(word: &[u8], other: &[u8]) -> bool
    ensures { result ≡ bytes_eq word.now other.now }
{
    word.len() == other.len() && word == other
}

fn next(n: u64, digit: u64) -> Option<u64>
    ensures { result ≡ next n digit }
{
    if digit > 9 {
        return None;
    }
    n.checked_mul(10)?.checked_add(digit)
}

fn number_from(word: &[u8]) -> Option<u64>
    ensures { result ≡ number_from 0 word.now }
{
    let mut n: u64 = 0;
    for b in word {
        match next(n, u64::from(b.wrapping_sub(b'0'))) {
            Some(more) => n = more,
            None => return None,
        }
    }
    Some(n)
}

/// What the word says, where it is a NUMBER, of 1 to 20 digits, and is below 2^64.
pub fn number_of(word: &[u8]) -> Option<u64>
    ensures { result ≡ number_of word.now }
{
    if !word.is_empty() && word.len() <= 20 {
        number_from(word)
    } else {
        None
    }
}

fn is_line_byte(b: u8) -> bool
    ensures { result ≡ is_line_byte b }
{
    (b' ' <= b && b <= b'~') || b == b'\t'
}

/// Whether a line has no bytes but printable ASCII and tabs.
#[tactic(auto, using(std::proofs::lemmas::List::Folds::list_all_more, std::proofs::lemmas::List::Folds::list_all_at))]
pub fn is_plain(line: &[u8]) -> bool
    ensures { result ≡ is_plain line.now }
{
    for b in line {
        if !is_line_byte(*b) {
            return false;
        }
    }
    true
}
