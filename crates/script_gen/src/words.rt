//! The words `gen SEED SIZE`.
ghost use Rattle.std.specs.Prelude.{◌≡◌, ◌↔◌, ℕ, IfNone, IfSome, IsTrue, Some, codes, map, string_bytes};
ghost use Rattle.script_gen.specs.Laws.{most_transactions};
ghost use Rattle.script_gen.specs.Words.{IsGen, greatest_seed, number_up_to};

use script_lines::number_in;

/// The greatest seed, one below the modulus of the draws.
const GREATEST_SEED: u32 = 2147483646;

/// The most transactions.
const MOST_TRANSACTIONS: u32 = 100000;

/// Which script is asked for.
#[derive(Clone, Copy)]
pub struct Asked {
    /// 1 to 2147483646.
    pub seed: u32,
    /// How many transactions, 1 to 100,000.
    pub size: u32,
}

fn is_gen_word(word: &String) -> bool
    ensures { IsTrue result ↔ (string_bytes word.now ≡ codes "gen") }
{
    word.as_str() == "gen"
}

/// The number from 1 to `most` that a word of 1 to 10 digits spells.
fn number_up_to(most: u32, word: &String) -> Option<u32>
    ensures { result ≡ number_up_to most (string_bytes word.now) }
{
    let digits = word.as_bytes();
    if digits.len() > 10 {
        return None;
    }
    match number_in(1, u64::from(most), digits) {
        Ok(n) => Some(n as u32),
        Err(_) => None,
    }
}

fn asked_by(name: &String, seed: &String, size: &String) -> Option<Asked>
    ensures is { IfSome result (λ asked. (string_bytes name.now ≡ codes "gen")
        × (number_up_to greatest_seed (string_bytes seed.now) ≡ Some asked.seed)
        × (number_up_to most_transactions (string_bytes size.now) ≡ Some asked.size)) }
    ensures only { IfNone result ((n k : ℕ) → string_bytes name.now ≡ codes "gen"
        → number_up_to greatest_seed (string_bytes seed.now) ≡ Some n
        → number_up_to most_transactions (string_bytes size.now) ≡ Some k → ⊥) }
{
    if !is_gen_word(name) {
        return None;
    }
    let seed = number_up_to(GREATEST_SEED, seed)?;
    let size = number_up_to(MOST_TRANSACTIONS, size)?;
    Some(Asked { seed, size })
}

/// Which script the words ask for, if they are `gen SEED SIZE`: SEED 1 to 10 decimal digits, from 1 to 2147483646, and
/// SIZE as many, from 1 to 100,000.
pub fn gen_words(words: &[String]) -> Option<Asked>
    ensures is { IfSome result (λ asked. IsGen (map string_bytes words.now) asked.seed asked.size) }
    ensures only { IfNone result ((seed size : ℕ) → IsGen (map string_bytes words.now) seed size → ⊥) }
{
    match words {
        [name, seed, size] => asked_by(name, seed, size),
        _ => None,
    }
}
