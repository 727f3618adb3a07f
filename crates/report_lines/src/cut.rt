//! Lines are cut off a text, one by one.
ghost use Rattle.std.specs.Prelude.{◌≡◌, ◌≤◌, ◌==◌, not, List, ℕ, IfNone, IfSome, drop, length};
ghost use Rattle.std.specs.List.{prefix_len};
ghost use Rattle.report_lines.specs.Front.{IsCut, IsLine, first_line};

/// How many bytes stand before the first line's end, or in all.
#[tactic(auto, using(std::proofs::lemmas::List::Sums::prefix_len_is))]
fn line_len(bytes: &[u8]) -> usize
    ensures within { result ≤ length bytes.now }
    ensures value { result ≡ prefix_len (λ b. not (b == 10)) bytes.now }
{
    for (i, b) in bytes.iter().enumerate() {
        if *b == b'\n' {
            return i;
        }
    }
    bytes.len()
}

/// The next line, with the byte before it, and what begins with its end. None where no line's end follows.
pub fn next_line(rest: &[u8]) -> Option<(&[u8], &[u8])>
    requires { 1 ≤ length rest.now }
    ensures some { IfSome result (λ x. IsCut rest.now x.0.now x.1.now) }
    ensures none { IfNone result ((l : List ℕ) → IsLine l → first_line (drop 1 rest.now) ≡ l → ⊥) }
{
    let len = line_len(&rest[1..]);
    if len + 1 >= rest.len() {
        return None;
    }
    Some((&rest[..len + 2], &rest[len + 1..]))
}
