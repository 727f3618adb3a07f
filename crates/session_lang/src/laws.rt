//! Laws of reading. The functions do nothing; their contracts are the laws.
ghost use Rattle.std.specs.Prelude.{◌≡◌, ℕ, List, Ok};
ghost use Rattle.script_lines.specs.declared.header.Header.{Header};
ghost use Rattle.session_lang.specs.declared.script.Script.{Script};
ghost use Rattle.session_lang.specs.Plain.{IsPlainText};
ghost use Rattle.session_lang.specs.Script.{read_script};

/// The plain text of a script is read as that script: its header's lines, and then a line for each command and directive,
/// words with one space between them and numbers without leading zeros.
#[tactic(auto, using(crate::proofs::PlainText::plain_text_read))]
pub fn plain_text_is_read_again()
    ensures { (h : Header) (s : Script) (bytes : List ℕ) → IsPlainText h s bytes → read_script bytes ≡ Ok s }
{}
