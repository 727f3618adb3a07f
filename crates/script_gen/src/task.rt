//! What the words of the command line ask for.
ghost use Rattle.std.specs.Prelude.{◌≡◌, ◌↔◌, IfNone, IfSome, IsTrue, codes, map, string_bytes};
ghost use Rattle.run_law.specs.Tool.{IsRun};
ghost use Rattle.script_gen.specs.Tasks.{IsAccepted, IsTask};

use crate::words::{Asked, gen_words};

/// What is asked for.
#[derive(Clone, Copy)]
pub enum Task {
    /// A run of the source's script, with its report.
    Run,
    /// A run of the script of this seed and so many transactions, with its summary.
    Gen { seed: u32, size: u32 },
}

fn is_run_word(word: &String) -> bool
    ensures { IsTrue result ↔ (string_bytes word.now ≡ codes "run") }
{
    word.as_str() == "run"
}

fn is_run(words: &[String]) -> bool
    ensures { IsTrue result ↔ IsRun (map string_bytes words.now) }
{
    match words {
        [word] => is_run_word(word),
        _ => false,
    }
}

/// What the words ask for, if they are accepted.
pub fn task_of(words: &[String]) -> Option<Task>
    ensures is { IfSome result (λ task. IsTask (map string_bytes words.now) task) }
    ensures only { IfNone result (IsAccepted (map string_bytes words.now) → ⊥) }
{
    if is_run(words) {
        return Some(Task::Run);
    }
    match gen_words(words) {
        Some(Asked { seed, size }) => Some(Task::Gen { seed, size }),
        None => None,
    }
}
