//! Whether the log's volume is told to have failed.
ghost use Rattle.std.specs.Prelude.{◌≡◌, ◌↔◌, ◌||◌, IsTrue};
ghost use Rattle.std.specs.List.{flat_map, list_any};
ghost use Rattle.tx_model.specs.Rounds.{lines_in};
ghost use Rattle.life_law.specs.Facts.{has_log_fault, is_checkpoint_fault, is_log_fault};
ghost use Rattle.report_law.specs.Answers.{AreLogFaults};

use tx_events::Refusal;
use tx_model::{KeptLine, Reply, Step};

fn is_log_fault(reply: &Reply) -> bool
    ensures { result ≡ is_log_fault reply.now }
{
    match reply {
        Reply::Refused { refusal } => matches!(refusal, Refusal::LogFault),
        _ => false,
    }
}

fn has_log_fault(lines: &[KeptLine]) -> bool
    ensures { result ≡ has_log_fault lines.now }
{
    for line in lines {
        let look = line.reply();
        if is_log_fault(look.reply()) {
            return true;
        }
    }
    false
}

fn is_faulty(step: &Step) -> bool
    ensures { result ≡ (has_log_fault (lines_in step.now) || is_checkpoint_fault step.now) }
{
    match step {
        Step::Round { lines, .. } => has_log_fault(lines.items()),
        Step::Checkpoint { reply } => is_log_fault(reply.reply()),
        _ => false,
    }
}

/// Whether a command or a checkpoint of these steps was answered that the log's volume failed.
pub fn are_log_faults(steps: &[Step]) -> bool
    ensures { IsTrue result ↔ AreLogFaults (flat_map lines_in steps.now) steps.now }
{
    for step in steps {
        if is_faulty(step) {
            return true;
        }
    }
    false
}
