//! Whether a life tells that a volume failed.
ghost use Rattle.std.specs.Prelude.{◌≡◌};
ghost use Rattle.std.specs.List.{list_any};
ghost use Rattle.report_law.specs.Dumps.{is_fault, is_faulty_step};

use tx_events::Refusal;
use tx_model::{KeptLine, Reply, Step};

fn is_fault(reply: &Reply) -> bool
    ensures { result ≡ is_fault reply.now }
{
    match reply {
        Reply::Refused { refusal } => match refusal {
            Refusal::DiskFault { .. } => true,
            Refusal::LogFault => true,
            _ => false,
        },
        _ => false,
    }
}

fn is_any_faulty(lines: &[KeptLine]) -> bool
    ensures { result ≡ list_any (λ l. is_fault l.reply) lines.now }
{
    for line in lines {
        let look = line.reply();
        if is_fault(look.reply()) {
            return true;
        }
    }
    false
}

fn is_faulty_step(step: &Step) -> bool
    ensures { result ≡ is_faulty_step step.now }
{
    match step {
        Step::Round { lines, .. } => is_any_faulty(lines.items()),
        Step::Checkpoint { reply } => is_fault(reply.reply()),
        Step::Dump { reply, .. } => is_fault(reply.reply()),
    }
}

/// Whether some volume is told to have failed in these steps.
pub fn is_any_fault(steps: &[Step]) -> bool
    ensures { result ≡ list_any is_faulty_step steps.now }
{
    for step in steps {
        if is_faulty_step(step) {
            return true;
        }
    }
    false
}
