//! What a call answers whose log refused.
ghost use Rattle.std.specs.Prelude.{ℕ, ◌≢◌};
ghost use Rattle.wal_core.specs.declared.refusal.LogRefusal.TheVariants as refused;
ghost use Rattle.log_sections.specs.LogSections.{IsRefusalOf};

use tx_events::Refusal;
use wal_core::LogRefusal;

/// The refusal of a call whose append or flush was refused. A log that was opened isn't damaged.
pub fn refusal_of(refusal: LogRefusal) -> Refusal
    requires { (place : ℕ) → refusal ≢ refused.Damaged place }
    ensures { IsRefusalOf refusal result }
{
    match refusal {
        LogRefusal::LogFault => Refusal::LogFault,
        LogRefusal::LogDown { at } => Refusal::LogDown { at },
        LogRefusal::Full => Refusal::Full,
        LogRefusal::Memory => Refusal::Memory,
        LogRefusal::Damaged { .. } => unreachable!(),
    }
}
