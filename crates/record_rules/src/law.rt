//! A life's start goes by the life before it alone.
ghost use Rattle.std.specs.Prelude.{◌↔◌, ◌++◌, ◌∷◌, [], List};
ghost use Rattle.tx_model.specs.declared.report.Life.{Life};
ghost use Rattle.tx_model.specs.declared.report.LifeReport.{LifeReport};
ghost use Rattle.report_law.specs.Begun.{IsLawfulStart};
ghost use Rattle.record_rules.specs.Behind.{BeginsBehind, BeginsLog};

/// Which start is lawful: of the first life one that begins a log, of a later one what the life before it gives, where
/// that one's start was lawful.
pub fn starts_go_by_the_last()
    ensures first { (life : Life) → IsLawfulStart [] life ↔ BeginsLog life }
    ensures later { (before : List LifeReport) (last : LifeReport) (life : Life) → IsLawfulStart before last.life → IsLawfulStart (before ++ last ∷ []) life ↔ BeginsBehind last life }
{}
