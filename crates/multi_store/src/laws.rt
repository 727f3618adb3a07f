// The laws of a legal history of multixacts, for whoever keeps its counters elsewhere.
ghost use Rattle.std.specs.Prelude.{List, [], ◌∷◌, ◌++◌};
ghost use Rattle.tx_events.specs.declared.multi.MultiEvent.{MultiEvent};
ghost use Rattle.tx_events.specs.declared.record.Counters.{Counters};
ghost use Rattle.tx_events.specs.Base.{IsBase};
ghost use Rattle.tx_events.specs.Multis.{AreLegalMultis, InBase, multi_counters};
ghost use Rattle.multi_store.specs.Generator.{CountersRise};

/// The counters that a legal history of multixacts gives are a base again.
pub fn counters_stay_a_base()
    ensures { (base : Counters) (h : List MultiEvent) → IsBase base → AreLegalMultis base (InBase base) h → IsBase (multi_counters base h) }
{}

/// No event of a legal history of multixacts lowers a counter.
pub fn counters_never_fall()
    ensures { (base : Counters) (h : List MultiEvent) (e : MultiEvent) → IsBase base → AreLegalMultis base (InBase base) (h ++ e ∷ []) → CountersRise (multi_counters base h) (multi_counters base (h ++ e ∷ [])) }
{}
