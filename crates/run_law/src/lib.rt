//! What a run of a script has to answer: which scripts a life can run, why bytes are refused, and what the report of a
//! script is. docs/GUARANTEES.md tells it in words.
#![tactic(auto)]
