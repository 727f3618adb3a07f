//! Tests of the judgement of reports, from the worked rows of the format (docs/CHECKER.md).
#![tactic(auto)]

#[cfg(test)]
mod judge_tests;
#[cfg(test)]
mod multi_rows;
#[cfg(test)]
mod run_rows;
