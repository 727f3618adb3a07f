//! Tests of scripts and of reports as text, from the rows of their format, and of the generated scripts
//! (docs/SCRIPT-AND-REPORT.md). They stand in a crate of their own so that neither readers, printer nor generator is proved
//! once more with them.
#![tactic(auto)]

#[cfg(test)]
mod generated;
#[cfg(test)]
mod help;
#[cfg(test)]
mod piece_tests;
#[cfg(test)]
mod replies;
#[cfg(test)]
mod report_tests;
#[cfg(test)]
mod report_texts;
#[cfg(test)]
mod reports;
#[cfg(test)]
mod script_tests;
#[cfg(test)]
mod scripts;
