//! Tests of the tool over medias: devices that fail, logs that aren't new, and rounds on threads. What
//! they expect is worked out by hand from docs/SCRIPT-AND-REPORT.md, docs/LOG.md and docs/PAGES.md.
#![tactic(auto)]

#[cfg(test)]
mod again_tests;
#[cfg(test)]
mod bank_fault_tests;
#[cfg(test)]
mod checkpoint_tests;
#[cfg(test)]
mod crash_tests;
#[cfg(test)]
mod device_tests;
#[cfg(test)]
mod fail_once_tests;
#[cfg(test)]
mod folder_help;
#[cfg(test)]
mod log_tests;
#[cfg(test)]
mod mount_tests;
#[cfg(test)]
mod rows;
#[cfg(test)]
mod runs;
#[cfg(test)]
mod stopped_tests;
#[cfg(test)]
mod thread_tests;
#[cfg(test)]
mod whole_help;
