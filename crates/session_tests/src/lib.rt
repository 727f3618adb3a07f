//! Tests of the tool over scripts in memory: the worked runs of docs/EXAMPLES.md, and how a run ends otherwise; and of the
//! sources and sinks that it is given. They stand in a crate of their own so that the sessions aren't proved once more
//! with them.
#![tactic(auto)]

#[cfg(test)]
mod checkpoint_tests;
#[cfg(test)]
mod command_tests;
#[cfg(test)]
mod did_tests;
#[cfg(test)]
mod dump_tests;
#[cfg(test)]
mod freeze_tests;
#[cfg(test)]
mod gate_tests;
#[cfg(test)]
mod gates;
#[cfg(test)]
mod gen_tests;
#[cfg(test)]
mod horizon_tests;
#[cfg(test)]
mod lives_tests;
#[cfg(test)]
mod multi_tests;
#[cfg(test)]
mod recorder;
#[cfg(test)]
mod round_tests;
#[cfg(test)]
mod run_tests;
#[cfg(test)]
mod runs;
#[cfg(test)]
mod status_tests;
#[cfg(test)]
mod stream_tests;
#[cfg(test)]
mod test_help;
#[cfg(test)]
mod turn_tests;
#[cfg(test)]
mod turns;
