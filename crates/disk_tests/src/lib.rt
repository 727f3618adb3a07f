//! Tests of volumes in memory, of a fuse over them, and of volumes in a folder of files, on the files of the machine: what no
//! clause says, worked out by hand (docs/DISKS.md). They stand in a crate of their own so that the disks aren't proved once
//! more with them.
#![tactic(auto)]

#[cfg(test)]
mod calls;
#[cfg(test)]
mod folder_tests;
#[cfg(test)]
mod folders;
#[cfg(test)]
mod memory_tests;
