//! Folders that a log is put into.
use crate::runs::{Ran, run_in};
use std::alloc::AllocGlobal;
use std::process::Abort;
use std::sync::Wait;
use std::thread::Threads;
use std::{fs, io};

/// Takes away a folder that an earlier run of a test left.
pub fn clear(rt: &impl Abort, files: &HostRuntime, path: &str) {
    let is_gone = match fs::remove_dir_all(files, path) {
        Err(error) => error.kind() == io::ErrorKind::NotFound,
        Ok(()) => true,
    };
    assert!(rt; is_gone, "{path} stands");
}

/// Writes a file of a folder.
fn write(
    rt: &(impl Abort + AllocGlobal),
    files: &HostRuntime,
    folder: &str,
    name: &str,
    bytes: &[u8],
) {
    let path = format!(in rt.alloc(); "{folder}/{name}").expect(rt, "memory");
    let written = fs::write(files, path.as_str(), bytes);
    assert!(rt; written.is_ok(), "{path} can't be written");
}

/// Runs a script over a folder of one bank with this log, and no pages.
pub fn run_behind(
    rt: &(impl Abort + AllocGlobal + Threads + Wait + Sync),
    files: HostRuntime,
    folder: &str,
    log: &[u8],
    script: &str,
) -> Ran {
    clear(rt, &files, folder);
    let made = fs::create_dir(&files, folder);
    assert!(rt; made.is_ok(), "{folder} can't be made");
    write(rt, &files, folder, "log", log);
    write(rt, &files, folder, "start", &[0; 8]);
    write(rt, &files, folder, "banks", &[1, 0, 0, 0, 0, 0, 0, 0]);
    run_in(rt, files, folder, script)
}
