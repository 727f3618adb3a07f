//! A media that can't be mounted.
use crate::runs::run_in;
use std::fs;

const TEXT: &str = "a file\n";

/// Whether the file has this text alone.
fn holds(files: &HostRuntime, path: &str, text: &str) -> bool {
    match fs::read(files, path) {
        Ok(bytes) => bytes.as_slice() == text.as_bytes(),
        Err(_) => false,
    }
}

/// The folder's name is that of a file, which stays as it was. No life was begun, so the status line stands alone.
#[test]
fn a_life_is_not_opened_where_a_file_has_the_folders_name(rt: HostRuntime) {
    let is_written = fs::write(&rt, "no_folder", TEXT.as_bytes()).is_ok();
    assert!(rt; is_written);
    let run = run_in(&rt, rt, "no_folder", "a begin\n");
    let is_refused = run.status == 5 && run.written.as_str() == "device\n";
    assert!(rt; is_refused, "{} {}", run.status, run.written);
    assert!(rt; holds(&rt, "no_folder", TEXT));
    let is_gone = fs::remove_file(&rt, "no_folder").is_ok();
    assert!(rt; is_gone);
}
