//! What is done with folders and files, and with volumes in a folder.
use crate::calls::{Answer, Call, Mounted};
use disk_core::MountRefusal;
use disk_folder::FolderMedia;
use std::os::unix::fs as unix_fs;
use std::process::Abort;
use std::{fs, io};

#[derive(Clone, Copy)]
pub enum Step<'a> {
    /// A mount that asks for so many banks of a folder.
    Mount(u32, &'a str),
    /// One that fails.
    Refused(u32, &'a str),
    /// What is mounted is let go.
    Leave,
    /// Calls of what is mounted.
    Calls(&'a [(Call<'a>, Answer)]),
    /// A file is written.
    Put(&'a str, &'a [u8]),
    /// A link to the second path.
    Link(&'a str, &'a str),
    Unlink(&'a str),
    /// A folder is made, or taken away with all its files, if it is there.
    Make(&'a str),
    Clear(&'a str),
    /// Whether there is such a file.
    Exists(&'a str, bool),
    /// A file's bytes, or the one byte of which a page is made.
    Holds(&'a str, &'a [u8]),
    PageOf(&'a str, u8),
}

/// A folder's volumes, if they are mounted.
#[derive(Drop)]
pub struct Folder {
    files: HostRuntime,
    mounted: Option<Mounted<FolderMedia<HostRuntime>>>,
}

impl Folder {
    pub fn new(files: HostRuntime) -> Folder {
        Folder {
            files,
            mounted: None,
        }
    }

    /// Mounts so many banks of another folder, or tells why not.
    fn mount(
        &mut self,
        rt: &(impl Abort + AllocGlobal),
        banks: u32,
        path: &str,
    ) -> Option<MountRefusal> {
        self.mounted = None;
        let path = String::from_str(rt.alloc(), path).expect(rt, "memory");
        let media = FolderMedia::new(self.files, rt.alloc(), path);
        match Mounted::new(rt, media, banks) {
            Ok(mounted) => {
                self.mounted = Some(mounted);
                None
            }
            Err(refusal) => Some(refusal),
        }
    }

    /// Takes away what an earlier run of the test left.
    fn clear(&self, path: &str) -> bool {
        match fs::remove_dir_all(&self.files, path) {
            Err(error) => error.kind() == io::ErrorKind::NotFound,
            Ok(()) => true,
        }
    }

    fn holds(&self, path: &str, wanted: &[u8]) -> bool {
        match fs::read(&self.files, path) {
            Ok(bytes) => bytes.as_slice() == wanted,
            Err(_) => false,
        }
    }

    /// Whether a step of a row goes as it says.
    pub fn step(&mut self, rt: &(impl Abort + AllocGlobal), row: &str, step: Step<'_>) -> bool {
        let files = &self.files;
        match step {
            Step::Mount(banks, path) => self.mount(rt, banks, path).is_none(),
            Step::Refused(banks, path) => {
                self.mount(rt, banks, path) == Some(MountRefusal::Failed)
            }
            Step::Leave => {
                self.mounted = None;
                true
            }
            Step::Calls(calls) => match &mut self.mounted {
                Some(mounted) => {
                    mounted.check(rt, row, calls);
                    true
                }
                None => false,
            },
            Step::Put(path, bytes) => fs::write(files, path, bytes).is_ok(),
            Step::Link(path, to) => unix_fs::symlink(files, to, path).is_ok(),
            Step::Unlink(path) => fs::remove_file(files, path).is_ok(),
            Step::Make(path) => fs::create_dir(files, path).is_ok(),
            Step::Clear(path) => self.clear(path),
            Step::Exists(path, wanted) => fs::exists(files, path).ok() == Some(wanted),
            Step::Holds(path, wanted) => self.holds(path, wanted),
            Step::PageOf(path, byte) => self.holds(path, [byte; 8192].as_slice()),
        }
    }
}
