//! The files of the system.

use nextest_config_command::{FileRead, Files};
use std::alloc::{AllocError, Global};
use std::env::Env;
use std::fs;
use std::io::{self, ErrorKind, Input, Read};

// How many bytes the system's path of a folder has at most.
const LONGEST_PATH: usize = 4096;

/// The files of the system that the command runs on.
#[derive(Clone, Copy)]
pub(crate) struct FileSystem<'a> {
    pub rt: &'a HostRuntime,
}

impl Files for FileSystem<'_> {
    // What the system gives is outside of any contract.
    ghost holds = { λ files path held. Unit {0} };

    fn read(&self, alloc: Global, path: &str) -> Result<FileRead, AllocError> {
        match fs::read(self.rt, path) {
            Ok(contents) => Ok(FileRead::Contents(contents)),
            Err(error) => self.unread(alloc, path, &error),
        }
    }

    fn read_input(&self, alloc: Global) -> Result<FileRead, AllocError> {
        let mut contents = Vec::new(alloc);
        match self.rt.reader().read_to_end(&mut contents) {
            Ok(_) => Ok(FileRead::Contents(contents)),
            Err(error) => Ok(FileRead::Unreadable(reason(alloc, &error)?)),
        }
    }
}

impl FileSystem<'_> {
    // What is at a path of which the system gives no bytes, for this reason.
    fn unread(&self, alloc: Global, path: &str, error: &io::Error) -> Result<FileRead, AllocError> {
        let reason = reason(alloc, error)?;
        if self.is_folder(path) {
            Ok(FileRead::Folder(reason))
        } else if is_absence(error) && self.is_nothing(path) {
            Ok(FileRead::Absent(reason))
        } else {
            Ok(FileRead::Unreadable(reason))
        }
    }

    // Whether a folder is at a path, which may be one that can't be listed.
    fn is_folder(&self, path: &str) -> bool {
        match fs::metadata(self.rt, path) {
            Ok(metadata) => metadata.is_dir(),
            Err(_) => false,
        }
    }

    // Whether nothing is at a path, not even a link that leads nowhere.
    fn is_nothing(&self, path: &str) -> bool {
        match fs::symlink_metadata(self.rt, path) {
            Ok(_) => false,
            Err(error) => is_absence(&error),
        }
    }
}

// Whether the system says that a path leads nowhere.
fn is_absence(error: &io::Error) -> bool {
    matches!(error.kind(), ErrorKind::NotFound | ErrorKind::NotADirectory)
}

// Why the system gives no bytes, as it says so.
fn reason(alloc: Global, error: &io::Error) -> Result<String, AllocError> {
    match error.kind() {
        ErrorKind::OutOfMemory => Err(AllocError),
        _ => error.to_string(alloc),
    }
}

/// The current folder by its absolute path, with a slash at its end; U+FFFD stands for what isn't
/// UTF-8.
pub(crate) fn current_folder(rt: &HostRuntime) -> io::Result<String> {
    let mut path = [0; LONGEST_PATH];
    let length = rt.current_dir(&mut path)?;
    let mut folder = String::from_utf8_lossy(rt.alloc(), &path[..length])?;
    folder.push('/')?;
    Ok(folder)
}
