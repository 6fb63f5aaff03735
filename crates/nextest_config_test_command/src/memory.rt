//! Files in memory, which say exactly what each path holds.

ghost use Rattle.std.specs.Prelude.{◌≡◌, IfOk};
ghost use Rattle.nextest_config_command.specs.Files.{path_state_of};
ghost use Rattle.nextest_config_test_command.specs.Memory.{state_at, state_if};
ghost use Rattle.std.specs.BTreeMap.{get_by_text};

use nextest_config_command::{FileRead, Files};
use std::alloc::{AllocError, Global};
use std::collections::BTreeMap;

// What stands for the path of standard input.
const INPUT: &str = "-";

/// What is at a path in memory.
#[derive(Debug, PartialEq, Eq, Drop)]
pub enum Held {
    Contents(Vec<u8>),
    Folder,
    /// It can't be read, for this reason.
    Unreadable(String),
}

/// Files in memory: what is at each path, with `-` for standard input. At any other path nothing is
/// there.
#[derive(Debug, Drop)]
pub struct MemoryFiles {
    pub table: BTreeMap<String, Held>,
}

impl MemoryFiles {
    fn held(&self, alloc: Global, path: &str) -> Result<FileRead, AllocError>
        ensures { IfOk result (λ read.
            path_state_of read ≡ state_if (get_by_text self.now.table path.now)) }
    {
        match self.table.get(path) {
            Some(Held::Contents(contents)) => {
                Ok(FileRead::Contents(contents.as_slice().to_vec(alloc)?))
            }
            Some(Held::Folder) => Ok(FileRead::Folder(String::from_str(alloc, "it is a folder")?)),
            Some(Held::Unreadable(reason)) => {
                let reason = String::from_str(alloc, reason.as_str())?;
                Ok(FileRead::Unreadable(reason))
            }
            None => Ok(FileRead::Absent(String::from_str(alloc, "nothing is there")?)),
        }
    }
}

impl Files for MemoryFiles {
    ghost holds = { λ files place state. state ≡ state_at files.table place };

    fn read(&self, alloc: Global, path: &str) -> Result<FileRead, AllocError> {
        self.held(alloc, path)
    }

    fn read_input(&self, alloc: Global) -> Result<FileRead, AllocError> {
        self.held(alloc, INPUT)
    }
}
