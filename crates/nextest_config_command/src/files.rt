//! Places that files are read from.

ghost use Rattle.std.specs.Prelude.{◌≡◌, ℕ, IfErr, IfOk, List, None, Option, Some};
ghost use Rattle.nextest_config.specs.NextestVersion.{place_of};
ghost use Rattle.nextest_config_command.specs.Files.{file_of, IsThere, IsUnreadAt, PathState, path_state_of, unanswered_text, UnlessMemory, unread_text};

use nextest_config::nextest_version::ConfigSource;
use nextest_config_report::streams::OUT_OF_MEMORY;
use nextest_config_values::literal::Shown;
use std::alloc::{AllocError, Global};

/// What a read of a path gave. Where it gave no bytes, the system says why.
#[derive(Debug, PartialEq, Eq, Drop)]
pub enum FileRead {
    /// The bytes of the file.
    Contents(Vec<u8>),
    /// A folder is there.
    Folder(String),
    /// Nothing is there, not even a link.
    Absent(String),
    /// There is something that can't be read.
    Unreadable(String),
}

/// A place that files are read from.
pub trait Files {
    // What may be at a path, or without one on standard input.
    ghost holds: { Self → Option (List ℕ) → PathState → Type 0 };

    /// What the path holds.
    fn read(&self, alloc: Global, path: &str) -> Result<FileRead, AllocError>
        ensures { IfOk result (λ read. holds self.now (Some path.now) (path_state_of read)) };

    /// What standard input holds, to its end.
    fn read_input(&self, alloc: Global) -> Result<FileRead, AllocError>
        ensures { IfOk result (λ read. holds self.now None (path_state_of read)) };
}

/// A file that was read: where it comes from, and its bytes.
#[derive(Drop)]
pub(crate) struct SourceFile {
    pub source: ConfigSource,
    pub contents: Vec<u8>,
}

/// Why there is no answer.
#[derive(Drop)]
pub(crate) enum Unanswered {
    /// A file that has to be read can't be, as this says.
    Unread(String),
    /// A request for memory was refused.
    Memory,
}

impl Unanswered {
    /// That a file can't be read, for this reason.
    pub fn unread(alloc: Global, path: &str, reason: &str) -> Self
        ensures { UnlessMemory (λ said. said ≡ unread_text path.now reason.now) result }
    {
        match format!(in alloc; "{}: {}", Shown(path), Shown(reason)) {
            Ok(said) => Unanswered::Unread(said),
            Err(AllocError) => Unanswered::Memory,
        }
    }

    /// What is said where there is no answer.
    pub fn as_str(&self) -> &str
        ensures { result.now ≡ unanswered_text self.now }
    {
        match self {
            Unanswered::Unread(said) => said.as_str(),
            Unanswered::Memory => OUT_OF_MEMORY,
        }
    }
}

/// The file of a source, which has to be there.
pub(crate) fn read_source<F: Files>(
    alloc: Global,
    files: &F,
    source: &ConfigSource,
) -> Result<SourceFile, Unanswered>
    ensures read { IfOk result (λ file.
        IsThere (F.holds files.now) (place_of source.now) (file_of file)) }
    ensures unread { IfErr result
        (UnlessMemory (IsUnreadAt (F.holds files.now) (place_of source.now).path)) }
{
    match files.read(alloc, source.path.as_str())? {
        FileRead::Contents(contents) => {
            let source = source.clone(alloc)?;
            Ok(SourceFile { source, contents })
        }
        FileRead::Folder(reason) | FileRead::Absent(reason) | FileRead::Unreadable(reason) => {
            let path = source.path.as_str();
            Err(Unanswered::unread(alloc, path, reason.as_str()))
        }
    }
}

impl From<AllocError> for Unanswered {
    ghost use Rattle.nextest_config_command.specs.declared.files.Unanswered.TheVariants.{Memory};

    ghost from_gives = { λ _ unanswered. unanswered ≡ Memory };

    fn from(_error: AllocError) -> Self {
        Unanswered::Memory
    }
}
