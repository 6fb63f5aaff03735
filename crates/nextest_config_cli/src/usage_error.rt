//! Why the words of the command line ask for nothing.

ghost use Rattle.std.specs.Prelude.{◌≡◌};

use clap::error::ErrorKind as ClapKind;
use nextest_config_values::tool_config::ToolConfigFileParseError;
use std::alloc::AllocError;
use std::io::{self, ErrorKind};

/// Why the words ask for nothing.
#[derive(Drop)]
pub(crate) enum UsageError<'a> {
    /// What `clap` says of them: what is wrong, or the help or the version that they ask for.
    Clap(clap::Error),
    /// This is wrong with all of them.
    Words(&'static str),
    /// This word is no version.
    NotVersion(&'a str),
    /// This word is no code.
    NotCode(&'a str),
    /// This word is no topic of an explanation, and leads to no key. The word of a topic, or the
    /// path of a key, that it comes nearest to.
    NotTopic(&'a str, Option<String>),
    /// This word is the path of no key of a profile. The path of one that it comes nearest to.
    NotKey(&'a str, Option<String>),
    /// A word names no tool's file.
    Tool(ToolConfigFileParseError),
    /// The system doesn't name the current folder, from which files are looked for.
    CurrentFolder(io::Error),
    /// A request for memory was refused.
    Memory,
}

impl UsageError<'_> {
    /// Why there are no words.
    pub fn of_read(error: &io::Error) -> Self {
        match error.kind() {
            ErrorKind::OutOfMemory => UsageError::Memory,
            _ => UsageError::Words("the words of the command line aren't UTF-8"),
        }
    }

    /// Why there is no current folder.
    pub fn of_current_folder(error: io::Error) -> Self {
        match error.kind() {
            ErrorKind::OutOfMemory => UsageError::Memory,
            _ => UsageError::CurrentFolder(error),
        }
    }
}

impl From<AllocError> for UsageError<'_> {
    ghost use Rattle.nextest_config_cli.specs.declared.usage_error.UsageError.TheVariants.{Memory};

    ghost from_gives = { λ _ refusal. refusal ≡ Memory };

    fn from(_error: AllocError) -> Self {
        UsageError::Memory
    }
}

impl From<clap::Error> for UsageError<'_> {
    fn from(error: clap::Error) -> Self {
        match error.kind() {
            ClapKind::OutOfMemory => UsageError::Memory,
            _ => UsageError::Clap(error),
        }
    }
}

impl From<ToolConfigFileParseError> for UsageError<'_> {
    ghost use Rattle.nextest_config_cli.specs.UsageError.{IsOfTool};

    ghost from_gives = { IsOfTool };

    fn from(error: ToolConfigFileParseError) -> Self {
        match error {
            ToolConfigFileParseError::Memory => UsageError::Memory,
            error => UsageError::Tool(error),
        }
    }
}
