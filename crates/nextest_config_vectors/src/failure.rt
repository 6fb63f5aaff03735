//! Why a row isn't answered as it says.

use std::alloc::{AllocError, AllocFailed};
use std::{fmt, io};

/// Why a row isn't answered as it says.
#[derive(Drop)]
pub enum Failure {
    /// Memory ran out around a call.
    Memory,
    /// What is wrong with a text that is to be read: a word, a line or a part of a row.
    Unreadable(&'static str),
    /// Nothing has this word.
    Unknown(String),
    /// What stands around a call was refused, with this error as a source would write it.
    Refused(String),
    /// What was answered and what is wanted.
    Mismatch { answer: String, wanted: String },
    /// The size at which a row fails, and why.
    AtSize { size: usize, why: String },
    /// The system gives no file or folder.
    Input(io::Error),
}

impl fmt::Display for Failure {
    fn fmt<W: fmt::Write>(&self, f: &mut fmt::Formatter<W>) -> fmt::Result {
        match self {
            Failure::Memory => write!(f, "out of memory around a call"),
            Failure::Unreadable(fault) => write!(f, "{fault}"),
            Failure::Unknown(word) => write!(f, "nothing has the word {word:?}"),
            Failure::Refused(error) => write!(f, "around the call: {error}"),
            Failure::Mismatch { answer, wanted } => {
                write!(f, "answered {answer:?}, not {wanted:?}")
            }
            Failure::AtSize { size, why } => write!(f, "at the size {size}: {why}"),
            Failure::Input(error) => write!(f, "{error}"),
        }
    }
}

impl From<AllocError> for Failure {
    fn from(_refused: AllocError) -> Self {
        Failure::Memory
    }
}

impl<T: Drop> From<AllocFailed<T>> for Failure {
    fn from(_refused: AllocFailed<T>) -> Self {
        Failure::Memory
    }
}

impl From<io::Error> for Failure {
    fn from(error: io::Error) -> Self {
        Failure::Input(error)
    }
}
