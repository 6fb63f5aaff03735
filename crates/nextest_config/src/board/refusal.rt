//! Why a change of a board was refused.

use crate::nextest_version::ConfigParseError;
use thiserror::Error;

/// Why a change of a board was refused. The board is as it was.
#[derive(Debug, PartialEq, Eq, Drop, Error)]
pub enum BoardRefusal {
    /// The board has just so many slots.
    #[error("no such slot: the board has {slots}")]
    NoSuchSlot { slots: usize },
    /// The source is refused.
    #[error("{0}")]
    Refused(ConfigParseError),
    /// A request for memory was refused.
    #[error("out of memory")]
    Memory,
}
