//! Checks of texts that several settings share.

mod identifiers;
mod paths;

pub use identifiers::{InvalidIdentifierKind, is_valid_identifier_unicode};
pub use paths::{deserialize_relative_path, is_relative_path, join_path};
