//! Identifiers and tool names: texts in Normalization Form C that follow UAX 31.

mod config_identifier;
mod error;
mod kept_text;
mod name;
mod tool_name;

pub use config_identifier::ConfigIdentifier;
pub use error::{InvalidIdentifier, InvalidToolName};
pub use tool_name::ToolName;
