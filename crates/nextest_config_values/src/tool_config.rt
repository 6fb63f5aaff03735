//! Arguments that hand in a tool's configuration file.

ghost use Rattle.std.specs.Prelude.{◌≡◌, IfErr, IfOk, string_bytes};
ghost use Rattle.nextest_config_values.specs.Helpers.Paths.{BeginsWithSlash};
ghost use Rattle.nextest_config_values.specs.Identifier.{tool_name_fault};
ghost use Rattle.nextest_config_values.specs.ToolConfig.{IsArgumentFault, IsPathFault, IsToolArgument, RefusesArgument, RefusesTool, argument_of};

use crate::identifier::{InvalidToolName, ToolName};
use std::alloc::{AllocError, Global};
use thiserror::Error;

/// A tool's configuration file.
#[derive(Debug, PartialEq, Eq, Drop)]
pub struct ToolConfigFile {
    pub tool: ToolName,
    /// The path of the file; it begins with `/` where it was read from an argument.
    pub config_file: String,
}

/// Why a text is no argument `NAME:PATH` of a tool.
#[derive(Debug, PartialEq, Eq, Drop, Error)]
pub enum ToolConfigFileParseError {
    /// There is no colon in the text.
    #[error("tool configuration file isn't of the form NAME:PATH: {input}")]
    InvalidFormat {
        input: String,
    },
    /// What stands before the first colon is no tool name.
    #[error("tool configuration file without a valid tool name: {input}: {error}")]
    InvalidToolName {
        input: String,
        error: InvalidToolName,
    },
    /// Nothing comes after the first colon.
    #[error("tool configuration file without a path: {input}")]
    EmptyConfigFile {
        input: String,
    },
    /// The path doesn't begin with `/`.
    #[error("tool configuration file isn't an absolute path: {config_file}")]
    ConfigFileNotAbsolute {
        config_file: String,
    },
    /// A request for memory was refused, and so nothing is said of the text.
    #[error("out of memory")]
    Memory,
}

impl ToolConfigFile {
    /// The tool and the path of the text `NAME:PATH`, which is cut at its first colon.
    pub fn from_str(alloc: Global, input: &str) -> Result<Self, ToolConfigFileParseError>
        ensures accepted { IfOk result (λ file. IsToolArgument input.now (argument_of file)) }
        ensures refused { IfErr result (RefusesArgument (IsArgumentFault input.now)) }
    {
        let Some((name, path)) = input.split_once(':') else {
            let input = String::from_str(alloc, input)?;
            return Err(ToolConfigFileParseError::InvalidFormat { input });
        };
        let tool = match ToolName::new(alloc, name) {
            Ok(tool) => tool,
            Err(error) => return Err(invalid_tool_name(alloc, input, error)),
        };
        let config_file = absolute_path(alloc, input, path)?;
        Ok(ToolConfigFile { tool, config_file })
    }

    pub fn clone(&self, alloc: Global) -> Result<Self, AllocError>
        ensures { IfOk result (λ file. argument_of file ≡ argument_of self.now) }
    {
        let tool = self.tool.clone(alloc)?;
        let config_file = String::from_str(alloc, self.config_file.as_str())?;
        Ok(ToolConfigFile { tool, config_file })
    }
}

impl From<AllocError> for ToolConfigFileParseError {
    ghost use Rattle.nextest_config_values.specs.declared.tool_config.ToolConfigFileParseError.TheVariants.{Memory};

    ghost from_gives = { λ _ error. error ≡ Memory };

    fn from(_error: AllocError) -> ToolConfigFileParseError {
        ToolConfigFileParseError::Memory
    }
}

// The refusal of an argument whose tool name is refused.
fn invalid_tool_name(alloc: Global, input: &str, error: InvalidToolName) -> ToolConfigFileParseError
    ensures { RefusesTool input.now (tool_name_fault error) result }
{
    match error {
        InvalidToolName::Memory => ToolConfigFileParseError::Memory,
        error => match String::from_str(alloc, input) {
            Ok(input) => ToolConfigFileParseError::InvalidToolName { input, error },
            Err(AllocError) => ToolConfigFileParseError::Memory,
        },
    }
}

// The path of an argument, which has to begin with a slash.
fn absolute_path(alloc: Global, input: &str, path: &str) -> Result<String, ToolConfigFileParseError>
    ensures accepted { IfOk result (λ kept. (string_bytes kept ≡ path.now)
        × BeginsWithSlash path.now) }
    ensures refused { IfErr result (RefusesArgument (IsPathFault input.now path.now)) }
{
    if path.is_empty() {
        let input = String::from_str(alloc, input)?;
        return Err(ToolConfigFileParseError::EmptyConfigFile { input });
    }
    let config_file = String::from_str(alloc, path)?;
    if path.starts_with('/') {
        Ok(config_file)
    } else {
        Err(ToolConfigFileParseError::ConfigFileNotAbsolute { config_file })
    }
}
