//! Tool arguments.

use crate::answers::{done, shown, written};
use crate::failure::Failure;
use crate::runner::Runner;
use crate::told::{Told, answered};
use nextest_config_values::tool_config::{ToolConfigFile, ToolConfigFileParseError};

/// What is made of an argument.
pub fn arguments(rt: &Runner, call: &str, input: &str) -> Result<String, Failure> {
    answered(rt, call, ToolConfigFile::from_str(rt.call(), input))
}

impl Told for ToolConfigFile {
    fn told(&self, rt: &Runner, _call: &str) -> Result<String, Failure> {
        rt.end();
        let line = format!(in rt.alloc(); "{} {}", self.tool, self.config_file);
        done(rt, line)
    }
}

impl Told for ToolConfigFileParseError {
    fn told(&self, rt: &Runner, call: &str) -> Result<String, Failure> {
        rt.end();
        if call == "printed" || matches!(self, ToolConfigFileParseError::Memory) {
            shown(rt, self)
        } else {
            written(rt, self)
        }
    }
}
