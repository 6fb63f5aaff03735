//! Identifiers and tool names.

use crate::answers::{copied, done, shown, unknown, variant, written};
use crate::failure::Failure;
use crate::runner::Runner;
use crate::told::{Told, answered, tell};
use crate::values::FromRow;
use nextest_config_values::helpers::is_valid_identifier_unicode;
use nextest_config_values::identifier::{
    ConfigIdentifier, InvalidIdentifier, InvalidToolName, ToolName,
};

/// Names that are made of texts, and what they lend.
pub fn identifiers(rt: &Runner, call: &str, input: &str) -> Result<String, Failure> {
    match call {
        "identifier" | "printed" => { answered(rt, call, ConfigIdentifier::new(rt.call(), input)) }
        "tool name" => answered(rt, call, ToolName::new(rt.call(), input)),
        "plain" => plain(rt, input),
        _ => tell(rt, call, ConfigIdentifier::from_row(rt, input)?),
    }
}

fn plain(rt: &Runner, text: &str) -> Result<String, Failure> {
    rt.begin();
    written(rt, is_valid_identifier_unicode(text))
}

impl Told for ConfigIdentifier {
    fn told(&self, rt: &Runner, call: &str) -> Result<String, Failure> {
        if call == "identifier" {
            return shown(rt, self);
        }
        rt.begin();
        match call {
            "components" => components(rt, self.tool_components()),
            "bytes" => bytes(rt, self.as_str()),
            "is a tool's" => written(rt, self.is_tool_identifier()),
            _ => unknown(rt, call),
        }
    }
}

fn components(rt: &Runner, components: Option<(&str, &str)>) -> Result<String, Failure> {
    rt.end();
    match components {
        Some((tool, name)) => done(rt, format!(in rt.alloc(); "{tool} and {name}")),
        None => copied(rt, "none"),
    }
}

fn bytes(rt: &Runner, text: &str) -> Result<String, Failure> {
    rt.end();
    let mut line = String::new(rt.alloc());
    for byte in text.as_bytes() {
        done(rt, write!(line, "{byte:02x} "))?;
    }
    copied(rt, line.trim_end())
}

impl Told for InvalidIdentifier {
    fn told(&self, rt: &Runner, call: &str) -> Result<String, Failure> {
        if call == "printed" || matches!(self, InvalidIdentifier::Memory) {
            shown(rt, self)
        } else {
            variant(rt, self)
        }
    }
}

impl Told for ToolName {
    fn told(&self, rt: &Runner, _call: &str) -> Result<String, Failure> {
        shown(rt, self)
    }
}

impl Told for InvalidToolName {
    fn told(&self, rt: &Runner, _call: &str) -> Result<String, Failure> {
        if matches!(self, InvalidToolName::Memory) {
            shown(rt, self)
        } else {
            variant(rt, self)
        }
    }
}
