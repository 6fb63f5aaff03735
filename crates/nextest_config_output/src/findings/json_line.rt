//! Findings as objects of JSON.

ghost use Rattle.std.specs.Prelude.{◌≡◌, ◌++◌, IfOk, OnOk, string_bytes};
ghost use Rattle.nextest_config_output.specs.Findings.JsonLine.{json_line, number_member, quoted, text_member};
ghost use Rattle.nextest_config_output.specs.Findings.Diagnostic.{diagnostic_view};

use crate::findings::diagnostic::{Diagnostic, severity_word};
use serde_json::Value;
use std::alloc::{AllocError, Global};
use std::fmt::Write;
use toml_spans::Span;

// Pushes a finding as an object on a line of its own.
pub(crate) fn push_json(
    alloc: Global,
    text: &mut String,
    diagnostic: &Diagnostic<'_>,
) -> Result<(), AllocError>
    ensures { OnOk result (string_bytes text.new
        ≡ string_bytes text.old ++ json_line (diagnostic_view diagnostic.now)) }
{
    let Span { begin, end } = diagnostic.span;
    let path = json_text(alloc, diagnostic.file)?;
    write!(text, "{{\"path\":{path}")?;
    push_number(text, "line", begin.line)?;
    push_number(text, "column", begin.column)?;
    push_number(text, "end_line", end.line)?;
    push_number(text, "end_column", end.column)?;
    push_text(alloc, text, "severity", severity_word(diagnostic.severity))?;
    push_text(alloc, text, "code", diagnostic.code)?;
    push_text(alloc, text, "key", diagnostic.key)?;
    push_text(alloc, text, "message", diagnostic.message)?;
    text.push_str("}\n")?;
    Ok(())
}

// Pushes a number as a member of an object, after another one.
#[tactic(auto, unfolding(crate::specs::Findings::JsonLine::number_member))]
fn push_number(text: &mut String, name: &str, number: usize) -> Result<(), AllocError>
    ensures { OnOk result
        (string_bytes text.new ≡ string_bytes text.old ++ number_member name.now number) }
{
    write!(text, ",\"{name}\":{number}")
}

// Pushes a text as a member of an object, after another one.
#[tactic(auto, unfolding(crate::specs::Findings::JsonLine::text_member))]
fn push_text(alloc: Global, text: &mut String, name: &str, value: &str) -> Result<(), AllocError>
    ensures { OnOk result
        (string_bytes text.new ≡ string_bytes text.old ++ text_member name.now value.now) }
{
    let value = json_text(alloc, value)?;
    write!(text, ",\"{name}\":{value}")
}

/// A text as JSON, printed by `serde_json`.
pub fn json_text(alloc: Global, text: &str) -> Result<String, AllocError>
    ensures { IfOk result (λ printed. string_bytes printed ≡ quoted text.now) }
{
    let value = Value::try_from_str(alloc, text)?;
    let printed = value.to_string(alloc)?;
    Ok(printed)
}
