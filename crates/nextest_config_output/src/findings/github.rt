//! Findings as GitHub's workflow commands.

ghost use Rattle.std.specs.Prelude.{◌≡◌, ◌++◌, OnOk, string_bytes};
ghost use Rattle.nextest_config_output.specs.Findings.Github.{github_command, github_line, span_text};
ghost use Rattle.nextest_config_output.specs.Findings.Diagnostic.{diagnostic_view};

use crate::findings::diagnostic::{Diagnostic, FoundText};
use crate::findings::escapes::{Escaped, Escapes};
use nextest_config_lint::FindingSeverity;
use std::alloc::AllocError;
use std::fmt::Write;
use toml_spans::{Place, Span};

// Pushes a finding as a command that shows it at its lines. Its text has the place, too, since the
// log of a job shows nothing else.
pub(crate) fn push_github(text: &mut String, diagnostic: &Diagnostic<'_>) -> Result<(), AllocError>
    ensures { OnOk result (string_bytes text.new
        ≡ string_bytes text.old ++ github_line (diagnostic_view diagnostic.now)) }
{
    let command = github_command(diagnostic.severity);
    let file = Escaped(Escapes::Property, diagnostic.file);
    write!(text, "::{command} file={file},")?;
    push_span(text, diagnostic.span)?;
    let path = Escaped(Escapes::Message, diagnostic.file);
    let Place { line, column } = diagnostic.span.begin;
    let found = FoundText(Escapes::Message, diagnostic);
    let code = diagnostic.code;
    writeln!(text, ",title={code}::{path}:{line}:{column}: {found}")
}

// Pushes the lines of a range, and its columns where it has one line.
fn push_span(text: &mut String, span: Span) -> Result<(), AllocError>
    ensures { OnOk result (string_bytes text.new ≡ string_bytes text.old ++ span_text span) }
{
    let Span { begin, end } = span;
    write!(text, "line={},endLine={}", begin.line, end.line)?;
    if begin.line == end.line {
        write!(text, ",col={},endColumn={}", begin.column, end.column)?;
    }
    Ok(())
}

// The command that shows a finding of this severity.
fn github_command(severity: FindingSeverity) -> &'static str
    ensures { result.now ≡ github_command severity }
{
    match severity {
        FindingSeverity::Error => "error",
        FindingSeverity::Warning => "warning",
        FindingSeverity::Note => "notice",
    }
}
