//! Findings as people read them.

ghost use Rattle.std.specs.Prelude.{◌≡◌, ◌++◌, OnOk, string_bytes};
ghost use Rattle.nextest_config_output.specs.Findings.Human.{human_line};
ghost use Rattle.nextest_config_output.specs.Findings.Diagnostic.{diagnostic_view};

use crate::findings::diagnostic::{Diagnostic, FoundText, severity_word};
use crate::findings::escapes::{Escaped, Escapes};
use std::alloc::AllocError;
use std::fmt::Write;
use toml_spans::Place;

// Pushes a finding as a line that tools read, too.
pub(crate) fn push_human(text: &mut String, diagnostic: &Diagnostic<'_>) -> Result<(), AllocError>
    ensures { OnOk result (string_bytes text.new
        ≡ string_bytes text.old ++ human_line (diagnostic_view diagnostic.now)) }
{
    let file = Escaped(Escapes::InLine, diagnostic.file);
    let Place { line, column } = diagnostic.span.begin;
    let severity = severity_word(diagnostic.severity);
    let found = FoundText(Escapes::InLine, diagnostic);
    let code = diagnostic.code;
    writeln!(text, "{file}:{line}:{column}: {severity}: {found} [{code}]")
}
