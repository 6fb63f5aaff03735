//! Findings as they are printed.

ghost use Rattle.std.specs.Prelude.{◌≡◌, ◌++◌, map, OnOk, Some, string_bytes};
ghost use Rattle.std.specs.Fmt.{WritesOnOk};
ghost use Rattle.nextest_config_output.specs.Findings.Diagnostic.{found_text, key_text, severity_text, diagnostic_view, diagnostic_text};

use crate::findings::escapes::{Escaped, Escapes};
use crate::findings::excerpt::push_excerpt;
use crate::findings::format::Format;
use crate::findings::github::push_github;
use crate::findings::human::push_human;
use crate::findings::json_line::push_json;
use nextest_config_lint::FindingSeverity;
use std::alloc::{AllocError, Global};
use std::fmt;
use toml_spans::Span;

/// A finding, by the texts that formats print of it.
#[derive(Clone, Copy, Debug)]
pub struct Diagnostic<'a> {
    /// The printed path of its file.
    pub file: &'a str,
    /// Where it stands in its file.
    pub span: Span,
    /// How grave it is.
    pub severity: FindingSeverity,
    /// The word of its kind.
    pub code: &'a str,
    /// The printed path of what is found within the file; empty for the whole file.
    pub key: &'a str,
    /// What is found, with its hint.
    pub message: &'a str,
}

/// Pushes what a format tells of a finding. `lines` are those of its file, as they are shown.
pub fn push_finding(
    alloc: Global,
    text: &mut String,
    format: Format,
    diagnostic: &Diagnostic<'_>,
    lines: &[&str],
) -> Result<(), AllocError>
    ensures { OnOk result (string_bytes text.new ≡ string_bytes text.old
        ++ diagnostic_text format (diagnostic_view diagnostic.now)
        (map (λ line. line.now) lines.now)) }
{
    match format {
        Format::Human => push_human(text, diagnostic),
        Format::Full => {
            push_human(text, diagnostic)?;
            push_excerpt(alloc, text, diagnostic.span, lines)
        }
        Format::Github => push_github(text, diagnostic),
        Format::Json => push_json(alloc, text, diagnostic),
    }
}

/// What is found, after its key, as it prints with what is escaped.
#[derive(Clone, Copy)]
pub(crate) struct FoundText<'a, 'b>(pub Escapes, pub &'a Diagnostic<'b>);

impl fmt::Display for FoundText<'_, '_> {
    ghost output = { λ found. Some (found_text found.0 (diagnostic_view found.1.now)) };

    fn fmt<W: fmt::Write>(&self, f: &mut fmt::Formatter<W>) -> fmt::Result {
        let FoundText(escapes, diagnostic) = *self;
        write_key(f, escapes, diagnostic.key)?;
        write!(f, "{}", Escaped(escapes, diagnostic.message))
    }
}

fn write_key<W: fmt::Write>(f: &mut fmt::Formatter<W>, escapes: Escapes, key: &str) -> fmt::Result
    ensures { WritesOnOk W.write_str_gives f.old result (key_text escapes key.now) f.new }
{
    if key.is_empty() {
        return Ok(());
    }
    write!(f, "{}: ", Escaped(escapes, key))
}

pub(crate) fn severity_word(severity: FindingSeverity) -> &'static str
    ensures { result.now ≡ severity_text severity }
{
    match severity {
        FindingSeverity::Error => "error",
        FindingSeverity::Warning => "warning",
        FindingSeverity::Note => "note",
    }
}
