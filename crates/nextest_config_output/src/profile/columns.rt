//! Lines in two columns.

ghost use Rattle.std.specs.Prelude.{◌≡◌, ◌++◌, ◌≤◌, flat_map, map, OnOk, option_map, string_bytes};
ghost use Rattle.nextest_config_output.specs.Profile.Columns.{aligned_width, gap, line_text, source_column, sourced_text, text_of, widest};
ghost use Rattle.nextest_config_output.specs.Profile.SourcedLine.{line_of};

use crate::profile::sourced_line::SourcedLine;
use std::alloc::{AllocError, Global};
use std::fmt::Write;
use unicode_width::UnicodeWidthStr;

// A first column that is wider doesn't move the sources of the other lines.
const MOST_ALIGNED: usize = 60;

/// Where the sources of these lines begin, those of settings and those of other keys.
pub(crate) fn source_column(settings: &[SourcedLine], others: &[SourcedLine]) -> usize
    ensures { result ≡ source_column (map line_of settings.now) (map line_of others.now) }
{
    widest(settings).max(widest(others)) + 2
}

// The greatest width of a first column that moves the sources.
fn widest(lines: &[SourcedLine]) -> usize
    ensures value { result ≡ widest (map line_of lines.now) }
    ensures bound { result ≤ 60 }
{
    let mut most = 0;
    for line in lines {
        most = most.max(aligned_width(line));
    }
    most
}

// How wide the first column of a line is, as far as it moves the sources.
fn aligned_width(line: &SourcedLine) -> usize
    ensures value { result ≡ aligned_width (line_of line.now) }
    ensures bound { result ≤ 60 }
{
    let width = line.first.as_str().width();
    if line.source.is_some() & (width <= MOST_ALIGNED) {
        width
    } else {
        0
    }
}

/// Pushes lines whose sources begin at a column.
pub(crate) fn push_lines(
    alloc: Global,
    text: &mut String,
    column: usize,
    lines: &[SourcedLine],
) -> Result<(), AllocError>
    ensures { OnOk result (string_bytes text.new
        ≡ string_bytes text.old ++ flat_map (line_text column) (map line_of lines.now)) }
{
    for line in lines {
        push_line(alloc, text, column, line.first.as_str(), &line.source)?;
    }
    Ok(())
}

// Pushes a line with this first column, with its source if it has one.
fn push_line(
    alloc: Global,
    text: &mut String,
    column: usize,
    first: &str,
    source: &Option<String>,
) -> Result<(), AllocError>
    ensures { OnOk result (string_bytes text.new ≡ string_bytes text.old
        ++ text_of column first.now (option_map string_bytes source.now)) }
{
    match source {
        Some(source) => push_sourced(alloc, text, column, first, source.as_str()),
        None => writeln!(text, "{first}"),
    }
}

// Pushes a line with its source.
fn push_sourced(
    alloc: Global,
    text: &mut String,
    column: usize,
    first: &str,
    source: &str,
) -> Result<(), AllocError>
    ensures { OnOk result (string_bytes text.new
        ≡ string_bytes text.old ++ sourced_text column first.now source.now) }
{
    let blanks = " ".repeat(alloc, gap(column, first))?;
    writeln!(text, "{first}{blanks}{source}")
}

// How many blanks stand between a first column and the source.
fn gap(column: usize, first: &str) -> usize
    ensures { result ≡ gap column first.now }
{
    column.saturating_sub(first.width()).max(2)
}
