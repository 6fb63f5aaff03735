//! The lines of a report's settings, and those of its other keys.

ghost use Rattle.std.specs.Prelude.{◌≡◌, ◌++◌, flat_map, IfOk, map, OnOk};
ghost use Rattle.nextest_config_output.specs.Profile.SourcedLine.{line_of};
ghost use Rattle.nextest_config_output.specs.Profile.SettingLines.{row_lines, setting_lines};

use crate::profile::sourced_line::{SourcedLine, ToLine};
use nextest_config_profiles::report::Row;
use std::alloc::{AllocError, Global};

/// The lines of settings, for the profile with this name.
pub(crate) fn setting_lines(
    alloc: Global,
    name: &str,
    settings: &[Vec<Row<'_>>],
) -> Result<Vec<SourcedLine>, AllocError>
    ensures { IfOk result (λ lines. map line_of lines.items ≡ setting_lines name.now settings.now) }
{
    let mut lines = Vec::new(alloc);
    for rows in settings {
        push_rows(alloc, &mut lines, name, rows.as_slice())?;
    }
    Ok(lines)
}

// Pushes the lines of the keys of a setting.
fn push_rows(
    alloc: Global,
    lines: &mut Vec<SourcedLine>,
    name: &str,
    rows: &[Row<'_>],
) -> Result<(), AllocError>
    ensures { OnOk result (map line_of lines.new.items
        ≡ map line_of lines.old.items ++ flat_map (row_lines name.now) rows.now) }
{
    for row in rows {
        push_row(alloc, lines, name, row)?;
    }
    Ok(())
}

// Pushes the line of a key, and below it those of what it hides.
fn push_row(
    alloc: Global,
    lines: &mut Vec<SourcedLine>,
    name: &str,
    row: &Row<'_>,
) -> Result<(), AllocError>
    ensures { OnOk result (map line_of lines.new.items
        ≡ map line_of lines.old.items ++ row_lines name.now row.now) }
{
    lines.push(row.to_line(alloc, name)?)?;
    push_each(alloc, lines, name, row.hidden.as_slice())
}

/// The line of each of these.
pub(crate) fn lines_of<T: ToLine>(
    alloc: Global,
    name: &str,
    items: &[T],
) -> Result<Vec<SourcedLine>, AllocError>
    ensures { IfOk result (λ lines. map line_of lines.items ≡ map (T.reported name.now) items.now) }
{
    let mut lines = Vec::new(alloc);
    push_each(alloc, &mut lines, name, items)?;
    Ok(lines)
}

// Pushes the line of each of these.
fn push_each<T: ToLine>(
    alloc: Global,
    lines: &mut Vec<SourcedLine>,
    name: &str,
    items: &[T],
) -> Result<(), AllocError>
    ensures { OnOk result (map line_of lines.new.items
        ≡ map line_of lines.old.items ++ map (T.reported name.now) items.now) }
{
    for item in items {
        lines.push(item.to_line(alloc, name)?)?;
    }
    Ok(())
}
