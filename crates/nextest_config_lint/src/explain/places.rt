//! Where keys stand, as people are told.

ghost use Rattle.std.specs.Prelude.{◌≡◌, ◌++◌, IfOk, OnOk, flat_map, map, string_bytes};
ghost use Rattle.nextest_config_lint.specs.Explain.KnownKey.{key as key_step, known_key, table_step};
ghost use Rattle.nextest_config_lint.specs.Explain.Places.{path_text, places_text, step_text, table_if, table_text};

use crate::explain::known_key::{KnownKey, TableStep};
use nextest_config_elements::keys::file_fields;
use std::alloc::{AllocError, Global};

/// The tables of a file that have a key of this name.
pub(crate) fn places_text(alloc: Global, name: &str) -> Result<String, AllocError>
    ensures { IfOk result (λ text. string_bytes text ≡ places_text name.now) }
{
    let known = KnownKey::all(alloc, file_fields())?;
    let tables = tables_of(alloc, known.as_slice(), name)?;
    let text = tables.join(alloc, ", ")?;
    Ok(text)
}

// The tables of those of these keys that have this name.
fn tables_of(alloc: Global, known: &[KnownKey], name: &str) -> Result<Vec<String>, AllocError>
    ensures { IfOk result (λ tables. map string_bytes tables.items
        ≡ flat_map (table_if name.now) (map known_key known.now)) }
{
    let mut tables = Vec::new(alloc);
    for key in known {
        push_table(alloc, &mut tables, key, name)?;
    }
    Ok(tables)
}

// Adds the table of a key, if the key has this name.
fn push_table(
    alloc: Global,
    tables: &mut Vec<String>,
    key: &KnownKey,
    name: &str,
) -> Result<(), AllocError>
    ensures { OnOk result (map string_bytes tables.new.items
        ≡ map string_bytes tables.old.items ++ table_if name.now (known_key key.now)) }
{
    if key.field.key == name {
        tables.push(table_text(alloc, key.table.as_slice())?)?;
    }
    Ok(())
}

// The table to which steps lead.
fn table_text(alloc: Global, table: &[TableStep]) -> Result<String, AllocError>
    ensures { IfOk result (λ text. string_bytes text ≡ table_text (map table_step table.now)) }
{
    match table {
        [] => String::from_str(alloc, "the top of the file"),
        [_, ..] => path_text(alloc, table),
    }
}

/// How a path prints.
pub(crate) fn path_text(alloc: Global, path: &[TableStep]) -> Result<String, AllocError>
    ensures { IfOk result (λ text. string_bytes text ≡ path_text (map table_step path.now)) }
{
    let mut text = String::new(alloc);
    let mut behind = false;
    for step in path {
        push_step(&mut text, *step, behind)?;
        behind = true;
    }
    Ok(text)
}

// Adds a step, which comes after another one or not.
fn push_step(text: &mut String, step: TableStep, behind: bool) -> Result<(), AllocError>
    ensures { OnOk result
        (string_bytes text.new ≡ string_bytes text.old ++ step_text behind (table_step step)) }
{
    match step {
        TableStep::Key(key) => push_key(text, key, behind),
        TableStep::Name => text.push_str(".NAME"),
        TableStep::Index => text.push_str("[N]"),
    }
}

fn push_key(text: &mut String, key: &str, behind: bool) -> Result<(), AllocError>
    ensures { OnOk result
        (string_bytes text.new ≡ string_bytes text.old ++ step_text behind (key_step key.now)) }
{
    if behind {
        text.push('.')?;
    }
    text.push_str(key)
}
