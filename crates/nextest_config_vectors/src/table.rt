//! Rows of tables.

use crate::failure::Failure;
use crate::wrong_kinds::Reader;
use serde_json::Value;
use std::alloc::Global;

/// How a row may be asked.
#[derive(Clone, Copy, PartialEq, Eq)]
pub enum Mark {
    /// With memory and without.
    Nothing,
    /// Its call takes no memory.
    Idle,
    /// With memory alone.
    Held,
}

/// A row.
#[derive(Drop)]
pub struct Row {
    pub mark: Mark,
    pub name: String,
    pub call: String,
    pub input: String,
    pub wanted: String,
}

/// Whether a line of a table is no row: it is blank or a comment.
pub fn is_blank(line: &str) -> bool {
    line.is_empty() || line.starts_with('#')
}

/// The rows that a line writes: behind `- ` one whose call takes no memory, behind `+ ` one that is
/// asked with memory alone. A line of six fields has one for each value of a wrong kind.
pub fn rows_of(alloc: Global, line: &str) -> Result<Vec<Row>, Failure> {
    let (mark, line) = marked(line);
    let mut fields = Vec::new(alloc);
    for field in line.split(" | ") {
        fields.push(field_of(alloc, field)?)?;
    }
    let mut rows = Vec::new(alloc);
    match fields.as_slice() {
        [name, call, input, wanted] => {
            rows.push(Row {
                mark,
                name: String::from_str(alloc, name.as_str())?,
                call: String::from_str(alloc, call.as_str())?,
                input: String::from_str(alloc, input.as_str())?,
                wanted: String::from_str(alloc, wanted.as_str())?,
            })?;
        }
        [name, call, input, kinds, path, expected] => {
            let reader = Reader {
                name: name.as_str(),
                call: call.as_str(),
                input: input.as_str(),
                kinds: kinds.as_str(),
                path: path.as_str(),
                expected: expected.as_str(),
            };
            reader.push_rows(alloc, &mut rows)?;
        }
        _ => return Err(Failure::Unreadable("a row has four fields, or six")),
    }
    Ok(rows)
}

fn marked(line: &str) -> (Mark, &str) {
    match line.split_once(' ') {
        Some(("-", row)) => (Mark::Idle, row),
        Some(("+", row)) => (Mark::Held, row),
        _ => (Mark::Nothing, line),
    }
}

// The text of a field: itself where it is plain, else the one that it writes as a JSON string.
fn field_of(alloc: Global, field: &str) -> Result<String, Failure> {
    if is_plain(field) {
        return Ok(String::from_str(alloc, field)?);
    }
    match Value::from_str(alloc, field) {
        Ok(Value::String(text)) if !field.contains('|') => Ok(text),
        _ => Err(Failure::Unreadable("a field is neither a plain text nor a JSON string")),
    }
}

// Whether a text stands in a field as it is.
fn is_plain(text: &str) -> bool {
    !text.is_empty() && text.trim() == text && !text.chars().any(is_special)
}

fn is_special(character: char) -> bool {
    matches!(character, '|' | '"' | '\\') || character.is_control()
}
