//! Values of each kind, at each reader, which refuses those that it doesn't take with what it
//! expects.

use crate::failure::Failure;
use crate::table::{Mark, Row};
use std::alloc::Global;

// TOML values of each kind: the kind, the value, and what a refusal says of it besides.
const VALUES: &[[&str; 3]] = &[
    ["boolean", "true", " `true`"],
    ["boolean", "false", " `false`"],
    ["integer", "7", " `7`"],
    ["integer", "-9223372036854775808", " `-9223372036854775808`"],
    ["integer", "9223372036854775807", " `9223372036854775807`"],
    ["string", "'x'", " \"x\""],
    ["string", "''", " \"\""],
    [
        "string",
        "\"\\\"\\\\\\n\\u0085é\"",
        " \"\\\"\\\\\\n\\u{85}é\"",
    ],
    ["sequence", "[1]", ""],
    ["sequence", "[]", ""],
    ["map", "{ k = 1 }", ""],
    ["map", "{}", ""],
    ["floating point", "1.5", ""],
    ["floating point", "-inf", ""],
    ["floating point", "nan", ""],
    ["datetime", "1979-05-27", ""],
    ["datetime", "07:32:00", ""],
    ["datetime", "1979-05-27T07:32:00", ""],
    ["datetime", "1979-05-27T07:32:00.5-07:00", ""],
];

/// A reader: where a value stands in place of the `@` of the input, the call takes these kinds at
/// this path.
#[derive(Clone, Copy)]
pub struct Reader<'t> {
    pub name: &'t str,
    pub call: &'t str,
    pub input: &'t str,
    pub kinds: &'t str,
    pub path: &'t str,
    pub expected: &'t str,
}

impl Reader<'_> {
    /// Adds a row for each value of a kind that the call doesn't take.
    pub fn push_rows(&self, alloc: Global, rows: &mut Vec<Row>) -> Result<(), Failure> {
        for [kind, value, found] in VALUES {
            if !self.kinds.split(", ").any(|taken| taken == *kind) {
                rows.push(self.row(alloc, kind, value, found)?)?;
            }
        }
        Ok(())
    }

    fn row(&self, alloc: Global, kind: &str, value: &str, found: &str) -> Result<Row, Failure> {
        let (path, expected) = (self.path, self.expected);
        Ok(Row {
            mark: Mark::Nothing,
            name: String::from_str(alloc, self.name)?,
            call: String::from_str(alloc, self.call)?,
            input: self.input.replace(alloc, "@", value)?,
            wanted: format!(in alloc; "{path}: invalid type: {kind}{found}, expected {expected}")?,
        })
    }
}
