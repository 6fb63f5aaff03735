//! Rows over several lines.
//!
//! In a table of blocks a row is a line `=== NAME | CALL`, lines of the input, and lines of the
//! answer, each behind `> `. The call is given all these lines, and answers with ` && ` between those
//! that it says. Blank lines in front of the next block aren't the input's. A block is asked with
//! memory alone.

use super::{Asking, Table, Task, answer};
use crate::answers::{compare, cut};
use crate::failure::Failure;
use crate::table::is_blank;

/// Whether a table is one of blocks.
pub fn is_of_blocks(text: &str) -> bool {
    text.contains("\n=== ")
}

impl Asking<'_> {
    /// Compares each block of a table with what is answered.
    pub(super) fn blocks(&mut self, table: &mut Table, path: &str, text: &str) {
        let mut line: usize = 1;
        for (number, block) in text.split("\n=== ").enumerate() {
            let outcome = if number == 0 {
                front(block)
            } else {
                self.block(table, block.trim_end())
            };
            if let Err(failure) = outcome {
                self.fail(path, line, block.lines().next().unwrap_or(""), &failure);
            }
            line = line.saturating_add(block.split('\n').count());
        }
    }

    fn block(&mut self, table: &mut Table, block: &str) -> Result<(), Failure> {
        self.rows = self.rows.saturating_add(1);
        let (heading, input) = block.split_once('\n').unwrap_or((block, ""));
        let (name, call) = cut(heading, " | ")?;
        table.name(self.runner.alloc(), name)?;
        if !matches!(self.task, Task::Compare { .. }) {
            return Ok(());
        }
        let (_, wanted) = block.split_once("\n> ").unwrap_or((block, ""));
        let wanted = wanted.replace(self.runner.alloc(), "\n> ", " && ")?;
        let answer = answer(&self.runner, call, input)?;
        compare(&self.runner, answer.as_str(), wanted.as_str())
    }
}

// Fails where something else than comments stands in front of the first block.
fn front(text: &str) -> Result<(), Failure> {
    if text.lines().all(is_blank) {
        Ok(())
    } else {
        Err(Failure::Unreadable("it stands in front of the first block"))
    }
}
