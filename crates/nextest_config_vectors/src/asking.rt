//! What is done with the rows of tables.

mod blocks;

use crate::answers::{compare, cut};
use crate::failure::Failure;
use crate::runner::Runner;
use crate::settings;
use crate::sizes::{Range, USUAL, grown, grows, ranges_of};
use crate::table::{Mark, Row, is_blank, rows_of};
use std::alloc::Global;
use std::collections::BTreeSet;
use std::fs;

/// What is done with rows.
#[derive(Clone, Copy, PartialEq, Eq)]
pub enum Task {
    /// Each is compared with what is answered; one that grows, up to a size.
    Compare { upto: usize },
    /// Each that may be asked under refused memory is listed.
    List,
    /// The one of these with this number is asked.
    Ask(usize),
}

/// What goes through tables, and counts their rows and failures.
#[derive(Drop)]
pub struct Asking<'r> {
    rt: &'r HostRuntime,
    runner: Runner<'r>,
    task: Task,
    rows: usize,
    failures: usize,
    // How many of the rows of the table may be asked under refused memory.
    number: usize,
}

// What is known of a table at one of its lines.
#[derive(Drop)]
struct Table {
    sizes: Vec<Range>,
    names: BTreeSet<String>,
}

impl<'r> Asking<'r> {
    /// Before the first table.
    pub fn new(rt: &'r HostRuntime, task: Task) -> Self {
        Asking {
            rt,
            runner: Runner::new(rt, matches!(task, Task::Ask(_))),
            task,
            rows: 0,
            failures: 0,
            number: 0,
        }
    }

    /// How many failures were told.
    pub fn failures(&self) -> usize {
        self.failures
    }

    /// Does the task with each row of the table at a path.
    pub fn table(&mut self, path: &str) {
        let before = self.rows;
        match fs::read_to_string(self.rt, path) {
            Ok(text) => self.lines(path, text.as_str()),
            Err(error) => self.fail(path, 0, "", &Failure::Input(error)),
        }
        if self.rows == before {
            self.fail(path, 0, "", &Failure::Unreadable("a table without rows"));
        }
    }

    fn lines(&mut self, path: &str, text: &str) {
        let mut table = match Table::new(self.runner.alloc()) {
            Ok(table) => table,
            Err(failure) => return self.fail(path, 0, "", &failure),
        };
        if blocks::is_of_blocks(text) {
            return self.blocks(&mut table, path, text);
        }
        for (index, line) in text.lines().enumerate() {
            if let Err(failure) = self.line(&mut table, line) {
                self.fail(path, index.saturating_add(1), line, &failure);
            }
        }
    }

    // Tells that a line of a table fails, by its first field.
    fn fail(&mut self, path: &str, line: usize, text: &str, failure: &Failure) {
        let name = text.split(" | ").next().unwrap_or("");
        let _ = println!(self.rt; "{path}:{line}: {name}: {failure}");
        self.failures = self.failures.saturating_add(1);
    }

    fn line(&mut self, table: &mut Table, line: &str) -> Result<(), Failure> {
        if is_blank(line) {
            return Ok(());
        }
        if let Some(sizes) = line.strip_prefix("@ ") {
            table.sizes = ranges_of(self.runner.alloc(), sizes)?;
            return Ok(());
        }
        self.rows = self.rows.saturating_add(1);
        let rows = rows_of(self.runner.alloc(), line)?;
        if let Some(row) = rows.first() {
            table.name(self.runner.alloc(), row.name.as_str())?;
        }
        for row in &rows {
            self.ask_at_sizes(row, &table.sizes)?;
        }
        Ok(())
    }

    // Asks a row, at each of its sizes if it grows.
    fn ask_at_sizes(&mut self, row: &Row, sizes: &[Range]) -> Result<(), Failure> {
        let grows = grows(row.call.as_str())
            || grows(row.input.as_str())
            || grows(row.wanted.as_str());
        match self.task {
            _ if !grows => self.ask(row),
            Task::Compare { upto } => self.compare_ranges(row, sizes, upto),
            Task::List | Task::Ask(_) => Ok(()),
        }
    }

    fn compare_ranges(&self, row: &Row, sizes: &[Range], upto: usize) -> Result<(), Failure> {
        for range in sizes {
            self.compare_range(row, range.first, range.last.min(upto))?;
        }
        Ok(())
    }

    fn compare_range(&self, row: &Row, first: usize, last: usize) -> Result<(), Failure> {
        for size in first..=last {
            if let Err(failure) = self.compare_at(row, size) {
                let why = format!(in self.runner.alloc(); "{failure}")?;
                return Err(Failure::AtSize { size, why });
            }
        }
        Ok(())
    }

    fn compare_at(&self, row: &Row, size: usize) -> Result<(), Failure> {
        let alloc = self.runner.alloc();
        let call = grown(alloc, row.call.as_str(), size)?;
        let input = grown(alloc, row.input.as_str(), size)?;
        let wanted = grown(alloc, row.wanted.as_str(), size)?;
        let answer = answer(&self.runner, call.as_str(), input.as_str())?;
        compare(&self.runner, answer.as_str(), wanted.as_str())
    }

    // Does the task with a row.
    fn ask(&mut self, row: &Row) -> Result<(), Failure> {
        match self.task {
            Task::Compare { .. } => {
                let answer = answer(&self.runner, row.call.as_str(), row.input.as_str())?;
                compare(&self.runner, answer.as_str(), row.wanted.as_str())
            }
            _ if row.mark == Mark::Held => Ok(()),
            task => {
                let number = self.number;
                self.number = number.saturating_add(1);
                match task {
                    Task::Ask(asked) if asked == number => {
                        self.tell(row)?;
                        self.tell(row)
                    }
                    Task::List => self.list(row),
                    _ => Ok(()),
                }
            }
        }
    }

    fn list(&self, row: &Row) -> Result<(), Failure> {
        let mark = if row.mark == Mark::Idle { "- " } else { "" };
        let (name, call, input) = (&row.name, &row.call, &row.input);
        Ok(println!(self.rt; "{mark}{name} | {call} | {input:?}")?)
    }

    // Asks, and tells what was answered.
    fn tell(&self, row: &Row) -> Result<(), Failure> {
        let answer = answer(&self.runner, row.call.as_str(), row.input.as_str())?;
        let told = match answer.as_str() {
            answer if answer == row.wanted.as_str() => "as the row says",
            "out of memory" | "memory allocation failed" => "memory was refused",
            answer => answer,
        };
        Ok(println!(self.rt; "= {told}")?)
    }
}

impl Table {
    // Before the first line.
    fn new(alloc: Global) -> Result<Self, Failure> {
        Ok(Table {
            sizes: ranges_of(alloc, USUAL)?,
            names: BTreeSet::new(alloc),
        })
    }

    // Takes the name of a row, which no other row of the table has.
    fn name(&mut self, alloc: Global, name: &str) -> Result<(), Failure> {
        let name = String::from_str(alloc, name)?;
        if self.names.contains(&name) {
            return Err(Failure::Unreadable("another row of the table has this name"));
        }
        self.names.insert(name)?;
        Ok(())
    }
}

// What the call of a subject, `SUBJECT::CALL`, answers.
fn answer(rt: &Runner, call: &str, input: &str) -> Result<String, Failure> {
    let (subject, call) = cut(call, "::")?;
    settings::answer(rt, subject, call, input)
}
